//! Documents that batches give, and how they are kept until then.

ghost use Rattle.std.specs.Prelude.{◌≡◌, ◌++◌, All, IfOk, OnOk, List, map};
ghost use Rattle.bson.specs.Lawful.{IsDocument};
ghost use Rattle.bson.specs.Spelling.{frame_of, pairs_bytes};
ghost use Rattle.projection.specs.Projection.{project};
ghost use Rattle.database_model.specs.Lawful.{IsWithin};

use bson::{Document, EncodeFault, NoMemory, encode, encode_onto};
use bson_bytes::{BsonFault, RawDoc, SpelledDocument, decode, laws};
use projection::Projection;
use std::alloc::{AllocError, Global};

/// What a batch gives: a document, however it is kept.
pub trait Gives {
    ghost use Rattle.bson.specs.Tree.{Pairs};

    /// The document that is given.
    ghost document: { Self → Pairs };

    /// Puts what a projection leaves of the document behind what stands in `out`. Where it leaves all, nothing is
    /// built.
    fn put_onto(&self, out: &mut Vec<u8>, projection: &Projection) -> Result<(), NoMemory>
        requires { IsWithin (project projection.now (document self.now)) }
        ensures bytes { OnOk result (out.new.items ≡ out.old.items
            ++ frame_of (pairs_bytes (project projection.now (document self.now)))) }
        ensures readable { OnOk result (IsDocument (project projection.now (document self.now))) };
}

/// Puts a document within the limits of stored ones behind what stands in `out`.
fn put_within(out: &mut Vec<u8>, document: &Document) -> Result<(), NoMemory>
    requires { IsWithin document.now }
    ensures bytes { OnOk result
        (out.new.items ≡ out.old.items ++ frame_of (pairs_bytes document.now)) }
    ensures readable { OnOk result (IsDocument document.now) }
{
    match encode_onto(out, document) {
        Ok(()) => Ok(()),
        Err(EncodeFault::Memory) => Err(AllocError),
        Err(EncodeFault::TooLarge) => unreachable!("it is within the limits"),
    }
}

/// The same of what a projection leaves of a document.
fn put_projected(
    out: &mut Vec<u8>,
    projection: &Projection,
    document: &Document,
) -> Result<(), NoMemory>
    requires { IsWithin (project projection.now document.now) }
    ensures bytes { OnOk result (out.new.items
        ≡ out.old.items ++ frame_of (pairs_bytes (project projection.now document.now))) }
    ensures readable { OnOk result (IsDocument (project projection.now document.now)) }
{
    let projected = projection.of(document)?;
    put_within(out, &projected)
}

impl Gives for Document {
    ghost document = { λ a. a };

    fn put_onto(&self, out: &mut Vec<u8>, projection: &Projection) -> Result<(), NoMemory> {
        if projection.keeps_all() {
            return put_within(out, self);
        }
        put_projected(out, projection, self)
    }
}

/// Its bytes are put as they are, where all of it is given; else it is built there, and dropped again.
impl Gives for SpelledDocument {
    ghost document = { λ a. a };

    fn put_onto(&self, out: &mut Vec<u8>, projection: &Projection) -> Result<(), NoMemory> {
        if projection.keeps_all() {
            out.extend_from_slice(self.bytes())?;
            return Ok(());
        }
        let document = self.document(*out.allocator())?;
        put_projected(out, projection, &document)
    }
}

/// The document, with values of its own.
fn document_of(alloc: Global, document: &RawDoc<'_>) -> Result<Document, NoMemory>
    ensures { IfOk result (λ d. d ≡ document.now) }
{
    match decode(alloc, document.bytes()) {
        Ok((document, _)) => Ok(document),
        Err(fault) => match fault {
            BsonFault::Memory => Err(AllocError),
            _ => unreachable!(),
        },
    }
}

/// The same of one whose bytes are lent.
impl Gives for RawDoc<'_> {
    ghost document = { λ a. a };

    fn put_onto(&self, out: &mut Vec<u8>, projection: &Projection) -> Result<(), NoMemory> {
        if projection.keeps_all() {
            out.extend_from_slice(self.bytes())?;
            return Ok(());
        }
        let document = document_of(*out.allocator(), self)?;
        put_projected(out, projection, &document)
    }
}

/// The bytes of a document within the limits of stored ones.
fn spelled_within(alloc: Global, document: &Document) -> Result<SpelledDocument, NoMemory>
    requires { IsWithin document.now }
    ensures { IfOk result (λ spelled. spelled ≡ document.now) }
{
    match encode(alloc, document) {
        Ok(bytes) => {
            laws::spelled_once();
            Ok(SpelledDocument::new(bytes))
        }
        Err(EncodeFault::Memory) => Err(AllocError),
        Err(EncodeFault::TooLarge) => unreachable!("it is within the limits"),
    }
}

/// Documents within the limits of stored ones, kept as their bytes.
pub fn spelled_all(alloc: Global, documents: &[Document]) -> Result<Vec<SpelledDocument>, NoMemory>
    requires { All IsWithin documents.now }
    ensures { IfOk result (λ v. v.items ≡ documents.now) }
{
    let mut spelled = Vec::with_capacity(alloc, documents.len())?;
    'documents: for document in documents {
        spelled.push(spelled_within(alloc, document)?)?;
    }
    Ok(spelled)
}
