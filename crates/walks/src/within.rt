//! Documents that are over the limits of those that are stored, as a disk may give some.

ghost use Rattle.std.specs.Prelude.{◌≡◌, ◌<◌, true, IfErr, IfOk};
ghost use Rattle.std.specs.List.{list_all};
ghost use Rattle.bson.specs.Lawful.{pairs_levels};
ghost use Rattle.bson.specs.Spelling.{Spells};
ghost use Rattle.bson.specs.Tree.{Pairs};
ghost use Rattle.database_model.specs.Lawful.{IsWithin};
ghost use Rattle.entry_model.specs.LawfulState.{IsStorable};
ghost use Rattle.walks.specs.Within.{is_within};

use bson::{Document, NoMemory};
use bson_bytes::{BsonFault, RawDoc, SpelledDocument, decode, laws};
use path::Refusal;
use std::alloc::{AllocError, Global};
use stored_documents::STORED_LIMIT;
use update::{STORED_LEVELS, limits_fault};

/// Whether all of them are within the limits of those that are stored.
pub fn are_within(documents: &[Document]) -> bool
    ensures { result ≡ list_all is_within documents.now }
{
    documents
        .iter()
        .all(|document| limits_fault(document, STORED_LIMIT).is_none())
}

/// Fewer bytes spell no document that nests deeper than a stored one may: each document and each array in it has seven of its own.
const SHALLOW: usize = 7 * STORED_LEVELS as usize;

/// Whether bytes that spell a document surely nest no deeper than a stored one may: there are few, or too few of them can begin
/// a document or an array.
fn is_shallow(bytes: &[u8]) -> bool
    ensures { result ≡ true → (d : Pairs) → Spells bytes.now d → pairs_levels d < 90 }
{
    if bytes.len() < SHALLOW {
        return true;
    }
    let mut count = 0usize;
    'bytes: for byte in bytes {
        if *byte == 3 || *byte == 4 {
            count += 1;
        }
    }
    count < (STORED_LEVELS as usize)
}

/// Whether a document is within the limits of those that are stored. It is built only where its bytes don't tell how
/// deep it nests.
pub(crate) fn is_within(alloc: Global, document: &RawDoc<'_>) -> Result<bool, NoMemory>
    ensures { IfOk result (λ answer. answer ≡ is_within document.now) }
{
    let bytes = document.bytes();
    if (STORED_LIMIT as usize) < bytes.len() {
        return Ok(false);
    }
    if is_shallow(bytes) {
        return Ok(true);
    }
    let built = document_of(alloc, document)?;
    Ok(limits_fault(&built, STORED_LIMIT).is_none())
}

/// The document, with bytes of its own.
fn copy_of(alloc: Global, document: &RawDoc<'_>) -> Result<SpelledDocument, NoMemory>
    ensures { IfOk result (λ d. d ≡ document.now) }
{
    let bytes = Vec::from_slice(alloc, document.bytes())?;
    laws::spelled_once();
    Ok(SpelledDocument::new(bytes))
}

/// The same; `StorageFailed` where it is over the limits of those that are stored, as a disk may give some.
pub(crate) fn copied_within(
    alloc: Global,
    document: &RawDoc<'_>,
) -> Result<SpelledDocument, Refusal>
    ensures copied { IfOk result (λ d. (d ≡ document.now) × IsWithin d) }
    ensures refuses { IsStorable document.now → IfErr result (λ e. e ≡ Refusal.OutOfMemory) }
{
    if !is_within(alloc, document)? {
        return Err(Refusal::StorageFailed);
    }
    Ok(copy_of(alloc, document)?)
}

/// The document, with values of its own.
pub(crate) fn document_of(alloc: Global, document: &RawDoc<'_>) -> Result<Document, NoMemory>
    ensures { IfOk result (λ d. d ≡ document.now) }
{
    match decode(alloc, document.bytes()) {
        Ok((document, _)) => Ok(document),
        Err(fault) => match fault {
            BsonFault::Memory => Err(AllocError),
            _ => unreachable!(),
        },
    }
}

/// The same; `StorageFailed` where it is over the limits of those that are stored.
pub fn built_within(alloc: Global, document: &RawDoc<'_>) -> Result<Document, Refusal>
    ensures built { IfOk result (λ d. (d ≡ document.now) × IsWithin d) }
    ensures refuses { IsStorable document.now → IfErr result (λ e. e ≡ Refusal.OutOfMemory) }
{
    let built = document_of(alloc, document)?;
    if limits_fault(&built, STORED_LIMIT).is_some() {
        return Err(Refusal::StorageFailed);
    }
    Ok(built)
}
