//! Documents that are kept as the bytes that spell them.

ghost use Rattle.std.specs.Prelude.{◌≡◌, true, Some, IfOk, IfSome};
ghost use Rattle.bson.specs.Tree.{Pairs};
ghost use Rattle.bson.specs.Spelling.{Spells};
ghost use Rattle.bson_bytes.specs.Raw.{document_spelled};

use crate::checking::check_document;
use crate::decoding::decode;
use crate::fault::BsonFault;
use crate::raw::RawDoc;
use bson::{Document, NoMemory};
use std::alloc::{AllocError, Global};
use std::marker::Model;

/// A document that is kept as the bytes that spell it. Contracts see it as the document.
#[derive(Debug, Drop)]
pub struct SpelledDocument {
    bytes: Vec<u8>,
}

impl Model for SpelledDocument {
    ghost use Rattle.bson.specs.Tree.{Pairs};
    ghost use Rattle.bson.specs.TreeCode.{coded_pairs};

    ghost Value = { Pairs };

    ghost coded = { coded_pairs };

    ghost use Rattle.bson.specs.Spelling.{Spells};
    ghost use Rattle.bson_bytes.specs.Raw.{document_spelled};

    ghost view = { λ a. document_spelled a.bytes.items };

    ghost invariant = { λ a. Spells a.bytes.items (document_spelled a.bytes.items) };
}

/// Whether bytes spell a document, all of them.
fn is_document(bytes: &[u8]) -> bool
    ensures reads { (d : Pairs) → Spells bytes.now d → result ≡ true }
    ensures only { result ≡ true → Spells bytes.now (document_spelled bytes.now) }
{
    match check_document(bytes) {
        Ok(len) => len == bytes.len(),
        Err(_) => false,
    }
}

impl SpelledDocument {
    /// Keeps bytes that spell a document, as whoever wrote them knows.
    pub fn new(bytes: Vec<u8>) -> SpelledDocument
        requires { Spells bytes.items (document_spelled bytes.items) }
        ensures { result ≡ document_spelled bytes.items }
    {
        SpelledDocument { bytes }
    }

    /// Keeps bytes if they spell a document, all of them. It takes no memory.
    pub fn read(bytes: Vec<u8>) -> Option<SpelledDocument>
        ensures reads { (d : Pairs) → Spells bytes.items d → result ≡ Some d }
        ensures only { IfSome result (λ d. Spells bytes.items d) }
    {
        if !is_document(&bytes) {
            return None;
        }
        Some(SpelledDocument { bytes })
    }

    /// The document's bytes, all of them.
    pub fn bytes(&self) -> &[u8]
        ensures { Spells result.now self.now }
    {
        &self.bytes
    }

    /// The document, to be read field by field.
    pub fn raw(&self) -> RawDoc<'_>
        ensures { result ≡ self.now }
    {
        RawDoc::spelled_by(&self.bytes)
    }

    /// The document, with values of its own.
    pub fn document(&self, alloc: Global) -> Result<Document, NoMemory>
        ensures { IfOk result (λ d. d ≡ self.now) }
    {
        match decode(alloc, &self.bytes) {
            Ok((document, _)) => Ok(document),
            Err(fault) => match fault {
                BsonFault::Memory => Err(AllocError),
                _ => unreachable!(),
            },
        }
    }
}
