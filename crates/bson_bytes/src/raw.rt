//! Documents that stay the bytes that spell them.

ghost use Rattle.std.specs.Prelude.{◌≡◌, ◌≢◌, ◌++◌, ℕ, List, Ok, IfOk, IfErr, option_map};
ghost use Rattle.bson.specs.Tree.{Pairs};
ghost use Rattle.bson.specs.Kinds.{kind};
ghost use Rattle.bson.specs.View.{tree};
ghost use Rattle.bson.specs.Lent.{scalar_in, scalar_of};
ghost use Rattle.bson.specs.Lookup.{lookup};
ghost use Rattle.bson.specs.Spelling.{Spells, HasNoDocument};
ghost use Rattle.bson_bytes.specs.Decoding.{document_at};
ghost use Rattle.bson_bytes.specs.FirstFault.{FirstFault};
ghost use Rattle.bson_bytes.specs.Raw.{document_spelled, only_document};
ghost use Rattle.bson_bytes.specs.declared.fault.BsonFault.TheVariants as faults;

use crate::checking::check_document;
use crate::decoding::read_value;
use crate::elements::split_element;
use crate::fault::BsonFault;
use crate::spelled_scalar::scalar_spelled;
use bson::{Kind, MOST_LEVELS, NoMemory, RawScalar, Value};
use std::alloc::{AllocError, Global};
use std::marker::Model;

/// A document that stays the bytes that spell it, which are lent. Contracts see it as the document.
#[derive(Debug, Drop)]
pub struct RawDoc<'a> {
    bytes: &'a [u8],
}

impl<'a> Model for RawDoc<'a> {
    ghost use Rattle.bson.specs.Tree.{Pairs};
    ghost use Rattle.bson.specs.TreeCode.{coded_pairs};

    ghost Value = { Pairs };

    ghost coded = { coded_pairs };

    ghost use Rattle.bson.specs.Spelling.{Spells};
    ghost use Rattle.bson_bytes.specs.Raw.{document_spelled};

    ghost view = { λ a. document_spelled a.bytes.now };

    ghost invariant = { λ a. Spells a.bytes.now (document_spelled a.bytes.now) };
}

/// A value of such a document, which stays the bytes that spell it. Contracts see it as the value.
#[derive(Debug, Drop)]
pub struct RawValue<'a> {
    kind: Kind,
    bytes: &'a [u8],
}

impl<'a> Model for RawValue<'a> {
    ghost use Rattle.bson.specs.Tree.{Tree};
    ghost use Rattle.bson.specs.TreeCode.{coded_tree};

    ghost Value = { Tree };

    ghost coded = { coded_tree };

    ghost use Rattle.bson_bytes.specs.Raw.{SpellsValue, value_spelled};

    ghost view = { λ a. value_spelled a.kind a.bytes.now };

    ghost invariant = { λ a. SpellsValue a.kind a.bytes.now (value_spelled a.kind a.bytes.now) };
}

impl<'a> RawDoc<'a> {
    /// The document at the front of the input. It accepts exactly what `decode` accepts, with the same
    /// faults, and takes no memory, so it never answers `Memory`. Its time is in proportion to the bytes
    /// where names ascend and for documents of a few dozen fields. Other names are compared by sorting some
    /// thousands of them at a time, on the stack (128 KiB).
    pub fn new(bytes: &'a [u8]) -> Result<RawDoc<'a>, BsonFault>
        // What the reading definition gives.
        ensures gives { result ≡ only_document (document_at bytes.now) }
        // What is spelled so is read, whatever follows it.
        ensures only { (front rest : List ℕ) (ps : Pairs)
            → Spells front ps → bytes.now ≡ front ++ rest → result ≡ Ok ps }
        // A fault is the first from the left, and no front of the input is a document.
        ensures fault { IfErr result (λ e. FirstFault bytes.now e × HasNoDocument bytes.now) }
        ensures memory { IfErr result (λ e. e ≢ faults.Memory) }
    {
        match check_document(bytes) {
            Ok(len) => {
                let (bytes, _) = bytes.split_at(len);
                Ok(RawDoc { bytes })
            }
            Err(fault) => Err(fault),
        }
    }

    /// The document that bytes spell, all of them, as whoever wrote or checked them knows.
    pub(crate) fn spelled_by(bytes: &'a [u8]) -> RawDoc<'a>
        requires { Spells bytes.now (document_spelled bytes.now) }
        ensures { result ≡ document_spelled bytes.now }
    {
        RawDoc { bytes }
    }

    /// The document's bytes, all of them.
    pub fn bytes(&self) -> &'a [u8]
        ensures { Spells result.now self.now }
    {
        self.bytes
    }

    /// The value of a name. It steps over the values before that without a look into them.
    pub fn get(&self, name: &str) -> Option<RawValue<'a>>
        ensures { result ≡ lookup self.now name.now }
    {
        let wanted = name.as_bytes();
        let (_, rest) = self.bytes.split_at(4);
        let (mut rest, _) = rest.split_at(rest.len() - 1);
        'elements: while let Some(element) = split_element(rest) {
            if wanted == element.name {
                return Some(RawValue {
                    kind: element.kind,
                    bytes: element.value,
                });
            }
            rest = element.rest;
        }
        None
    }
}

impl<'a> RawValue<'a> {
    /// Which kind of value it is.
    pub fn kind(&self) -> Kind
        ensures { result ≡ kind self.now }
    {
        self.kind
    }

    /// What it is, lent where it stands; `None` for a document and an array.
    pub fn scalar(&self) -> Option<RawScalar<'a>>
        ensures { option_map scalar_of result ≡ scalar_in self.now }
    {
        scalar_spelled(self.kind, self.bytes)
    }

    /// The value, read: what `decode` gives there.
    pub fn value(&self, alloc: Global) -> Result<Value, NoMemory>
        ensures { IfOk result (λ v. tree v ≡ self.now) }
    {
        match read_value(alloc, MOST_LEVELS - 1, self.kind, self.bytes) {
            Ok((value, _)) => Ok(value),
            Err(fault) => match fault {
                BsonFault::Memory => Err(AllocError),
                _ => unreachable!(),
            },
        }
    }
}
