//! Documents that have room in a command.

ghost use Rattle.std.specs.Prelude.{◌≡◌, ◌≤◌, Some, IfOk, is_some, option_map};
ghost use Rattle.bson.specs.Lawful.{pairs_levels};
ghost use Rattle.bson.specs.Tree.{document, no_pairs};
ghost use Rattle.bson.specs.View.{tree};
ghost use Rattle.driver_replies.specs.Modifying.{part_of, part_in, or_empty};

use bson::{Document, NoMemory, Value};
use std::alloc::Global;
use std::marker::Model;

/// How deep a part of a command nests at most, itself among its levels.
const MOST_LEVELS: u32 = 91;

/// A part of a command: a document that is nested no deeper than those that are stored.
#[derive(Drop)]
pub struct Part {
    document: Document,
}

impl Model for Part {
    ghost use Rattle.std.specs.Prelude.{◌≤◌};
    ghost use Rattle.bson.specs.Lawful.{pairs_levels};
    ghost use Rattle.bson.specs.Tree.{Pairs};
    ghost use Rattle.bson.specs.TreeCode.{coded_pairs};

    ghost Value = { Pairs };

    ghost coded = { coded_pairs };

    ghost view = { λ a. a.document };

    ghost invariant = { λ a. pairs_levels a.document ≤ 90 };
}

impl Part {
    /// A part that says nothing.
    pub(crate) fn empty(alloc: Global) -> Part
        ensures { result ≡ no_pairs }
    {
        Part {
            document: Document::new(alloc),
        }
    }

    /// A document as a part of a command; `None` where it is nested too deep.
    pub fn new(document: Document) -> Option<Part>
        ensures { result ≡ part_of document }
    {
        if MOST_LEVELS < document.levels() {
            return None;
        }
        Some(Part { document })
    }

    /// The document.
    pub fn document(&self) -> &Document
        ensures same { result.now ≡ self.now }
        ensures flat { pairs_levels result.now ≤ 90 }
    {
        &self.document
    }

    /// A copy of the document, as a value.
    pub(crate) fn value(&self) -> Result<Value, NoMemory>
        ensures same { IfOk result (λ v. tree v ≡ document self.now) }
        ensures flat { pairs_levels self.now ≤ 90 }
    {
        Ok(Value::Document(self.document.copy()?))
    }
}

/// A copy of the document that a value is, as a part of a command.
pub fn part_in(value: Option<&Value>) -> Result<Option<Part>, NoMemory>
    ensures { IfOk result (λ part. part ≡ part_in (option_map (λ v. tree v.now) value.entry)) }
{
    match value {
        Some(Value::Document(document)) => Ok(Part::new(document.copy()?)),
        _ => Ok(None),
    }
}

/// Whether a value is a document that may be a part of a command.
pub fn is_part(value: &Value) -> bool
    ensures { result ≡ is_some (part_in (Some (tree value.now))) }
{
    match value {
        Value::Document(document) => document.levels() <= MOST_LEVELS,
        _ => false,
    }
}

/// A copy of the document that a value is, as a part of a command; an empty one where it is none.
pub(crate) fn part_or_empty(alloc: Global, value: Option<&Value>) -> Result<Part, NoMemory>
    ensures { IfOk result
        (λ part. part ≡ or_empty (part_in (option_map (λ v. tree v.now) value.entry))) }
{
    match part_in(value)? {
        Some(part) => Ok(part),
        None => Ok(Part::empty(alloc)),
    }
}
