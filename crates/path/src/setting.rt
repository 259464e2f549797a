//! Writing a value at a path.

ghost use Rattle.std.specs.Prelude.{◌≡◌, ◌≤◌, OnOk, IfOk, Ok, option_map};
ghost use Rattle.bson.specs.Tree.{Tree};
ghost use Rattle.bson.specs.Lawful.{levels};
ghost use Rattle.bson.specs.View.{tree};
ghost use Rattle.bson.specs.Edits.{items_len};
ghost use Rattle.path.specs.Edits.{write, write_at, set_at, write_field, write_item, put_item, within};
ghost use Rattle.path.specs.Parts.{index_of};
ghost use Rattle.outcome.specs.Outcome.{Gives};

use crate::MOST_NULLS;
use crate::holding::{add_field, add_item, put_field, put_item, take_field, take_item};
use crate::parsing::Path;
use crate::part::Part;
use crate::refusal::Refusal;
use bson::{Array, Document, MOST_LEVELS, NoMemory, Value};
use std::alloc::Global;

/// What an edit puts at its path.
pub trait NewValue {
    ghost use Rattle.std.specs.Prelude.{Option, Result, option_map};
    ghost use Rattle.bson.specs.Tree.{Tree};
    ghost use Rattle.bson.specs.View.{tree};
    ghost use Rattle.outcome.specs.Outcome.{Gives};
    ghost use Rattle.path.specs.declared.refusal.Refusal.{Refusal as Why};

    ghost made: { Self → Option Tree → Result Tree Why };

    /// The value that is to stand there, from the one that does, if one does.
    fn make(self, old: Option<Value>) -> Result<Value, Refusal>
        ensures { Gives Refusal.OutOfMemory tree result (made self (option_map tree old)) };
}

/// A value that is put there whatever stands there.
#[derive(Drop)]
struct Always {
    value: Value,
}

impl NewValue for Always {
    ghost use Rattle.std.specs.Prelude.{Ok};
    ghost use Rattle.bson.specs.View.{tree};

    ghost made = { λ a old. Ok (tree a.value) };

    fn make(self, _old: Option<Value>) -> Result<Value, Refusal> {
        Ok(self.value)
    }
}

/// A copy of the document with this value at the path. Documents that are missing on the way are made, and an index
/// past the end of an array puts nulls before it, at most 1,000.
///
/// Refused with `PathNotViable` where the way leads through another value, or through an array by a part that is no
/// index, and with `BadValue` for more nulls and where the document would nest more than 100 levels.
pub fn write_at(
    alloc: Global,
    document: &Document,
    path: &Path,
    value: Value,
) -> Result<Document, Refusal>
    ensures { Gives Refusal.OutOfMemory (λ d. d) result
        (set_at path.now (tree value) document.now) }
{
    let document = document.copy()?;
    write_into(alloc, document, path, value)
}

/// The document itself with this value at the path, as `write_at` says. A refusal lets it go.
pub fn write_into(
    alloc: Global,
    document: Document,
    path: &Path,
    value: Value,
) -> Result<Document, Refusal>
    ensures { Gives Refusal.OutOfMemory (λ d. d) result (set_at path.now (tree value) document) }
{
    write_new(alloc, document, path, Always { value })
}

/// The document itself with a value at the path that is made from what stands there, as `write_at` says. What makes
/// it may refuse it.
pub fn write_new<N: NewValue + Drop>(
    alloc: Global,
    document: Document,
    path: &Path,
    new: N,
) -> Result<Document, Refusal>
    ensures { Gives Refusal.OutOfMemory (λ d. d) result (write_at (N.made new) path.now document) }
{
    let (part, rest) = path.split_first();
    write_field(alloc, document, part, rest, new)
}

/// What is to stand at the front of these parts, in the place of what stands there.
#[cycle(setting)]
fn write<N: NewValue + Drop>(
    alloc: Global,
    old: Option<Value>,
    parts: &[Part],
    new: N,
) -> Result<Value, Refusal>
    ensures { Gives Refusal.OutOfMemory tree result
        (write (N.made new) parts.now (option_map tree old)) }
{
    let [part, rest @ ..] = parts else {
        return new.make(old);
    };
    match old {
        None => {
            let document = Document::new(alloc);
            Ok(Value::Document(write_field(alloc, document, part, rest, new)?))
        }
        Some(Value::Document(document)) => {
            Ok(Value::Document(write_field(alloc, document, part, rest, new)?))
        }
        Some(Value::Array(array)) => Ok(Value::Array(write_item(alloc, array, part, rest, new)?)),
        Some(_) => Err(Refusal::PathNotViable),
    }
}

/// What is to stand there, where it nests at most so many levels.
#[cycle(setting)]
fn write_within<N: NewValue + Drop>(
    alloc: Global,
    most: u32,
    old: Option<Value>,
    parts: &[Part],
    new: N,
) -> Result<Value, Refusal>
    ensures value { Gives Refusal.OutOfMemory tree result
        (within most (write (N.made new) parts.now (option_map tree old))) }
    ensures levels { IfOk result (λ v. levels (tree v) ≤ most) }
{
    let value = write(alloc, old, parts, new)?;
    if most < value.levels() {
        return Err(Refusal::BadValue);
    }
    Ok(value)
}

/// The document with the value at the part and the rest.
#[cycle(setting)]
fn write_field<N: NewValue + Drop>(
    alloc: Global,
    document: Document,
    part: &Part,
    rest: &[Part],
    new: N,
) -> Result<Document, Refusal>
    ensures { Gives Refusal.OutOfMemory (λ d. d) result
        (write_field (write (N.made new) rest.now) part.now document) }
{
    let mut document = document;
    match document.position(part.as_str()) {
        Some(at) => {
            let old = take_field(&mut document, at);
            let value = write_within(alloc, MOST_LEVELS - 1, Some(old), rest, new)?;
            put_field(&mut document, at, value);
        }
        None => {
            let value = write_within(alloc, MOST_LEVELS - 1, None, rest, new)?;
            add_field(&mut document, part, value)?;
        }
    }
    Ok(document)
}

/// The array with the value at the part and the rest.
#[cycle(setting)]
fn write_item<N: NewValue + Drop>(
    alloc: Global,
    array: Array,
    part: &Part,
    rest: &[Part],
    new: N,
) -> Result<Array, Refusal>
    ensures { Gives Refusal.OutOfMemory (λ a. a) result
        (write_item (write (N.made new) rest.now) (index_of part.now) array) }
{
    let mut array = array;
    let Some(at) = part.index() else {
        return Err(Refusal::PathNotViable);
    };
    let len = array.items().len();
    if at < len {
        let old = take_item(&mut array, at);
        let value = write_within(alloc, MOST_LEVELS - 2, Some(old), rest, new)?;
        put_item(&mut array, at, value);
        return Ok(array);
    }
    if len + MOST_NULLS < at {
        return Err(Refusal::BadValue);
    }
    let value = write_within(alloc, MOST_LEVELS - 2, None, rest, new)?;
    pad(&mut array, at)?;
    add_item(&mut array, value)?;
    Ok(array)
}

/// Puts nulls at the end of an array, up to an index.
fn pad(array: &mut Array, at: usize) -> Result<(), NoMemory>
    requires { items_len array.old ≤ at }
    ensures len { OnOk result (items_len array.new ≡ at) }
    ensures items { OnOk result ((u : Tree) → put_item array.new at u ≡ put_item array.old at u) }
{
    'nulls: while array.len() < at {
        add_item(array, Value::Null)?;
    }
    Ok(())
}
