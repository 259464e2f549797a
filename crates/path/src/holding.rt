//! Values taken out of documents and arrays and put into them, by place.

ghost use Rattle.std.specs.Prelude.{◌≡◌, ◌≤◌, ◌<◌, Some, OnOk, option_map};
ghost use Rattle.bson.specs.Tree.{scalar, null, pair, no_pairs, append, item, no_items, append_items};
ghost use Rattle.bson.specs.Lawful.{levels, Lacks};
ghost use Rattle.bson.specs.View.{tree};
ghost use Rattle.bson.specs.Edits.{pairs_len, pair_at, with_value, items_len, item_at, with_item};

use crate::part::Part;
use bson::{Array, BuildFault, Document, NoMemory, Value};
use std::alloc::AllocError;

/// Takes a field's value out, and leaves null in its place.
pub fn take_field(document: &mut Document, at: usize) -> Value
    requires { at < pairs_len document.old }
    ensures value { option_map (λ p. p.1) (pair_at document.old at) ≡ Some (tree result) }
    ensures levels { levels (tree result) ≤ 99 }
    ensures after { document.new ≡ with_value document.old at (scalar null) }
{
    let _levels = document.levels();
    match document.replace_at(at, Value::Null) {
        Ok(value) => value,
        Err(_) => unreachable!(),
    }
}

/// Takes an item out, and leaves null in its place.
pub fn take_item(array: &mut Array, at: usize) -> Value
    requires { at < items_len array.old }
    ensures value { item_at array.old at ≡ Some (tree result) }
    ensures levels { levels (tree result) ≤ 98 }
    ensures after { array.new ≡ with_item array.old at (scalar null) }
{
    let _levels = array.levels();
    match array.replace_at(at, Value::Null) {
        Ok(value) => value,
        Err(_) => unreachable!(),
    }
}

/// Puts a value back that nests no deeper than a document allows.
pub fn put_field(document: &mut Document, at: usize, value: Value)
    requires there { at < pairs_len document.old }
    requires levels { levels (tree value) ≤ 99 }
    ensures { document.new ≡ with_value document.old at (tree value) }
{
    match document.replace_at(at, value) {
        Ok(_) => {}
        Err(_) => unreachable!(),
    }
}

/// Puts a value back that nests no deeper than an array allows.
pub fn put_item(array: &mut Array, at: usize, value: Value)
    requires there { at < items_len array.old }
    requires levels { levels (tree value) ≤ 98 }
    ensures { array.new ≡ with_item array.old at (tree value) }
{
    match array.replace_at(at, value) {
        Ok(_) => {}
        Err(_) => unreachable!(),
    }
}

/// Adds a field that the document lacks.
pub(crate) fn add_field(document: &mut Document, part: &Part, value: Value) -> Result<(), NoMemory>
    requires new { Lacks document.old part.now }
    requires levels { levels (tree value) ≤ 99 }
    ensures { OnOk result (document.new
        ≡ append document.old (pair part.now (tree value) no_pairs)) }
{
    match document.push(part.as_str(), value) {
        Ok(()) => Ok(()),
        Err(BuildFault::Memory) => Err(AllocError),
        Err(BuildFault::Name) => unreachable!(),
        Err(BuildFault::Repeated) => unreachable!(),
        Err(BuildFault::Deep) => unreachable!(),
    }
}

/// Adds an item at the end.
pub(crate) fn add_item(array: &mut Array, value: Value) -> Result<(), NoMemory>
    requires { levels (tree value) ≤ 98 }
    ensures { OnOk result (array.new ≡ append_items array.old (item (tree value) no_items)) }
{
    match array.push(value) {
        Ok(()) => Ok(()),
        Err(BuildFault::Memory) => Err(AllocError),
        Err(BuildFault::Name) => unreachable!(),
        Err(BuildFault::Repeated) => unreachable!(),
        Err(BuildFault::Deep) => unreachable!(),
    }
}
