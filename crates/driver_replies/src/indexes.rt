//! What drivers are told of a collection's indexes.

ghost use Rattle.std.specs.Prelude.{◌≡◌, ◌≤◌, IfOk, OnOk};
ghost use Rattle.bson.specs.Lawful.{levels, items_levels, pairs_levels};
ghost use Rattle.bson.specs.Tree.{append_items, item, no_items};
ghost use Rattle.bson.specs.View.{tree, items_of};
ghost use Rattle.driver_replies.specs.Indexes.{is_on_id, told_index, told_entry, told_indexes, indexes_told};

use crate::fields::{add, set};
use crate::texts::text_or_none;
use bson::{Array, Document, NoMemory, Value};
use std::alloc::Global;

/// Whether an index is that on `_id`.
fn is_on_id(index: &Document) -> bool
    ensures { result ≡ is_on_id index.now }
{
    text_or_none(index.get("name")) == "_id_"
}

/// What is told of an index.
fn told_index(entry: &Document) -> Result<Document, NoMemory>
    requires { pairs_levels entry.now ≤ 97 }
    ensures is { IfOk result (λ d. d ≡ told_index entry.now) }
    ensures flat { IfOk result (λ d. pairs_levels d ≤ 97) }
{
    let mut index = entry.copy()?;
    if is_on_id(&index) {
        let _unique = index.remove("unique");
    }
    set(&mut index, "v", Value::Int32(2))?;
    Ok(index)
}

/// Adds what is told of an entry.
fn tell(told: &mut Array, entry: &Value) -> Result<(), NoMemory>
    requires { levels (tree entry.now) ≤ 98 }
    ensures { OnOk result
        (told.new ≡ append_items told.old (item (told_entry (tree entry.now)) no_items)) }
{
    match entry {
        Value::Document(index) => add(told, Value::Document(told_index(index)?)),
        other => add(told, other.copy()?),
    }
}

/// What is told of these entries.
fn told_indexes(alloc: Global, entries: &[Value]) -> Result<Array, NoMemory>
    requires { items_levels (items_of entries.now) ≤ 98 }
    ensures { IfOk result (λ told. told ≡ told_indexes (items_of entries.now)) }
{
    let mut told = Array::new(alloc);
    'entries: for entry in entries {
        tell(&mut told, entry)?;
    }
    Ok(told)
}

/// The reply to a `listIndexes`, as drivers expect it.
pub fn indexes_told(alloc: Global, mut reply: Document) -> Result<Document, NoMemory>
    ensures { IfOk result (λ d. d ≡ indexes_told reply) }
{
    let _levels = reply.levels();
    let Some(Value::Document(cursor)) = reply.get("cursor") else {
        return Ok(reply);
    };
    let Some(Value::Array(entries)) = cursor.get("firstBatch") else {
        return Ok(reply);
    };
    let told = told_indexes(alloc, entries.items())?;
    let mut cursor = cursor.copy()?;
    set(&mut cursor, "firstBatch", Value::Array(told))?;
    set(&mut reply, "cursor", Value::Document(cursor))?;
    Ok(reply)
}
