//! What drivers are told of a database's collections.

ghost use Rattle.std.specs.Prelude.{◌≡◌, ◌≤◌, IfOk, OnOk, option_map, codes, Some};
ghost use Rattle.bson.specs.Tree.{append_items, no_items};
ghost use Rattle.bson.specs.View.{tree, items_of};
ghost use Rattle.bson.specs.Lookup.{lookup};
ghost use Rattle.bson.specs.Lawful.{items_levels};
ghost use Rattle.driver_replies.specs.Listing.{name_in, is_wanted, info, told_of, with_told, told_all, batch_in, namespace, ended_cursor, collections_reply, retold};

use crate::fields::{Fact, add, document_of, put};
use bson::{Array, Document, NoMemory, Text, Value};
use std::alloc::Global;

/// The text in a document's field `name`: of a collection in an entry, and that which a filter asks for.
pub fn name_in(value: Option<&Value>) -> Option<&str>
    ensures { option_map (λ s. s.now) result
        ≡ name_in (option_map (λ v. tree v.now) value.entry) }
{
    let Some(Value::Document(document)) = value else {
        return None;
    };
    match document.get("name") {
        Some(Value::String(name)) => Some(name.as_str()),
        _ => None,
    }
}

/// Whether all are wanted, or the one of this name.
fn is_wanted(wanted: &Option<Text>, name: &str) -> bool
    ensures { result ≡ is_wanted wanted.now name.now }
{
    match wanted {
        Some(wanted) => name == wanted.as_str(),
        None => true,
    }
}

/// That a collection takes writes.
fn info(alloc: Global) -> Result<Document, NoMemory>
    ensures { IfOk result (λ d. d ≡ info) }
{
    document_of(alloc, &[("readOnly", Fact::Bool(false))])
}

/// What is told of a collection.
fn told_of(alloc: Global, name: &str) -> Result<Document, NoMemory>
    ensures { IfOk result (λ d. d ≡ told_of name.now) }
{
    let mut told = document_of(
        alloc,
        &[
            ("name", Fact::Text(name)),
            ("type", Fact::Text("collection")),
        ],
    )?;
    put(&mut told, "options", Value::Document(Document::new(alloc)))?;
    put(&mut told, "info", Value::Document(info(alloc)?))?;
    Ok(told)
}

/// Adds what is told of the collection of an entry, where it is wanted.
fn tell(
    alloc: Global,
    told: &mut Array,
    wanted: &Option<Text>,
    entry: &Value,
) -> Result<(), NoMemory>
    ensures { OnOk result (told.new ≡ append_items told.old
        (with_told wanted.now (name_in (Some (tree entry.now))) no_items)) }
{
    let Some(name) = name_in(Some(entry)) else {
        return Ok(());
    };
    if !is_wanted(wanted, name) {
        return Ok(());
    }
    add(told, Value::Document(told_of(alloc, name)?))
}

/// What is told of these entries.
fn told_all(alloc: Global, wanted: &Option<Text>, entries: &[Value]) -> Result<Array, NoMemory>
    ensures { IfOk result (λ ts. ts ≡ told_all wanted.now (items_of entries.now)) }
{
    let mut told = Array::new(alloc);
    'entries: for entry in entries {
        tell(alloc, &mut told, wanted, entry)?;
    }
    Ok(told)
}

/// The entries in a reply's cursor, if it has one.
fn batch_in(value: Option<&Value>) -> Option<&[Value]>
    ensures { option_map (λ vs. items_of vs.now) result
        ≡ batch_in (option_map (λ v. tree v.now) value.entry) }
{
    let Some(Value::Document(cursor)) = value else {
        return None;
    };
    match cursor.get("firstBatch") {
        Some(Value::Array(entries)) => Some(entries.items()),
        _ => None,
    }
}

/// The namespace of a list of collections.
fn namespace(alloc: Global, database: &str) -> Result<Text, NoMemory>
    ensures { IfOk result (λ t. t ≡ namespace database.now) }
{
    let mut text = String::from_str(alloc, database)?;
    text.push_str(".$cmd.listCollections")?;
    Ok(Text::from_string(text))
}

/// A cursor that is at its end.
fn ended_cursor(alloc: Global, database: &str, entries: Array) -> Result<Document, NoMemory>
    requires { items_levels entries ≤ 2 }
    ensures { IfOk result (λ d. d ≡ ended_cursor database.now entries) }
{
    let mut cursor = Document::new(alloc);
    put(&mut cursor, "firstBatch", Value::Array(entries))?;
    put(&mut cursor, "id", Value::Int64(0))?;
    put(
        &mut cursor,
        "ns",
        Value::String(namespace(alloc, database)?),
    )?;
    Ok(cursor)
}

/// The reply with these entries.
fn collections_reply(alloc: Global, database: &str, entries: Array) -> Result<Document, NoMemory>
    requires { items_levels entries ≤ 2 }
    ensures { IfOk result (λ d. d ≡ collections_reply database.now entries) }
{
    let cursor = ended_cursor(alloc, database, entries)?;
    let mut reply = Document::new(alloc);
    put(&mut reply, "cursor", Value::Document(cursor))?;
    put(&mut reply, "ok", Value::Int64(1))?;
    Ok(reply)
}

/// The reply to a `listCollections`, as drivers expect it.
pub fn retold(
    alloc: Global,
    wanted: &Option<Text>,
    database: &str,
    reply: Document,
) -> Result<Document, NoMemory>
    ensures { IfOk result (λ d. d
        ≡ retold wanted.now database.now (batch_in (lookup reply (codes "cursor"))) reply) }
{
    let Some(entries) = batch_in(reply.get("cursor")) else {
        return Ok(reply);
    };
    let told = told_all(alloc, wanted, entries)?;
    collections_reply(alloc, database, told)
}
