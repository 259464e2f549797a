//! A database that is dropped, collection by collection.

ghost use Rattle.std.specs.Prelude.{◌≡◌, IfOk, codes};
ghost use Rattle.bson.specs.Lookup.{lookup};
ghost use Rattle.driver_replies.specs.Dropping.{list_command, or_empty, drop_command, is_gone, dropped_reply};
ghost use Rattle.driver_replies.specs.Listing.{batch_in};

use crate::fields::{Fact, document_of};
use crate::listing::name_in;
use crate::tally::refused;
use bson::{Array, Document, NoMemory, Value};
use std::alloc::Global;

/// The command that lists the collections of a database.
pub fn list_command(alloc: Global, database: &str) -> Result<Document, NoMemory>
    ensures { IfOk result (λ d. d ≡ list_command database.now) }
{
    document_of(
        alloc,
        &[
            ("listCollections", Fact::Int32(1)),
            ("$db", Fact::Text(database)),
        ],
    )
}

/// The entries in a reply's cursor, if it has one.
pub fn first_batch(reply: &Document) -> Result<Option<Array>, NoMemory>
    ensures { IfOk result (λ x. x ≡ batch_in (lookup reply.now (codes "cursor"))) }
{
    let Some(Value::Document(cursor)) = reply.get("cursor") else {
        return Ok(None);
    };
    match cursor.get("firstBatch") {
        Some(Value::Array(entries)) => Ok(Some(entries.copy()?)),
        _ => Ok(None),
    }
}

/// The command that drops the collection of the first of these entries, if there is one.
pub fn drop_command(
    alloc: Global,
    database: &str,
    entries: &Array,
) -> Result<Option<Document>, NoMemory>
    ensures { IfOk result (λ x. x ≡ drop_command database.now entries.now) }
{
    let Some(entry) = entries.items().first() else {
        return Ok(None);
    };
    let name = name_in(Some(entry)).unwrap_or("");
    let command = document_of(
        alloc,
        &[("drop", Fact::Text(name)), ("$db", Fact::Text(database))],
    )?;
    Ok(Some(command))
}

/// Whether the collection that was to be dropped isn't there.
pub fn is_gone(reply: &Document) -> bool
    ensures { result ≡ is_gone reply.now }
{
    match refused(reply) {
        Some(code) => code == 26,
        None => true,
    }
}

/// The reply where all collections are gone.
pub fn dropped_reply(alloc: Global, database: &str) -> Result<Document, NoMemory>
    ensures { IfOk result (λ d. d ≡ dropped_reply database.now) }
{
    document_of(
        alloc,
        &[("dropped", Fact::Text(database)), ("ok", Fact::Int64(1))],
    )
}
