//! What replies say.

use crate::fault::ShellFault;
use bson::{Document, Value};
use std::alloc::Global;

/// What a reply says of a cursor: its number, 0 where all was given, whose documents they are, and a batch of them.
#[derive(Clone, Copy)]
pub(crate) struct Batch<'a> {
    pub cursor: i64,
    pub namespace: &'a str,
    pub documents: &'a [Value],
}

/// Whether a command was done.
pub(crate) fn is_done(reply: &Document) -> bool {
    matches!(reply.get("ok"), Some(Value::Int32(1)))
}

/// The name of a refusal.
fn refusal_name(reply: &Document) -> &str {
    match reply.get("codeName") {
        Some(Value::String(name)) => name.as_str(),
        _ => "Refused",
    }
}

/// What a refusal says.
pub(crate) fn refusal(alloc: Global, reply: &Document) -> ShellFault {
    match String::from_str(alloc, refusal_name(reply)) {
        Ok(name) => ShellFault::Refused(name),
        Err(_) => ShellFault::Memory,
    }
}

/// The batch that a reply has, if it has one.
pub(crate) fn batch_in(reply: &Document) -> Option<Batch<'_>> {
    let Some(Value::Document(cursor)) = reply.get("cursor") else {
        return None;
    };
    let Some(Value::String(namespace)) = cursor.get("ns") else {
        return None;
    };
    let Some(Value::Array(documents)) = cursor.get("firstBatch").or(cursor.get("nextBatch")) else {
        return None;
    };
    Some(Batch {
        cursor: number(cursor.get("id")),
        namespace: namespace.as_str(),
        documents: documents.items(),
    })
}

/// The number of a cursor; one that isn't there is 0.
fn number(id: Option<&Value>) -> i64 {
    match id {
        Some(Value::Int64(number)) => *number,
        _ => 0,
    }
}
