//! Replies, and what a script says of them.

use crate::fault::{Fault, differs};
use crate::message::Shape;
use bson::{Array, Document, Text, Value, encode};
use bson_bytes::{BsonFault, decode};
use std::alloc::Global;
use std::str::from_utf8;

/// The bytes of a frame before its body: the header, the flags, the kind of the section.
const FRONT: usize = 21;

/// A frame that a server handed out.
#[derive(Drop)]
pub struct Reply {
    pub connection: u8,
    pub frame: Vec<u8>,
}

/// The number that stands in four bytes, the least first.
fn word_at(frame: &[u8], place: usize) -> Option<u32> {
    let (_, rest) = frame.split_at_checked(place)?;
    let (word, _) = rest.split_first_chunk::<4>()?;
    Some(u32::from_le_bytes(*word))
}

impl Reply {
    /// The number of the reply.
    pub fn number(&self) -> Option<u32> {
        word_at(&self.frame, 4)
    }

    /// The number of the message that it answers.
    pub fn answered(&self) -> Option<u32> {
        word_at(&self.frame, 8)
    }

    /// Its document, as bytes.
    pub fn body(&self) -> &[u8] {
        self.frame.get(FRONT..).unwrap_or(&[])
    }

    /// The number with which it refuses a command, if it does.
    pub fn refusal(&self, alloc: Global) -> Result<Option<i32>, Fault> {
        let (document, _) = decode(alloc, self.body())?;
        match (document.get("ok"), document.get("code")) {
            (Some(Value::Int32(0)), Some(Value::Int32(code))) => Ok(Some(*code)),
            _ => Ok(None),
        }
    }
}

/// The number that a frame has.
pub fn number_of(frame: &[u8]) -> Option<u32> {
    word_at(frame, 4)
}

/// A document as a person reads it.
fn readable(alloc: Global, bytes: &[u8]) -> Result<String, Fault> {
    let document = match decode(alloc, bytes) {
        Ok((document, _)) => document,
        Err(BsonFault::Memory) => return Err(Fault::Memory),
        Err(_) => return Ok(String::from_str(alloc, "bytes that are no document")?),
    };
    let mut out = Vec::new(alloc);
    ext_json::write_relaxed(&mut out, &document)?;
    match from_utf8(&out) {
        Ok(text) => Ok(String::from_str(alloc, text)?),
        Err(_) => Err(Fault::Form("no text")),
    }
}

/// Whether the bytes of a reply are those of a document.
pub fn is_document(alloc: Global, wanted: &Document, came: &[u8]) -> Result<(), Fault> {
    let wanted = encode(alloc, wanted)?;
    if wanted.as_slice() == came {
        return Ok(());
    }
    let wanted = readable(alloc, &wanted)?;
    let came = readable(alloc, came)?;
    Err(differs(alloc, wanted.as_str(), came.as_str())?)
}

/// The reply with these documents and this cursor.
pub fn batch_reply(
    alloc: Global,
    shape: &Shape,
    cursor: i64,
    documents: Array,
) -> Result<Document, Fault> {
    let mut batch = Document::new(alloc);
    batch.push(shape.batch, Value::Array(documents))?;
    batch.push("id", Value::Int64(cursor))?;
    let namespace = Text::from_str(alloc, shape.namespace.as_str())?;
    batch.push("ns", Value::String(namespace))?;
    let mut reply = Document::new(alloc);
    reply.push("cursor", Value::Document(batch))?;
    done(reply)
}

/// A reply of a command that is done.
pub fn done(mut reply: Document) -> Result<Document, Fault> {
    if reply.get("ok").is_none() {
        reply.push("ok", Value::Int32(1))?;
    }
    Ok(reply)
}

/// The `_id` of each document, in its place.
fn ids_of(alloc: Global, documents: &[Value]) -> Result<Array, Fault> {
    let mut ids = Array::new(alloc);
    for document in documents {
        let id = match document {
            Value::Document(document) => document.get("_id"),
            _ => None,
        };
        ids.push(id.unwrap_or(&Value::MinKey).copy()?)?;
    }
    Ok(ids)
}

/// The documents of a reply that gives some.
fn batch_in<'a>(reply: &'a Document, batch: &str) -> Option<&'a Array> {
    match reply.get("cursor")? {
        Value::Document(cursor) => match cursor.get(batch)? {
            Value::Array(documents) => Some(documents),
            _ => None,
        },
        _ => None,
    }
}

/// The reply with the `_id`s of its documents in their places.
pub fn with_ids(alloc: Global, shape: &Shape, cursor: i64, came: &[u8]) -> Result<Vec<u8>, Fault> {
    let (reply, _) = decode(alloc, came)?;
    let Some(documents) = batch_in(&reply, shape.batch) else {
        return Ok(Vec::from_slice(alloc, came)?);
    };
    let whole = batch_reply(alloc, shape, cursor, documents.copy()?)?;
    is_document(alloc, &whole, came)?;
    let ids = batch_reply(alloc, shape, cursor, ids_of(alloc, documents.items())?)?;
    Ok(encode(alloc, &ids)?)
}
