//! Documents of an insert that say no `_id`.

ghost use Rattle.std.specs.Prelude.{◌≡◌, ◌≤◌, IfOk, codes};
ghost use Rattle.bson.specs.Lawful.{levels, items_levels};
ghost use Rattle.bson.specs.Lookup.{lookup};
ghost use Rattle.bson.specs.View.{tree, items_of};
ghost use Rattle.driver_replies.specs.NewIds.{document_with_id, value_with_id, with_ids, lack_ids, insert_with_ids, with_new_ids};

use crate::fields::{add, put, set};
use crate::fresh_ids::FreshIds;
use crate::upserts::has_no_id;
use crate::writes::Write;
use bson::{Array, Document, NoMemory, ObjectId, Value};
use std::alloc::Global;

/// A document with this `_id` in front, where it says none.
fn document_with_id(alloc: Global, id: ObjectId, document: Document) -> Result<Document, NoMemory>
    ensures { IfOk result (λ d. d ≡ document_with_id id document) }
{
    if document.get("_id").is_some() {
        return Ok(document);
    }
    let mut front = Document::new(alloc);
    put(&mut front, "_id", Value::ObjectId(id))?;
    let mut pairs = front.into_pairs();
    let mut others = document.into_pairs();
    pairs.append(&mut others)?;
    Ok(Document::from_pairs(pairs))
}

/// A copy of a document of an insert, with this `_id` in front, where it says none.
fn value_with_id(alloc: Global, id: ObjectId, value: &Value) -> Result<Value, NoMemory>
    requires { levels (tree value.now) ≤ 98 }
    ensures is { IfOk result (λ v. tree v ≡ value_with_id id (tree value.now)) }
    ensures flat { IfOk result (λ v. levels (tree v) ≤ 98) }
{
    match value {
        Value::Document(document) => {
            let document = document_with_id(alloc, id, document.copy()?)?;
            Ok(Value::Document(document))
        }
        other => other.copy(),
    }
}

/// Copies of the documents of an insert, each with an `_id` of its own in front, where it says none.
fn with_ids(alloc: Global, ids: FreshIds, documents: &[Value]) -> Result<Array, NoMemory>
    requires { items_levels (items_of documents.now) ≤ 98 }
    ensures { IfOk result (λ given. given ≡ with_ids ids (items_of documents.now)) }
{
    let mut given = Array::new(alloc);
    let mut next = ids;
    'documents: for document in documents {
        add(&mut given, value_with_id(alloc, next.first(), document)?)?;
        next = next.next();
    }
    Ok(given)
}

/// Whether one of some documents says no `_id`.
fn lack_ids(documents: &[Value]) -> bool
    ensures { result ≡ lack_ids (items_of documents.now) }
{
    'documents: for document in documents {
        if has_no_id(Some(document)) {
            return true;
        }
    }
    false
}

/// An insert each of whose documents has an `_id`. Where all have one it is the command itself, and nothing is copied.
fn insert_with_ids(alloc: Global, ids: FreshIds, mut body: Document) -> Result<Document, NoMemory>
    ensures { IfOk result (λ d. d ≡ insert_with_ids ids (lookup body (codes "documents")) body) }
{
    let Some(Value::Array(documents)) = body.get("documents") else {
        return Ok(body);
    };
    if !lack_ids(documents.items()) {
        return Ok(body);
    }
    let given = with_ids(alloc, ids, documents.items())?;
    let _levels = given.levels();
    set(&mut body, "documents", Value::Array(given))?;
    Ok(body)
}

/// A command, each of whose documents has an `_id` where it is an insert.
pub fn with_new_ids(
    alloc: Global,
    ids: FreshIds,
    write: Option<Write>,
    body: Document,
) -> Result<Document, NoMemory>
    ensures { IfOk result (λ d. d ≡ with_new_ids ids write body) }
{
    match write {
        Some(Write::Insert) => insert_with_ids(alloc, ids, body),
        _ => Ok(body),
    }
}
