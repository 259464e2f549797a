//! Upserts that say no `_id` for the document that they may make.

ghost use Rattle.std.specs.Prelude.{◌≡◌, ◌≤◌, IfOk, OnOk, option_map, codes, Some};
ghost use Rattle.bson.specs.Tree.{document};
ghost use Rattle.bson.specs.Lawful.{levels, pairs_levels};
ghost use Rattle.bson.specs.View.{tree};
ghost use Rattle.driver_replies.specs.Writes.{is_true, is_open, has_no_id, is_upsert, needs_id, with_filter, with_id};

use crate::fields::set;
use crate::writes::Write;
use bson::{Document, NoMemory, ObjectId, Value};

/// Whether a value is true.
pub fn is_true(value: Option<&Value>) -> bool
    ensures { result ≡ is_true (option_map (λ v. tree v.now) value.entry) }
{
    match value {
        Some(Value::Bool(truth)) => *truth,
        _ => false,
    }
}

/// Whether a filter says no `_id`, and has all its equalities at its top, where an upsert takes them from.
fn is_open(filter: Option<&Value>) -> bool
    ensures { result ≡ is_open (option_map (λ v. tree v.now) filter.entry) }
{
    match filter {
        Some(Value::Document(filter)) => {
            filter.get("_id").is_none()
                && filter.get("$and").is_none()
                && filter.get("$or").is_none()
        }
        _ => false,
    }
}

/// Whether a value is a document that says no `_id`.
pub(crate) fn has_no_id(value: Option<&Value>) -> bool
    ensures { result ≡ has_no_id (option_map (λ v. tree v.now) value.entry) }
{
    match value {
        Some(Value::Document(document)) => document.get("_id").is_none(),
        _ => false,
    }
}

/// Whether a statement is an upsert that says no `_id`.
pub(crate) fn is_upsert(statement: &Document) -> bool
    ensures { result ≡ is_upsert statement.now }
{
    is_true(statement.get("upsert")) && is_open(statement.get("q")) && has_no_id(statement.get("u"))
}

/// Whether a statement of a write needs an `_id` for the document that it may make.
pub(crate) fn needs_id(write: Write, statement: &Value) -> bool
    ensures { result ≡ needs_id write (tree statement.now) }
{
    match (write, statement) {
        (Write::Update, Value::Document(statement)) => is_upsert(statement),
        _ => false,
    }
}

/// Puts a filter with an `_id` behind the fields of a statement.
fn put_filter(statement: &mut Document, mut filter: Document, id: ObjectId) -> Result<(), NoMemory>
    requires flat { pairs_levels filter ≤ 98 }
    ensures { OnOk result
        (statement.new ≡ with_filter id (Some (document filter)) statement.old) }
{
    set(&mut filter, "_id", Value::ObjectId(id))?;
    set(statement, "q", Value::Document(filter))
}

/// Puts an `_id` into the filter of a statement.
pub(crate) fn add_id(statement: &mut Document, id: ObjectId) -> Result<(), NoMemory>
    ensures { OnOk result (statement.new ≡ with_id id statement.old) }
{
    let _levels = statement.levels();
    match statement.remove("q") {
        Some(Value::Document(filter)) => put_filter(statement, filter, id),
        _ => Ok(()),
    }
}
