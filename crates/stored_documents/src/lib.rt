//! What is asked of a document that is to be stored, how it is stored, and its `_id`, by which it is found.
#![tactic(auto)]

ghost use Rattle.std.specs.Prelude.{◌≡◌, ◌≢◌, Ok, Err, IfErr, IfOk, MatchResult, ◌≤◌, ◌<◌, length};
ghost use Rattle.std.specs.Option.{unwrap_or};
ghost use Rattle.bson.specs.Lawful.{IsDocument};
ghost use Rattle.bson.specs.Tree.{scalar, null};
ghost use Rattle.bson.specs.View.{tree};
ghost use Rattle.entry_model.specs.LawfulState.{IsStorable};
ghost use Rattle.database_model.specs.Documents.{key_of, checked};
ghost use Rattle.update_model.specs.Stored.{id_first};
ghost use Rattle.value_order.specs.Order.{compare};
ghost use Rattle.value_order.specs.KeyText.{tree_text};
ghost use Rattle.value_order.specs.declared.TheConstants.{KEY_LIMIT};

use bson::{Document, NoMemory, Value};
use bson_bytes::RawDoc;
use path::Refusal;
use std::alloc::Global;
use std::cmp::Ordering;
use update::{copy_id_first, id_of, limits_fault, names_fault};
use value_order::{Direction, KEY_LIMIT, KeyFault, KeyPart, compare, group_text, key_text};

/// The name of the field that documents are found by, which is stored first.
pub const ID: &str = "_id";

/// The most bytes of a stored document.
pub const STORED_LIMIT: u32 = 65_535;

/// The `_id` of a document, or null in its place.
fn id_or<'a>(document: &'a Document, none: &'a Value) -> &'a Value
    requires { tree none.now ≡ scalar null }
    ensures { tree result.now ≡ key_of document.now }
{
    match document.get(ID) {
        Some(id) => id,
        None => none,
    }
}

/// The `_id` of a document that stays its bytes, or null in its place.
pub fn read_id(alloc: Global, document: &RawDoc<'_>) -> Result<Value, NoMemory>
    ensures { IfOk result (λ id. tree id ≡ key_of document.now) }
{
    match document.get(ID) {
        Some(id) => id.value(alloc),
        None => Ok(Value::Null),
    }
}

/// The order of two documents by their `_id`.
pub fn compare_ids(a: &Document, b: &Document) -> Ordering
    ensures { result ≡ compare (key_of a.now) (key_of b.now) }
{
    let none = Value::Null;
    compare(id_or(a, &none), id_or(b, &none))
}

/// The order of a document by its `_id` and a value.
pub fn compare_id(document: &Document, id: &Value) -> Ordering
    ensures { result ≡ compare (key_of document.now) (tree id.now) }
{
    let none = Value::Null;
    compare(id_or(document, &none), id)
}

/// Refuses an `_id` whose key text is too long. Those of a fixed length aren't.
pub fn check_key(alloc: Global, id: &Value) -> Result<(), Refusal>
    ensures { MatchResult result
        (λ _. length (tree_text (tree id.now)) ≤ KEY_LIMIT)
        (λ e. e ≢ Refusal.OutOfMemory
        → (e ≡ Refusal.KeyTooLong) × (KEY_LIMIT < length (tree_text (tree id.now)))) }
{
    match id {
        Value::String(_)
        | Value::Binary(_)
        | Value::ObjectId(_)
        | Value::Document(_)
        | Value::Array(_) => {
            match key_text(alloc, &KeyPart::Value(id), Direction::Ascending) {
                Ok(_) => Ok(()),
                Err(KeyFault::TooLong) => Err(Refusal::KeyTooLong),
                Err(KeyFault::Memory) => Err(Refusal::OutOfMemory),
            }
        }
        Value::Bool(_) | Value::Date(_) | Value::Timestamp(_) => Ok(()),
        Value::Int32(_) | Value::Int64(_) => Ok(()),
        Value::Null | Value::MinKey | Value::MaxKey => Ok(()),
    }
}

/// A copy of the document as it is stored; `None` where it is stored as it stands.
///
/// The first of these refusals: `BSONObjectTooLarge` over `STORED_LIMIT` bytes, `BadValue` over 90 levels, a name as
/// `names_fault` judges it, `BadValue` where `_id` is missing or an array, `KeyTooLong` where its key text has more than
/// 500 bytes.
#[tactic(auto, unfolding(database_model::specs::Documents::checked))]
pub fn stored(alloc: Global, document: &Document) -> Result<Option<Document>, Refusal>
    ensures checked { MatchResult result
        (λ copy. (checked document.now ≡ Ok (key_of document.now))
        × (unwrap_or copy document.now ≡ id_first document.now))
        (λ e. e ≢ Refusal.OutOfMemory → checked document.now ≡ Err e) }
    ensures readable { IfOk result (λ copy. IsDocument (unwrap_or copy document.now)) }
{
    if let Some(refusal) = limits_fault(document, STORED_LIMIT) {
        return Err(refusal);
    }
    let copy = copy_id_first(document)?;
    let kept = copy.as_ref().unwrap_or(document);
    if let Some(refusal) = names_fault(kept) {
        return Err(refusal);
    }
    let Some(id) = id_of(document) else {
        return Err(Refusal::BadValue);
    };
    check_key(alloc, id)?;
    let _levels = kept.levels();
    Ok(copy)
}

/// The key text of a stored document's `_id`; `StorageFailed` where what was read isn't a document that is stored.
pub fn id_text(alloc: Global, document: &Document) -> Result<Vec<u8>, Refusal>
    ensures text { IfOk result (λ text. text.items ≡ tree_text (key_of document.now)) }
    ensures short { IfOk result (λ text. length text.items ≤ KEY_LIMIT) }
    ensures stored { IsStorable document.now
        → IfErr result (λ e. e ≡ Refusal.OutOfMemory) }
{
    let Some(id) = document.get(ID) else {
        return Err(Refusal::StorageFailed);
    };
    let text = group_text(alloc, id)?;
    if KEY_LIMIT < text.len() {
        return Err(Refusal::StorageFailed);
    }
    Ok(text)
}
