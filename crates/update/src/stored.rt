//! What is asked of a document that is to be stored.

ghost use Rattle.std.specs.Prelude.{◌≡◌, ◌<◌, IfOk, IfSome, None, option_map};
ghost use Rattle.std.specs.Option.{unwrap_or};
ghost use Rattle.bson.specs.Edits.{pairs_len};
ghost use Rattle.update_model.specs.Fronts.{to_front};
ghost use Rattle.bson.specs.View.{tree, pairs_of, items_of};
ghost use Rattle.update_model.specs.Stored.{name_fault, tree_fault, pairs_fault, items_fault, id_of};
ghost use Rattle.update_model.specs.Stored.{id_first, limits_fault, stored_fault};

use bson::{Document, NoMemory, Pair, Value};
use path::Refusal;

/// The name of the field that documents are found by, which is stored first.
pub(crate) const ID: &str = "_id";

/// The most levels of a stored document, itself among them.
pub const STORED_LEVELS: u32 = 90;

/// Why a name is not stored, if it is not.
fn name_fault(name: &str) -> Option<Refusal>
    ensures { result ≡ name_fault name.now }
{
    match name.as_bytes() {
        [] => Some(Refusal::EmptyFieldName),
        [b'$', ..] => Some(Refusal::DollarPrefixedFieldName),
        bytes if bytes.contains(&b'.') => Some(Refusal::DottedFieldName),
        _ => None,
    }
}

#[cycle(names)]
fn value_fault(value: &Value) -> Option<Refusal>
    ensures { result ≡ tree_fault (tree value.now) }
{
    match value {
        Value::Document(document) => pairs_fault(document.pairs()),
        Value::Array(array) => items_fault(array.items()),
        _ => None,
    }
}

#[cycle(names)]
fn pairs_fault(pairs: &[Pair]) -> Option<Refusal>
    ensures { result ≡ pairs_fault (pairs_of pairs.now) }
{
    'pairs: for pair in pairs {
        if let Some(refusal) = name_fault(pair.name.as_str()) {
            return Some(refusal);
        }
        if let Some(refusal) = value_fault(&pair.value) {
            return Some(refusal);
        }
    }
    None
}

#[cycle(names)]
fn items_fault(items: &[Value]) -> Option<Refusal>
    ensures { result ≡ items_fault (items_of items.now) }
{
    'items: for item in items {
        if let Some(refusal) = value_fault(item) {
            return Some(refusal);
        }
    }
    None
}

/// Why the first name from the left that is not stored is not, at any depth: `EmptyFieldName`,
/// `DollarPrefixedFieldName` or `DottedFieldName`, where one isn't.
pub fn names_fault(document: &Document) -> Option<Refusal>
    ensures { result ≡ pairs_fault document.now }
{
    pairs_fault(document.pairs())
}

/// `BSONObjectTooLarge` over `limit` bytes, else `BadValue` over 90 levels.
pub fn limits_fault(document: &Document, limit: u32) -> Option<Refusal>
    ensures { result ≡ limits_fault limit document.now }
{
    if (limit as usize) < document.encoded_len() {
        return Some(Refusal::BSONObjectTooLarge);
    }
    if STORED_LEVELS < document.levels() {
        return Some(Refusal::BadValue);
    }
    None
}

/// The `_id` of a document, where it has one that may be stored, which is no array.
pub fn id_of(document: &Document) -> Option<&Value>
    ensures { option_map (λ v. tree v.now) result ≡ id_of document.now }
{
    match document.get(ID) {
        Some(Value::Array(_)) => None,
        Some(id) => Some(id),
        None => None,
    }
}

/// Why a document may not be stored, if it may not: the first of `limits_fault`, `names_fault`, and `BadValue` where
/// `_id` is missing or an array.
#[tactic(auto, unfolding(update_model::specs::Stored::stored_fault))]
pub fn stored_fault(document: &Document, limit: u32) -> Option<Refusal>
    ensures { result ≡ stored_fault limit document.now }
{
    if let Some(refusal) = limits_fault(document, limit) {
        return Some(refusal);
    }
    if let Some(refusal) = names_fault(document) {
        return Some(refusal);
    }
    match id_of(document) {
        Some(_) => None,
        None => Some(Refusal::BadValue),
    }
}

/// The place that `_id` is to leave so that it stands first; `None` where the document stands as it is stored.
fn place_to_leave(document: &Document) -> Option<usize>
    ensures stays { result ≡ None → id_first document.now ≡ document.now }
    ensures leaves { IfSome result (λ at.
        (at < pairs_len document.now) × (id_first document.now ≡ to_front document.now at)) }
{
    let _levels = document.levels();
    match document.position(ID) {
        None => None,
        Some(0) => None,
        Some(at) => Some(at),
    }
}

/// The document itself with `_id` first. Nothing is copied.
pub fn id_first(document: Document) -> Result<Document, NoMemory>
    ensures { IfOk result (λ d. d ≡ id_first document) }
{
    match place_to_leave(&document) {
        None => Ok(document),
        Some(at) => moved_first(document, at),
    }
}

/// A copy of the document with `_id` first; `None` where the document itself stands so.
pub fn copy_id_first(document: &Document) -> Result<Option<Document>, NoMemory>
    ensures { IfOk result (λ copy. unwrap_or copy document.now ≡ id_first document.now) }
{
    match place_to_leave(document) {
        None => Ok(None),
        Some(at) => Ok(Some(moved_first(document.copy()?, at)?)),
    }
}

/// The document itself with the pair at a place moved to its front.
fn moved_first(document: Document, at: usize) -> Result<Document, NoMemory>
    requires { at < pairs_len document }
    ensures { IfOk result (λ d. d ≡ to_front document at) }
{
    let mut pairs = document.into_pairs();
    let pair = pairs.remove(at);
    pairs.insert(0, pair)?;
    Ok(Document::from_pairs(pairs))
}
