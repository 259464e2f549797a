//! Edits of the fields of one value further down in a document, which is reached once however many they are.

ghost use Rattle.std.specs.Prelude.{◌≡◌, map, IfOk};
ghost use Rattle.bson.specs.Tree.{document};
ghost use Rattle.bson.specs.View.{tree};
ghost use Rattle.path.specs.Parts.{index_of};
ghost use Rattle.update.specs.Inside.{begins_with_rename, pairs_after, items_after, value_after, inside, in_field, in_item};
ghost use Rattle.update.specs.View.{edit_of};

use crate::edit::{Action, Edit};
use crate::renaming::renamed;
use crate::unsets::{without_fields, without_items};
use bson::{Array, Document, NoMemory, Value};
use path::{Part, put_field, put_item, take_field, take_item};
use std::alloc::Global;

/// Whether the first of the edits moves a field.
fn begins_with_rename(edits: &[Edit]) -> bool
    ensures { result ≡ begins_with_rename (map edit_of edits.now) }
{
    let [edit, ..] = edits else {
        return false;
    };
    match &edit.action {
        Action::Rename(_) => true,
        _ => false,
    }
}

/// The document once the edits have changed its fields, which are all renamed or all taken away.
fn document_after(alloc: Global, document: Document, edits: &[Edit]) -> Result<Document, NoMemory>
    ensures { IfOk result (λ d. d ≡ pairs_after (map edit_of edits.now) document) }
{
    if begins_with_rename(edits) {
        return renamed(alloc, document, edits);
    }
    without_fields(alloc, document, edits)
}

/// The array once the edits have taken elements away. No edit renames one.
fn array_after(array: Array, edits: &[Edit]) -> Array
    ensures { result ≡ items_after (map edit_of edits.now) array }
{
    if begins_with_rename(edits) {
        return array;
    }
    without_items(array, edits)
}

/// The value once the edits have changed its fields, or its elements.
fn value_after(alloc: Global, value: Value, edits: &[Edit]) -> Result<Value, NoMemory>
    ensures { IfOk result (λ v. tree v ≡ value_after (map edit_of edits.now) (tree value)) }
{
    match value {
        Value::Document(document) => Ok(Value::Document(document_after(alloc, document, edits)?)),
        Value::Array(array) => Ok(Value::Array(array_after(array, edits))),
        other => Ok(other),
    }
}

/// The value once the edits have changed what stands at the end of these parts.
#[cycle(inside)]
fn change_inside(
    alloc: Global,
    value: Value,
    parent: &[Part],
    edits: &[Edit],
) -> Result<Value, NoMemory>
    ensures { IfOk result (λ v. tree v
        ≡ inside parent.now (value_after (map edit_of edits.now)) (tree value)) }
{
    let [part, rest @ ..] = parent else {
        return value_after(alloc, value, edits);
    };
    match value {
        Value::Document(document) => Ok(Value::Document(change_in_field(
            alloc, document, part, rest, edits,
        )?)),
        Value::Array(array) => Ok(Value::Array(change_in_item(alloc, array, part, rest, edits)?)),
        other => Ok(other),
    }
}

#[cycle(inside)]
fn change_in_field(
    alloc: Global,
    document: Document,
    part: &Part,
    rest: &[Part],
    edits: &[Edit],
) -> Result<Document, NoMemory>
    ensures { IfOk result (λ d. d
        ≡ in_field (inside rest.now (value_after (map edit_of edits.now))) part.now document) }
{
    let mut document = document;
    let Some(at) = document.position(part.as_str()) else {
        return Ok(document);
    };
    let old = take_field(&mut document, at);
    let left = change_inside(alloc, old, rest, edits)?;
    put_field(&mut document, at, left);
    Ok(document)
}

#[cycle(inside)]
fn change_in_item(
    alloc: Global,
    array: Array,
    part: &Part,
    rest: &[Part],
    edits: &[Edit],
) -> Result<Array, NoMemory>
    ensures { IfOk result (λ a. a
        ≡ in_item (inside rest.now (value_after (map edit_of edits.now))) (index_of part.now) array) }
{
    let mut array = array;
    let Some(at) = part.index() else {
        return Ok(array);
    };
    if array.len() <= at {
        return Ok(array);
    }
    let old = take_item(&mut array, at);
    let left = change_inside(alloc, old, rest, edits)?;
    put_item(&mut array, at, left);
    Ok(array)
}

/// The document once the edits have changed what stands at the end of these parts: the document itself where there
/// is none.
pub(crate) fn change_below(
    alloc: Global,
    parent: &[Part],
    edits: &[Edit],
    source: Document,
) -> Result<Document, NoMemory>
    ensures { IfOk result (λ d. document d
        ≡ inside parent.now (value_after (map edit_of edits.now)) (document source)) }
{
    let [part, rest @ ..] = parent else {
        return document_after(alloc, source, edits);
    };
    change_in_field(alloc, source, part, rest, edits)
}
