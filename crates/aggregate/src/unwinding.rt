//! `$unwind`.

ghost use Rattle.std.specs.Prelude.{◌≡◌};
ghost use Rattle.path.specs.Reach.{items_list};
ghost use Rattle.outcome.specs.Outcome.{Gives};
ghost use Rattle.aggregate_model.specs.Each.{behind, each};
ghost use Rattle.aggregate_model.specs.Unwind.{with_element, with_elements, unwound_document, unwound};

use bson::{Array, Document, Value};
use path::{Path, Refusal, passes_array, value_at, write_at};
use std::alloc::Global;

/// Puts the document with each element in place of what stands at the path behind those given before.
fn with_each(
    alloc: Global,
    path: &Path,
    shell: &Document,
    array: &Array,
    given: Vec<Document>,
) -> Result<Vec<Document>, Refusal>
    ensures { Gives Refusal.OutOfMemory (λ v. v.items) result
        (behind given.items (each (with_element path.now shell.now) (items_list array.now))) }
{
    let mut given = given;
    'elements: for element in array.items() {
        let document = write_at(alloc, shell, path, element.copy()?)?;
        given.push(document)?;
    }
    Ok(given)
}

/// The same of a document with an array at the path, which isn't copied for each element.
fn with_elements(
    alloc: Global,
    path: &Path,
    document: &Document,
    array: &Array,
    given: Vec<Document>,
) -> Result<Vec<Document>, Refusal>
    ensures { Gives Refusal.OutOfMemory (λ v. v.items) result
        (behind given.items (with_elements path.now document.now (items_list array.now))) }
{
    let shell = write_at(alloc, document, path, Value::Null)?;
    with_each(alloc, path, &shell, array, given)
}

/// Puts what a document gives behind what was given before. One without an array at the path is moved.
fn unwound_document(
    alloc: Global,
    path: &Path,
    document: Document,
    given: Vec<Document>,
) -> Result<Vec<Document>, Refusal>
    ensures { Gives Refusal.OutOfMemory (λ v. v.items) result
        (behind given.items (unwound_document path.now document)) }
{
    if passes_array(&document, path) {
        return Ok(given);
    }
    match value_at(&document, path) {
        None => Ok(given),
        Some(Value::Null) => Ok(given),
        Some(Value::Array(array)) => with_elements(alloc, path, &document, array, given),
        Some(_) => {
            let mut given = given;
            given.push(document)?;
            Ok(given)
        }
    }
}

/// A document for each element of the array at the path.
pub(crate) fn unwound(
    alloc: Global,
    path: &Path,
    documents: Vec<Document>,
) -> Result<Vec<Document>, Refusal>
    ensures { Gives Refusal.OutOfMemory (λ v. v.items) result (unwound path.now documents.items) }
{
    let mut given = Vec::with_capacity(alloc, documents.len())?;
    'documents: for document in documents {
        given = unwound_document(alloc, path, document, given)?;
    }
    Ok(given)
}
