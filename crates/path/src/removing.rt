//! Removing what stands at a path.

ghost use Rattle.std.specs.Prelude.{◌≡◌, Ok, option_map};
ghost use Rattle.std.specs.Option.{option_and_then};
ghost use Rattle.bson.specs.Tree.{document};
ghost use Rattle.bson.specs.Edits.{item_at};
ghost use Rattle.bson.specs.Lookup.{lookup};
ghost use Rattle.bson.specs.View.{tree};
ghost use Rattle.path.specs.Edits.{cut_off, cut_at, cut_field, cut_item};
ghost use Rattle.path.specs.Parts.{index_of};
ghost use Rattle.path.specs.Place.{value_at};
ghost use Rattle.outcome.specs.Outcome.{Gives};

use crate::holding::{put_field, put_item, take_field, take_item};
use crate::parsing::Path;
use crate::part::Part;
use crate::refusal::Refusal;
use bson::{Array, Document, Value};

/// A copy of the document without what stands at the path: a field goes, an element of an array becomes null, and
/// where the path isn't there nothing changes. Want of memory is its only refusal.
pub fn remove_at(document: &Document, path: &Path) -> Result<Document, Refusal>
    ensures { Gives Refusal.OutOfMemory (λ d. d) result (Ok (cut_at path.now document.now)) }
{
    let document = document.copy()?;
    Ok(remove_from(document, path))
}

/// The document itself without what stands at the path, as `remove_at` says. It takes no memory.
pub fn remove_from(document: Document, path: &Path) -> Document
    ensures { result ≡ cut_at path.now document }
{
    let (left, _taken) = take_from(document, path);
    left
}

/// The document without what stands at the path, and what stood there. It takes no memory.
pub fn take_from(source: Document, path: &Path) -> (Document, Option<Value>)
    ensures left { result.0 ≡ cut_at path.now source }
    ensures taken { option_map tree result.1 ≡ value_at path.now (document source) }
{
    let (part, rest) = path.split_first();
    cut_field(source, part, rest)
}

/// What is left of a value without what stands at the end of these parts, and what stood there.
#[cycle(removing)]
fn cut(value: Value, parts: &[Part]) -> (Option<Value>, Option<Value>)
    ensures left { option_map tree result.0 ≡ cut_off parts.now (tree value) }
    ensures taken { option_map tree result.1 ≡ value_at parts.now (tree value) }
{
    let [part, rest @ ..] = parts else {
        return (None, Some(value));
    };
    match value {
        Value::Document(document) => {
            let (left, taken) = cut_field(document, part, rest);
            (Some(Value::Document(left)), taken)
        }
        Value::Array(array) => {
            let (left, taken) = cut_item(array, part, rest);
            (Some(Value::Array(left)), taken)
        }
        other => (Some(other), None),
    }
}

#[cycle(removing)]
fn cut_field(document: Document, part: &Part, rest: &[Part]) -> (Document, Option<Value>)
    ensures left { result.0 ≡ cut_field (cut_off rest.now) part.now document }
    ensures taken { option_map tree result.1
        ≡ option_and_then (value_at rest.now) (lookup document part.now) }
{
    let mut document = document;
    let Some(at) = document.position(part.as_str()) else {
        return (document, None);
    };
    let old = take_field(&mut document, at);
    let (left, taken) = cut(old, rest);
    let Some(left) = left else {
        let _pair = document.remove_at(at);
        return (document, taken);
    };
    put_field(&mut document, at, left);
    (document, taken)
}

#[cycle(removing)]
fn cut_item(array: Array, part: &Part, rest: &[Part]) -> (Array, Option<Value>)
    ensures left { result.0 ≡ cut_item (cut_off rest.now) (index_of part.now) array }
    ensures taken { option_map tree result.1
        ≡ option_and_then (value_at rest.now)
        (option_and_then (item_at array) (index_of part.now)) }
{
    let mut array = array;
    let Some(at) = part.index() else {
        return (array, None);
    };
    if array.len() <= at {
        return (array, None);
    }
    let old = take_item(&mut array, at);
    let (left, taken) = cut(old, rest);
    let Some(left) = left else {
        return (array, taken);
    };
    put_item(&mut array, at, left);
    (array, taken)
}
