//! What a path reaches.

ghost use Rattle.std.specs.Prelude.{◌≡◌, ◌++◌, [], ◌∷◌, map, None, IfOk, OnOk, if◌then◌else◌, option_map};
ghost use Rattle.std.specs.Option.{option_and_then};
ghost use Rattle.bson.specs.Tree.{document};
ghost use Rattle.bson.specs.Lookup.{lookup};
ghost use Rattle.bson.specs.Edits.{item_at};
ghost use Rattle.bson.specs.View.{tree, items_of};
ghost use Rattle.path.specs.Parts.{index_of};
ghost use Rattle.path.specs.Reach.{reach, onwards, in_elements, in_place};
ghost use Rattle.path.specs.View.{reached};

use crate::parsing::Path;
use crate::part::Part;
use bson::{Array, Document, NoMemory, Value};
use std::alloc::Global;

/// What stands at the end of a path: a value, or nothing where a document or a value that holds no other lacks the
/// rest of it.
#[derive(Clone, Copy)]
pub enum Reached<'a> {
    Missing,
    Value(&'a Value),
}

/// What a path reaches in a document, in order. An array on the way is left by each of its elements that is a document
/// and by the element that the part numbers, so one path may reach many values, or none at all.
pub fn reach<'a>(
    alloc: Global,
    source: &'a Document,
    path: &Path,
) -> Result<Vec<Reached<'a>>, NoMemory>
    ensures { IfOk result (λ v. map reached v.items ≡ reach path.now (document source.now)) }
{
    let mut out = Vec::new(alloc);
    let (part, rest) = path.split_first();
    gather_field(source, part, rest, false, &mut out)?;
    Ok(out)
}

/// Puts what the parts reach from a value behind what was reached before.
#[cycle(gathering)]
fn gather<'a>(value: &'a Value, parts: &[Part], out: &mut Vec<Reached<'a>>) -> Result<(), NoMemory>
    ensures { OnOk result (map reached out.new.items
        ≡ map reached out.old.items ++ reach parts.now (tree value.now)) }
{
    let [part, rest @ ..] = parts else {
        out.push(Reached::Value(value))?;
        return Ok(());
    };
    match value {
        Value::Document(document) => gather_field(document, part, rest, false, out),
        Value::Array(array) => gather_items(array, part, rest, out),
        _ => {
            out.push(Reached::Missing)?;
            Ok(())
        }
    }
}

/// What a part and the rest reach from a document. One that lacks the part's field may be passed over.
#[cycle(gathering)]
fn gather_field<'a>(
    document: &'a Document,
    part: &Part,
    rest: &[Part],
    passes_over: bool,
    out: &mut Vec<Reached<'a>>,
) -> Result<(), NoMemory>
    ensures { OnOk result (map reached out.new.items ≡ map reached out.old.items
        ++ onwards (reach rest.now) (lookup document.now part.now)
        (if passes_over then [] else None ∷ [])) }
{
    match document.get(part.as_str()) {
        Some(value) => gather(value, rest, out),
        None if passes_over => Ok(()),
        None => {
            out.push(Reached::Missing)?;
            Ok(())
        }
    }
}

/// What a part and the rest reach from an array.
#[cycle(gathering)]
fn gather_items<'a>(
    array: &'a Array,
    part: &Part,
    rest: &[Part],
    out: &mut Vec<Reached<'a>>,
) -> Result<(), NoMemory>
    ensures { OnOk result (map reached out.new.items ≡ map reached out.old.items
        ++ (in_elements (reach rest.now) part.now array.now
        ++ in_place (reach rest.now) part.now array.now)) }
{
    let items = array.items();
    let is_digits = part.is_digits();
    'items: for item in items {
        if let Value::Document(document) = item {
            gather_field(document, part, rest, is_digits, out)?;
        }
    }
    match item_of_part(items, part) {
        Some(item) => gather(item, rest, out),
        None => Ok(()),
    }
}

/// The item that a part numbers, if it numbers one.
pub fn item_of_part<'a>(items: &'a [Value], part: &Part) -> Option<&'a Value>
    ensures { option_map (λ v. tree v.now) result
        ≡ option_and_then (item_at (items_of items.now)) (index_of part.now) }
{
    match part.index() {
        Some(at) if at < items.len() => Some(&items[at]),
        Some(_) => None,
        None => None,
    }
}
