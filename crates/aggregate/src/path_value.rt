//! The value of `"$path"`.

ghost use Rattle.std.specs.Prelude.{◌≡◌, IfOk, OnOk, option_map};
ghost use Rattle.bson.specs.Tree.{document, no_items, append_items};
ghost use Rattle.bson.specs.View.{tree, items_of};
ghost use Rattle.projection.specs.Projection.{add_item};
ghost use Rattle.aggregate.specs.Found.{found_of};
ghost use Rattle.aggregate_model.specs.PathValue.{by_field, each_by_field, path_value};

use bson::{Array, Document, NoMemory, Value};
use path::{Part, Path};
use std::alloc::Global;

/// What a path gives of a document: nothing, a value that stands there, or an array that was made of such values.
#[derive(Drop)]
pub(crate) enum Found<'a> {
    Missing,
    There(&'a Value),
    Made(Value),
}

impl Found<'_> {
    /// The value, if there is one.
    pub(crate) fn get(&self) -> Option<&Value>
        ensures { option_map (λ v. tree v.now) result ≡ found_of self.now }
    {
        match self {
            Found::Missing => None,
            Found::There(value) => Some(value),
            Found::Made(value) => Some(value),
        }
    }

    /// A value of its own, if there is one.
    pub(crate) fn into_value(self) -> Result<Option<Value>, NoMemory>
        ensures { IfOk result (λ o. option_map tree o ≡ found_of self.entry) }
    {
        match self {
            Found::Missing => Ok(None),
            Found::There(value) => Ok(Some(value.copy()?)),
            Found::Made(value) => Ok(Some(value)),
        }
    }
}

/// The value of a path: documents are descended by field, an array with parts left gives the array of what its documents
/// and arrays give.
pub(crate) fn path_value<'a>(
    alloc: Global,
    source: &'a Document,
    path: &Path,
) -> Result<Found<'a>, NoMemory>
    ensures { IfOk result (λ f. found_of f ≡ path_value path.now (document source.now)) }
{
    let (part, rest) = path.split_first();
    of_field(alloc, source, part, rest)
}

/// What is left of a path gives of a value.
#[cycle(path_values)]
pub(crate) fn of_value<'a>(
    alloc: Global,
    value: &'a Value,
    parts: &[Part],
) -> Result<Found<'a>, NoMemory>
    ensures { IfOk result (λ f. found_of f ≡ path_value parts.now (tree value.now)) }
{
    let [part, rest @ ..] = parts else {
        return Ok(Found::There(value));
    };
    by_field(alloc, value, part, rest)
}

#[cycle(path_values)]
fn by_field<'a>(
    alloc: Global,
    value: &'a Value,
    part: &Part,
    rest: &[Part],
) -> Result<Found<'a>, NoMemory>
    ensures { IfOk result (λ f. found_of f
        ≡ by_field (path_value rest.now) part.now (tree value.now)) }
{
    match value {
        Value::Document(document) => of_field(alloc, document, part, rest),
        Value::Array(array) => {
            let made = of_items(alloc, array, part, rest)?;
            Ok(Found::Made(Value::Array(made)))
        }
        _ => Ok(Found::Missing),
    }
}

#[cycle(path_values)]
fn of_field<'a>(
    alloc: Global,
    source: &'a Document,
    part: &Part,
    rest: &[Part],
) -> Result<Found<'a>, NoMemory>
    ensures { IfOk result (λ f. found_of f
        ≡ by_field (path_value rest.now) part.now (document source.now)) }
{
    match source.get(part.as_str()) {
        Some(value) => of_value(alloc, value, rest),
        None => Ok(Found::Missing),
    }
}

#[cycle(path_values)]
fn of_items(alloc: Global, array: &Array, part: &Part, rest: &[Part]) -> Result<Array, NoMemory>
    ensures { IfOk result (λ a. a ≡ each_by_field (path_value rest.now) part.now array.now) }
{
    let mut items = Vec::new(alloc);
    'items: for item in array.items() {
        let found = by_field(alloc, item, part, rest)?;
        let value = found.into_value()?;
        add_item(&mut items, value)?;
    }
    Ok(Array::from_items(items))
}

/// Puts an item at the end, where there is one.
fn add_item(items: &mut Vec<Value>, value: Option<Value>) -> Result<(), NoMemory>
    ensures { OnOk result (items_of items.new.items
        ≡ append_items (items_of items.old.items) (add_item (option_map tree value) no_items)) }
{
    match value {
        Some(value) => {
            items.push(value)?;
            Ok(())
        }
        None => Ok(()),
    }
}
