//! What a projection leaves of a document.

ghost use Rattle.std.specs.Prelude.{◌≡◌, IfOk, OnOk, option_map, map};
ghost use Rattle.std.specs.List.{list_any};
ghost use Rattle.bson.specs.Tree.{no_pairs, append, no_items, append_items};
ghost use Rattle.bson.specs.View.{tree, pairs_of, items_of};
ghost use Rattle.projection.specs.Projection.{below, is_end, only, add_pair, add_item, of_tree, of_pairs, of_items, project};

use crate::projection::Projection;
use bson::{Array, Document, NoMemory, Pair, Text, Value};
use path::Part;
use std::alloc::Global;

impl Projection {
    /// What it leaves of a document. The fields keep their order.
    pub fn of(&self, document: &Document) -> Result<Document, NoMemory>
        ensures { IfOk result (λ d. d ≡ project self.now document.now) }
    {
        let alloc = *self.paths.allocator();
        let mut paths = Vec::with_capacity(alloc, self.paths.len())?;
        'paths: for path in &self.paths {
            paths.push(path.parts())?;
        }
        of_document(alloc, self.includes, &paths, document)
    }
}

/// What the paths that begin with a name say of its value.
fn below<'a>(alloc: Global, name: &str, paths: &[&'a [Part]]) -> Result<Vec<&'a [Part]>, NoMemory>
    ensures { IfOk result (λ v. map (λ p. p.now) v.items
        ≡ below name.now (map (λ p. p.now) paths.now)) }
{
    let mut found = Vec::new(alloc);
    'paths: for path in paths {
        if let [first, rest @ ..] = *path {
            if name == first.as_str() {
                found.push(rest)?;
            }
        }
    }
    Ok(found)
}

/// Whether a path ends here.
fn any_ends(paths: &[&[Part]]) -> bool
    ensures { result ≡ list_any is_end (map (λ p. p.now) paths.now) }
{
    'paths: for path in paths {
        if path.is_empty() {
            return true;
        }
    }
    false
}

/// A copy, or nothing.
fn copy_if(keeps: bool, value: &Value) -> Result<Option<Value>, NoMemory>
    ensures { IfOk result (λ o. option_map tree o ≡ only keeps (tree value.now)) }
{
    if keeps {
        Ok(Some(value.copy()?))
    } else {
        Ok(None)
    }
}

#[cycle(projecting)]
fn of_value(
    alloc: Global,
    includes: bool,
    paths: &[&[Part]],
    value: &Value,
) -> Result<Option<Value>, NoMemory>
    ensures { IfOk result (λ o. option_map tree o
        ≡ of_tree includes (map (λ p. p.now) paths.now) (tree value.now)) }
{
    if paths.is_empty() {
        return copy_if(!includes, value);
    }
    if any_ends(paths) {
        return copy_if(includes, value);
    }
    match value {
        Value::Document(document) => Ok(Some(Value::Document(of_document(
            alloc, includes, paths, document,
        )?))),
        Value::Array(array) => Ok(Some(Value::Array(of_array(alloc, includes, paths, array)?))),
        _ => copy_if(!includes, value),
    }
}

#[cycle(projecting)]
fn of_document(
    alloc: Global,
    includes: bool,
    paths: &[&[Part]],
    document: &Document,
) -> Result<Document, NoMemory>
    ensures { IfOk result (λ d. d ≡ of_pairs includes (map (λ p. p.now) paths.now) document.now) }
{
    let mut pairs = Vec::new(alloc);
    'pairs: for pair in document.pairs() {
        let inner = below(alloc, pair.name.as_str(), paths)?;
        let value = of_value(alloc, includes, &inner, &pair.value)?;
        add_pair(&mut pairs, &pair.name, value)?;
    }
    Ok(Document::from_pairs(pairs))
}

#[cycle(projecting)]
fn of_array(
    alloc: Global,
    includes: bool,
    paths: &[&[Part]],
    array: &Array,
) -> Result<Array, NoMemory>
    ensures { IfOk result (λ a. a ≡ of_items includes (map (λ p. p.now) paths.now) array.now) }
{
    let mut items = Vec::new(alloc);
    'items: for item in array.items() {
        let value = of_value(alloc, includes, paths, item)?;
        add_item(&mut items, value)?;
    }
    Ok(Array::from_items(items))
}

/// Puts a pair at the end, where there is a value.
fn add_pair(pairs: &mut Vec<Pair>, name: &Text, value: Option<Value>) -> Result<(), NoMemory>
    ensures { OnOk result (pairs_of pairs.new.items
        ≡ append (pairs_of pairs.old.items) (add_pair name.now (option_map tree value) no_pairs)) }
{
    match value {
        Some(value) => {
            let name = name.copy()?;
            pairs.push(Pair { name, value })?;
            Ok(())
        }
        None => Ok(()),
    }
}

/// Puts an item at the end, where there is one.
fn add_item(items: &mut Vec<Value>, value: Option<Value>) -> Result<(), NoMemory>
    ensures { OnOk result (items_of items.new.items
        ≡ append_items (items_of items.old.items) (add_item (option_map tree value) no_items)) }
{
    match value {
        Some(value) => {
            items.push(value)?;
            Ok(())
        }
        None => Ok(()),
    }
}
