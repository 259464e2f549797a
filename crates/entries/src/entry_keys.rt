//! The keys under which the catalogue and documents stand.

ghost use Rattle.std.specs.Prelude.{◌≡◌, [], IfOk};
ghost use Rattle.value_order.specs.KeyText.{tree_text};
ghost use Rattle.entry_model.specs.State.{words};
ghost use Rattle.entry_model.specs.StateEntries.{key_under};

use bson::{NoMemory, Text, Value};
use std::alloc::Global;
use value_order::group_text;

/// The key of a text under the numbers of a collection and an index.
fn key_under(alloc: Global, collection: u32, index: u32, text: &[u8]) -> Result<Vec<u8>, NoMemory>
    ensures { IfOk result (λ key. key.items ≡ key_under collection index text.now) }
{
    let mut key = Vec::with_capacity(alloc, text.len().saturating_add(8))?;
    key.extend_from_slice(&collection.to_be_bytes())?;
    key.extend_from_slice(&index.to_be_bytes())?;
    key.extend_from_slice(text)?;
    Ok(key)
}

/// Where the entries of an index begin. Those of the catalogue begin at 0 and 0, those of a collection's documents at
/// its number and 0, and both end before the next number of an index.
pub fn first_key(alloc: Global, collection: u32, index: u32) -> Result<Vec<u8>, NoMemory>
    ensures { IfOk result (λ key. key.items ≡ key_under collection index []) }
{
    key_under(alloc, collection, index, &[])
}

/// Where the entries of an encoded key begin in the index of a number: their keys without the texts of `_id`s.
pub fn index_key(
    alloc: Global,
    collection: u32,
    index: u32,
    key: &[u8],
) -> Result<Vec<u8>, NoMemory>
    ensures { IfOk result (λ front. front.items ≡ key_under collection index key.now) }
{
    key_under(alloc, collection, index, key)
}

/// The key of a document in the collection of a number, by the ascending text of its `_id`.
pub fn document_key(alloc: Global, number: u32, id: &[u8]) -> Result<Vec<u8>, NoMemory>
    ensures { IfOk result (λ key. key.items ≡ key_under number 0 id.now) }
{
    key_under(alloc, number, 0, id)
}

/// The key of a collection in the catalogue.
pub fn catalogue_key(alloc: Global, namespace: &str) -> Result<Vec<u8>, NoMemory>
    ensures { IfOk result (λ key. key.items ≡ key_under 0 0 (tree_text (words namespace.now))) }
{
    let name = Value::String(Text::from_str(alloc, namespace)?);
    let text = group_text(alloc, &name)?;
    key_under(alloc, 0, 0, &text)
}
