//! What the catalogue says of a collection with indexes, read.

ghost use Rattle.std.specs.Prelude.{◌≡◌, ◌≤◌, ℕ, List, [], Some, IfOk, IfSome, length, option_map};
ghost use Rattle.std.specs.List.{AllByRecursion};
ghost use Rattle.bson.specs.Spelling.{Spells, frame_of, pairs_bytes};
ghost use Rattle.bson.specs.View.{items_of, tree};
ghost use Rattle.entries.specs.CatalogueReading.{definitions_in, item_in};
ghost use Rattle.index.specs.Definition.{Definition, IsDefinition};
ghost use Rattle.entry_model.specs.LawfulState.{IsKept};
ghost use Rattle.entry_model.specs.State.{Collection};
ghost use Rattle.entry_model.specs.StateEntries.{catalogue_value};
ghost use Rattle.entry_model.specs.StateReads.{catalogue_bytes};

use crate::entry_reading::spelled_document;
use crate::entry_values::plain_bytes;
use crate::indexed_entries::indexed_bytes;
use bson::{Document, NoMemory, Value};
use entry_model::MOST_INDEXES;
use index::IndexSpec;
use std::alloc::Global;

/// The definition that a value spells, if it spells one.
fn item_in(alloc: Global, value: &Value) -> Result<Option<IndexSpec>, NoMemory>
    ensures { IfOk result (λ found. found ≡ item_in (tree value.now)) }
{
    match value {
        Value::Document(document) => IndexSpec::read(alloc, document),
        _ => Ok(None),
    }
}

/// The definitions that values spell, if each of them spells one.
fn definitions_in(alloc: Global, items: &[Value]) -> Result<Option<Vec<IndexSpec>>, NoMemory>
    ensures { IfOk result (λ found. option_map (λ v. v.items) found
        ≡ definitions_in (items_of items.now)) }
{
    let mut indexes = Vec::new(alloc);
    'items: for item in items {
        match item_in(alloc, item)? {
            Some(index) => indexes.push(index)?,
            None => return Ok(None),
        }
    }
    Ok(Some(indexes))
}

/// The last number that a collection may have.
const LAST_NUMBER: i32 = 1000;

/// The number that a document of the catalogue tells.
fn number_told(document: &Document) -> Option<u32>
    ensures some { IfSome result (λ number. (1 ≤ number) × (number ≤ 1000)) }
    ensures number { (number : ℕ) (is : List Definition) → 1 ≤ number → number ≤ 1000
        → document.now ≡ catalogue_value number is → result ≡ Some number }
{
    match document.get("n") {
        Some(Value::Int32(number)) => {
            if *number < 1 || LAST_NUMBER < *number {
                return None;
            }
            Some(*number as u32)
        }
        _ => None,
    }
}

/// The indexes that it tells.
fn indexes_told(alloc: Global, document: &Document) -> Result<Option<Vec<IndexSpec>>, NoMemory>
    ensures { IfOk result (λ found. (number : ℕ) (is : List Definition) → AllByRecursion IsDefinition is
        → document.now ≡ catalogue_value number is → option_map (λ v. v.items) found ≡ Some is) }
{
    match document.get("x") {
        Some(Value::Array(array)) => definitions_in(alloc, array.items()),
        _ => Ok(None),
    }
}

/// What the catalogue says of a collection: its number and its indexes.
#[derive(Drop)]
pub struct Catalogued {
    pub number: u32,
    pub indexes: Vec<IndexSpec>,
}

/// Equal definitions of their own.
fn copy_indexes(alloc: Global, indexes: &[IndexSpec]) -> Result<Vec<IndexSpec>, NoMemory>
    ensures { IfOk result (λ v. v.items ≡ indexes.now) }
{
    let mut copies = Vec::with_capacity(alloc, indexes.len())?;
    'indexes: for index in indexes {
        copies.push(index.copy()?)?;
    }
    Ok(copies)
}

impl Catalogued {
    /// The same number and equal indexes of their own.
    pub fn copy(&self) -> Result<Catalogued, NoMemory>
        ensures number { IfOk result (λ e. e.number ≡ self.now.number) }
        ensures indexes { IfOk result (λ e. e.indexes.items ≡ self.now.indexes.items) }
    {
        Ok(Catalogued {
            number: self.number,
            indexes: copy_indexes(*self.indexes.allocator(), &self.indexes)?,
        })
    }
}

/// What a document of the catalogue tells, within the limits.
fn parts_told(alloc: Global, document: &Document) -> Result<Option<Catalogued>, NoMemory>
    ensures limits { IfOk result (λ found. IfSome found (λ e. (1 ≤ e.number) × (e.number ≤ 1000)
        × (length e.indexes.items ≤ 16))) }
    ensures parts { IfOk result (λ found. (number : ℕ) (is : List Definition) → 1 ≤ number → number ≤ 1000
        → length is ≤ 16 → AllByRecursion IsDefinition is → document.now ≡ catalogue_value number is
        → option_map {U = ℕ × List Definition} (λ e. (e.number, e.indexes.items)) found
        ≡ Some (number, is)) }
{
    let Some(number) = number_told(document) else {
        return Ok(None);
    };
    let Some(indexes) = indexes_told(alloc, document)? else {
        return Ok(None);
    };
    if MOST_INDEXES < indexes.len() {
        return Ok(None);
    }
    Ok(Some(Catalogued { number, indexes }))
}

/// The number that the catalogue tells of a collection without indexes, by its bytes alone; nothing where they are others.
fn plain_number(value: &[u8]) -> Option<u32>
    ensures { IfSome result (λ number. (1 ≤ number) × (number ≤ 1000)
        × (value.now ≡ frame_of (pairs_bytes (catalogue_value number [])))) }
{
    if value.len() != 20 {
        return None;
    }
    let number = u32::from_le_bytes([value[7], value[8], value[9], value[10]]);
    if number < 1 || (LAST_NUMBER as u32) < number {
        return None;
    }
    if value != plain_bytes(number).as_slice() {
        return None;
    }
    Some(number)
}

/// The number and the indexes of the collection of which the catalogue says this. Bytes of which it says nothing may be taken for what
/// it says of some collection, within the limits.
pub fn catalogue_parts(alloc: Global, value: &[u8]) -> Result<Option<Catalogued>, NoMemory>
    ensures limits { IfOk result (λ found. IfSome found (λ e. (1 ≤ e.number) × (e.number ≤ 1000)
        × (length e.indexes.items ≤ 16))) }
    ensures reads { IfOk result (λ found. (c : Collection) → IsKept c → value.now ≡ catalogue_bytes c
        → option_map {U = ℕ × List Definition} (λ e. (e.number, e.indexes.items)) found
        ≡ Some (c.number, c.indexes)) }
{
    if let Some(number) = plain_number(value) {
        return Ok(Some(Catalogued {
            number,
            indexes: Vec::new(alloc),
        }));
    }
    let Some(document) = spelled_document(alloc, value)? else {
        return Ok(None);
    };
    Ok(parts_told(alloc, &document)?)
}

/// The same, where it says just this: what was read is spelled again.
pub fn catalogue_told(alloc: Global, value: &[u8]) -> Result<Option<Catalogued>, NoMemory>
    ensures reads { IfOk result (λ found. (c : Collection) → IsKept c → value.now ≡ catalogue_bytes c
        → option_map {U = ℕ × List Definition} (λ e. (e.number, e.indexes.items)) found
        ≡ Some (c.number, c.indexes)) }
    ensures only { IfOk result (λ found. IfSome found (λ e. (1 ≤ e.number) × (e.number ≤ 1000)
        × (length e.indexes.items ≤ 16)
        × (value.now ≡ frame_of (pairs_bytes (catalogue_value e.number e.indexes.items))))) }
{
    let Some(told) = catalogue_parts(alloc, value)? else {
        return Ok(None);
    };
    let bytes = indexed_bytes(alloc, told.number, &told.indexes)?;
    if bytes.as_slice() != value {
        return Ok(None);
    }
    Ok(Some(told))
}
