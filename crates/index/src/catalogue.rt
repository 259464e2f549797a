//! Definitions as the catalogue keeps them.

ghost use Rattle.std.specs.Prelude.{◌≡◌, ◌≤◌, ◌==◌, false, IfOk, OnOk, Some, None, map, option_map};
ghost use Rattle.std.specs.List.{list_any};
ghost use Rattle.bson.specs.Tree.{append, pair, no_pairs, scalar, int32};
ghost use Rattle.bson.specs.Lookup.{lookup};
ghost use Rattle.bson.specs.Lawful.{levels, IsTree};
ghost use Rattle.bson.specs.View.{tree, pairs_of};
ghost use Rattle.index.specs.Definition.{direction_value, key_document};
ghost use Rattle.index.specs.Catalogue.{spelled, number_in, name_in, truth_in, direction_in, field_in, fields_in, key_in, all_of, are_names, definition_in};

use crate::definition::{IndexField, IndexSpec};
use bson::{BuildFault, Document, NoMemory, Pair, Text, Value};
use path::PathFault;
use std::alloc::{AllocError, Global};
use value_order::Direction;

/// Adds a field that isn't there yet.
pub fn put_field(document: &mut Document, name: &str, value: Value) -> Result<(), NoMemory>
    requires name { list_any (λ b. b == 0) name.now ≡ false }
    requires new { lookup document.old name.now ≡ None }
    requires flat { levels (tree value) ≤ 99 }
    ensures { OnOk result (document.new
        ≡ append document.old (pair name.now (tree value) no_pairs)) }
{
    match document.push(name, value) {
        Ok(()) => Ok(()),
        Err(BuildFault::Memory) => Err(AllocError),
        Err(BuildFault::Name) => unreachable!("it has no zero"),
        Err(BuildFault::Repeated) => unreachable!("it is new"),
        Err(BuildFault::Deep) => unreachable!("it is flat"),
    }
}

/// 1 for ascending, -1 for descending.
fn direction_value(direction: Direction) -> Value
    ensures { tree result ≡ direction_value direction }
{
    match direction {
        Direction::Ascending => Value::Int32(1),
        Direction::Descending => Value::Int32(-1),
    }
}

/// The paths with their directions, as the pairs of a key.
fn key_pairs(alloc: Global, fields: &[IndexField]) -> Result<Vec<Pair>, NoMemory>
    ensures { IfOk result (λ v. pairs_of v.items ≡ key_document fields.now) }
{
    let mut pairs = Vec::with_capacity(alloc, fields.len())?;
    'fields: for field in fields {
        pairs.push(Pair {
            name: Text::from_str(alloc, field.text())?,
            value: direction_value(field.direction()),
        })?;
    }
    Ok(pairs)
}

impl IndexSpec {
    /// The `key` of the definition: its paths with 1 or -1.
    pub fn key(&self, alloc: Global) -> Result<Document, NoMemory>
        ensures { IfOk result (λ document. document ≡ key_document self.now.fields) }
    {
        Ok(Document::from_pairs(key_pairs(alloc, self.fields())?))
    }

    /// The document in which the catalogue keeps the definition.
    pub fn document(&self, alloc: Global) -> Result<Document, NoMemory>
        ensures { IfOk result (λ document. document ≡ spelled self.now) }
    {
        let mut document = Document::new(alloc);
        put_field(&mut document, "i", Value::Int32(self.number() as i32))?;
        let name = Text::from_str(alloc, self.name())?;
        put_field(&mut document, "name", Value::String(name))?;
        put_field(&mut document, "key", Value::Document(self.key(alloc)?))?;
        put_field(&mut document, "unique", Value::Bool(self.is_unique()))?;
        put_field(&mut document, "multi", Value::Bool(self.is_multi()))?;
        Ok(document)
    }
}

/// The most bytes of an index's name.
const NAME_LIMIT: usize = 127;

/// The greatest number of an index.
const LAST_NUMBER: i32 = 16;

/// The most fields of an index.
const MOST_FIELDS: usize = 4;

/// A number that an index may have.
fn index_number(number: i32) -> Option<u32>
    ensures { result ≡ number_in (scalar (int32 number)) }
{
    if number < 1 || LAST_NUMBER < number {
        return None;
    }
    Some(number as u32)
}

fn number_in(value: &Value) -> Option<u32>
    ensures { result ≡ number_in (tree value.now) }
{
    match value {
        Value::Int32(number) => index_number(*number),
        _ => None,
    }
}

/// A name that an index may have.
fn name_in(value: &Value) -> Option<&str>
    ensures { option_map (λ s. s.now) result ≡ name_in (tree value.now) }
{
    match value {
        Value::String(text) => {
            let name = text.as_str();
            if name.is_empty() || NAME_LIMIT < name.len() {
                return None;
            }
            Some(name)
        }
        _ => None,
    }
}

fn truth_in(value: &Value) -> Option<bool>
    ensures { result ≡ truth_in (tree value.now) }
{
    match value {
        Value::Bool(truth) => Some(*truth),
        _ => None,
    }
}

/// Ascending for 1, descending for -1.
fn direction_of(number: i32) -> Option<Direction>
    ensures { result ≡ direction_in (scalar (int32 number)) }
{
    if number == 1 {
        return Some(Direction::Ascending);
    }
    if number == -1 {
        return Some(Direction::Descending);
    }
    None
}

fn direction_in(value: &Value) -> Option<Direction>
    ensures { result ≡ direction_in (tree value.now) }
{
    match value {
        Value::Int32(number) => direction_of(*number),
        _ => None,
    }
}

fn field_in(alloc: Global, pair: &Pair) -> Result<Option<IndexField>, NoMemory>
    ensures { IfOk result (λ field. field ≡ field_in pair.now.name (tree pair.now.value)) }
{
    let Some(direction) = direction_in(&pair.value) else {
        return Ok(None);
    };
    match IndexField::new(alloc, pair.name.as_str(), direction) {
        Ok(field) => Ok(Some(field)),
        Err(fault) => match fault {
            PathFault::Memory => Err(AllocError),
            _ => Ok(None),
        },
    }
}

fn fields_in(alloc: Global, pairs: &[Pair]) -> Result<Option<Vec<IndexField>>, NoMemory>
    ensures { IfOk result (λ found. option_map (λ v. v.items) found
        ≡ fields_in (pairs_of pairs.now)) }
{
    let mut fields = Vec::new(alloc);
    'pairs: for pair in pairs {
        match field_in(alloc, pair)? {
            Some(field) => fields.push(field)?,
            None => return Ok(None),
        }
    }
    Ok(Some(fields))
}

/// The fields of a key, of which there are one to four.
fn key_in(alloc: Global, value: &Value) -> Result<Option<Vec<IndexField>>, NoMemory>
    ensures { IfOk result (λ found. option_map (λ v. v.items) found ≡ key_in (tree value.now)) }
{
    let Value::Document(document) = value else {
        return Ok(None);
    };
    match fields_in(alloc, document.pairs())? {
        Some(fields) => {
            if fields.is_empty() || MOST_FIELDS < fields.len() {
                return Ok(None);
            }
            Ok(Some(fields))
        }
        None => Ok(None),
    }
}

/// Whether these are the names of what a definition has.
fn are_names(number: &str, name: &str, key: &str, unique: &str, multi: &str) -> bool
    ensures { result ≡ are_names number.now name.now key.now unique.now multi.now }
{
    number == "i" && name == "name" && key == "key" && unique == "unique" && multi == "multi"
}

/// The definition of these values, if they are such as one has.
fn of_values(
    alloc: Global,
    number: &Value,
    name: &Value,
    key: &Value,
    unique: &Value,
    multi: &Value,
) -> Result<Option<IndexSpec>, NoMemory>
    requires named { IsTree (tree name.now) }
    requires keyed { IsTree (tree key.now) }
    ensures { IfOk result (λ found. found
        ≡ all_of (number_in (tree number.now)) (name_in (tree name.now)) (key_in (tree key.now))
        (truth_in (tree unique.now)) (truth_in (tree multi.now))) }
{
    let Some(number) = number_in(number) else {
        return Ok(None);
    };
    let Some(name) = name_in(name) else {
        return Ok(None);
    };
    let Some(is_unique) = truth_in(unique) else {
        return Ok(None);
    };
    let Some(is_multi) = truth_in(multi) else {
        return Ok(None);
    };
    let Some(fields) = key_in(alloc, key)? else {
        return Ok(None);
    };
    let name = Text::from_str(alloc, name)?;
    Ok(Some(IndexSpec::of_parts(number, name, fields, is_unique, is_multi)))
}

impl IndexSpec {
    /// The definition that a document of the catalogue spells, or nothing where it spells none.
    pub fn read(alloc: Global, document: &Document) -> Result<Option<IndexSpec>, NoMemory>
        ensures { IfOk result (λ found. found ≡ definition_in document.now) }
    {
        let pairs = document.pairs();
        if pairs.len() != 5 {
            return Ok(None);
        }
        let (i, name, key) = (&pairs[0], &pairs[1], &pairs[2]);
        let (unique, multi) = (&pairs[3], &pairs[4]);
        if !are_names(
            i.name.as_str(),
            name.name.as_str(),
            key.name.as_str(),
            unique.name.as_str(),
            multi.name.as_str(),
        ) {
            return Ok(None);
        }
        of_values(
            alloc,
            &i.value,
            &name.value,
            &key.value,
            &unique.value,
            &multi.value,
        )
    }
}
