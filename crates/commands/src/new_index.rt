//! Indexes to be made, as the documents of `createIndexes` spell them.

ghost use Rattle.std.specs.Prelude.{◌≡◌, ◌==◌, ◌≤◌, IfOk, IsUtf8};
ghost use Rattle.std.specs.List.{list_any};
ghost use Rattle.bson.specs.View.{tree, pairs_of};
ghost use Rattle.outcome.specs.Outcome.{Gives, Does};
ghost use Rattle.index.specs.Definition.{IsPath, AreFields};
ghost use Rattle.command_model.specs.NewIndex.{defined, IsIndexName, IsNewIndex, direction_of, direction_in, field_to, field_in, is_among, key_field, read_key, is_bad_index_name, index_name_in, no_index_fields, new_index_field, read_new_index};

use crate::fields::{Fields, read_fields};
use crate::values::{bool_in, document_in, text_in};
use bson::{Document, NoMemory, Text, Value};
use index::{IndexField, IndexSpec, copy_fields};
use path::Refusal;
use std::alloc::Global;
use std::marker::Model;
use value_order::Direction;

/// The most paths of an index.
const MOST_PATHS: usize = 4;

/// The most bytes of an index's name.
const INDEX_NAME_LIMIT: usize = 127;

/// An index to be made: its name, its paths with their directions, and whether no two documents may have one key
/// in it.
#[derive(Drop)]
pub struct NewIndex {
    name: Text,
    fields: Vec<IndexField>,
    is_unique: bool,
}

impl Model for NewIndex {
    ghost use Rattle.command_model.specs.NewIndex as indexes;
    ghost use Rattle.command_model.specs.NewIndexCode.{new_index_code};

    ghost Value = { indexes.NewIndex };

    ghost coded = { new_index_code };

    ghost view = { λ a. record {
      name = a.name;
      fields = a.fields.items;
      is_unique = a.is_unique;
    } };

    ghost invariant = { λ a. indexes.IsNewIndex (record {
      name = a.name;
      fields = a.fields.items;
      is_unique = a.is_unique;
    }) };
}

impl NewIndex {
    /// Its name.
    pub fn name(&self) -> &str
        ensures name { result.now ≡ self.now.name }
        ensures lawful { IsNewIndex self.now }
    {
        self.name.as_str()
    }

    /// Its paths with their directions, in order.
    pub fn fields(&self) -> &[IndexField]
        ensures { result.now ≡ self.now.fields }
    {
        &self.fields
    }

    /// Whether no two documents may have one key in it.
    pub fn is_unique(&self) -> bool
        ensures { result ≡ self.now.is_unique }
    {
        self.is_unique
    }

    /// The index that it becomes under a number.
    pub fn spec(&self, number: u32) -> Result<IndexSpec, NoMemory>
        requires some { 1 ≤ number }
        requires most { number ≤ 16 }
        ensures { IfOk result (λ spec. spec ≡ defined number self.now) }
    {
        let name = self.name.copy()?;
        let fields = copy_fields(*self.fields.allocator(), &self.fields)?;
        Ok(IndexSpec::new(number, name, fields, self.is_unique))
    }
}

fn direction_of(number: i64) -> Result<Direction, Refusal>
    ensures { Gives Refusal.OutOfMemory (λ d. d) result (direction_of number) }
{
    if number == 1 {
        return Ok(Direction::Ascending);
    }
    if number == -1 {
        return Ok(Direction::Descending);
    }
    Err(Refusal::BadValue)
}

/// Ascending for 1, descending for -1.
fn direction_in(value: &Value) -> Result<Direction, Refusal>
    ensures { Gives Refusal.OutOfMemory (λ d. d) result (direction_in (tree value.now)) }
{
    match value {
        Value::Int32(number) => direction_of(i64::from(*number)),
        Value::Int64(number) => direction_of(*number),
        _ => Err(Refusal::TypeMismatch),
    }
}

/// The path that a name writes, in this direction, or the refusal of the path's fault.
fn field_to(alloc: Global, name: &str, direction: Direction) -> Result<IndexField, Refusal>
    ensures gives { Gives Refusal.OutOfMemory (λ f. f) result (field_to name.now direction) }
    ensures lawful { IfOk result (λ f. IsUtf8 f.path × IsPath f.path) }
{
    match IndexField::new(alloc, name, direction) {
        Ok(field) => {
            let _text = field.text();
            Ok(field)
        }
        Err(fault) => Err(fault.refusal()),
    }
}

/// A path with its direction. The path stands first, so its fault is met before a wrong direction.
fn field_in(alloc: Global, name: &str, value: &Value) -> Result<IndexField, Refusal>
    ensures gives { Gives Refusal.OutOfMemory (λ f. f) result
        (field_in name.now (tree value.now)) }
    ensures lawful { IfOk result (λ f. IsUtf8 f.path × IsPath f.path) }
{
    match direction_in(value) {
        Ok(direction) => field_to(alloc, name, direction),
        Err(refusal) => {
            field_to(alloc, name, Direction::Ascending)?;
            Err(refusal)
        }
    }
}

fn is_among(fields: &[IndexField], name: &str) -> bool
    ensures { result ≡ is_among fields.now name.now }
{
    fields.iter().any(|field| field.text() == name)
}

/// The pairs of a key that were met so far.
#[derive(Drop)]
struct KeyFields {
    fields: Vec<IndexField>,
}

impl Model for KeyFields {
    ghost use Rattle.std.specs.Prelude.{List};
    ghost use Rattle.index.specs.Definition.{Field};
    ghost use Rattle.command_model.specs.NewIndex.{AreKeyFields};

    ghost Value = { List Field };

    ghost view = { λ a. a.fields.items };

    ghost invariant = { λ a. AreKeyFields a.fields.items };
}

impl<'a> Fields<'a> for KeyFields {
    ghost field = { key_field };

    fn read_field(&mut self, alloc: Global, name: &str, value: &'a Value) -> Result<(), Refusal> {
        if self.fields.len() == MOST_PATHS || is_among(&self.fields, name) {
            return Err(Refusal::BadValue);
        }
        self.fields.push(field_in(alloc, name, value)?)?;
        Ok(())
    }
}

/// The key that a document spells: one to four paths, none of them twice, with 1 or -1. Nothing of a fifth is
/// looked at.
fn read_key(alloc: Global, document: &Document) -> Result<Vec<IndexField>, Refusal>
    ensures gives { Gives Refusal.OutOfMemory (λ v. v.items) result (read_key document.now) }
    ensures lawful { IfOk result (λ v. AreFields v.items) }
{
    let none = KeyFields {
        fields: Vec::new(alloc),
    };
    let KeyFields { fields } = read_fields(alloc, none, document.pairs())?;
    if fields.is_empty() {
        return Err(Refusal::BadValue);
    }
    Ok(fields)
}

fn has_zero(name: &str) -> bool
    ensures { result ≡ list_any (λ b. b == 0) name.now }
{
    name.as_bytes().iter().any(|byte| *byte == 0)
}

/// No index is called so: a name has 1 to 127 bytes, none of them zero.
fn is_bad_index_name(name: &str) -> bool
    ensures { result ≡ is_bad_index_name name.now }
{
    if name.is_empty() || INDEX_NAME_LIMIT < name.len() {
        return true;
    }
    has_zero(name)
}

/// The name of an index.
fn index_name_in(value: &Value) -> Result<&str, Refusal>
    ensures gives { Gives Refusal.OutOfMemory (λ s. s.now) result
        (index_name_in (tree value.now)) }
    ensures lawful { IfOk result (λ s. IsIndexName s.now) }
{
    let name = text_in(value)?;
    if is_bad_index_name(name) {
        return Err(Refusal::BadValue);
    }
    Ok(name)
}

/// The fields of an index's document that were met so far.
#[derive(Drop)]
struct NewIndexFields<'a> {
    key: Option<Vec<IndexField>>,
    name: Option<&'a str>,
    is_unique: bool,
}

impl<'a> Model for NewIndexFields<'a> {
    ghost use Rattle.std.specs.Prelude.{option_map};
    ghost use Rattle.std.specs.Coded.{codes};
    ghost use Rattle.index.specs.DefinitionCode.{field_code};
    ghost use Rattle.command_model.specs.NewIndex as indexes;

    ghost Value = { indexes.NewIndexFields };

    ghost coded = { Prim.hlevel (codes, field_code) };

    ghost view = { λ a. record {
      key = option_map (λ v. v.items) a.key;
      name = option_map (λ s. s.now) a.name;
      is_unique = a.is_unique;
    } };

    ghost invariant = { λ a. indexes.AreNewIndexFields (record {
      key = option_map (λ v. v.items) a.key;
      name = option_map (λ s. s.now) a.name;
      is_unique = a.is_unique;
    }) };
}

impl<'a> Fields<'a> for NewIndexFields<'a> {
    ghost field = { new_index_field };

    fn read_field(&mut self, alloc: Global, name: &str, value: &'a Value) -> Result<(), Refusal> {
        if name == "key" {
            self.key = Some(read_key(alloc, document_in(value)?)?);
            Ok(())
        } else if name == "name" {
            self.name = Some(index_name_in(value)?);
            Ok(())
        } else if name == "unique" {
            self.is_unique = bool_in(value)?;
            Ok(())
        } else {
            Err(Refusal::FailedToParse)
        }
    }
}

/// The index that a document spells: a key and a name, neither of which may be missing, and a boolean, `unique`.
pub(crate) fn read_new_index(alloc: Global, document: &Document) -> Result<NewIndex, Refusal>
    ensures { Gives Refusal.OutOfMemory (λ i. i) result (read_new_index document.now) }
{
    let none = NewIndexFields {
        key: None,
        name: None,
        is_unique: false,
    };
    let NewIndexFields {
        key,
        name,
        is_unique,
    } = read_fields(alloc, none, document.pairs())?;
    let fields = key.ok_or(Refusal::FailedToParse)?;
    let name = name.ok_or(Refusal::FailedToParse)?;
    let name = Text::from_str(alloc, name)?;
    Ok(NewIndex {
        name,
        fields,
        is_unique,
    })
}
