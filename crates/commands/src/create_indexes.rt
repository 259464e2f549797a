//! `createIndexes`: indexes of a collection are made.

ghost use Rattle.std.specs.Prelude.{◌≡◌};
ghost use Rattle.bson.specs.View.{tree, pairs_of, items_of};
ghost use Rattle.outcome.specs.Outcome.{Gives, Does};
ghost use Rattle.command_model.specs.CreateIndexes.{no_create_indexes_fields, new_indexes_in, create_indexes_field, read_create_indexes};
ghost use Rattle.command_model.specs.NewIndex.{read_new_index};
ghost use Rattle.command_model.specs.Statements.{each_of};
ghost use Rattle.command_model.specs.Values.{spelled_in};
ghost use Rattle.command_model.specs.Command.{as_command, create_indexes};
ghost use Rattle.commands.specs.View.{command_read};

use crate::command::Command;
use crate::fields::{CommonFields, Fields, read_fields};
use crate::names::namespace_of;
use crate::new_index::{NewIndex, read_new_index};
use crate::statements::some_in;
use crate::values::{document_in, text_in};
use bson::{Pair, Value};
use path::Refusal;
use std::alloc::Global;
use std::marker::Model;

/// Indexes to be made, at least one, in the order written.
#[derive(Drop)]
pub struct CreateIndexes {
    pub namespace: String,
    pub indexes: Vec<NewIndex>,
}

/// The indexes that the items of an array spell.
fn all_new_indexes(alloc: Global, items: &[Value]) -> Result<Vec<NewIndex>, Refusal>
    ensures { Gives Refusal.OutOfMemory (λ v. v.items) result
        (each_of (spelled_in read_new_index) (items_of items.now)) }
{
    let mut indexes = Vec::with_capacity(alloc, items.len())?;
    'items: for item in items {
        indexes.push(read_new_index(alloc, document_in(item)?)?)?;
    }
    Ok(indexes)
}

/// The indexes of a `createIndexes`.
fn new_indexes_in(alloc: Global, value: &Value) -> Result<Vec<NewIndex>, Refusal>
    ensures { Gives Refusal.OutOfMemory (λ v. v.items) result (new_indexes_in (tree value.now)) }
{
    all_new_indexes(alloc, some_in(value)?)
}

/// The fields of a `createIndexes` that were met so far.
#[derive(Drop)]
struct CreateIndexesFields<'a> {
    common: CommonFields<'a>,
    indexes: Option<Vec<NewIndex>>,
}

impl<'a> Model for CreateIndexesFields<'a> {
    ghost use Rattle.std.specs.Prelude.{option_map};
    ghost use Rattle.command_model.specs.CreateIndexes as creates;
    ghost use Rattle.std.specs.Coded.{codes};
    ghost use Rattle.command_model.specs.NewIndexCode.{new_index_code};

    ghost Value = { creates.CreateIndexesFields };

    ghost coded = { Prim.hlevel (codes, new_index_code) };

    ghost view = { λ a. record {
      common = a.common;
      indexes = option_map (λ v. v.items) a.indexes;
    } };
}

impl<'a> Fields<'a> for CreateIndexesFields<'a> {
    ghost field = { create_indexes_field };

    fn read_field(&mut self, alloc: Global, name: &str, value: &'a Value) -> Result<(), Refusal> {
        if name == "indexes" {
            self.indexes = Some(new_indexes_in(alloc, value)?);
            Ok(())
        } else {
            self.common.read_field(alloc, name, value)
        }
    }
}

/// Reads a `createIndexes` from the value of its name, which is the collection's, and its further fields.
pub(crate) fn read_create_indexes<'a>(
    alloc: Global,
    collection: &Value,
    pairs: &'a [Pair],
) -> Result<Command<'a>, Refusal>
    ensures { Gives Refusal.OutOfMemory command_read result
        (as_command create_indexes (read_create_indexes (tree collection.now) (pairs_of pairs.now))) }
{
    let name = text_in(collection)?;
    let none = CreateIndexesFields {
        common: CommonFields::new(),
        indexes: None,
    };
    let CreateIndexesFields { common, indexes } = read_fields(alloc, none, pairs)?;
    let database = common.database()?;
    let indexes = indexes.ok_or(Refusal::FailedToParse)?;
    Ok(Command::CreateIndexes(CreateIndexes {
        namespace: namespace_of(alloc, database, name)?,
        indexes,
    }))
}
