//! `dropIndexes`: indexes of a collection are taken away.

ghost use Rattle.std.specs.Prelude.{◌≡◌};
ghost use Rattle.bson.specs.View.{tree, pairs_of};
ghost use Rattle.outcome.specs.Outcome.{Gives, Does};
ghost use Rattle.command_model.specs.DropIndexes.{dropped_by, no_drop_indexes_fields, drop_indexes_field, read_drop_indexes};
ghost use Rattle.command_model.specs.Command.{as_command, drop_indexes};
ghost use Rattle.commands.specs.View.{dropped_of, command_read};

use crate::command::Command;
use crate::fields::{CommonFields, Fields, read_fields};
use crate::names::namespace_of;
use crate::values::text_in;
use bson::{Pair, Value};
use path::Refusal;
use std::alloc::Global;
use std::marker::Model;

/// Which indexes of a collection are taken away.
#[derive(Drop)]
pub enum DroppedIndexes<'a> {
    /// The index of this name.
    Named(&'a str),
    /// All but that on `_id`.
    All,
}

/// Indexes to be taken away.
#[derive(Drop)]
pub struct DropIndexes<'a> {
    pub namespace: String,
    pub indexes: DroppedIndexes<'a>,
}

/// `*` stands for all, also where an index is called so.
fn dropped_by(name: &str) -> DroppedIndexes<'_>
    ensures { dropped_of result ≡ dropped_by name.now }
{
    if name == "*" {
        DroppedIndexes::All
    } else {
        DroppedIndexes::Named(name)
    }
}

/// The fields of a `dropIndexes` that were met so far.
#[derive(Drop)]
struct DropIndexesFields<'a> {
    common: CommonFields<'a>,
    index: Option<&'a str>,
}

impl<'a> Model for DropIndexesFields<'a> {
    ghost use Rattle.std.specs.Prelude.{option_map};
    ghost use Rattle.command_model.specs.DropIndexes as drops;

    ghost Value = { drops.DropIndexesFields };

    ghost view = { λ a. record {
      common = a.common;
      index = option_map (λ s. s.now) a.index;
    } };
}

impl<'a> Fields<'a> for DropIndexesFields<'a> {
    ghost field = { drop_indexes_field };

    fn read_field(&mut self, alloc: Global, name: &str, value: &'a Value) -> Result<(), Refusal> {
        if name == "index" {
            self.index = Some(text_in(value)?);
            Ok(())
        } else {
            self.common.read_field(alloc, name, value)
        }
    }
}

/// Reads a `dropIndexes` from the value of its name, which is the collection's, and its further fields.
pub(crate) fn read_drop_indexes<'a>(
    alloc: Global,
    collection: &Value,
    pairs: &'a [Pair],
) -> Result<Command<'a>, Refusal>
    ensures { Gives Refusal.OutOfMemory command_read result
        (as_command drop_indexes (read_drop_indexes (tree collection.now) (pairs_of pairs.now))) }
{
    let name = text_in(collection)?;
    let none = DropIndexesFields {
        common: CommonFields::new(),
        index: None,
    };
    let DropIndexesFields { common, index } = read_fields(alloc, none, pairs)?;
    let database = common.database()?;
    let index = index.ok_or(Refusal::FailedToParse)?;
    Ok(Command::DropIndexes(DropIndexes {
        namespace: namespace_of(alloc, database, name)?,
        indexes: dropped_by(index),
    }))
}
