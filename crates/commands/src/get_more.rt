//! `getMore`: the next batch of a cursor.

ghost use Rattle.std.specs.Prelude.{◌≡◌};
ghost use Rattle.bson.specs.View.{tree, pairs_of};
ghost use Rattle.outcome.specs.Outcome.{Gives, Does};
ghost use Rattle.command_model.specs.GetMore.{batch_size_in, no_get_more_fields, get_more_field, read_get_more};
ghost use Rattle.command_model.specs.Command.{as_command, get_more};
ghost use Rattle.commands.specs.View.{command_read};

use crate::command::Command;
use crate::fields::{CommonFields, Fields, read_fields};
use crate::names::namespace_of;
use crate::values::{count_in, id_in, text_in};
use bson::{Pair, Value};
use path::Refusal;
use std::alloc::Global;
use std::marker::Model;

/// A cursor by its number, its namespace, and how many documents may go into the batch.
#[derive(Drop)]
pub struct GetMore {
    pub id: i64,
    pub namespace: String,
    pub batch_size: Option<usize>,
}

/// The fields of a `getMore` that were met so far.
#[derive(Drop)]
struct GetMoreFields<'a> {
    common: CommonFields<'a>,
    collection: Option<&'a str>,
    batch_size: Option<usize>,
}

impl<'a> Model for GetMoreFields<'a> {
    ghost use Rattle.std.specs.Prelude.{option_map};
    ghost use Rattle.command_model.specs.GetMore as mores;

    ghost Value = { mores.GetMoreFields };

    ghost view = { λ a. record {
      common = a.common;
      collection = option_map (λ s. s.now) a.collection;
      batch_size = a.batch_size;
    } };
}

/// How many documents may go into a batch, at least one: `BadValue` for none.
fn batch_size_in(value: &Value) -> Result<usize, Refusal>
    ensures { Gives Refusal.OutOfMemory (λ n. n) result (batch_size_in (tree value.now)) }
{
    match count_in(value)? {
        0 => Err(Refusal::BadValue),
        number => Ok(number),
    }
}

impl<'a> Fields<'a> for GetMoreFields<'a> {
    ghost field = { get_more_field };

    fn read_field(&mut self, alloc: Global, name: &str, value: &'a Value) -> Result<(), Refusal> {
        if name == "collection" {
            self.collection = Some(text_in(value)?);
            Ok(())
        } else if name == "batchSize" {
            self.batch_size = Some(batch_size_in(value)?);
            Ok(())
        } else {
            self.common.read_field(alloc, name, value)
        }
    }
}

/// Reads a `getMore` from the value of its name, which is the cursor's number, and its further fields.
pub(crate) fn read_get_more<'a>(
    alloc: Global,
    id: &Value,
    pairs: &'a [Pair],
) -> Result<Command<'a>, Refusal>
    ensures { Gives Refusal.OutOfMemory command_read result
        (as_command get_more (read_get_more (tree id.now) (pairs_of pairs.now))) }
{
    let id = id_in(id)?;
    let none = GetMoreFields {
        common: CommonFields::new(),
        collection: None,
        batch_size: None,
    };
    let GetMoreFields {
        common,
        collection,
        batch_size,
    } = read_fields(alloc, none, pairs)?;
    let database = common.database()?;
    let collection = collection.ok_or(Refusal::FailedToParse)?;
    Ok(Command::GetMore(GetMore {
        id,
        namespace: namespace_of(alloc, database, collection)?,
        batch_size,
    }))
}
