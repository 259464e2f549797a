//! `killCursors`: cursors that are to end.

ghost use Rattle.std.specs.Prelude.{◌≡◌};
ghost use Rattle.bson.specs.View.{tree, pairs_of, items_of};
ghost use Rattle.outcome.specs.Outcome.{Gives, Does};
ghost use Rattle.command_model.specs.KillCursors.{no_kill_cursors_fields, ids_in, kill_cursors_field, read_kill_cursors};
ghost use Rattle.command_model.specs.Statements.{each_of};
ghost use Rattle.command_model.specs.Values.{id_in};
ghost use Rattle.command_model.specs.Command.{as_command, kill_cursors};
ghost use Rattle.commands.specs.View.{command_read};

use crate::command::Command;
use crate::fields::{CommonFields, Fields, read_fields};
use crate::names::namespace_of;
use crate::statements::statements_in;
use crate::values::{id_in, text_in};
use bson::{Pair, Value};
use path::Refusal;
use std::alloc::Global;
use std::marker::Model;

/// From 1 to 1,000 cursors of a namespace, by their numbers.
#[derive(Drop)]
pub struct KillCursors {
    pub namespace: String,
    pub cursors: Vec<i64>,
}

/// The fields of a `killCursors` that were met so far.
#[derive(Drop)]
struct KillCursorsFields<'a> {
    common: CommonFields<'a>,
    cursors: Option<Vec<i64>>,
}

impl<'a> Model for KillCursorsFields<'a> {
    ghost use Rattle.std.specs.Prelude.{option_map};
    ghost use Rattle.command_model.specs.KillCursors as kills;

    ghost Value = { kills.KillCursorsFields };

    ghost view = { λ a. record {
      common = a.common;
      cursors = option_map (λ v. v.items) a.cursors;
    } };
}

/// The numbers that the items of an array are.
fn all_ids(alloc: Global, items: &[Value]) -> Result<Vec<i64>, Refusal>
    ensures { Gives Refusal.OutOfMemory (λ v. v.items) result
        (each_of id_in (items_of items.now)) }
{
    let mut ids = Vec::with_capacity(alloc, items.len())?;
    'items: for item in items {
        ids.push(id_in(item)?)?;
    }
    Ok(ids)
}

/// The numbers of a `killCursors`.
fn ids_in(alloc: Global, value: &Value) -> Result<Vec<i64>, Refusal>
    ensures { Gives Refusal.OutOfMemory (λ v. v.items) result (ids_in (tree value.now)) }
{
    all_ids(alloc, statements_in(value)?)
}

impl<'a> Fields<'a> for KillCursorsFields<'a> {
    ghost field = { kill_cursors_field };

    fn read_field(&mut self, alloc: Global, name: &str, value: &'a Value) -> Result<(), Refusal> {
        if name == "cursors" {
            self.cursors = Some(ids_in(alloc, value)?);
            Ok(())
        } else {
            self.common.read_field(alloc, name, value)
        }
    }
}

/// Reads a `killCursors` from the value of its name, which is the collection's, and its further fields.
pub(crate) fn read_kill_cursors<'a>(
    alloc: Global,
    collection: &Value,
    pairs: &'a [Pair],
) -> Result<Command<'a>, Refusal>
    ensures { Gives Refusal.OutOfMemory command_read result
        (as_command kill_cursors (read_kill_cursors (tree collection.now) (pairs_of pairs.now))) }
{
    let name = text_in(collection)?;
    let none = KillCursorsFields {
        common: CommonFields::new(),
        cursors: None,
    };
    let KillCursorsFields { common, cursors } = read_fields(alloc, none, pairs)?;
    let database = common.database()?;
    let cursors = cursors.ok_or(Refusal::FailedToParse)?;
    Ok(Command::KillCursors(KillCursors {
        namespace: namespace_of(alloc, database, name)?,
        cursors,
    }))
}
