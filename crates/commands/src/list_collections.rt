//! `listCollections`: which collections has a database?

ghost use Rattle.bson.specs.View.{tree, pairs_of};
ghost use Rattle.outcome.specs.Outcome.{Gives};
ghost use Rattle.command_model.specs.ListCollections.{read_list_collections};
ghost use Rattle.command_model.specs.Command.{as_command, list_collections};
ghost use Rattle.commands.specs.View.{command_read};

use crate::command::Command;
use crate::fields::{CommonFields, read_fields};
use crate::names::is_bad_database;
use bson::{Pair, Value};
use path::Refusal;
use std::alloc::Global;

/// A database whose collections are listed.
#[derive(Drop)]
pub struct ListCollections<'a> {
    pub database: &'a str,
}

/// Reads a `listCollections`, whose value is read over.
pub(crate) fn read_list_collections<'a>(
    alloc: Global,
    value: &Value,
    pairs: &'a [Pair],
) -> Result<Command<'a>, Refusal>
    ensures { Gives Refusal.OutOfMemory command_read result
        (as_command list_collections (read_list_collections (tree value.now) (pairs_of pairs.now))) }
{
    let _ = value;
    let found = read_fields(alloc, CommonFields::new(), pairs)?;
    let database = found.database()?;
    if is_bad_database(database) {
        return Err(Refusal::InvalidNamespace);
    }
    Ok(Command::ListCollections(ListCollections { database }))
}
