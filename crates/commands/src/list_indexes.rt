//! `listIndexes`: which indexes has a collection?

ghost use Rattle.bson.specs.View.{tree, pairs_of};
ghost use Rattle.outcome.specs.Outcome.{Gives};
ghost use Rattle.command_model.specs.ListIndexes.{read_list_indexes};
ghost use Rattle.command_model.specs.Command.{as_command, list_indexes};
ghost use Rattle.commands.specs.View.{command_read};

use crate::alone::read_alone;
use crate::command::Command;
use bson::{Pair, Value};
use path::Refusal;
use std::alloc::Global;

/// A collection whose indexes are listed.
#[derive(Drop)]
pub struct ListIndexes {
    pub namespace: String,
}

/// Reads a `listIndexes` from the value of its name, which is the collection's, and its further fields.
pub(crate) fn read_list_indexes<'a>(
    alloc: Global,
    collection: &Value,
    pairs: &'a [Pair],
) -> Result<Command<'a>, Refusal>
    ensures { Gives Refusal.OutOfMemory command_read result
        (as_command list_indexes (read_list_indexes (tree collection.now) (pairs_of pairs.now))) }
{
    Ok(Command::ListIndexes(ListIndexes {
        namespace: read_alone(alloc, collection, pairs)?,
    }))
}
