//! `drop`: a collection is taken away.

ghost use Rattle.bson.specs.View.{tree, pairs_of};
ghost use Rattle.outcome.specs.Outcome.{Gives};
ghost use Rattle.command_model.specs.DropCollection.{read_drop};
ghost use Rattle.command_model.specs.Command.{as_command, drop};
ghost use Rattle.commands.specs.View.{command_read};

use crate::alone::read_alone;
use crate::command::Command;
use bson::{Pair, Value};
use path::Refusal;
use std::alloc::Global;

/// A collection to be taken away.
#[derive(Drop)]
pub struct DropCollection {
    pub namespace: String,
}

/// Reads a `drop` from the value of its name, which is the collection's, and its further fields.
pub(crate) fn read_drop<'a>(
    alloc: Global,
    collection: &Value,
    pairs: &'a [Pair],
) -> Result<Command<'a>, Refusal>
    ensures { Gives Refusal.OutOfMemory command_read result
        (as_command drop (read_drop (tree collection.now) (pairs_of pairs.now))) }
{
    Ok(Command::Drop(DropCollection {
        namespace: read_alone(alloc, collection, pairs)?,
    }))
}
