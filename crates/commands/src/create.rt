//! `create`: a collection is made.

ghost use Rattle.bson.specs.View.{tree, pairs_of};
ghost use Rattle.outcome.specs.Outcome.{Gives};
ghost use Rattle.command_model.specs.Create.{read_create};
ghost use Rattle.command_model.specs.Command.{as_command, create};
ghost use Rattle.commands.specs.View.{command_read};

use crate::alone::read_alone;
use crate::command::Command;
use bson::{Pair, Value};
use path::Refusal;
use std::alloc::Global;

/// A collection to be made.
#[derive(Drop)]
pub struct Create {
    pub namespace: String,
}

/// Reads a `create` from the value of its name, which is the collection's, and its further fields.
pub(crate) fn read_create<'a>(
    alloc: Global,
    collection: &Value,
    pairs: &'a [Pair],
) -> Result<Command<'a>, Refusal>
    ensures { Gives Refusal.OutOfMemory command_read result
        (as_command create (read_create (tree collection.now) (pairs_of pairs.now))) }
{
    Ok(Command::Create(Create {
        namespace: read_alone(alloc, collection, pairs)?,
    }))
}
