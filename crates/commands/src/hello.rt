//! `hello`: what does a client have to know of the server?

ghost use Rattle.bson.specs.View.{tree, pairs_of};
ghost use Rattle.outcome.specs.Outcome.{Gives};
ghost use Rattle.command_model.specs.Command.{as_command, hello};
ghost use Rattle.command_model.specs.Hello.{read_hello};
ghost use Rattle.commands.specs.View.{command_read};

use crate::command::Command;
use crate::ping::check_common;
use bson::{Pair, Value};
use path::Refusal;
use std::alloc::Global;

/// Reads a `hello`, whose value is read over.
pub(crate) fn read_hello<'a>(
    alloc: Global,
    value: &Value,
    pairs: &'a [Pair],
) -> Result<Command<'a>, Refusal>
    ensures { Gives Refusal.OutOfMemory command_read result
        (as_command (λ _. hello) (read_hello (tree value.now) (pairs_of pairs.now))) }
{
    let _ = value;
    check_common(alloc, pairs)?;
    Ok(Command::Hello)
}
