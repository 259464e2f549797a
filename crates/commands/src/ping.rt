//! `ping`: is the server there?

ghost use Rattle.bson.specs.View.{tree, pairs_of};
ghost use Rattle.outcome.specs.Outcome.{Gives};
ghost use Rattle.command_model.specs.Command.{as_command, ping};
ghost use Rattle.command_model.specs.Ping.{check_common, read_ping};
ghost use Rattle.commands.specs.View.{command_read};

use crate::command::Command;
use crate::fields::{CommonFields, read_fields};
use crate::names::is_bad_database;
use bson::{Pair, Value};
use path::Refusal;
use std::alloc::Global;

/// Checks what stands beside a command that has no fields of its own.
pub(crate) fn check_common(alloc: Global, pairs: &[Pair]) -> Result<(), Refusal>
    ensures { Gives Refusal.OutOfMemory (λ x. x) result (check_common (pairs_of pairs.now)) }
{
    let found = read_fields(alloc, CommonFields::new(), pairs)?;
    if is_bad_database(found.database()?) {
        return Err(Refusal::InvalidNamespace);
    }
    Ok(())
}

/// Reads a `ping`, whose value is read over.
pub(crate) fn read_ping<'a>(
    alloc: Global,
    value: &Value,
    pairs: &'a [Pair],
) -> Result<Command<'a>, Refusal>
    ensures { Gives Refusal.OutOfMemory command_read result
        (as_command (λ _. ping) (read_ping (tree value.now) (pairs_of pairs.now))) }
{
    let _ = value;
    check_common(alloc, pairs)?;
    Ok(Command::Ping)
}
