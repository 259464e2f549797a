//! The table of the operators.
//!
//! One more operator is one more entry here (its name, how its operand is read, what it does at a path), an `Action`,
//! and a file that does it.

ghost use Rattle.std.specs.Prelude.{◌≡◌};
ghost use Rattle.bson.specs.View.{tree};
ghost use Rattle.outcome.specs.Outcome.{Gives};
ghost use Rattle.filter.specs.IdPaths.{begins_with_id};
ghost use Rattle.update_model.specs.Operators.{operator_of, editable_path, new_path, read_action, apply_action};
ghost use Rattle.update.specs.View.{action_of};

use crate::arrays::{Pushed, items_to_push, pull_at};
use crate::bounds::{Lowered, Raised};
use crate::edit::Action;
use crate::numbers::{Incremented, Number};
use crate::renames::rename_at;
use crate::stored::ID;
use bson::{Document, Value};
use filter::{Condition, path_in};
use path::{Path, Refusal, remove_from, write_into, write_new};
use std::alloc::Global;
use update_model::Operator;

/// The operator of a name.
pub(crate) fn operator_of(name: &str) -> Option<Operator>
    ensures { result ≡ operator_of name.now }
{
    match name {
        _ if name == "$set" => Some(Operator::Set),
        _ if name == "$unset" => Some(Operator::Unset),
        _ if name == "$inc" => Some(Operator::Increment),
        _ if name == "$min" => Some(Operator::Least),
        _ if name == "$max" => Some(Operator::Greatest),
        _ if name == "$push" => Some(Operator::Push),
        _ if name == "$pull" => Some(Operator::Pull),
        _ if name == "$rename" => Some(Operator::Rename),
        _ => None,
    }
}

/// What an operator does with this operand.
pub(crate) fn read_action(
    alloc: Global,
    operator: Operator,
    value: &Value,
) -> Result<Action, Refusal>
    ensures { Gives Refusal.OutOfMemory action_of result (read_action operator (tree value.now)) }
{
    match operator {
        Operator::Set => Ok(Action::Set(value.copy()?)),
        Operator::Unset => Ok(Action::Unset),
        Operator::Increment => Ok(Action::Increment(Number::read(value)?)),
        Operator::Least => Ok(Action::AtMost(value.copy()?)),
        Operator::Greatest => Ok(Action::AtLeast(value.copy()?)),
        Operator::Push => Ok(Action::Push(items_to_push(alloc, value)?)),
        Operator::Pull => Ok(Action::Pull(Condition::read_element(alloc, value)?)),
        Operator::Rename => Ok(Action::Rename(new_path(alloc, value)?)),
    }
}

/// What an action makes of a document at a path.
pub(crate) fn apply_action(
    alloc: Global,
    document: Document,
    path: &Path,
    action: &Action,
) -> Result<Document, Refusal>
    ensures { Gives Refusal.OutOfMemory (λ d. d) result
        (apply_action path.now (action_of action.now) document) }
{
    match action {
        Action::Set(value) => write_into(alloc, document, path, value.copy()?),
        Action::Unset => Ok(remove_from(document, path)),
        Action::Increment(by) => write_new(alloc, document, path, Incremented { by: *by }),
        Action::AtMost(operand) => write_new(alloc, document, path, Lowered { operand }),
        Action::AtLeast(operand) => write_new(alloc, document, path, Raised { operand }),
        Action::Push(items) => write_new(alloc, document, path, Pushed { alloc, items }),
        Action::Pull(condition) => pull_at(alloc, document, path, condition),
        Action::Rename(new) => rename_at(alloc, document, path, new),
    }
}

fn begins_with_id(path: &Path) -> bool
    ensures { result ≡ begins_with_id path.now }
{
    match path.parts() {
        [first, ..] => first.as_str() == ID,
        [] => false,
    }
}

/// The path that a name writes, where an update may change it: `ImmutableField` where it begins with `_id`.
pub(crate) fn editable_path(alloc: Global, name: &str) -> Result<Path, Refusal>
    ensures { Gives Refusal.OutOfMemory (λ p. p) result (editable_path name.now) }
{
    let path = path_in(alloc, name)?;
    if begins_with_id(&path) {
        return Err(Refusal::ImmutableField);
    }
    Ok(path)
}

/// The path to which `$rename` moves a value.
fn new_path(alloc: Global, value: &Value) -> Result<Path, Refusal>
    ensures { Gives Refusal.OutOfMemory (λ p. p) result (new_path (tree value.now)) }
{
    match value {
        Value::String(name) => editable_path(alloc, name.as_str()),
        _ => Err(Refusal::BadValue),
    }
}
