//! The documents or statements of one command.

ghost use Rattle.bson.specs.View.{tree, items_of};
ghost use Rattle.outcome.specs.Outcome.{Gives};
ghost use Rattle.command_model.specs.Statements.{statements_in, some_in};

use bson::Value;
use path::Refusal;

/// The most documents or statements of one command.
pub const MOST_STATEMENTS: usize = 1_000;

/// The items of the array that a value is: at least one, else `BadValue`; `TypeMismatch` where it is no array.
pub(crate) fn some_in(value: &Value) -> Result<&[Value], Refusal>
    ensures { Gives Refusal.OutOfMemory (λ items. items_of items.now) result
        (some_in (tree value.now)) }
{
    let Value::Array(array) = value else {
        return Err(Refusal::TypeMismatch);
    };
    if array.is_empty() {
        return Err(Refusal::BadValue);
    }
    Ok(array.items())
}

/// The items of the array that a value is: at least one (else `BadValue`), and at most 1,000 (else `TooMany`);
/// `TypeMismatch` where it is no array.
pub(crate) fn statements_in(value: &Value) -> Result<&[Value], Refusal>
    ensures { Gives Refusal.OutOfMemory (λ items. items_of items.now) result
        (statements_in (tree value.now)) }
{
    let Value::Array(array) = value else {
        return Err(Refusal::TypeMismatch);
    };
    if MOST_STATEMENTS < array.len() {
        return Err(Refusal::TooMany);
    }
    if array.is_empty() {
        return Err(Refusal::BadValue);
    }
    Ok(array.items())
}
