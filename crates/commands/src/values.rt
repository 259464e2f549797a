//! The values that fields take.

ghost use Rattle.std.specs.Prelude.{◌≡◌};
ghost use Rattle.bson.specs.View.{tree};
ghost use Rattle.filter.specs.Parsing.{read_filter};
ghost use Rattle.outcome.specs.Outcome.{Gives};
ghost use Rattle.command_model.specs.Values.{text_in, bool_in, id_in, count_in, document_in, spelled_in};

use bson::{Document, Value};
use filter::Filter;
use path::Refusal;
use std::alloc::Global;

/// The text that a value is; `TypeMismatch` where it is none.
pub(crate) fn text_in(value: &Value) -> Result<&str, Refusal>
    ensures { Gives Refusal.OutOfMemory (λ s. s.now) result (text_in (tree value.now)) }
{
    match value {
        Value::String(text) => Ok(text.as_str()),
        _ => Err(Refusal::TypeMismatch),
    }
}

/// The boolean that a value is; `TypeMismatch` where it is none.
pub(crate) fn bool_in(value: &Value) -> Result<bool, Refusal>
    ensures { Gives Refusal.OutOfMemory (λ b. b) result (bool_in (tree value.now)) }
{
    match value {
        Value::Bool(boolean) => Ok(*boolean),
        _ => Err(Refusal::TypeMismatch),
    }
}

/// The number of a cursor: an int64 (else `TypeMismatch`).
pub(crate) fn id_in(value: &Value) -> Result<i64, Refusal>
    ensures { Gives Refusal.OutOfMemory (λ z. z) result (id_in (tree value.now)) }
{
    match value {
        Value::Int64(number) => Ok(*number),
        _ => Err(Refusal::TypeMismatch),
    }
}

/// The count that a value is: a number (else `TypeMismatch`) that is not negative (else `BadValue`).
pub(crate) fn count_in(value: &Value) -> Result<usize, Refusal>
    ensures { Gives Refusal.OutOfMemory (λ n. n) result (count_in (tree value.now)) }
{
    let number = match value {
        Value::Int32(number) => i64::from(*number),
        Value::Int64(number) => *number,
        _ => return Err(Refusal::TypeMismatch),
    };
    if number < 0 {
        return Err(Refusal::BadValue);
    }
    Ok(number as usize)
}

/// The document that a value is; `TypeMismatch` where it is none.
pub(crate) fn document_in(value: &Value) -> Result<&Document, Refusal>
    ensures { Gives Refusal.OutOfMemory (λ d. d.now) result (document_in (tree value.now)) }
{
    match value {
        Value::Document(document) => Ok(document),
        _ => Err(Refusal::TypeMismatch),
    }
}

/// The filter that a document spells; `TypeMismatch` where the value is none.
pub(crate) fn filter_in(alloc: Global, value: &Value) -> Result<Filter, Refusal>
    ensures { Gives Refusal.OutOfMemory (λ f. f) result
        (spelled_in read_filter (tree value.now)) }
{
    Filter::read(alloc, document_in(value)?)
}
