//! What stages are given.

ghost use Rattle.std.specs.Prelude.{◌≡◌, option_map};
ghost use Rattle.bson.specs.View.{tree};
ghost use Rattle.outcome.specs.Outcome.{Gives};
ghost use Rattle.aggregate_model.specs.Operands.{document_in, text_in, no_less, number_in, only_pair, only_pair_in};
ghost use Rattle.aggregate_model.specs.Operands.{dollar_path, source_path, dollar_path_in};

use bson::{Document, Pair, Value};
use path::{Path, PathFault, Refusal};
use std::alloc::Global;

/// The document that a stage is given.
pub(crate) fn document_in(value: &Value) -> Result<&Document, Refusal>
    ensures { Gives Refusal.OutOfMemory (λ d. d.now) result (document_in (tree value.now)) }
{
    match value {
        Value::Document(document) => Ok(document),
        _ => Err(Refusal::FailedToParse),
    }
}

/// The text that a stage is given.
pub(crate) fn text_in(value: &Value) -> Result<&str, Refusal>
    ensures { Gives Refusal.OutOfMemory (λ t. t.now) result (text_in (tree value.now)) }
{
    match value {
        Value::String(text) => Ok(text.as_str()),
        _ => Err(Refusal::FailedToParse),
    }
}

fn no_less(least: usize, number: i64) -> Result<usize, Refusal>
    ensures { Gives Refusal.OutOfMemory (λ n. n) result (no_less least number) }
{
    if number < 0 {
        return Err(Refusal::FailedToParse);
    }
    let number = number as usize;
    if number < least {
        return Err(Refusal::FailedToParse);
    }
    Ok(number)
}

/// The whole number that a stage is given, which is no less than `least`.
pub(crate) fn number_in(least: usize, value: &Value) -> Result<usize, Refusal>
    ensures { Gives Refusal.OutOfMemory (λ n. n) result (number_in least (tree value.now)) }
{
    match value {
        Value::Int32(number) => no_less(least, i64::from(*number)),
        Value::Int64(number) => no_less(least, *number),
        _ => Err(Refusal::FailedToParse),
    }
}

/// The pair of a document that has no other.
fn only_pair(document: &Document) -> Result<&Pair, Refusal>
    ensures { Gives Refusal.OutOfMemory (λ p. (p.now.name, tree p.now.value)) result
        (only_pair document.now) }
{
    match document.pairs() {
        [] => Err(Refusal::FailedToParse),
        [only] => Ok(only),
        [_, _, ..] => Err(Refusal::FailedToParse),
    }
}

/// The name and the value of a document that has no other pair.
pub(crate) fn only_pair_in(value: &Value) -> Result<(&str, &Value), Refusal>
    ensures { Gives Refusal.OutOfMemory (λ p. (p.0.now, tree p.1.now)) result
        (only_pair_in (tree value.now)) }
{
    let pair = only_pair(document_in(value)?)?;
    Ok((pair.name.as_str(), &pair.value))
}

/// What stands behind the `$` of a text that begins with it.
pub(crate) fn dollar_path(text: &str) -> Option<&str>
    ensures { option_map (λ t. t.now) result ≡ dollar_path text.now }
{
    text.strip_prefix('$')
}

/// The path that stands behind a `$`.
pub(crate) fn source_path(alloc: Global, name: &str) -> Result<Path, Refusal>
    ensures { Gives Refusal.OutOfMemory (λ p. p) result (source_path name.now) }
{
    match Path::parse(alloc, name) {
        Ok(path) => Ok(path),
        Err(PathFault::Memory) => Err(Refusal::OutOfMemory),
        Err(PathFault::Empty) => Err(Refusal::FailedToParse),
        Err(PathFault::EmptyPart) => Err(Refusal::FailedToParse),
        Err(PathFault::Dollar) => Err(Refusal::FailedToParse),
        Err(PathFault::TooLong) => Err(Refusal::FailedToParse),
        Err(PathFault::Zero) => Err(Refusal::FailedToParse),
    }
}

/// The path of a text that begins with `$`.
pub(crate) fn dollar_path_in(alloc: Global, value: &Value) -> Result<Path, Refusal>
    ensures { Gives Refusal.OutOfMemory (λ p. p) result (dollar_path_in (tree value.now)) }
{
    match dollar_path(text_in(value)?) {
        Some(name) => source_path(alloc, name),
        None => Err(Refusal::FailedToParse),
    }
}
