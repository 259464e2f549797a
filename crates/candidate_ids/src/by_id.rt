//! Filters that ask for `_id`s: their documents are looked up, and no others are read.

ghost use Rattle.std.specs.Prelude.{◌≡◌, true, IfOk, IfSome, OnOk, Some, [], ◌∷◌};
ghost use Rattle.std.specs.Ordering.{is_eq};
ghost use Rattle.bson.specs.View.{tree};
ghost use Rattle.filter.specs.Matches.{along, any_holds, holds, matches, whole};
ghost use Rattle.filter.specs.IdPaths.{is_id};
ghost use Rattle.filter.specs.View.{condition_of, conditions_of};
ghost use Rattle.index.specs.View.{texts_of};
ghost use Rattle.asked_documents.specs.ById.{ArePut, TellIds, TellValues};
ghost use Rattle.value_order.specs.Order.{compare};

use bson::{NoMemory, Value};
use filter::{Condition, Filter, Predicate};
use path::Path;
use planner::short_text;
use std::alloc::Global;

/// Whether a path is `_id`.
pub fn is_id(path: &Path) -> bool
    ensures { result ≡ is_id path.now }
{
    match path.parts() {
        [only] => only.as_str() == "_id",
        _ => false,
    }
}

/// Puts the key text of a value behind others; false where it is longer than that of a stored document's `_id` may be.
pub fn put_id(alloc: Global, ids: &mut Vec<Vec<u8>>, value: &Value) -> Result<bool, NoMemory>
    ensures put { OnOk result (ArePut (texts_of ids.old.items) (texts_of ids.new.items)) }
    ensures tells { IfOk result (λ told. told ≡ true
        → TellValues (λ t. is_eq (compare t (tree value.now))) (texts_of ids.new.items)) }
{
    let Some(text) = short_text(alloc, value)? else {
        return Ok(false);
    };
    ids.push(text)?;
    Ok(true)
}

/// Puts the text of the value that a condition asks to be equal to; false where it asks something else.
fn put_equal(alloc: Global, ids: &mut Vec<Vec<u8>>, condition: &Condition) -> Result<bool, NoMemory>
    ensures put { OnOk result (ArePut (texts_of ids.old.items) (texts_of ids.new.items)) }
    ensures tells { IfOk result (λ told. told ≡ true
        → TellValues (λ t. holds (condition_of condition.now) (along (Some t ∷ [])))
        (texts_of ids.new.items)) }
{
    match condition {
        Condition::Is(Predicate::Equal(value)) => put_id(alloc, ids, value),
        _ => Ok(false),
    }
}

/// Puts the texts of the values to which conditions ask to be equal; false where one of them asks something else.
fn put_each(
    alloc: Global,
    ids: &mut Vec<Vec<u8>>,
    conditions: &[Condition],
) -> Result<bool, NoMemory>
    ensures put { OnOk result (ArePut (texts_of ids.old.items) (texts_of ids.new.items)) }
    ensures tells { IfOk result (λ told. told ≡ true
        → TellValues (λ t. any_holds (conditions_of conditions.now) (along (Some t ∷ [])))
        (texts_of ids.new.items)) }
{
    'conditions: for condition in conditions {
        if !put_equal(alloc, ids, condition)? {
            return Ok(false);
        }
    }
    Ok(true)
}

/// Puts the texts of the values of which a condition asks to be equal to one; false where it asks something else.
fn put_asked(alloc: Global, ids: &mut Vec<Vec<u8>>, condition: &Condition) -> Result<bool, NoMemory>
    ensures put { OnOk result (ArePut (texts_of ids.old.items) (texts_of ids.new.items)) }
    ensures tells { IfOk result (λ told. told ≡ true
        → TellValues (λ t. holds (condition_of condition.now) (along (Some t ∷ [])))
        (texts_of ids.new.items)) }
{
    match condition {
        Condition::Any(members) => put_each(alloc, ids, members.conditions()),
        _ => put_equal(alloc, ids, condition),
    }
}

/// Puts the texts of the values of which a condition asks the `_id` to be equal to one; false where that isn't the first thing it asks.
fn put_at(alloc: Global, ids: &mut Vec<Vec<u8>>, condition: &Condition) -> Result<bool, NoMemory>
    ensures put { OnOk result (ArePut (texts_of ids.old.items) (texts_of ids.new.items)) }
    ensures tells { IfOk result (λ told. told ≡ true
        → TellIds (λ d. holds (condition_of condition.now) (whole d)) (texts_of ids.new.items)) }
{
    let Condition::At(path, asked) = condition else {
        return Ok(false);
    };
    if !is_id(path) {
        return Ok(false);
    }
    match asked.conditions() {
        [first, ..] => put_asked(alloc, ids, first),
        [] => Ok(false),
    }
}

/// Puts the key texts of the `_id`s that a filter asks for behind others: a stored document that it matches has one of them. False
/// where it asks for none, or for one whose text is too long; some of the texts may stand there then.
pub(crate) fn put_ids(
    alloc: Global,
    ids: &mut Vec<Vec<u8>>,
    filter: &Filter,
) -> Result<bool, NoMemory>
    ensures put { OnOk result (ArePut (texts_of ids.old.items) (texts_of ids.new.items)) }
    ensures tells { IfOk result (λ told. told ≡ true
        → TellIds (matches filter.now) (texts_of ids.new.items)) }
{
    'conditions: for condition in filter.conditions() {
        if put_at(alloc, ids, condition)? {
            return Ok(true);
        }
    }
    Ok(false)
}
