//! What operators are given.

ghost use Rattle.std.specs.Prelude.{◌≡◌, IfOk, Ok, map};
ghost use Rattle.bson.specs.View.{tree};
ghost use Rattle.outcome.specs.Outcome.{Gives};
ghost use Rattle.bson.specs.Kinds.{kind_byte};
ghost use Rattle.path.specs.Edits.{if_ok};
ghost use Rattle.filter.specs.Condition.{equals, is, equal, of_kinds, not_all};
ghost use Rattle.filter.specs.Words.{all_kinds};
ghost use Rattle.filter.specs.Parsing.{path_in, just, has_operators, order_operand, array_in, every, exists, read_operation};
ghost use Rattle.filter.specs.View.{condition_of};

use crate::condition::{Comparison, Condition, Filter, Predicate};
use crate::operator::{Operator, all_kinds, size_in};
use crate::value_set::ValueSet;
use bson::{Array, Document, NoMemory, Value};
use path::{Path, Refusal, begins_with_dollar};
use std::alloc::Global;

/// From how many values on one is found by halving, and not by asking one condition after the other.
const MANY: usize = 8;

/// The path that a name writes, or the refusal of its fault.
pub fn path_in(alloc: Global, name: &str) -> Result<Path, Refusal>
    ensures { Gives Refusal.OutOfMemory (λ p. p) result (path_in name.now) }
{
    match Path::parse(alloc, name) {
        Ok(path) => Ok(path),
        Err(fault) => Err(fault.refusal()),
    }
}

/// Whether the first name of a document begins with `$`.
pub fn has_operators(document: &Document) -> bool
    ensures { result ≡ has_operators document.now }
{
    match document.pairs() {
        [first, ..] => begins_with_dollar(first.name.as_str()),
        [] => false,
    }
}

/// The filter of this one condition.
pub(crate) fn just(alloc: Global, condition: Condition) -> Result<Filter, NoMemory>
    ensures { IfOk result (λ f. f ≡ just (condition_of condition)) }
{
    let conditions = Vec::from_array(alloc, [condition])?;
    Ok(Filter {
        conditions,
        values: None,
    })
}

/// To be equal to a copy of this.
pub(crate) fn equal(value: &Value) -> Result<Condition, NoMemory>
    ensures { IfOk result (λ r. condition_of r ≡ is (equal (tree value.now))) }
{
    Ok(Condition::Is(Predicate::Equal(value.copy()?)))
}

fn order_operand(comparison: Comparison, value: &Value) -> Result<Condition, Refusal>
    ensures { Gives Refusal.OutOfMemory condition_of result
        (order_operand comparison (tree value.now)) }
{
    match value {
        Value::Null => Err(Refusal::BadValue),
        Value::MinKey => Err(Refusal::BadValue),
        Value::MaxKey => Err(Refusal::BadValue),
        _ => Ok(Condition::Is(Predicate::Ordered(comparison, value.copy()?))),
    }
}

/// One condition for each item: to be equal to it.
fn equals(alloc: Global, array: &Array) -> Result<Filter, NoMemory>
    ensures { IfOk result (λ f. f ≡ equals array.now) }
{
    let mut conditions = Vec::with_capacity(alloc, array.len())?;
    'items: for item in array.items() {
        conditions.push(equal(item)?)?;
    }
    Ok(Filter {
        conditions,
        values: None,
    })
}

fn array_in(value: &Value) -> Result<&Array, Refusal>
    ensures { Gives Refusal.OutOfMemory (λ a. a.now) result (array_in (tree value.now)) }
{
    match value {
        Value::Array(array) => Ok(array),
        _ => Err(Refusal::TypeMismatch),
    }
}

/// One condition for each item of the array that a value is: to be equal to it.
fn equals_in(alloc: Global, value: &Value) -> Result<Filter, Refusal>
    ensures { Gives Refusal.OutOfMemory (λ f. f) result
        (if_ok (array_in (tree value.now)) (λ ts. Ok (equals ts))) }
{
    Ok(equals(alloc, array_in(value)?)?)
}

/// The same conditions for where one of them is to hold: with many values it is told by the values in order.
fn one_of(alloc: Global, value: &Value) -> Result<Filter, Refusal>
    ensures { Gives Refusal.OutOfMemory (λ f. f) result
        (if_ok (array_in (tree value.now)) (λ ts. Ok (equals ts))) }
{
    let array = array_in(value)?;
    let conditions = equals(alloc, array)?.into_conditions();
    if array.len() < MANY {
        return Ok(Filter {
            conditions,
            values: None,
        });
    }
    let values = ValueSet::of(alloc, array.items())?;
    Ok(Filter {
        conditions,
        values: Some(values),
    })
}

/// To be of one of the kinds that a value names.
fn of_kinds(alloc: Global, value: &Value) -> Result<Condition, Refusal>
    ensures { Gives Refusal.OutOfMemory condition_of result
        (if_ok (all_kinds (tree value.now)) (λ ks. Ok (is (of_kinds (map kind_byte ks))))) }
{
    Ok(Condition::Is(Predicate::OfKinds(all_kinds(alloc, value)?)))
}

/// Not to be equal to a copy of this.
fn not_equal(alloc: Global, value: &Value) -> Result<Condition, NoMemory>
    ensures { IfOk result (λ r. condition_of r ≡ not_all (just (is (equal (tree value.now))))) }
{
    Ok(Condition::NotAll(just(alloc, equal(value)?)?))
}

fn every(filter: Filter) -> Condition
    ensures { condition_of result ≡ every filter }
{
    if filter.conditions.is_empty() {
        Condition::Any(filter)
    } else {
        Condition::All(filter)
    }
}

fn exists(alloc: Global, value: &Value) -> Result<Condition, Refusal>
    ensures { Gives Refusal.OutOfMemory condition_of result (exists (tree value.now)) }
{
    match value {
        Value::Bool(true) => Ok(Condition::Is(Predicate::There)),
        Value::Bool(false) => Ok(Condition::NotAll(just(alloc, Condition::Is(Predicate::There))?)),
        _ => Err(Refusal::TypeMismatch),
    }
}

/// The condition of an operator that looks at values.
pub(crate) fn read_operation(
    alloc: Global,
    operator: Operator,
    value: &Value,
) -> Result<Condition, Refusal>
    ensures { Gives Refusal.OutOfMemory condition_of result
        (read_operation operator (tree value.now)) }
{
    match operator {
        Operator::Equal => Ok(equal(value)?),
        Operator::Above => order_operand(Comparison::Above, value),
        Operator::AtLeast => order_operand(Comparison::AtLeast, value),
        Operator::Below => order_operand(Comparison::Below, value),
        Operator::AtMost => order_operand(Comparison::AtMost, value),
        Operator::In => Ok(Condition::Any(one_of(alloc, value)?)),
        Operator::Exists => exists(alloc, value),
        Operator::Type => of_kinds(alloc, value),
        Operator::All => Ok(every(equals_in(alloc, value)?)),
        Operator::Size => Ok(Condition::Is(Predicate::Size(size_in(value)?))),
        Operator::NotEqual => Ok(not_equal(alloc, value)?),
        Operator::NotIn => Ok(Condition::NotAny(one_of(alloc, value)?)),
    }
}
