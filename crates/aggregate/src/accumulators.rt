//! The table of the accumulators: what they make of values.
//!
//! One more accumulator is one more entry here (where it starts, what one value more makes of it, what it gives in the end),
//! a `State`, and its name in crate `pipelines`.

ghost use Rattle.std.specs.Prelude.{◌≡◌, ◌+ℤ◌, IfOk, OnOk, Ok, Some, if◌then◌else◌, option_map};
ghost use Rattle.bson.specs.Tree.{array};
ghost use Rattle.bson.specs.View.{tree, items_of};
ghost use Rattle.path.specs.Edits.{within};
ghost use Rattle.outcome.specs.Outcome.{Gives};
ghost use Rattle.filter.specs.Matches.{is_null};
ghost use Rattle.value_order.specs.Order.{compare};
ghost use Rattle.aggregate_model.specs.Accumulators.{start, is_below, lesser, greater, best_with, first_with};
ghost use Rattle.aggregate_model.specs.Accumulators.{pushed_with, take, outcome};
ghost use Rattle.aggregate_model.specs.Expression.{or_null};
ghost use Rattle.aggregate.specs.Found.{found_of};
ghost use Rattle.aggregate.specs.States.{state_of, total_of};

use crate::numbers::total_value;
use crate::path_value::Found;
use aggregate_model::Accumulator;
use bson::{Array, BuildFault, NoMemory, Value};
use path::Refusal;
use std::alloc::{AllocError, Global};
use std::cmp::Ordering;
use std::mem;
use value_order::compare;

/// The sum of the numbers so far, and whether all were int32.
#[derive(Drop)]
pub(crate) struct Total {
    pub narrow: bool,
    pub sum: i128,
}

/// What an accumulator has of the values so far.
#[derive(Drop)]
pub(crate) enum State {
    Total(Total),
    Least(Option<Value>),
    Greatest(Option<Value>),
    First(Option<Value>),
    Last(Option<Value>),
    Push(Vec<Value>),
}

/// A value, or null where it is missing.
pub(crate) fn or_null(found: Found<'_>) -> Result<Value, NoMemory>
    ensures { IfOk result (λ v. tree v ≡ or_null (found_of found.entry)) }
{
    match found.into_value()? {
        Some(value) => Ok(value),
        None => Ok(Value::Null),
    }
}

/// A sum and one number more. A list of as many numbers as would pass 128 bits is in no memory.
fn plus(total: i128, number: i64) -> Result<i128, NoMemory>
    ensures { IfOk result (λ z. z ≡ total +ℤ number) }
{
    match total.checked_add(i128::from(number)) {
        Some(sum) => Ok(sum),
        None => Err(AllocError),
    }
}

impl Total {
    /// Adds a value; what isn't a number is passed over, and what is missing.
    fn add(&mut self, value: Option<&Value>) -> Result<(), NoMemory>
        ensures { OnOk result (total_of self.new
            ≡ take (total_of self.old) (option_map (λ v. tree v.now) value.entry)) }
    {
        match value {
            Some(Value::Int32(number)) => self.sum = plus(self.sum, i64::from(*number))?,
            Some(Value::Int64(number)) => {
                self.sum = plus(self.sum, *number)?;
                self.narrow = false;
            }
            _ => {}
        }
        Ok(())
    }
}

fn is_below(a: &Value, b: &Value) -> bool
    ensures { result ≡ is_below (compare (tree a.now) (tree b.now)) }
{
    match compare(a, b) {
        Ordering::Less => true,
        Ordering::Equal | Ordering::Greater => false,
    }
}

fn is_null(value: &Value) -> bool
    ensures { result ≡ is_null (tree value.now) }
{
    match value {
        Value::Null => true,
        _ => false,
    }
}

/// Whether a value takes the place of the least so far; null and what is missing never do.
fn is_lesser(best: &Option<Value>, found: &Found<'_>) -> bool
    ensures { best_with lesser (option_map tree best.now) (found_of found.now)
        ≡ (if result then found_of found.now else option_map tree best.now) }
{
    let Some(value) = found.get() else {
        return false;
    };
    if is_null(value) {
        return false;
    }
    match best {
        None => true,
        Some(first) => is_below(value, first),
    }
}

/// Whether a value takes the place of the greatest so far; null and what is missing never do.
fn is_greater(best: &Option<Value>, found: &Found<'_>) -> bool
    ensures { best_with greater (option_map tree best.now) (found_of found.now)
        ≡ (if result then found_of found.now else option_map tree best.now) }
{
    let Some(value) = found.get() else {
        return false;
    };
    if is_null(value) {
        return false;
    }
    match best {
        None => true,
        Some(first) => is_below(first, value),
    }
}

/// Takes a value in the place of the best so far, if it is better.
fn take_better(best: &mut Option<Value>, found: Found<'_>, is_better: bool) -> Result<(), NoMemory>
    ensures { OnOk result (option_map tree best.new
        ≡ (if is_better then found_of found.entry else option_map tree best.old)) }
{
    if !is_better {
        drop(found);
        return Ok(());
    }
    let value = found.into_value()?;
    drop(mem::replace(best, value));
    Ok(())
}

/// Takes a value that is less than the least so far; null and what is missing are passed over.
fn take_lesser(best: &mut Option<Value>, found: Found<'_>) -> Result<(), NoMemory>
    ensures { OnOk result (option_map tree best.new
        ≡ best_with lesser (option_map tree best.old) (found_of found.entry)) }
{
    let is_better = is_lesser(best, &found);
    take_better(best, found, is_better)
}

/// Takes a value that is greater than the greatest so far; null and what is missing are passed over.
fn take_greater(best: &mut Option<Value>, found: Found<'_>) -> Result<(), NoMemory>
    ensures { OnOk result (option_map tree best.new
        ≡ best_with greater (option_map tree best.old) (found_of found.entry)) }
{
    let is_better = is_greater(best, &found);
    take_better(best, found, is_better)
}

fn take_first(first: &mut Option<Value>, found: Found<'_>) -> Result<(), NoMemory>
    ensures { OnOk result (option_map tree first.new
        ≡ first_with (option_map tree first.old) (found_of found.entry)) }
{
    if first.is_some() {
        drop(found);
        return Ok(());
    }
    take_last(first, found)
}

/// Takes a value in the place of the one before.
fn take_last(last: &mut Option<Value>, found: Found<'_>) -> Result<(), NoMemory>
    ensures { OnOk result (option_map tree last.new ≡ Some (or_null (found_of found.entry))) }
{
    let value = or_null(found)?;
    drop(mem::replace(last, Some(value)));
    Ok(())
}

/// Takes a value behind the others, if there is one.
fn push_value(values: &mut Vec<Value>, found: Found<'_>) -> Result<(), NoMemory>
    ensures { OnOk result (items_of values.new.items
        ≡ pushed_with (items_of values.old.items) (found_of found.entry)) }
{
    match found.into_value()? {
        Some(value) => {
            values.push(value)?;
            Ok(())
        }
        None => Ok(()),
    }
}

/// The array of values. `BadValue` where it would nest more than 99 levels.
fn array_of(alloc: Global, values: Vec<Value>) -> Result<Value, Refusal>
    ensures { Gives Refusal.OutOfMemory tree result
        (within 99 (Ok (array (items_of values.items)))) }
{
    let mut array = Array::new(alloc);
    'values: for value in values {
        match array.push(value) {
            Ok(()) => {}
            Err(BuildFault::Deep) => return Err(Refusal::BadValue),
            Err(BuildFault::Memory) => return Err(Refusal::OutOfMemory),
            Err(BuildFault::Name) => unreachable!(),
            Err(BuildFault::Repeated) => unreachable!(),
        }
    }
    let _levels = array.levels();
    Ok(Value::Array(array))
}

fn value_or_null(value: Option<Value>) -> Value
    ensures { tree result ≡ or_null (option_map tree value) }
{
    match value {
        Some(value) => value,
        None => Value::Null,
    }
}

impl State {
    /// What an accumulator has of no value.
    pub(crate) fn new(alloc: Global, accumulator: Accumulator) -> State
        ensures { state_of result ≡ start accumulator }
    {
        match accumulator {
            Accumulator::Sum => State::Total(Total {
                narrow: true,
                sum: 0,
            }),
            Accumulator::Least => State::Least(None),
            Accumulator::Greatest => State::Greatest(None),
            Accumulator::First => State::First(None),
            Accumulator::Last => State::Last(None),
            Accumulator::Push => State::Push(Vec::new(alloc)),
        }
    }

    /// Takes one value more.
    pub(crate) fn take(&mut self, found: Found<'_>) -> Result<(), NoMemory>
        ensures { OnOk result (state_of self.new
            ≡ take (state_of self.old) (found_of found.entry)) }
    {
        match self {
            State::Total(total) => {
                let added = total.add(found.get());
                drop(found);
                added
            }
            State::Least(best) => take_lesser(best, found),
            State::Greatest(best) => take_greater(best, found),
            State::First(first) => take_first(first, found),
            State::Last(last) => take_last(last, found),
            State::Push(values) => push_value(values, found),
        }
    }

    /// What it gives in the end. `BadValue` for a sum past int64 and for an array that would nest too deep.
    pub(crate) fn outcome(self, alloc: Global) -> Result<Value, Refusal>
        ensures { Gives Refusal.OutOfMemory tree result (outcome (state_of self)) }
    {
        match self {
            State::Total(total) => total_value(total.narrow, total.sum),
            State::Least(value) => Ok(value_or_null(value)),
            State::Greatest(value) => Ok(value_or_null(value)),
            State::First(value) => Ok(value_or_null(value)),
            State::Last(value) => Ok(value_or_null(value)),
            State::Push(values) => array_of(alloc, values),
        }
    }
}
