//! Filters from the documents that spell them.

ghost use Rattle.std.specs.Prelude.{◌≡◌};
ghost use Rattle.bson.specs.View.{tree};
ghost use Rattle.outcome.specs.Outcome.{Gives};
ghost use Rattle.filter.specs.Parsing.{named_condition, operation, read_filter, read_members, read_filters, read_member, read_operand, read_operators, read_element, read_not};
ghost use Rattle.filter.specs.View.{condition_of};

use crate::condition::{Condition, Filter};
use crate::operands::{equal, has_operators, just, path_in, read_operation};
use crate::operator::operator_of;
use bson::{Array, Document, Value};
use path::Refusal;
use std::alloc::Global;

impl Filter {
    /// The filter that a document spells, or the first misuse from the left.
    pub fn read(alloc: Global, document: &Document) -> Result<Filter, Refusal>
        ensures { Gives Refusal.OutOfMemory (λ f. f) result (read_filter document.now) }
    {
        read_filter(alloc, document)
    }
}

/// All pairs of a filter.
#[cycle(parsing)]
fn read_filter(alloc: Global, document: &Document) -> Result<Filter, Refusal>
    ensures { Gives Refusal.OutOfMemory (λ f. f) result (read_filter document.now) }
{
    let mut conditions = Vec::with_capacity(alloc, document.len())?;
    'pairs: for pair in document.pairs() {
        let condition = read_condition(alloc, pair.name.as_str(), &pair.value)?;
        conditions.push(condition)?;
    }
    Ok(Filter {
        conditions,
        values: None,
    })
}

/// One pair: a list of filters, or a path and what is asked there.
#[cycle(parsing)]
fn read_condition(alloc: Global, name: &str, value: &Value) -> Result<Condition, Refusal>
    ensures { Gives Refusal.OutOfMemory condition_of result
        (named_condition name.now (read_members (tree value.now)) (read_operand (tree value.now))) }
{
    if name == "$and" {
        return Ok(Condition::All(read_members(alloc, value)?));
    }
    if name == "$or" {
        return Ok(Condition::Any(read_members(alloc, value)?));
    }
    if name == "$nor" {
        return Ok(Condition::NotAny(read_members(alloc, value)?));
    }
    let path = path_in(alloc, name)?;
    Ok(Condition::At(path, read_operand(alloc, value)?))
}

/// A list of filters that isn't empty.
#[cycle(parsing)]
fn read_members(alloc: Global, value: &Value) -> Result<Filter, Refusal>
    ensures { Gives Refusal.OutOfMemory (λ f. f) result (read_members (tree value.now)) }
{
    match value {
        Value::Array(array) if array.is_empty() => Err(Refusal::BadValue),
        Value::Array(array) => read_filters(alloc, array),
        _ => Err(Refusal::TypeMismatch),
    }
}

#[cycle(parsing)]
fn read_filters(alloc: Global, array: &Array) -> Result<Filter, Refusal>
    ensures { Gives Refusal.OutOfMemory (λ f. f) result (read_filters array.now) }
{
    let mut conditions = Vec::with_capacity(alloc, array.len())?;
    'items: for item in array.items() {
        let condition = read_member(alloc, item)?;
        conditions.push(condition)?;
    }
    Ok(Filter {
        conditions,
        values: None,
    })
}

#[cycle(parsing)]
fn read_member(alloc: Global, value: &Value) -> Result<Condition, Refusal>
    ensures { Gives Refusal.OutOfMemory condition_of result (read_member (tree value.now)) }
{
    match value {
        Value::Document(document) => Ok(Condition::All(read_filter(alloc, document)?)),
        _ => Err(Refusal::TypeMismatch),
    }
}

/// What is asked at a path: an operator document, or a value to be equal to.
#[cycle(parsing)]
fn read_operand(alloc: Global, value: &Value) -> Result<Filter, Refusal>
    ensures { Gives Refusal.OutOfMemory (λ f. f) result (read_operand (tree value.now)) }
{
    match value {
        Value::Document(document) if has_operators(document) => read_operators(alloc, document),
        _ => Ok(just(alloc, equal(value)?)?),
    }
}

#[cycle(parsing)]
fn read_operators(alloc: Global, document: &Document) -> Result<Filter, Refusal>
    ensures { Gives Refusal.OutOfMemory (λ f. f) result (read_operators document.now) }
{
    let mut conditions = Vec::with_capacity(alloc, document.len())?;
    'pairs: for pair in document.pairs() {
        let condition = read_operator(alloc, pair.name.as_str(), &pair.value)?;
        conditions.push(condition)?;
    }
    Ok(Filter {
        conditions,
        values: None,
    })
}

#[cycle(parsing)]
fn read_operator(alloc: Global, name: &str, value: &Value) -> Result<Condition, Refusal>
    ensures { let operand = tree value.now in
        Gives Refusal.OutOfMemory condition_of result
        (operation name.now (read_element operand) (read_not operand) operand) }
{
    if name == "$elemMatch" {
        return read_element(alloc, value);
    }
    if name == "$not" {
        return read_not(alloc, value);
    }
    match operator_of(name) {
        Some(operator) => read_operation(alloc, operator, value),
        None => Err(Refusal::BadValue),
    }
}

/// What `$elemMatch` asks of one element.
#[cycle(parsing)]
pub(crate) fn read_element(alloc: Global, value: &Value) -> Result<Condition, Refusal>
    ensures { Gives Refusal.OutOfMemory condition_of result (read_element (tree value.now)) }
{
    match value {
        Value::Document(document) if has_operators(document) => {
            Ok(Condition::Element(read_operators(alloc, document)?))
        }
        Value::Document(document) => Ok(Condition::ElementDocument(read_filter(alloc, document)?)),
        _ => Err(Refusal::TypeMismatch),
    }
}

#[cycle(parsing)]
fn read_not(alloc: Global, value: &Value) -> Result<Condition, Refusal>
    ensures { Gives Refusal.OutOfMemory condition_of result (read_not (tree value.now)) }
{
    match value {
        Value::Document(document) if has_operators(document) => {
            Ok(Condition::NotAll(read_operators(alloc, document)?))
        }
        Value::Document(_) => Err(Refusal::BadValue),
        _ => Err(Refusal::TypeMismatch),
    }
}
