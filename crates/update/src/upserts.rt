//! The document that an upsert starts from.

ghost use Rattle.std.specs.Prelude.{◌≡◌};
ghost use Rattle.outcome.specs.Outcome.{Gives};
ghost use Rattle.filter.specs.View.{condition_of, conditions_of, predicate_of};
ghost use Rattle.update_model.specs.Upserts.{is_below_id, with_equal, with_equality, with_equalities};
ghost use Rattle.update_model.specs.Upserts.{with_condition, base_of};

use crate::stored::ID;
use bson::Document;
use filter::{Condition, Filter, Predicate};
use path::{Path, Refusal, write_into};
use std::alloc::Global;

/// Whether the path leads into `_id`.
fn is_below_id(path: &Path) -> bool
    ensures { result ≡ is_below_id path.now }
{
    match path.parts() {
        [first, _, ..] => first.as_str() == ID,
        _ => false,
    }
}

/// The document with the value to which something is asked to be equal.
fn with_equal(
    alloc: Global,
    document: Document,
    path: &Path,
    predicate: &Predicate,
) -> Result<Document, Refusal>
    ensures { Gives Refusal.OutOfMemory (λ d. d) result
        (with_equal path.now (predicate_of predicate.now) document) }
{
    match predicate {
        Predicate::Equal(_) if is_below_id(path) => Err(Refusal::ImmutableField),
        Predicate::Equal(value) => write_into(alloc, document, path, value.copy()?),
        _ => Ok(document),
    }
}

fn with_equality(
    alloc: Global,
    document: Document,
    path: &Path,
    condition: &Condition,
) -> Result<Document, Refusal>
    ensures { Gives Refusal.OutOfMemory (λ d. d) result
        (with_equality path.now (condition_of condition.now) document) }
{
    match condition {
        Condition::Is(predicate) => with_equal(alloc, document, path, predicate),
        _ => Ok(document),
    }
}

/// The document with the equalities that are asked at a path.
fn with_equalities(
    alloc: Global,
    document: Document,
    path: &Path,
    filter: &Filter,
) -> Result<Document, Refusal>
    ensures { Gives Refusal.OutOfMemory (λ d. d) result
        (with_equalities path.now filter.now document) }
{
    let mut document = document;
    'conditions: for condition in filter.conditions() {
        document = with_equality(alloc, document, path, condition)?;
    }
    Ok(document)
}

fn with_condition(
    alloc: Global,
    document: Document,
    condition: &Condition,
) -> Result<Document, Refusal>
    ensures { Gives Refusal.OutOfMemory (λ d. d) result
        (with_condition (condition_of condition.now) document) }
{
    match condition {
        Condition::At(path, filter) => with_equalities(alloc, document, path, filter),
        _ => Ok(document),
    }
}

/// The document that an upsert by this filter starts from: the equalities at the filter's top level (`$eq` too), set in
/// order. `ImmutableField` where one is asked below `_id`; else what setting refuses.
pub fn upsert_base(alloc: Global, filter: &Filter) -> Result<Document, Refusal>
    ensures { Gives Refusal.OutOfMemory (λ d. d) result (base_of filter.now) }
{
    let mut document = Document::new(alloc);
    'conditions: for condition in filter.conditions() {
        document = with_condition(alloc, document, condition)?;
    }
    Ok(document)
}
