//! What is asked of one value that was reached.

ghost use Rattle.std.specs.Prelude.{◌≡◌, ◌==◌, false, None, Some, map};
ghost use Rattle.bson.specs.Kinds.{kind, kind_byte};
ghost use Rattle.std.specs.List.{list_any};
ghost use Rattle.bson.specs.Lent.{scalar_of};
ghost use Rattle.bson.specs.Tree.{scalar};
ghost use Rattle.bson.specs.View.{tree, items_of};
ghost use Rattle.path.specs.Reach.{items_list};
ghost use Rattle.value_order.specs.Order.{compare};
ghost use Rattle.filter.specs.Matches.{candidate_passes, reached_passes, passes, is_equal, is_null};
ghost use Rattle.filter.specs.View.{predicate_of};

use crate::condition::Predicate;
use bson::{Kind, RawScalar, Value};
use std::cmp::Ordering;
use value_order::{class, class_of_scalar, compare, compare_scalar};

fn is_equal(order: Ordering) -> bool
    ensures { result ≡ is_equal order }
{
    match order {
        Ordering::Equal => true,
        Ordering::Less | Ordering::Greater => false,
    }
}

fn is_null(value: &Value) -> bool
    ensures { result ≡ is_null (tree value.now) }
{
    match value {
        Value::Null => true,
        _ => false,
    }
}

fn is_one_of(kinds: &[Kind], byte: u8) -> bool
    ensures { result ≡ list_any (λ b. b == byte)
        (map kind_byte kinds.now) }
{
    'kinds: for kind in kinds {
        if kind.type_byte() == byte {
            return true;
        }
    }
    false
}

/// Whether a candidate passes.
fn candidate_passes(predicate: &Predicate, value: &Value) -> bool
    ensures { result ≡ candidate_passes (predicate_of predicate.now) (tree value.now) }
{
    match predicate {
        Predicate::Equal(other) => is_equal(compare(value, other)),
        Predicate::Ordered(comparison, other) => {
            class(value) == class(other) && comparison.allows(compare(value, other))
        }
        Predicate::OfKinds(kinds) => is_one_of(kinds, value.kind().type_byte()),
        Predicate::There | Predicate::Size(_) => false,
    }
}

/// Whether an element passes as a candidate.
fn item_passes(predicate: &Predicate, items: &[Value]) -> bool
    ensures { result
        ≡ list_any (candidate_passes (predicate_of predicate.now))
        (items_list (items_of items.now)) }
{
    'items: for item in items {
        if candidate_passes(predicate, item) {
            return true;
        }
    }
    false
}

/// Whether Missing passes.
pub(crate) fn missing_passes(predicate: &Predicate) -> bool
    ensures { result ≡ reached_passes (predicate_of predicate.now) None }
{
    match predicate {
        Predicate::Equal(other) => is_null(other),
        Predicate::Ordered(_, _) | Predicate::There | Predicate::OfKinds(_) | Predicate::Size(_) =>
            false,
    }
}

/// Whether a value passes, by its elements too unless it is looked at alone.
pub(crate) fn passes(predicate: &Predicate, alone: bool, value: &Value) -> bool
    ensures { result ≡ passes (predicate_of predicate.now) alone (Some (tree value.now)) }
{
    if candidate_passes(predicate, value) {
        return true;
    }
    match (predicate, value) {
        (Predicate::There, _) => true,
        (Predicate::Size(size), Value::Array(array)) => array.len() == *size,
        (
            Predicate::Equal(_) | Predicate::Ordered(_, _) | Predicate::OfKinds(_),
            Value::Array(array),
        ) => { !alone && item_passes(predicate, array.items()) }
        _ => false,
    }
}

/// Whether a value that is lent passes.
pub(crate) fn scalar_passes(predicate: &Predicate, value: &RawScalar<'_>) -> bool
    ensures { result
        ≡ passes (predicate_of predicate.now) false (Some (scalar (scalar_of value.now))) }
{
    match predicate {
        Predicate::Equal(other) => is_equal(compare_scalar(value, other)),
        Predicate::Ordered(comparison, other) => {
            class_of_scalar(value) == class(other)
                && comparison.allows(compare_scalar(value, other))
        }
        Predicate::OfKinds(kinds) => is_one_of(kinds, value.kind().type_byte()),
        Predicate::There => true,
        Predicate::Size(_) => false,
    }
}
