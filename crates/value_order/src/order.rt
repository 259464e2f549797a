//! The total order of values.

ghost use Rattle.std.specs.Prelude.{◌≡◌};
ghost use Rattle.std.specs.Ordering.{ordering_then, nat_cmp};
ghost use Rattle.bson.specs.Lent.{scalar_of};
ghost use Rattle.bson.specs.Tree.{scalar};
ghost use Rattle.bson.specs.View.{tree, pairs_of, items_of};
ghost use Rattle.value_order.specs.Order.{class, leaf, leaf_cmp, bytes_cmp, compare, content_cmp, pairs_cmp, items_cmp, key_class, key_cmp};
ghost use Rattle.value_order.specs.View.{key_of};

use crate::classes::{class, class_of_scalar, compare_parts, parts, scalar_parts};
use crate::texts::KeyPart;
use bson::{Pair, RawScalar, Value};
use std::cmp::Ordering;

/// By what values have that hold no other.
fn compare_leaves(a: &Value, b: &Value) -> Ordering
    ensures { result ≡ leaf_cmp (leaf (tree a.now)) (leaf (tree b.now)) }
{
    compare_parts(parts(a), parts(b))
}

/// Values of one class by what they hold.
#[cycle(comparing)]
fn compare_content(a: &Value, b: &Value) -> Ordering
    ensures { result ≡ content_cmp (tree a.now) (tree b.now) }
{
    match (a, b) {
        (Value::Document(a), Value::Document(b)) => compare_pairs(a.pairs(), b.pairs()),
        (Value::Array(a), Value::Array(b)) => compare_items(a.items(), b.items()),
        _ => compare_leaves(a, b),
    }
}

/// Two pairs before their values' contents: the class of the value, then the name.
fn compare_heads(a: &Pair, b: &Pair) -> Ordering
    ensures { result ≡ ordering_then
        (nat_cmp (class (tree a.now.value)) (class (tree b.now.value)))
        (bytes_cmp a.now.name b.now.name) }
{
    class(&a.value)
        .cmp(&class(&b.value))
        .then_with(|| a.name.as_str().cmp(b.name.as_str()))
}

/// Pair by pair: the class of the value, the name, the value.
#[cycle(comparing)]
fn compare_pairs(a: &[Pair], b: &[Pair]) -> Ordering
    ensures { result ≡ pairs_cmp (pairs_of a.now) (pairs_of b.now) }
{
    'pairs: for (i, first) in a.iter().enumerate() {
        let Some(second) = b.get(i) else {
            return Ordering::Greater;
        };
        match compare_heads(first, second) {
            Ordering::Equal => {}
            order => return order,
        }
        match compare_content(&first.value, &second.value) {
            Ordering::Equal => {}
            order => return order,
        }
    }
    a.len().cmp(&b.len())
}

/// Item by item.
#[cycle(comparing)]
fn compare_items(a: &[Value], b: &[Value]) -> Ordering
    ensures { result ≡ items_cmp (items_of a.now) (items_of b.now) }
{
    'items: for (i, first) in a.iter().enumerate() {
        let Some(second) = b.get(i) else {
            return Ordering::Greater;
        };
        match compare(first, second) {
            Ordering::Equal => {}
            order => return order,
        }
    }
    a.len().cmp(&b.len())
}

/// The order of two values: by class, then by content; int32 and int64 by their numbers.
#[cycle(comparing)]
pub fn compare(a: &Value, b: &Value) -> Ordering
    ensures { result ≡ compare (tree a.now) (tree b.now) }
{
    match class(a).cmp(&class(b)) {
        Ordering::Equal => compare_content(a, b),
        order => order,
    }
}

/// The order of a value that is lent and another. Texts, which most are, are compared at once.
pub fn compare_scalar(a: &RawScalar<'_>, b: &Value) -> Ordering
    ensures { result ≡ compare (scalar (scalar_of a.now)) (tree b.now) }
{
    if let (RawScalar::String(a), Value::String(b)) = (a, b) {
        return (*a).cmp(b.as_str().as_bytes());
    }
    match class_of_scalar(a).cmp(&class(b)) {
        Ordering::Equal => compare_parts(scalar_parts(a), parts(b)),
        order => order,
    }
}

/// The class of a key. An empty array has one of its own, between MinKey and null.
fn key_class(key: &KeyPart<'_>) -> u8
    ensures { result ≡ key_class (key_of key.now) }
{
    match key {
        KeyPart::Nothing => 0x20,
        KeyPart::EmptyArray => 0x18,
        KeyPart::Value(value) => class(value),
    }
}

/// The order of two keys: of two values as `compare` has it, else by class.
pub fn compare_keys(a: &KeyPart<'_>, b: &KeyPart<'_>) -> Ordering
    ensures { result ≡ key_cmp (key_of a.now) (key_of b.now) }
{
    match (a, b) {
        (KeyPart::Value(a), KeyPart::Value(b)) => compare(a, b),
        _ => key_class(a).cmp(&key_class(b)),
    }
}
