//! The operators that look at values, and the kinds that `$type` knows.

ghost use Rattle.std.specs.Prelude.{◌≡◌};
ghost use Rattle.bson.specs.View.{tree, items_of};
ghost use Rattle.outcome.specs.Outcome.{Gives};
ghost use Rattle.filter.specs.Tables.{named};
ghost use Rattle.filter.specs.Words.{operator_of, kind_named, kind_counted, kind_numbered, kinds_named, only_kind, kinds_in, each_kind, all_kinds, size_of, size_in};

use bson::{Array, Kind, Value};
use path::Refusal;
use std::alloc::Global;

/// An operator that looks at values.
#[derive(Clone, Copy, Debug, PartialEq, Eq)]
pub(crate) enum Operator {
    Equal,
    Above,
    AtLeast,
    Below,
    AtMost,
    In,
    Exists,
    Type,
    All,
    Size,
    NotEqual,
    NotIn,
}

/// What stands beside a name in a table.
fn named<T: Copy>(rows: &[(&str, T)], name: &str) -> Option<T>
    ensures { result ≡ named rows.now name.now }
{
    'rows: for (word, value) in rows {
        if name == *word {
            return Some(*value);
        }
    }
    None
}

/// The operators by their names.
const OPERATORS: [(&str, Operator); 12] = [
    ("$eq", Operator::Equal),
    ("$gt", Operator::Above),
    ("$gte", Operator::AtLeast),
    ("$lt", Operator::Below),
    ("$lte", Operator::AtMost),
    ("$in", Operator::In),
    ("$exists", Operator::Exists),
    ("$type", Operator::Type),
    ("$all", Operator::All),
    ("$size", Operator::Size),
    ("$ne", Operator::NotEqual),
    ("$nin", Operator::NotIn),
];

/// The operator of a name.
pub(crate) fn operator_of(name: &str) -> Option<Operator>
    ensures { result ≡ operator_of name.now }
{
    named(&OPERATORS, name)
}

/// The kinds by their names.
const KINDS: [(&str, Kind); 13] = [
    ("string", Kind::String),
    ("object", Kind::Document),
    ("array", Kind::Array),
    ("binData", Kind::Binary),
    ("objectId", Kind::ObjectId),
    ("bool", Kind::Bool),
    ("date", Kind::Date),
    ("null", Kind::Null),
    ("int", Kind::Int32),
    ("timestamp", Kind::Timestamp),
    ("long", Kind::Int64),
    ("minKey", Kind::MinKey),
    ("maxKey", Kind::MaxKey),
];

fn kind_named(name: &str) -> Option<Kind>
    ensures { result ≡ kind_named name.now }
{
    named(&KINDS, name)
}

fn kind_counted(number: u64) -> Option<Kind>
    ensures { result ≡ kind_counted number }
{
    match number {
        2 => Some(Kind::String),
        3 => Some(Kind::Document),
        4 => Some(Kind::Array),
        5 => Some(Kind::Binary),
        7 => Some(Kind::ObjectId),
        8 => Some(Kind::Bool),
        9 => Some(Kind::Date),
        10 => Some(Kind::Null),
        16 => Some(Kind::Int32),
        17 => Some(Kind::Timestamp),
        18 => Some(Kind::Int64),
        127 => Some(Kind::MaxKey),
        _ => None,
    }
}

fn kind_numbered(number: i64) -> Option<Kind>
    ensures { result ≡ kind_numbered number }
{
    if 0 <= number {
        return kind_counted(number as u64);
    }
    if number == -1 {
        return Some(Kind::MinKey);
    }
    None
}

/// The one kind that was found.
fn only_kind(alloc: Global, kind: Option<Kind>) -> Result<Vec<Kind>, Refusal>
    ensures { Gives Refusal.OutOfMemory (λ v. v.items) result (only_kind kind) }
{
    let Some(kind) = kind else {
        return Err(Refusal::BadValue);
    };
    let mut kinds = Vec::with_capacity(alloc, 1)?;
    kinds.push(kind)?;
    Ok(kinds)
}

fn kinds_named(alloc: Global, name: &str) -> Result<Vec<Kind>, Refusal>
    ensures { Gives Refusal.OutOfMemory (λ v. v.items) result (kinds_named name.now) }
{
    if name == "number" {
        let mut kinds = Vec::with_capacity(alloc, 2)?;
        kinds.push(Kind::Int32)?;
        kinds.push(Kind::Int64)?;
        return Ok(kinds);
    }
    only_kind(alloc, kind_named(name))
}

/// The kinds that a name or a number stands for.
fn kinds_in(alloc: Global, value: &Value) -> Result<Vec<Kind>, Refusal>
    ensures { Gives Refusal.OutOfMemory (λ v. v.items) result (kinds_in (tree value.now)) }
{
    match value {
        Value::String(name) => kinds_named(alloc, name.as_str()),
        Value::Int32(number) => only_kind(alloc, kind_numbered(i64::from(*number))),
        Value::Int64(number) => only_kind(alloc, kind_numbered(*number)),
        _ => Err(Refusal::TypeMismatch),
    }
}

fn each_kind(alloc: Global, array: &Array) -> Result<Vec<Kind>, Refusal>
    ensures { Gives Refusal.OutOfMemory (λ v. v.items) result (each_kind array.now) }
{
    let mut kinds = Vec::new(alloc);
    'items: for item in array.items() {
        let more = kinds_in(alloc, item)?;
        kinds.extend_from_slice(&more)?;
    }
    Ok(kinds)
}

/// The kinds that `$type` asks for: one, or each of an array.
pub(crate) fn all_kinds(alloc: Global, value: &Value) -> Result<Vec<Kind>, Refusal>
    ensures { Gives Refusal.OutOfMemory (λ v. v.items) result (all_kinds (tree value.now)) }
{
    match value {
        Value::Array(array) => each_kind(alloc, array),
        _ => kinds_in(alloc, value),
    }
}

fn size_of(number: i64) -> Result<usize, Refusal>
    ensures { Gives Refusal.OutOfMemory (λ n. n) result (size_of number) }
{
    if number < 0 {
        return Err(Refusal::BadValue);
    }
    Ok(number as usize)
}

/// A size: a whole number that isn't negative.
pub(crate) fn size_in(value: &Value) -> Result<usize, Refusal>
    ensures { Gives Refusal.OutOfMemory (λ n. n) result (size_in (tree value.now)) }
{
    match value {
        Value::Int32(number) => size_of(i64::from(*number)),
        Value::Int64(number) => size_of(*number),
        _ => Err(Refusal::BadValue),
    }
}
