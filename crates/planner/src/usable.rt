//! What a filter asks of a path so that an index can serve it.

ghost use Rattle.std.specs.Prelude.{◌≡◌, option_map};
ghost use Rattle.bson.specs.View.{tree};
ghost use Rattle.filter.specs.View.{condition_of};
ghost use Rattle.plan_model.specs.Usable.{nothing, or, no_array, bound_at, range_of, usable_in, all_usable};
ghost use Rattle.planner.specs.View.{bound_of, usable_of};

use bson::Value;
use filter::{Comparison, Condition, Filter, Predicate};

/// An end of a range: how keys lie by a value.
#[derive(Clone, Copy, Debug)]
pub struct Bound<'a> {
    pub comparison: Comparison,
    pub operand: &'a Value,
}

/// What a value at a path has to be equal to, and the ends between which it has to lie.
#[derive(Clone, Copy)]
pub(crate) struct Usable<'a> {
    pub equal: Option<&'a Value>,
    pub low: Option<Bound<'a>>,
    pub high: Option<Bound<'a>>,
}

impl<'a> Usable<'a> {
    /// Where nothing is asked.
    pub fn nothing() -> Usable<'a>
        ensures { usable_of result ≡ nothing }
    {
        Usable {
            equal: None,
            low: None,
            high: None,
        }
    }

    /// What this one asks, and of what it doesn't ask what the other does.
    pub fn or(&self, other: &Usable<'a>) -> Usable<'a>
        ensures { usable_of result ≡ or (usable_of self.now) (usable_of other.now) }
    {
        Usable {
            equal: self.equal.or(other.equal),
            low: self.low.or(other.low),
            high: self.high.or(other.high),
        }
    }
}

/// The value, unless it is an array.
fn no_array(value: &Value) -> Option<&Value>
    ensures { option_map (λ v. tree v.now) result ≡ no_array (tree value.now) }
{
    match value {
        Value::Array(_) => None,
        _ => Some(value),
    }
}

fn bound_at(comparison: Comparison, value: &Value) -> Option<Bound<'_>>
    ensures { option_map bound_of result ≡ bound_at comparison (tree value.now) }
{
    let operand = no_array(value)?;
    Some(Bound {
        comparison,
        operand,
    })
}

fn range_of(comparison: Comparison, value: &Value) -> Usable<'_>
    ensures { usable_of result ≡ range_of comparison (tree value.now) }
{
    let bound = bound_at(comparison, value);
    match comparison {
        Comparison::Above | Comparison::AtLeast => Usable {
            equal: None,
            low: bound,
            high: None,
        },
        Comparison::Below | Comparison::AtMost => Usable {
            equal: None,
            low: None,
            high: bound,
        },
    }
}

/// What one condition asks of the value that it is asked of.
fn usable_in(condition: &Condition) -> Usable<'_>
    ensures { usable_of result ≡ usable_in (condition_of condition.now) }
{
    match condition {
        Condition::Is(Predicate::Equal(value)) => Usable {
            equal: no_array(value),
            low: None,
            high: None,
        },
        Condition::Is(Predicate::Ordered(comparison, value)) => range_of(*comparison, value),
        _ => Usable::nothing(),
    }
}

/// What all of these ask: of two values, and of two ends on one side, the first one written.
pub(crate) fn all_usable(conditions: &Filter) -> Usable<'_>
    ensures { usable_of result ≡ all_usable conditions.now }
{
    let mut found = Usable::nothing();
    'conditions: for condition in conditions.conditions() {
        found = found.or(&usable_in(condition));
    }
    found
}
