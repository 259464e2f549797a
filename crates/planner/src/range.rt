//! The range that a filter gives in an index.

ghost use Rattle.std.specs.Prelude.{◌≡◌, ◌≤◌, count_by, is_some, length, option_map};
ghost use Rattle.plan_model.specs.Plan.{fields_of, is_multi, leading, upper_beside, range_in, has_end, rank};
ghost use Rattle.planner.specs.View.{bound_of, index_of, leading_of, range_of};

use crate::field::{asked_at, sorts_as};
use crate::usable::Bound;
use bson::Value;
use filter::Filter;
use index::IndexSpec;
use sort::Sort;

/// The values that the leading fields of an index have to be equal to, up to the first field without one. An index has
/// four fields at most.
#[derive(Clone, Copy, Debug)]
pub struct Leading<'a> {
    pub first: Option<&'a Value>,
    pub second: Option<&'a Value>,
    pub third: Option<&'a Value>,
    pub fourth: Option<&'a Value>,
}

/// A range of an index: the keys that begin with values equal to these, and of which the next one lies between the ends.
#[derive(Clone, Copy, Debug)]
pub struct IndexRange<'a> {
    /// The index; none is that on `_id`.
    pub index: Option<&'a IndexSpec>,
    /// The values of the leading fields.
    pub equal: Leading<'a>,
    pub low: Option<Bound<'a>>,
    pub high: Option<Bound<'a>>,
    /// Whether its keys stand in the order of the sort.
    pub is_sorted: bool,
}

/// How many of these are there.
fn count(values: &[Option<&Value>]) -> usize
    ensures count { result ≡ count_by (λ o. is_some o) values.now }
    ensures most { result ≤ length values.now }
{
    values.iter().filter(|value| value.is_some()).count()
}

impl<'a> Leading<'a> {
    fn new(filter: &'a Filter, index: Option<&IndexSpec>) -> Leading<'a>
        ensures { leading_of result ≡ leading filter.now (fields_of (index_of index.entry)) }
    {
        let first = asked_at(filter, index, 0).equal;
        let second = first.and(asked_at(filter, index, 1).equal);
        let third = second.and(asked_at(filter, index, 2).equal);
        let fourth = third.and(asked_at(filter, index, 3).equal);
        Leading {
            first,
            second,
            third,
            fourth,
        }
    }

    /// How many there are.
    pub fn count(&self) -> usize
        ensures count { result ≡ length (leading_of self.now) }
        ensures most { result ≤ 4 }
    {
        count(&[self.first, self.second, self.third, self.fourth])
    }
}

fn is_multi(index: Option<&IndexSpec>) -> bool
    ensures { result ≡ is_multi (index_of index.entry) }
{
    match index {
        Some(spec) => spec.is_multi(),
        None => false,
    }
}

/// In a multikey index only one end counts: the upper one where there is no lower one.
fn upper_beside<'a>(
    multi: bool,
    low: Option<Bound<'a>>,
    high: Option<Bound<'a>>,
) -> Option<Bound<'a>>
    ensures { option_map bound_of result ≡ upper_beside multi
        (option_map bound_of low.entry) (option_map bound_of high.entry) }
{
    if multi && low.is_some() { None } else { high }
}

impl<'a> IndexRange<'a> {
    /// The range of this index.
    pub(crate) fn new(
        filter: &'a Filter,
        sort: &Sort,
        index: Option<&'a IndexSpec>,
    ) -> IndexRange<'a>
        ensures { range_of result ≡ range_in filter.now sort.now (index_of index.entry) }
    {
        let equal = Leading::new(filter, index);
        let next = asked_at(filter, index, equal.count());
        let multi = is_multi(index);
        IndexRange {
            index,
            equal,
            low: next.low,
            high: upper_beside(multi, next.low, next.high),
            is_sorted: !multi && sorts_as(sort, index),
        }
    }

    /// How many leading fields have a value.
    pub fn equals(&self) -> usize
        ensures count { result ≡ length (range_of self.now).equal }
        ensures most { result ≤ 4 }
    {
        self.equal.count()
    }

    fn has_end(&self) -> bool
        ensures { result ≡ has_end (range_of self.now) }
    {
        self.low.is_some() || self.high.is_some()
    }

    /// How well it serves: leading values count most, then a range of the next one, then the order of the sort. 0 is
    /// not at all.
    pub(crate) fn rank(&self) -> usize
        ensures { result ≡ rank (range_of self.now) }
    {
        let range = if self.has_end() { 2 } else { 0 };
        let sorted = if self.is_sorted { 1 } else { 0 };
        4 * self.equal.count() + (range + sorted)
    }
}
