//! The choice of a plan, and its text.

ghost use Rattle.std.specs.Prelude.{◌≡◌, ◌≤◌, IfOk, length, string_bytes};
ghost use Rattle.plan_model.specs.Plan.{choose};
ghost use Rattle.plan_model.specs.Explaining.{index_name, range_word, sort_word, in_words, range_text, explain_text};
ghost use Rattle.planner.specs.View.{range_of, plan_of};

use crate::range::IndexRange;
use bson::NoMemory;
use filter::Filter;
use index::IndexSpec;
use sort::Sort;
use std::alloc::Global;

/// How the documents of a find are found.
#[derive(Clone, Copy, Debug)]
pub enum Plan<'a> {
    /// By a look at all documents of the collection.
    Scan,
    /// By a range of an index.
    Index(IndexRange<'a>),
}

/// The plan for a filter and a sort, where a collection has these indexes beside that on `_id`: the first index, that on
/// `_id` before the others, with the most leading values, then with a range of the next one, then in the order of the
/// sort; a scan where no index has any of these.
pub fn choose<'a>(filter: &'a Filter, sort: &Sort, indexes: &'a [IndexSpec]) -> Plan<'a>
    ensures { plan_of result ≡ choose filter.now sort.now indexes.now }
{
    let mut best = IndexRange::new(filter, sort, None);
    'indexes: for index in indexes {
        let range = IndexRange::new(filter, sort, Some(index));
        if best.rank() < range.rank() {
            best = range;
        }
    }
    if best.rank() == 0 {
        return Plan::Scan;
    }
    Plan::Index(best)
}

impl IndexRange<'_> {
    fn index_name(&self) -> &str
        ensures name { result.now ≡ index_name (range_of self.now).index }
        ensures short { length result.now ≤ 127 }
    {
        match self.index {
            Some(spec) => {
                let _number = spec.number();
                spec.name()
            }
            None => "_id_",
        }
    }

    fn range_word(&self) -> &str
        ensures { result.now ≡ range_word (range_of self.now).low (range_of self.now).high }
    {
        match (&self.low, &self.high) {
            (None, None) => "none",
            (Some(_), None) => "low",
            (None, Some(_)) => "high",
            (Some(_), Some(_)) => "both",
        }
    }

    fn sort_word(&self) -> &str
        ensures { result.now ≡ sort_word (range_of self.now).is_sorted }
    {
        if self.is_sorted { "yes" } else { "no" }
    }
}

fn in_words(
    alloc: Global,
    name: &str,
    equals: usize,
    ends: &str,
    sorted: &str,
) -> Result<String, NoMemory>
    ensures { IfOk result (λ text.
        string_bytes text ≡ in_words name.now equals ends.now sorted.now) }
{
    format!(in alloc; "INDEX {name} eq={equals} range={ends} sort={sorted}")
}

fn explain_range(alloc: Global, range: &IndexRange<'_>) -> Result<String, NoMemory>
    ensures text { IfOk result (λ text. string_bytes text ≡ range_text (range_of range.now)) }
    ensures short { IfOk result (λ text. length (string_bytes text) ≤ 200) }
{
    in_words(
        alloc,
        range.index_name(),
        range.equals(),
        range.range_word(),
        range.sort_word(),
    )
}

/// The text of a plan: `SCAN`, or `INDEX`, the index's name, how many leading values there are, which ends of a range, and
/// whether keys stand in the order of the sort. It has at most 200 bytes.
pub fn explain_text(alloc: Global, plan: &Plan<'_>) -> Result<String, NoMemory>
    ensures text { IfOk result (λ text. string_bytes text ≡ explain_text (plan_of plan.now)) }
    ensures short { IfOk result (λ text. length (string_bytes text) ≤ 200) }
{
    match plan {
        Plan::Scan => String::from_str(alloc, "SCAN"),
        Plan::Index(range) => explain_range(alloc, range),
    }
}
