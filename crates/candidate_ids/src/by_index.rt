//! Filters that an index serves: the `_id`s of the documents that have a key in the range that the filter gives there.

ghost use Rattle.std.specs.Prelude.{◌≡◌, [], IfSome, Some};
ghost use Rattle.collections.specs.IndexTexts.{IsNumberedIndex};
ghost use Rattle.collections.specs.Lookups.{ReadsOf};
ghost use Rattle.filter.specs.Condition.{Conditions};
ghost use Rattle.filter.specs.Matches.{matches};
ghost use Rattle.index.specs.View.{texts_of};
ghost use Rattle.planner.specs.View.{range_of};
ghost use Rattle.asked_documents.specs.Asking.{IsAsked};
ghost use Rattle.asked_documents.specs.ById.{TellOf};
ghost use Rattle.candidate_ids.specs.ByIndex.{AreIdsInRange, IsRangeOf};

use collections::Collections;
use entries::Catalogued;
use filter::Filter;
use index::IndexSpec;
use page::Disk;
use path::Refusal;
use planner::{IndexRange, Plan, choose, ids_of};
use sort::Sort;
use std::alloc::Global;

/// The range of one of these indexes that serves a filter and a sort best, if one serves them.
pub fn range_asked<'a>(
    filter: &'a Filter,
    sort: &Sort,
    indexes: &'a [IndexSpec],
) -> Option<IndexRange<'a>>
    ensures { IfSome result
        (λ range. IsRangeOf filter.now sort.now indexes.now (range_of range)) }
{
    let Plan::Index(range) = choose(filter, sort, indexes) else {
        return None;
    };
    if range.index.is_none() {
        return None;
    }
    if !range.is_spellable() {
        return None;
    }
    Some(range)
}

/// The texts of the `_id`s in the entries of an index that lie in a range, where these are at most so many.
fn ids_in_range<D: Disk>(
    alloc: Global,
    file: &mut Collections<D>,
    number: u32,
    index: &IndexSpec,
    range: &IndexRange<'_>,
    most: usize,
) -> Result<Option<Vec<Vec<u8>>>, Refusal>
    requires { (range_of range.now).index ≡ Some index.now }
    ensures { ReadsOf D.history (IsNumberedIndex number index.now.number)
        (λ now at found. at.definition ≡ index.now → IfSome found
        (λ ids. AreIdsInRange (range_of range.now) at (texts_of ids.items)))
        result file.old file.new }
{
    let span = range.span(alloc)?;
    let Some(texts) = file.index_texts(number, index.number(), &span.first, &span.last, most)?
    else {
        return Ok(None);
    };
    Ok(Some(ids_of(alloc, index, texts)?))
}

/// The texts of the `_id`s among which are those of all documents that a filter matches, where this is the range that it gives in an
/// index, by at most so many entries of that, in the order of the entries.
pub(crate) fn ids_asked<D: Disk>(
    alloc: Global,
    file: &mut Collections<D>,
    home: &Catalogued,
    range: &IndexRange<'_>,
    most: usize,
) -> Result<Option<Vec<Vec<u8>>>, Refusal>
    ensures { (rs : Conditions) → IsRangeOf rs [] home.now.indexes.items (range_of range.now)
        → ReadsOf D.history (IsAsked home.now)
        (λ now c found. IfSome found
        (λ ids. TellOf c (matches rs) [] (texts_of ids.items)))
        result file.old file.new }
{
    if file.is_stopped() {
        return Err(Refusal::StorageFailed);
    }
    let Some(index) = range.index else {
        return Ok(None);
    };
    ids_in_range(alloc, file, home.number, index, range, most)
}

/// The same, where an index serves the filter.
pub(crate) fn ids_by_index<D: Disk>(
    alloc: Global,
    file: &mut Collections<D>,
    home: &Catalogued,
    filter: &Filter,
    most: usize,
) -> Result<Option<Vec<Vec<u8>>>, Refusal>
    ensures { ReadsOf D.history (IsAsked home.now)
        (λ now c found. IfSome found
        (λ ids. TellOf c (matches filter.now) [] (texts_of ids.items)))
        result file.old file.new }
{
    if file.is_stopped() {
        return Err(Refusal::StorageFailed);
    }
    let none = Sort::new(alloc);
    let Some(range) = range_asked(filter, &none, &home.indexes) else {
        return Ok(None);
    };
    ids_asked(alloc, file, home, &range, most)
}
