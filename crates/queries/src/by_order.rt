//! Documents in the order of a sort that an index is in: its entries are read as far as they are asked for, and nothing is sorted.

ghost use Rattle.std.specs.Prelude.{◌≡◌, ◌⊎◌, ◌≤◌, true, All, IfOk, IfSome, List, Some, take};
ghost use Rattle.collections.specs.IndexTexts.{IsNumberedIndex};
ghost use Rattle.collections.specs.Lookups.{ReadsOf};
ghost use Rattle.database_model.specs.Find.{matching};
ghost use Rattle.database_model.specs.Lawful.{IsWithin};
ghost use Rattle.sort.specs.Sort.{SortField, order};
ghost use Rattle.index.specs.View.{texts_of};
ghost use Rattle.planner.specs.View.{range_of};
ghost use Rattle.asked_documents.specs.Asking.{IsAsked};
ghost use Rattle.candidate_ids.specs.ByIndex.{IsRangeOf};
ghost use Rattle.queries.specs.ByOrder.{AreFirstIds, LeadInOrder};

use bson_bytes::SpelledDocument;
use candidate_ids::range_asked;
use collections::Collections;
use entries::Catalogued;
use filter::Filter;
use index::IndexSpec;
use page::Disk;
use path::Refusal;
use planner::{IndexRange, ids_of};
use sort::Sort;
use std::alloc::Global;
use walks::look_up;

/// So many entries are read where the filter passes over some: where these don't suffice, a walk through the collection is quicker.
const MOST_FIRST: usize = 1_024;

/// The texts of the `_id`s in the first entries of an index in a range, in the order of the entries, and whether these are all.
#[derive(Drop)]
struct FirstIds {
    ids: Vec<Vec<u8>>,
    are_all: bool,
}

/// Those of at most so many entries.
fn first_ids<D: Disk>(
    alloc: Global,
    file: &mut Collections<D>,
    number: u32,
    index: &IndexSpec,
    range: &IndexRange<'_>,
    width: usize,
) -> Result<FirstIds, Refusal>
    requires { (range_of range.now).index ≡ Some index.now }
    ensures { ReadsOf D.history (IsNumberedIndex number index.now.number)
        (λ now at found. at.definition ≡ index.now
        → AreFirstIds (range_of range.now) at found.are_all (texts_of found.ids.items))
        result file.old file.new }
{
    let span = range.span(alloc)?;
    let read = file.first_texts(number, index.number(), &span.first, &span.last, width)?;
    Ok(FirstIds {
        ids: ids_of(alloc, index, read.texts)?,
        are_all: read.are_all,
    })
}

/// Whether so many documents are those that are asked for: as many, or all.
fn are_front(count: usize, most: usize, are_all: bool) -> bool
    ensures { result ≡ true → (are_all ≡ true) ⊎ (most ≤ count) }
{
    are_all || most <= count
}

/// Whether these `_id`s may lead to so many documents, or to all.
fn may_suffice(read: &FirstIds, most: usize) -> bool {
    are_front(read.ids.len(), most, read.are_all)
}

/// The first documents that match a filter, up to so many, in the order of the sort in which these `_id`s were read; None where they
/// lead to fewer and more could be read.
fn looked_up_first<D: Disk>(
    alloc: Global,
    file: &mut Collections<D>,
    number: u32,
    filter: &Filter,
    read: &FirstIds,
    most: usize,
) -> Result<Option<Vec<SpelledDocument>>, Refusal>
    ensures reads { (sort : List SortField) → ReadsOf D.history
        (LeadInOrder number filter.now sort read.now.are_all (texts_of read.now.ids.items))
        (λ now c found. IfSome found
        (λ v. v.items ≡ take most (order sort (matching filter.now c.documents))))
        result file.old file.new }
    ensures within { IfOk result (λ found. IfSome found (λ v. All IsWithin v.items)) }
{
    if file.is_stopped() {
        return Err(Refusal::StorageFailed);
    }
    if !may_suffice(read, most) {
        return Ok(None);
    }
    let mut found = Vec::new(alloc);
    'ids: for id in &read.ids {
        if most <= found.len() {
            return Ok(Some(found));
        }
        look_up(alloc, file, number, filter, id, &mut found)?;
    }
    if !are_front(found.len(), most, read.are_all) {
        return Ok(None);
    }
    Ok(Some(found))
}

/// The same of the collection that is asked, by at most so many entries of an index in a range that is in the order of a sort.
fn first_in_range<D: Disk>(
    alloc: Global,
    file: &mut Collections<D>,
    home: &Catalogued,
    filter: &Filter,
    range: &IndexRange<'_>,
    width: usize,
    most: usize,
) -> Result<Option<Vec<SpelledDocument>>, Refusal>
    requires { (range_of range.now).is_sorted ≡ true }
    ensures reads { (sort : List SortField)
        → IsRangeOf filter.now sort home.now.indexes.items (range_of range.now)
        → ReadsOf D.history (IsAsked home.now)
        (λ now c found. IfSome found
        (λ v. v.items ≡ take most (order sort (matching filter.now c.documents))))
        result file.old file.new }
    ensures within { IfOk result (λ found. IfSome found (λ v. All IsWithin v.items)) }
{
    if file.is_stopped() {
        return Err(Refusal::StorageFailed);
    }
    let Some(index) = range.index else {
        return Ok(None);
    };
    let read = first_ids(alloc, file, home.number, index, range, width)?;
    looked_up_first(alloc, file, home.number, filter, &read, most)
}

/// The first documents of a collection in the order of a sort that match a filter, up to so many, where an index in that order leads
/// to them soon.
pub(crate) fn first_by_index<D: Disk>(
    alloc: Global,
    file: &mut Collections<D>,
    home: &Catalogued,
    filter: &Filter,
    sort: &Sort,
    most: usize,
) -> Result<Option<Vec<SpelledDocument>>, Refusal>
    ensures reads { ReadsOf D.history (IsAsked home.now)
        (λ now c found. IfSome found
        (λ v. v.items ≡ take most (order sort.now (matching filter.now c.documents))))
        result file.old file.new }
    ensures within { IfOk result (λ found. IfSome found (λ v. All IsWithin v.items)) }
{
    if file.is_stopped() {
        return Err(Refusal::StorageFailed);
    }
    let Some(range) = range_asked(filter, sort, &home.indexes) else {
        return Ok(None);
    };
    if !range.is_sorted {
        return Ok(None);
    }
    let width = most.min(MOST_FIRST);
    let found = first_in_range(alloc, file, home, filter, &range, width, most)?;
    if found.is_some() || width == MOST_FIRST {
        return Ok(found);
    }
    first_in_range(alloc, file, home, filter, &range, MOST_FIRST, most)
}
