//! Walks through the documents of a collection that begin and end where a filter's range of `_id`s does.

ghost use Rattle.std.specs.Prelude.{◌≡◌, IfOk, IfSome, option_map, []};
ghost use Rattle.collections.specs.Folding.{HasTaken};
ghost use Rattle.collections.specs.Lookups.{ReadsOf};
ghost use Rattle.filter.specs.Matches.{matches};
ghost use Rattle.planner.specs.View.{range_of};
ghost use Rattle.asked_documents.specs.Asking.{IsAsked};
ghost use Rattle.walks.specs.IdRange.{IsIdRange, IsWalked, PassWithin};

use asked_documents::DocumentPredicate;
use bson::NoMemory;
use btree::Bounds;
use collections::{Collections, DocumentFold};
use entries::{Catalogued, end_of};
use filter::Filter;
use page::Disk;
use path::Refusal;
use planner::{IndexRange, Plan, choose};
use sort::Sort;
use std::alloc::Global;

/// Between which key texts of `_id`s a walk goes: from the first to below the end, where there is one.
#[derive(Drop)]
pub(crate) struct IdSpan {
    pub(crate) first: Vec<u8>,
    pub(crate) end: Option<Vec<u8>>,
}

/// The range of `_id`s that a filter gives, if it gives one.
fn range_of_ids(alloc: Global, filter: &Filter) -> Option<IndexRange<'_>>
    ensures { IfSome result (λ range. IsIdRange filter.now (range_of range)) }
{
    let none = Sort::new(alloc);
    let Plan::Index(range) = choose(filter, &none, &[]) else {
        return None;
    };
    if !range.is_spellable() {
        return None;
    }
    Some(range)
}

/// Between which texts all documents lie that a filter matches, if it gives a range of `_id`s.
fn span_of_ids(alloc: Global, filter: &Filter) -> Result<Option<IdSpan>, NoMemory>
    ensures { IfOk result (λ found. IfSome found (λ span. PassWithin (matches filter.now)
        span.first.items (option_map (λ v. v.items) span.end))) }
{
    let Some(range) = range_of_ids(alloc, filter) else {
        return Ok(None);
    };
    let span = range.span(alloc)?;
    let end = end_of(alloc, &span.last)?;
    Ok(Some(IdSpan {
        first: span.first,
        end,
    }))
}

/// Between which texts all documents lie that are looked for: between all, where no filter gives a range of `_id`s.
pub(crate) fn span_asked<S: DocumentPredicate>(alloc: Global, which: &S) -> Result<IdSpan, NoMemory>
    ensures { IfOk result (λ span. PassWithin (S.selects which.now)
        span.first.items (option_map (λ v. v.items) span.end)) }
{
    if let Some(filter) = which.asked_filter() {
        if let Some(span) = span_of_ids(alloc, filter)? {
            return Ok(span);
        }
    }
    Ok(IdSpan {
        first: Vec::new(alloc),
        end: None,
    })
}

/// Lends documents of a collection in a file to a fold, in ascending order of `_id`, until it is done, and hands it back: all that are
/// looked for, and others whose `_id`s lie between theirs.
pub fn fold_asked<D: Disk, S: DocumentPredicate, F: DocumentFold + Drop>(
    alloc: Global,
    file: &mut Collections<D>,
    home: &Catalogued,
    which: &S,
    fold: F,
) -> Result<F, Refusal>
    requires { F.makes fold [] fold }
    ensures reads { ReadsOf D.history (IsAsked home.now)
        (λ now c done. IsWalked (S.selects which.now) F.makes fold c.documents done)
        result file.old file.new }
    ensures taken { IfOk result (HasTaken F.makes fold) }
{
    if file.is_stopped() {
        return Err(Refusal::StorageFailed);
    }
    let span = span_asked(alloc, which)?;
    let texts = Bounds {
        from: &span.first,
        to: span.end.as_deref(),
    };
    file.fold_documents_within(home.number, texts, fold)
}
