//! The `_id`s that tell which documents are looked for: those that their filters ask for, and those to which indexes lead.

ghost use Rattle.std.specs.Prelude.{◌≡◌, [], true, IfSome, map};
ghost use Rattle.collections.specs.Lookups.{ReadsOf};
ghost use Rattle.filter.specs.Matches.{matches};
ghost use Rattle.index.specs.View.{texts_of};
ghost use Rattle.asked_documents.specs.ById.{AreIdsOf, TellOf, but_not, one_matches};
ghost use Rattle.asked_documents.specs.Asking.{IsAsked};

use crate::alternatives::ids_served;
use crate::by_id::put_ids;
use crate::id_set::IdSet;
use asked_documents::DocumentPredicate;
use collections::Collections;
use entries::Catalogued;
use filter::Filter;
use page::Disk;
use path::Refusal;
use std::alloc::Global;

/// Where indexes lead to more `_id`s than this, their documents are not looked up one by one: a walk through the collection is
/// quicker.
const MOST_LOOKED_UP: usize = 4_096;

/// For each filter that is left to a walk, of the first so many, the next ones are looked up where they lead to half as many `_id`s.
const HALVINGS: usize = 8;

/// What tells the documents that are looked for.
#[derive(Drop)]
pub struct Told<'a> {
    /// The filters that only a walk serves.
    pub walked: Vec<&'a Filter>,
    /// The `_id`s of all others: of those that none of these filters matches.
    pub ids: IdSet,
}

/// So many entries of indexes may lead to the `_id`s of one more filter.
fn most_for_one(ids: &[Vec<u8>], walked: &[&Filter]) -> usize {
    let left = MOST_LOOKED_UP.saturating_sub(ids.len());
    left.min(MOST_LOOKED_UP >> walked.len().min(HALVINGS))
}

/// The texts of the `_id`s among which are those of all documents that a filter matches, where it asks for these, or indexes lead to
/// them by at most so many entries.
fn ids_matched<D: Disk>(
    alloc: Global,
    file: &mut Collections<D>,
    home: &Catalogued,
    filter: &Filter,
    most: usize,
) -> Result<Option<Vec<Vec<u8>>>, Refusal>
    ensures { ReadsOf D.history (IsAsked home.now)
        (λ now c found. IfSome found
        (λ ids. TellOf c (matches filter.now) [] (texts_of ids.items)))
        result file.old file.new }
{
    if file.is_stopped() {
        return Err(Refusal::StorageFailed);
    }
    let mut ids = Vec::new(alloc);
    if put_ids(alloc, &mut ids, filter)? {
        return Ok(Some(ids));
    }
    ids_served(alloc, file, home, filter, most)
}

/// Puts the texts of the `_id`s of the documents that one of the filters matches by which documents are looked for behind others, and
/// the filters whose `_id`s aren't told so behind other filters. False where there is a filter less than is said.
fn put_all_matched<'a, D: Disk, S: DocumentPredicate>(
    alloc: Global,
    file: &mut Collections<D>,
    home: &Catalogued,
    which: &'a S,
    ids: &mut Vec<Vec<u8>>,
    walked: &mut Vec<&'a Filter>,
) -> Result<bool, Refusal>
    ensures { ReadsOf D.history (IsAsked home.now)
        (λ now c told. told ≡ true → TellOf c
        (but_not (one_matches (S.filters which.now)) (map (λ f. f.now) walked.new.items))
        (texts_of ids.old.items) (texts_of ids.new.items)) result file.old file.new }
{
    if file.is_stopped() {
        return Err(Refusal::StorageFailed);
    }
    'filters: for at in 0..which.filter_count() {
        let Some(filter) = which.filter_at(at) else {
            return Ok(false);
        };
        let most = most_for_one(ids, walked);
        let Some(mut found) = ids_matched(alloc, file, home, filter, most)? else {
            walked.push(filter)?;
            continue;
        };
        ids.append(&mut found)?;
    }
    Ok(true)
}

/// What tells the documents that are looked for: their `_id`s, as far as they can be told without a walk, and the filters of the others.
pub fn told_in<'a, D: Disk, S: DocumentPredicate>(
    alloc: Global,
    file: &mut Collections<D>,
    home: &Catalogued,
    which: &'a S,
) -> Result<Option<Told<'a>>, Refusal>
    ensures { ReadsOf D.history (IsAsked home.now)
        (λ now c found. IfSome found (λ told. AreIdsOf home.now.number
        (but_not (S.selects which.now) (map (λ f. f.now) told.walked.items)) told.ids now c))
        result file.old file.new }
{
    if file.is_stopped() {
        return Err(Refusal::StorageFailed);
    }
    let mut ids = Vec::new(alloc);
    if !which.put_ids(alloc, &mut ids)? {
        return Ok(None);
    }
    let mut walked = Vec::new(alloc);
    if !put_all_matched(alloc, file, home, which, &mut ids, &mut walked)? {
        return Ok(None);
    }
    Ok(Some(Told {
        ids: IdSet::of(ids),
        walked,
    }))
}

/// The ascending texts of `_id`s among which are those of all documents that are looked for, where they can be told without a walk.
pub fn asked_ids<D: Disk, S: DocumentPredicate>(
    alloc: Global,
    file: &mut Collections<D>,
    home: &Catalogued,
    which: &S,
) -> Result<Option<Vec<Vec<u8>>>, Refusal>
    ensures { ReadsOf D.history (IsAsked home.now)
        (λ now c found. IfSome found
        (λ ids. AreIdsOf home.now.number (S.selects which.now) (texts_of ids.items) now c))
        result file.old file.new }
{
    let Some(told) = told_in(alloc, file, home, which)? else {
        return Ok(None);
    };
    if told.walked.is_empty() {
        Ok(Some(told.ids.into_texts()))
    } else {
        Ok(None)
    }
}
