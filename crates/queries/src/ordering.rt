//! The first documents in an order. No more of them are kept than are asked for, and some that come too late.

ghost use Rattle.std.specs.Prelude.{◌≡◌, All, IfOk, OnOk, take};
ghost use Rattle.collections.specs.Lookups.{ReadsOf};
ghost use Rattle.database_model.specs.Find.{matching};
ghost use Rattle.database_model.specs.Lawful.{IsWithin};
ghost use Rattle.filter.specs.Matches.{matches};
ghost use Rattle.sort.specs.Sort.{order};
ghost use Rattle.index.specs.View.{texts_of};
ghost use Rattle.asked_documents.specs.Asking.{IsAsked};
ghost use Rattle.asked_documents.specs.ById.{AreIdsOf};
ghost use Rattle.queries.specs.Folding.{Sorts, TellFirst};

use crate::by_order::first_by_index;
use crate::looking_up::spelled_in;
use bson::{Document, NoMemory};
use bson_bytes::{RawDoc, SpelledDocument};
use candidate_ids::asked_ids;
use collections::{Collections, DocumentFold};
use entries::Catalogued;
use filter::Filter;
use page::Disk;
use path::Refusal;
use replies::spelled_all;
use sort::Sort;
use std::alloc::Global;
use std::mem;
use walks::{built_within, fold_asked, selected_by_ids};

/// So many documents more than are asked for are kept before those that come too late are let go.
const ROOM: usize = 1024;

/// The first documents in the order of a sort, up to so many. Those that tie keep their order.
pub(crate) fn first_ones(
    sort: &Sort,
    documents: Vec<Document>,
    most: usize,
) -> Result<Vec<Document>, NoMemory>
    ensures first { IfOk result (λ v. v.items ≡ take most (order sort.now documents.items)) }
    ensures within { All IsWithin documents.items → IfOk result (λ v. All IsWithin v.items) }
{
    let mut ordered = sort.order(documents)?;
    ordered.truncate(most);
    Ok(ordered)
}

/// The same, kept as their bytes.
fn first_spelled(
    alloc: Global,
    sort: &Sort,
    documents: Vec<Document>,
    most: usize,
) -> Result<Vec<SpelledDocument>, NoMemory>
    requires { All IsWithin documents.items }
    ensures first { IfOk result (λ v. v.items ≡ take most (order sort.now documents.items)) }
    ensures within { IfOk result (λ v. All IsWithin v.items) }
{
    let first = first_ones(sort, documents, most)?;
    spelled_all(alloc, &first)
}

/// The documents, with values of their own.
pub(crate) fn built_all(
    alloc: Global,
    documents: Vec<SpelledDocument>,
) -> Result<Vec<Document>, NoMemory>
    ensures { IfOk result (λ v. v.items ≡ documents.items) }
{
    let mut built = Vec::with_capacity(alloc, documents.len())?;
    'documents: for document in documents {
        built.push(document.document(alloc)?)?;
    }
    Ok(built)
}

/// The first documents in the order of a sort, of those that were found.
fn first_found(
    alloc: Global,
    sort: &Sort,
    documents: Vec<SpelledDocument>,
    most: usize,
) -> Result<Vec<SpelledDocument>, NoMemory>
    requires { All IsWithin documents.items }
    ensures first { IfOk result (λ v. v.items ≡ take most (order sort.now documents.items)) }
    ensures within { IfOk result (λ v. All IsWithin v.items) }
{
    let built = built_all(alloc, documents)?;
    first_spelled(alloc, sort, built, most)
}

/// How many documents are kept at most, where so many are asked for.
fn room_for(most: usize) -> usize {
    most.saturating_add(ROOM.max(most))
}

/// Lets those go that come too late, where there are too many.
pub(crate) fn let_late_go(
    alloc: Global,
    sort: &Sort,
    documents: &mut Vec<Document>,
    most: usize,
) -> Result<(), NoMemory>
    ensures first { OnOk result (TellFirst sort.now most documents.new.items documents.old.items) }
    ensures within { OnOk result
        (All IsWithin documents.old.items → All IsWithin documents.new.items) }
{
    if documents.len() < room_for(most) {
        return Ok(());
    }
    let these = mem::replace(documents, Vec::new(alloc));
    *documents = first_ones(sort, these, most)?;
    Ok(())
}

/// The first documents in the order of a sort, of those that are lent and match a filter, up to so many, and some that come too late.
#[derive(Drop)]
struct Sorting<'a> {
    alloc: Global,
    filter: &'a Filter,
    sort: &'a Sort,
    most: usize,
    found: Vec<Document>,
}

impl DocumentFold for Sorting<'_> {
    ghost makes = { Sorts };

    fn is_done(&self) -> bool {
        false
    }

    fn take(&mut self, document: &RawDoc<'_>) -> Result<(), Refusal> {
        if !self.filter.matches_raw(self.alloc, document)? {
            return Ok(());
        }
        let built = built_within(self.alloc, document)?;
        let_late_go(self.alloc, self.sort, &mut self.found, self.most)?;
        self.found.push(built)?;
        Ok(())
    }
}

/// The first documents in the order of a sort that match a filter, up to so many, by a walk through the collection.
fn scanned_in_order<D: Disk>(
    alloc: Global,
    file: &mut Collections<D>,
    home: &Catalogued,
    filter: &Filter,
    sort: &Sort,
    most: usize,
) -> Result<Vec<SpelledDocument>, Refusal>
    ensures reads { ReadsOf D.history (IsAsked home.now)
        (λ now c found. found.items ≡ take most (order sort.now (matching filter.now c.documents)))
        result file.old file.new }
    ensures within { IfOk result (λ found. All IsWithin found.items) }
{
    let sorting = Sorting {
        alloc,
        filter,
        sort,
        most,
        found: Vec::new(alloc),
    };
    let sorted = fold_asked(alloc, file, home, filter, sorting)?;
    Ok(first_spelled(alloc, sort, sorted.found, most)?)
}

/// The same, where the `_id`s of all that match are told by their ascending key texts.
fn looked_up_in_order<D: Disk>(
    alloc: Global,
    file: &mut Collections<D>,
    number: u32,
    filter: &Filter,
    ids: &[Vec<u8>],
    sort: &Sort,
    most: usize,
) -> Result<Vec<SpelledDocument>, Refusal>
    ensures reads { ReadsOf D.history (AreIdsOf number (matches filter.now) (texts_of ids.now))
        (λ now c found. found.items ≡ take most (order sort.now (matching filter.now c.documents)))
        result file.old file.new }
    ensures within { IfOk result (λ found. All IsWithin found.items) }
{
    let found = selected_by_ids(alloc, file, number, filter, ids, usize::MAX)?;
    Ok(first_found(alloc, sort, found, most)?)
}

/// The documents of a collection in a file that match a filter, in the order of a sort: the first ones, up to so many. No more of
/// them are kept, and some, unless an index leads to them.
fn sorted_in<D: Disk>(
    alloc: Global,
    file: &mut Collections<D>,
    home: &Catalogued,
    filter: &Filter,
    sort: &Sort,
    most: usize,
) -> Result<Vec<SpelledDocument>, Refusal>
    ensures reads { ReadsOf D.history (IsAsked home.now)
        (λ now c found. found.items ≡ take most (order sort.now (matching filter.now c.documents)))
        result file.old file.new }
    ensures within { IfOk result (λ found. All IsWithin found.items) }
{
    match asked_ids(alloc, file, home, filter)? {
        Some(ids) => looked_up_in_order(alloc, file, home.number, filter, &ids, sort, most),
        None => scanned_in_order(alloc, file, home, filter, sort, most),
    }
}

/// The same. Where an index is in the order of the sort, they are read in that order, as far as they are asked for.
pub fn ordered_in<D: Disk>(
    alloc: Global,
    file: &mut Collections<D>,
    home: &Catalogued,
    filter: &Filter,
    sort: &Sort,
    most: usize,
) -> Result<Vec<SpelledDocument>, Refusal>
    ensures reads { ReadsOf D.history (IsAsked home.now)
        (λ now c found. found.items ≡ take most (order sort.now (matching filter.now c.documents)))
        result file.old file.new }
    ensures within { IfOk result (λ found. All IsWithin found.items) }
{
    if sort.is_empty() {
        return spelled_in(alloc, file, home, filter, most);
    }
    match first_by_index(alloc, file, home, filter, sort, most)? {
        Some(found) => Ok(found),
        None => sorted_in(alloc, file, home, filter, sort, most),
    }
}
