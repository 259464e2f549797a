//! Documents that are looked for: they are looked up by their `_id`s, where a filter asks for these or an index tells them.

ghost use Rattle.std.specs.Prelude.{◌≡◌, All, IfOk, IfSome, take};
ghost use Rattle.std.specs.List.{filter};
ghost use Rattle.collections.specs.Lookups.{ReadsOf};
ghost use Rattle.database_model.specs.Lawful.{IsWithin};
ghost use Rattle.asked_documents.specs.Asking.{IsAsked};
ghost use Rattle.queries.specs.PartlyTold.{IsToldOf};

use crate::partly_told::PartlyTold;
use asked_documents::DocumentPredicate;
use bson::NoMemory;
use bson_bytes::SpelledDocument;
use candidate_ids::{Told, asked_ids, told_in};
use collections::Collections;
use entries::Catalogued;
use page::Disk;
use path::Refusal;
use replies::SharedDocument;
use std::alloc::Global;
use walks::{scanned, selected_by_ids};

/// The documents of a collection in a file that are looked for, as they are told: they are looked up where their `_id`s are. Else a
/// walk asks each document by the filters of the others, and only those that one of these matches, or whose `_id` is told, whether
/// they are looked for.
fn selected_as_told<D: Disk, S: DocumentPredicate>(
    alloc: Global,
    file: &mut Collections<D>,
    home: &Catalogued,
    which: &S,
    told: &Told<'_>,
    most: usize,
) -> Result<Vec<SpelledDocument>, Refusal>
    ensures reads { ReadsOf D.history (IsToldOf home.now (S.selects which.now) told.now)
        (λ now c found. found.items ≡ take most (filter (S.selects which.now) c.documents))
        result file.old file.new }
    ensures within { IfOk result (λ found. All IsWithin found.items) }
{
    if told.walked.is_empty() {
        return selected_by_ids(alloc, file, home.number, which, told.ids.texts(), most);
    }
    if told.ids.is_empty() {
        return scanned(alloc, file, home, which, most);
    }
    let partly = PartlyTold {
        which,
        ids: &told.ids,
        walked: &told.walked,
    };
    scanned(alloc, file, home, &partly, most)
}

/// The documents of a collection in a file that are looked for, in ascending order of `_id`: the first ones, up to so many. They are
/// looked up, where they are looked for by their `_id`s, or indexes serve the filters that ask for them. `None`: only a walk through
/// the collection tells them.
pub(crate) fn looked_up_in<D: Disk, S: DocumentPredicate>(
    alloc: Global,
    file: &mut Collections<D>,
    home: &Catalogued,
    which: &S,
    most: usize,
) -> Result<Option<Vec<SpelledDocument>>, Refusal>
    ensures reads { ReadsOf D.history (IsAsked home.now)
        (λ now c found. IfSome found
        (λ v. v.items ≡ take most (filter (S.selects which.now) c.documents)))
        result file.old file.new }
    ensures within { IfOk result (λ found. IfSome found (λ v. All IsWithin v.items)) }
{
    match asked_ids(alloc, file, home, which)? {
        Some(ids) => {
            let found = selected_by_ids(alloc, file, home.number, which, &ids, most)?;
            Ok(Some(found))
        }
        None => Ok(None),
    }
}

/// The same, by a walk where only that tells them.
pub(crate) fn spelled_in<D: Disk, S: DocumentPredicate>(
    alloc: Global,
    file: &mut Collections<D>,
    home: &Catalogued,
    which: &S,
    most: usize,
) -> Result<Vec<SpelledDocument>, Refusal>
    ensures reads { ReadsOf D.history (IsAsked home.now)
        (λ now c found. found.items ≡ take most (filter (S.selects which.now) c.documents))
        result file.old file.new }
    ensures within { IfOk result (λ found. All IsWithin found.items) }
{
    let Some(told) = told_in(alloc, file, home, which)? else {
        return scanned(alloc, file, home, which, most);
    };
    selected_as_told(alloc, file, home, which, &told, most)
}

/// Documents with values of their own, of such as may have several owners.
fn shared_all(
    alloc: Global,
    documents: Vec<SpelledDocument>,
) -> Result<Vec<SharedDocument>, NoMemory>
    ensures { IfOk result (λ v. v.items ≡ documents.items) }
{
    let mut shared = Vec::with_capacity(alloc, documents.len())?;
    'documents: for document in documents {
        shared.push(SharedDocument::new(alloc, document.document(alloc)?)?)?;
    }
    Ok(shared)
}

/// The same, with values of their own.
pub fn selected_in<D: Disk, S: DocumentPredicate>(
    alloc: Global,
    file: &mut Collections<D>,
    home: &Catalogued,
    which: &S,
    most: usize,
) -> Result<Vec<SharedDocument>, Refusal>
    ensures reads { ReadsOf D.history (IsAsked home.now)
        (λ now c found. found.items ≡ take most (filter (S.selects which.now) c.documents))
        result file.old file.new }
    ensures within { IfOk result (λ found. All IsWithin found.items) }
{
    let found = spelled_in(alloc, file, home, which, most)?;
    Ok(shared_all(alloc, found)?)
}
