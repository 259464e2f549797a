//! Documents of which the `_id`s are told: one walk comes by them and passes over all others, or one is looked up by itself.

ghost use Rattle.std.specs.Prelude.{◌≡◌, ◌++◌, [], All, Bool, IfOk, IfSome, OnOk, take};
ghost use Rattle.std.specs.List.{filter};
ghost use Rattle.asked_documents.specs.ById.{AreIdsOf};
ghost use Rattle.bson.specs.Tree.{Pairs};
ghost use Rattle.collections.specs.Folding.{HasTaken};
ghost use Rattle.collections.specs.Lookups.{IsPlaceOf, ReadsOf, stored_at};
ghost use Rattle.database_model.specs.Lawful.{IsWithin};
ghost use Rattle.index.specs.View.{texts_of};
ghost use Rattle.planner.specs.IdLaws.{with_found};
ghost use Rattle.walks.specs.IdRange.{IsWalked};

use crate::scanning::Selecting;
use crate::within::is_within;
use asked_documents::DocumentPredicate;
use bson::NoMemory;
use bson_bytes::SpelledDocument;
use collections::{Collections, DocumentFold};
use page::Disk;
use path::Refusal;
use std::alloc::Global;

/// The document of an `_id` in the collection of a number. A disk may give one that is over the limits of those that are stored.
pub fn spelled_within<D: Disk>(
    alloc: Global,
    file: &mut Collections<D>,
    number: u32,
    id: &[u8],
) -> Result<Option<SpelledDocument>, Refusal>
    ensures reads { ReadsOf D.history (IsPlaceOf number id.now)
        (λ now place found. found ≡ stored_at place) result file.old file.new }
    ensures within { IfOk result (λ found. IfSome found (λ d. IsWithin d)) }
{
    let Some(document) = file.document(number, id)? else {
        return Ok(None);
    };
    if !is_within(alloc, &document.raw())? {
        return Err(Refusal::StorageFailed);
    }
    Ok(Some(document))
}

/// Puts the document that was found behind the others, if it is looked for.
fn put_found<S: DocumentPredicate>(
    alloc: Global,
    which: &S,
    found: &mut Vec<SpelledDocument>,
    document: Option<SpelledDocument>,
) -> Result<(), NoMemory>
    ensures { OnOk result (found.new.items
        ≡ found.old.items ++ filter (S.selects which.now) (with_found document [])) }
{
    let Some(document) = document else {
        return Ok(());
    };
    if which.selects_raw(alloc, &document.raw())? {
        found.push(document)?;
    }
    Ok(())
}

/// Looks one document up, and puts it behind the others, if it is looked for.
pub fn look_up<D: Disk, S: DocumentPredicate>(
    alloc: Global,
    file: &mut Collections<D>,
    number: u32,
    which: &S,
    id: &[u8],
    found: &mut Vec<SpelledDocument>,
) -> Result<(), Refusal>
    ensures reads { ReadsOf D.history (IsPlaceOf number id.now)
        (λ now place _. found.new.items ≡ found.old.items
        ++ filter (S.selects which.now) (with_found (stored_at place) []))
        result file.old file.new }
    ensures within { OnOk result (All IsWithin found.old.items → All IsWithin found.new.items) }
{
    let document = spelled_within(alloc, file, number, id)?;
    Ok(put_found(alloc, which, found, document)?)
}

/// Lends the documents of the collection of a number that have one of these `_id`s, told by their ascending key texts, to a fold, and
/// hands it back. No other is read.
pub fn fold_by_ids<D: Disk, F: DocumentFold + Drop>(
    file: &mut Collections<D>,
    number: u32,
    ids: &[Vec<u8>],
    fold: F,
) -> Result<F, Refusal>
    requires { F.makes fold [] fold }
    ensures reads { (passes : Pairs → Bool)
        → ReadsOf D.history (AreIdsOf number passes (texts_of ids.now))
        (λ now c done. IsWalked passes F.makes fold c.documents done) result file.old file.new }
    ensures taken { IfOk result (HasTaken F.makes fold) }
{
    file.fold_documents_among(number, ids, fold)
}

/// The documents of the collection of a number that are looked for and have one of these `_id`s, told by their ascending key texts:
/// the first ones, up to so many.
pub fn selected_by_ids<D: Disk, S: DocumentPredicate>(
    alloc: Global,
    file: &mut Collections<D>,
    number: u32,
    which: &S,
    ids: &[Vec<u8>],
    most: usize,
) -> Result<Vec<SpelledDocument>, Refusal>
    ensures reads { ReadsOf D.history (AreIdsOf number (S.selects which.now) (texts_of ids.now))
        (λ now c found. found.items ≡ take most (filter (S.selects which.now) c.documents))
        result file.old file.new }
    ensures within { IfOk result (λ found. All IsWithin found.items) }
{
    let selecting = Selecting {
        alloc,
        which,
        most,
        found: Vec::new(alloc),
    };
    Ok(fold_by_ids(file, number, ids, selecting)?.found)
}
