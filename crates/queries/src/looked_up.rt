//! What a first batch is given of where `_id`s or an index lead to the documents. Where all go into the batch they are put into it in their
//! leaves, and none is kept.

ghost use Rattle.std.specs.Prelude.{◌≡◌, ◌<◌, ◌≤◌, ◌^◌, [], IfOk, IfSome, length};
ghost use Rattle.collections.specs.Lookups.{ReadsOf};
ghost use Rattle.filter.specs.Matches.{matches};
ghost use Rattle.index.specs.View.{texts_of};
ghost use Rattle.asked_documents.specs.Asking.{IsAsked};
ghost use Rattle.asked_documents.specs.ById.{AreIdsOfAsked};
ghost use Rattle.queries.specs.LookedUp.{IsLookedUp, IsLookedUpWithin};

use bson_bytes::SpelledDocument;
use candidate_ids::asked_ids;
use collections::Collections;
use entries::Catalogued;
use page::Disk;
use path::Refusal;
use std::alloc::Global;
use walks::{BatchAsked, GivenBatch, Walk, batch_by_ids, selected_by_ids};

/// What was looked up for a first batch.
#[derive(Drop)]
pub enum LookedUp {
    /// The batch, which has all that is asked for.
    Batch(GivenBatch),
    /// The documents that match, in ascending order of `_id`: the first ones, up to as many as are asked for.
    Documents(Vec<SpelledDocument>),
}

/// What these ascending `_id`s lead to, among which are those of all documents that are asked for.
fn looked_up_by_ids<D: Disk>(
    alloc: Global,
    file: &mut Collections<D>,
    home: &Catalogued,
    walk: &Walk<'_>,
    asked: &BatchAsked<'_>,
    most: usize,
    ids: &[Vec<u8>],
) -> Result<LookedUp, Refusal>
    requires short { length asked.now.namespace.now ≤ 255 }
    requires number { asked.now.number < 2 ^ 63 }
    requires from { walk.now.from.now ≡ [] }
    ensures reads { ReadsOf D.history
        (AreIdsOfAsked home.now (matches walk.now.filter.now) (texts_of ids.now))
        (λ now c found. IsLookedUp walk.now asked.now most c.documents found)
        result file.old file.new }
    ensures within { IfOk result IsLookedUpWithin }
{
    let number = home.number;
    if asked.most < ids.len() {
        let found = selected_by_ids(alloc, file, number, walk.filter, ids, most)?;
        return Ok(LookedUp::Documents(found));
    }
    let batch = batch_by_ids(alloc, file, home, walk, asked, ids)?;
    if let Some(batch) = batch {
        return Ok(LookedUp::Batch(batch));
    }
    let found = selected_by_ids(alloc, file, number, walk.filter, ids, most)?;
    Ok(LookedUp::Documents(found))
}

/// What is looked up of what a walk gives of a collection from its beginning, where the filter asks for `_id`s or an index serves it: a batch
/// that has all of it, or the first documents that match, up to so many. `None`: only a walk through the collection tells them.
pub fn looked_up_first<D: Disk>(
    alloc: Global,
    file: &mut Collections<D>,
    home: &Catalogued,
    walk: &Walk<'_>,
    asked: &BatchAsked<'_>,
    most: usize,
) -> Result<Option<LookedUp>, Refusal>
    requires short { length asked.now.namespace.now ≤ 255 }
    requires number { asked.now.number < 2 ^ 63 }
    requires from { walk.now.from.now ≡ [] }
    ensures reads { ReadsOf D.history (IsAsked home.now)
        (λ now c found. IfSome found (IsLookedUp walk.now asked.now most c.documents))
        result file.old file.new }
    ensures within { IfOk result (λ found. IfSome found IsLookedUpWithin) }
{
    let Some(ids) = asked_ids(alloc, file, home, walk.filter)? else {
        return Ok(None);
    };
    let found = looked_up_by_ids(alloc, file, home, walk, asked, most, &ids)?;
    Ok(Some(found))
}
