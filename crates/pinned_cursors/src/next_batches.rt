//! Cursors that hold no documents give their next batches.

ghost use Rattle.std.specs.Prelude.{◌≡◌, ◌≢◌, ◌<◌, ◌≤◌, ◌^◌, IfOk, None, length};
ghost use Rattle.collections.specs.Versions.{ReadsVersion};
ghost use Rattle.cursors.specs.Held.{cursors_of, held_at};
ghost use Rattle.index.specs.View.{texts_of};
ghost use Rattle.database_model.specs.Lawful.{AreLawfulCursors};
ghost use Rattle.pinned_cursors.specs.Batches.{GivesNext, ReadsAt};
ghost use Rattle.walks.specs.InOrder.{IsOrderedBatch, IsOrderedIn};
ghost use Rattle.replies.specs.View.{IsSendable};

use crate::ending::end;
use bson_bytes::SpelledDocument;
use collections::Collections;
use cursors::{Cursors, PinnedList, PinnedOrder, PinnedWalk, Source};
use page::Disk;
use pager::Version;
use path::Refusal;
use replies::BatchKind;
use std::alloc::Global;
use walks::{
    BatchAsked, GivenBatch, Listed, OrderedWalk, Walk, batch_in_order, batch_of_listed,
    batch_of_version,
};

/// The walk by which a cursor goes on, as walks take it.
fn walk_on(pinned: &PinnedWalk) -> Walk<'_>
    ensures filter { result.filter.now ≡ pinned.now.filter }
    ensures projection { result.projection.now ≡ pinned.now.projection }
    ensures skip { result.skip ≡ 0 }
    ensures limit { result.limit ≡ pinned.now.limit }
    ensures from { result.from.now ≡ pinned.now.from.items }
{
    Walk {
        filter: &pinned.filter,
        projection: &pinned.projection,
        skip: 0,
        limit: pinned.limit,
        from: &pinned.from,
    }
}

/// The list by which it goes on.
fn list_on(pinned: &PinnedList) -> Listed<'_>
    ensures ids { texts_of result.ids.now ≡ pinned.now.texts }
    ensures few { length result.ids.now < 2 ^ 64 }
    ensures projection { result.projection.now ≡ pinned.now.projection }
{
    Listed {
        ids: pinned.texts.left(),
        projection: &pinned.projection,
    }
}

/// The walk in the order of an index by which it goes on.
fn order_on(pinned: &PinnedOrder) -> OrderedWalk<'_>
    ensures filter { result.filter.now ≡ pinned.now.filter }
    ensures projection { result.projection.now ≡ pinned.now.projection }
    ensures index { result.index.now ≡ pinned.now.index }
    ensures skip { result.skip ≡ 0 }
    ensures limit { result.limit ≡ pinned.now.limit }
    ensures from { result.from.now ≡ pinned.now.from.items }
    ensures last { result.last.now ≡ pinned.now.last.items }
{
    let from = pinned.from.as_slice();
    OrderedWalk {
        filter: &pinned.filter,
        projection: &pinned.projection,
        index: &pinned.index,
        skip: 0,
        limit: pinned.limit,
        from,
        last: &pinned.last,
    }
}

/// The next batch in the order of an index of a version's collection of a number, however many entries are read for it.
fn next_in_order<D: Disk>(
    alloc: Global,
    file: &mut Collections<D>,
    version: Version,
    number: u32,
    walk: &OrderedWalk<'_>,
    asked: &BatchAsked<'_>,
) -> Result<GivenBatch, Refusal>
    requires short { length asked.now.namespace.now ≤ 255 }
    requires number { asked.now.number < 2 ^ 63 }
    ensures reads { ReadsVersion D.history version (IsOrderedIn number walk.now)
        (λ now o b. IsOrderedBatch o.sort walk.now asked.now o.home.documents b)
        result file.old file.new }
    ensures sendable { IfOk result (λ b. IsSendable b.reply) }
{
    // each time reads an entry at least, and no collection has so many
    let found = batch_in_order(alloc, file, version, number, walk, asked, u32::MAX)?;
    match found {
        Some(batch) => Ok(batch),
        None => Err(Refusal::OutOfMemory),
    }
}

/// The next batch of the cursor at a place, read from its version.
fn read_at<D: Disk>(
    alloc: Global,
    file: &mut Collections<D>,
    cursors: &Cursors,
    at: usize,
    namespace: &str,
    most: usize,
) -> Result<GivenBatch, Refusal>
    requires there { at < length cursors.now.list }
    requires pinned { (held_at cursors.now at).walk ≢ None }
    requires short { length namespace.now ≤ 255 }
    ensures reads { ReadsAt D.history (held_at cursors.now at) namespace.now most result file.old
        file.new }
    ensures sendable { IfOk result (λ b. IsSendable b.reply) }
{
    let asked = BatchAsked {
        kind: BatchKind::Next,
        namespace,
        number: cursors.number_at(at),
        most,
    };
    match cursors.source_at(at) {
        Source::Kept(_) => unreachable!("it reads a pinned version"),
        Source::Pinned(pinned) => {
            let walk = walk_on(pinned);
            batch_of_version(alloc, file, pinned.version, pinned.number, &walk, &asked)
        }
        Source::Listed(pinned) => {
            let listed = list_on(pinned);
            batch_of_listed(alloc, file, pinned.version, pinned.number, &listed, &asked)
        }
        Source::Ordered(pinned) => {
            let walk = order_on(pinned);
            next_in_order(alloc, file, pinned.version, pinned.number, &walk, &asked)
        }
    }
}

/// Gives the next documents of the cursor at a place, which holds none: they are read from its version. With its
/// last one it ends, and its pin with it. A refusal leaves it as it was.
pub(crate) fn next_batch<D: Disk>(
    alloc: Global,
    file: &mut Collections<D>,
    cursors: &mut Cursors,
    at: usize,
    namespace: &str,
    most: Option<usize>,
) -> Result<SpelledDocument, Refusal>
    requires there { at < length cursors.old.list }
    requires pinned { (held_at cursors.old at).walk ≢ None }
    requires short { length namespace.now ≤ 255 }
    ensures gives { GivesNext D.history at namespace.now most result file.old file.new cursors.old
        cursors.new }
    ensures lawful { AreLawfulCursors (cursors_of cursors.old)
        → AreLawfulCursors (cursors_of cursors.new) }
    ensures sendable { IfOk result (λ d. IsSendable d) }
{
    if file.is_stopped() {
        return Err(Refusal::StorageFailed);
    }
    let bound = most.unwrap_or(usize::MAX);
    let batch = read_at(alloc, file, cursors, at, namespace, bound)?;
    let GivenBatch { reply, count, next } = batch;
    match next {
        Some(from) => {
            cursors.go_on(at, count, from);
            Ok(reply)
        }
        None => {
            end(file, cursors, at);
            Ok(reply)
        }
    }
}
