//! A first batch in the order of an index, read in the version that is pinned for a cursor on the others.

ghost use Rattle.std.specs.Prelude.{◌≤◌, All, IfOk, IfSome, length};
ghost use Rattle.cursors.specs.Held.{cursors_of};
ghost use Rattle.database_model.specs.Lawful.{AreLawfulCursors, IsWithin};
ghost use Rattle.pinned_cursors.specs.First.{GivesFirst, GivesNone, GivesPinned, OrNone, PinnedNone};
ghost use Rattle.pinned_cursors.specs.Opening.{held_walk, way_in_order};
ghost use Rattle.replies.specs.View.{IsSendable};

use crate::first::{FirstAsked, FirstGiven};
use crate::opening::{OrderSoFar, open_order};
use bson_bytes::SpelledDocument;
use collections::Collections;
use cursors::{Cursors, Rest};
use page::Disk;
use pager::Version;
use path::Refusal;
use replies::BatchKind;
use std::alloc::Global;
use walks::{BatchAsked, GivenBatch, OrderedWalk, batch_in_order};

/// What is asked for in the order of an index.
#[derive(Clone, Copy)]
pub struct InOrder<'a> {
    /// The number of the collection.
    pub number: u32,
    pub walk: OrderedWalk<'a>,
    /// So many times entries are read for the first batch at most.
    pub times: u32,
}

/// Gives a first batch of what comes in the order of an index of a pinned version, and opens a cursor on the others; `TooMany` where the
/// connection may open none. `None` where the batch isn't full after entries were read so many times. An `Err` or `None` leaves the
/// cursors as they were.
fn may_give_pinned<D: Disk>(
    alloc: Global,
    file: &mut Collections<D>,
    cursors: &mut Cursors,
    version: Version,
    asked: &FirstAsked<'_>,
    left: &InOrder<'_>,
    rest: Rest,
) -> Result<Option<FirstGiven>, Refusal>
    requires short { length asked.now.namespace.now ≤ 255 }
    requires within { All IsWithin rest.value }
    ensures gives { OrNone (λ r. GivesPinned D.history asked.now.connection asked.now.namespace.now
        (held_walk version left.now.number left.now.walk.projection.now
        (way_in_order left.now.walk))
        rest.value asked.now.most r file.old file.new cursors.old cursors.new)
        (PinnedNone D.history file.old file.new cursors.old cursors.new) result }
    ensures lawful { AreLawfulCursors (cursors_of cursors.old)
        → AreLawfulCursors (cursors_of cursors.new) }
    ensures sendable { IfOk result (λ found. IfSome found (λ g. IsSendable g.reply)) }
{
    let number = cursors.next_number(asked.connection);
    let batch = BatchAsked {
        kind: BatchKind::First,
        namespace: asked.namespace,
        number: number.unwrap_or(0),
        most: asked.most,
    };
    let walk = left.walk;
    let read = batch_in_order(alloc, file, version, left.number, &walk, &batch, left.times)?;
    let Some(given) = read else {
        return Ok(None);
    };
    let GivenBatch { reply, count, next } = given;
    let Some(from) = next else {
        return Ok(Some(FirstGiven {
            reply,
            is_open: false,
        }));
    };
    if number.is_none() {
        return Err(Refusal::TooMany);
    }
    let behind = OrderSoFar {
        number: left.number,
        walk,
        count,
        from,
    };
    let mut rest = rest;
    rest.give(count);
    open_order(
        alloc,
        cursors,
        version,
        asked.connection,
        asked.namespace,
        behind,
        rest,
    )?;
    Ok(Some(FirstGiven {
        reply,
        is_open: true,
    }))
}

/// Gives a first batch of what comes in the order of an index, as the collections have it now, and opens a cursor on the others, for
/// which that version stays pinned; `TooMany` where the connection may open none. `None` where the batch isn't full after entries were
/// read so many times. An `Err` or `None` leaves the cursors as they were.
pub fn give_first_in_order<D: Disk>(
    alloc: Global,
    file: &mut Collections<D>,
    cursors: &mut Cursors,
    asked: &FirstAsked<'_>,
    left: &InOrder<'_>,
    rest: Rest,
) -> Result<Option<SpelledDocument>, Refusal>
    requires short { length asked.now.namespace.now ≤ 255 }
    requires within { All IsWithin rest.value }
    ensures gives { OrNone (λ r. GivesFirst D.history asked.now.connection asked.now.namespace.now
        left.now.number left.now.walk.projection.now (way_in_order left.now.walk) rest.value
        asked.now.most r file.old file.new cursors.old cursors.new)
        (GivesNone D.history file.old file.new cursors.old cursors.new) result }
    ensures lawful { AreLawfulCursors (cursors_of cursors.old)
        → AreLawfulCursors (cursors_of cursors.new) }
    ensures sendable { IfOk result (λ found. IfSome found (λ d. IsSendable d)) }
{
    if file.is_stopped() {
        return Err(Refusal::StorageFailed);
    }
    let version = file.pin()?;
    let found = match may_give_pinned(alloc, file, cursors, version, asked, left, rest) {
        Ok(found) => found,
        Err(refusal) => {
            file.unpin(version);
            return Err(refusal);
        }
    };
    let Some(given) = found else {
        file.unpin(version);
        return Ok(None);
    };
    if given.is_open {
        return Ok(Some(given.reply));
    }
    file.unpin(version);
    Ok(Some(given.reply))
}
