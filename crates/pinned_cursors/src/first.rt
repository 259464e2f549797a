//! A first batch of the documents of a list, which are looked up in the version that is pinned for a cursor on the others.

ghost use Rattle.std.specs.Prelude.{◌≤◌, All, IfOk, length};
ghost use Rattle.cursors.specs.Held.{cursors_of};
ghost use Rattle.database_model.specs.Lawful.{AreLawfulCursors, IsWithin};
ghost use Rattle.pinned_cursors.specs.First.{GivesFirst, GivesPinned};
ghost use Rattle.pinned_cursors.specs.Opening.{held_walk, way_by};
ghost use Rattle.replies.specs.View.{IsSendable};

use crate::opening::{ListLeft, open_list};
use bson_bytes::SpelledDocument;
use collections::Collections;
use cursors::{Cursors, Rest};
use page::Disk;
use pager::Version;
use path::Refusal;
use replies::{BatchKind, ConnId};
use std::alloc::Global;
use walks::{BatchAsked, GivenBatch, Listed, batch_of_listed};

/// Who asks for a first batch of a list, and for how many documents.
#[derive(Clone, Copy)]
pub struct FirstAsked<'a> {
    pub connection: ConnId,
    pub namespace: &'a str,
    pub most: usize,
}

/// A first batch, and whether a cursor was opened behind it.
#[derive(Drop)]
pub(crate) struct FirstGiven {
    pub(crate) reply: SpelledDocument,
    pub(crate) is_open: bool,
}

/// Gives a first batch of the documents of a list that are looked up in a pinned version, and opens a cursor on the others; `TooMany`
/// where the connection may open none. An `Err` leaves the cursors as they were.
fn give_pinned<D: Disk>(
    alloc: Global,
    file: &mut Collections<D>,
    cursors: &mut Cursors,
    version: Version,
    asked: &FirstAsked<'_>,
    left: ListLeft<'_>,
    rest: Rest,
) -> Result<FirstGiven, Refusal>
    requires short { length asked.now.namespace.now ≤ 255 }
    requires within { All IsWithin rest.value }
    ensures gives { GivesPinned D.history asked.now.connection asked.now.namespace.now
        (held_walk version left.entry.number left.entry.projection.now (way_by left.entry))
        rest.value asked.now.most result file.old file.new cursors.old cursors.new }
    ensures lawful { AreLawfulCursors (cursors_of cursors.old)
        → AreLawfulCursors (cursors_of cursors.new) }
    ensures sendable { IfOk result (λ g. IsSendable g.reply) }
{
    let number = cursors.next_number(asked.connection);
    let batch = BatchAsked {
        kind: BatchKind::First,
        namespace: asked.namespace,
        number: number.unwrap_or(0),
        most: asked.most,
    };
    let listed = Listed {
        ids: &left.texts,
        projection: left.projection,
    };
    let given = batch_of_listed(alloc, file, version, left.number, &listed, &batch)?;
    let GivenBatch { reply, count, next } = given;
    if next.is_none() {
        return Ok(FirstGiven {
            reply,
            is_open: false,
        });
    }
    if number.is_none() {
        return Err(Refusal::TooMany);
    }
    let behind = left.behind(count)?;
    let mut rest = rest;
    rest.give(count);
    open_list(
        cursors,
        version,
        asked.connection,
        asked.namespace,
        behind,
        rest,
    )?;
    Ok(FirstGiven {
        reply,
        is_open: true,
    })
}

/// Gives a first batch of the documents of a list, as the collections have them now, and opens a cursor on the others, for which
/// that version stays pinned; `TooMany` where the connection may open none. An `Err` leaves the cursors as they were.
pub fn give_first<D: Disk>(
    alloc: Global,
    file: &mut Collections<D>,
    cursors: &mut Cursors,
    asked: &FirstAsked<'_>,
    left: ListLeft<'_>,
    rest: Rest,
) -> Result<SpelledDocument, Refusal>
    requires short { length asked.now.namespace.now ≤ 255 }
    requires within { All IsWithin rest.value }
    ensures gives { GivesFirst D.history asked.now.connection asked.now.namespace.now
        left.entry.number left.entry.projection.now (way_by left.entry) rest.value
        asked.now.most result file.old file.new cursors.old cursors.new }
    ensures lawful { AreLawfulCursors (cursors_of cursors.old)
        → AreLawfulCursors (cursors_of cursors.new) }
    ensures sendable { IfOk result (λ d. IsSendable d) }
{
    if file.is_stopped() {
        return Err(Refusal::StorageFailed);
    }
    let version = file.pin()?;
    let given = match give_pinned(alloc, file, cursors, version, asked, left, rest) {
        Ok(given) => given,
        Err(refusal) => {
            file.unpin(version);
            return Err(refusal);
        }
    };
    if given.is_open {
        return Ok(given.reply);
    }
    file.unpin(version);
    Ok(given.reply)
}
