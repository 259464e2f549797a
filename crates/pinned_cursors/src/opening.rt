//! Cursors that hold no documents are opened.

ghost use Rattle.std.specs.Prelude.{◌≡◌, ◌<◌, ◌^◌, All, IfOk, OnErr, OnOk, Some};
ghost use Rattle.database_model.specs.Lawful.{IsWithin};
ghost use Rattle.cursors.specs.Changes.{opened};
ghost use Rattle.cursors.specs.View.{list_of, order_of, walk_of};
ghost use Rattle.pinned_cursors.specs.Opening.{OpensPinned, held_walk, order_behind, way_behind, way_by};

use bson::NoMemory;
use collections::Collections;
use cursors::{Cursors, PinnedList, PinnedOrder, PinnedWalk, Rest, TextList};
use page::Disk;
use pager::Version;
use projection::Projection;
use replies::ConnId;
use std::alloc::Global;
use walks::{OrderedWalk, Walk};

/// What a cursor is opened on: what a walk through a collection has left behind a batch.
#[derive(Drop)]
pub struct WalkSoFar<'a> {
    /// The number of the collection.
    pub number: u32,
    pub walk: &'a Walk<'a>,
    /// How many documents the batch gave.
    pub count: usize,
    /// The key text from which the walk goes on.
    pub from: Vec<u8>,
}

/// What a cursor is opened on: documents of a collection, by a list of their `_id`s.
#[derive(Drop)]
pub struct ListLeft<'a> {
    /// The number of the collection.
    pub number: u32,
    /// What is given of each document.
    pub projection: &'a Projection,
    /// The key texts of the `_id`s, in the order in which the documents come.
    pub texts: Vec<Vec<u8>>,
}

impl<'a> ListLeft<'a> {
    ghost use Rattle.std.specs.Prelude.{drop};

    /// The documents behind the first ones.
    pub(crate) fn behind(self, count: usize) -> Result<ListLeft<'a>, NoMemory>
        ensures number { IfOk result (λ l. l.number ≡ self.entry.number) }
        ensures projection { IfOk result (λ l. l.projection.now ≡ self.entry.projection.now) }
        ensures texts { IfOk result (λ l. l.texts.items ≡ drop count self.entry.texts.items) }
    {
        let mut texts = self.texts;
        let count = count.min(texts.len());
        Ok(ListLeft {
            number: self.number,
            projection: self.projection,
            texts: texts.split_off(count)?,
        })
    }
}

/// What a cursor is opened on: what a walk in the order of an index has left behind a batch.
#[derive(Drop)]
pub(crate) struct OrderSoFar<'a> {
    /// The number of the collection.
    pub(crate) number: u32,
    pub(crate) walk: OrderedWalk<'a>,
    /// How many documents the batch gave.
    pub(crate) count: usize,
    /// The text of the entry from which the walk goes on.
    pub(crate) from: Vec<u8>,
}

/// The walk by which a cursor goes on in a pinned version.
fn pinned_walk(version: Version, left: WalkSoFar<'_>, rest: Rest) -> Result<PinnedWalk, NoMemory>
    ensures walk { IfOk result (λ w. walk_of w ≡ held_walk version left.entry.number
        left.entry.walk.now.projection.now (way_behind left.entry)) }
    ensures gives { IfOk result (λ w. w.rest.value ≡ rest.value) }
{
    let filter = left.walk.filter.copy()?;
    let projection = left.walk.projection.copy()?;
    Ok(PinnedWalk {
        version,
        number: left.number,
        filter,
        projection,
        limit: left.walk.limit.saturating_sub(left.count),
        from: left.from,
        rest,
    })
}

/// The list by which a cursor goes on in a pinned version.
fn pinned_list(version: Version, left: ListLeft<'_>, rest: Rest) -> Result<PinnedList, NoMemory>
    ensures list { IfOk result (λ l. list_of l ≡ held_walk version left.entry.number
        left.entry.projection.now (way_by left.entry)) }
    ensures gives { IfOk result (λ l. l.rest.value ≡ rest.value) }
{
    let projection = left.projection.copy()?;
    Ok(PinnedList {
        version,
        number: left.number,
        projection,
        texts: TextList::new(left.texts),
        rest,
    })
}

/// The walk in the order of an index by which it does.
fn pinned_order(
    alloc: Global,
    version: Version,
    left: OrderSoFar<'_>,
    rest: Rest,
) -> Result<PinnedOrder, NoMemory>
    ensures order { IfOk result (λ o. order_of o ≡ held_walk version left.entry.number
        left.entry.walk.projection.now (order_behind left.entry)) }
    ensures gives { IfOk result (λ o. o.rest.value ≡ rest.value) }
{
    let filter = left.walk.filter.copy()?;
    let projection = left.walk.projection.copy()?;
    let index = left.walk.index.copy()?;
    let last = Vec::from_slice(alloc, left.walk.last)?;
    let limit = left.walk.limit.saturating_sub(left.count);
    Ok(PinnedOrder {
        version,
        number: left.number,
        filter,
        projection,
        index,
        limit,
        from: left.from,
        last,
        rest,
    })
}

/// Opens a cursor that walks on in a pinned version. An `Err` leaves all as it was.
fn open_walk(
    cursors: &mut Cursors,
    version: Version,
    connection: ConnId,
    namespace: &str,
    left: WalkSoFar<'_>,
    rest: Rest,
) -> Result<(), NoMemory>
    requires number { cursors.old.next < 2 ^ 63 }
    requires within { All IsWithin rest.value }
    ensures ok { OnOk result (cursors.new ≡ opened cursors.old connection namespace.now rest.value
        (Some (held_walk version left.entry.number left.entry.walk.now.projection.now
        (way_behind left.entry)))) }
    ensures err { OnErr result (cursors.new ≡ cursors.old) }
{
    let walk = pinned_walk(version, left, rest)?;
    cursors.open_pinned(connection, namespace, walk)
}

/// Opens a cursor that gives documents of a pinned version by a list. An `Err` leaves all as it was.
pub(crate) fn open_list(
    cursors: &mut Cursors,
    version: Version,
    connection: ConnId,
    namespace: &str,
    left: ListLeft<'_>,
    rest: Rest,
) -> Result<(), NoMemory>
    requires number { cursors.old.next < 2 ^ 63 }
    requires within { All IsWithin rest.value }
    ensures ok { OnOk result (cursors.new ≡ opened cursors.old connection namespace.now rest.value
        (Some (held_walk version left.entry.number left.entry.projection.now
        (way_by left.entry)))) }
    ensures err { OnErr result (cursors.new ≡ cursors.old) }
{
    let list = pinned_list(version, left, rest)?;
    cursors.open_listed(connection, namespace, list)
}

/// Opens a cursor that goes on in the order of an index of a pinned version. An `Err` leaves all as it was.
pub(crate) fn open_order(
    alloc: Global,
    cursors: &mut Cursors,
    version: Version,
    connection: ConnId,
    namespace: &str,
    left: OrderSoFar<'_>,
    rest: Rest,
) -> Result<(), NoMemory>
    requires number { cursors.old.next < 2 ^ 63 }
    requires within { All IsWithin rest.value }
    ensures ok { OnOk result (cursors.new ≡ opened cursors.old connection namespace.now rest.value
        (Some (held_walk version left.entry.number left.entry.walk.projection.now
        (order_behind left.entry)))) }
    ensures err { OnErr result (cursors.new ≡ cursors.old) }
{
    let order = pinned_order(alloc, version, left, rest)?;
    cursors.open_ordered(connection, namespace, order)
}

/// Pins the collections as they are now, and opens a cursor that goes on in them by what a walk has left.
/// Behind an `Err` the cursors are as they were, and nothing more is pinned.
pub fn open_pinned<D: Disk>(
    file: &mut Collections<D>,
    cursors: &mut Cursors,
    connection: ConnId,
    namespace: &str,
    left: WalkSoFar<'_>,
    rest: Rest,
) -> Result<(), NoMemory>
    requires number { cursors.old.next < 2 ^ 63 }
    requires within { All IsWithin rest.value }
    ensures { OpensPinned D.history connection namespace.now left.entry.number
        left.entry.walk.now.projection.now (way_behind left.entry) rest.value result file.old
        file.new cursors.old cursors.new }
{
    let version = file.pin()?;
    match open_walk(cursors, version, connection, namespace, left, rest) {
        Ok(()) => Ok(()),
        Err(fault) => {
            file.unpin(version);
            Err(fault)
        }
    }
}

/// The same of a cursor that gives the documents of a list.
pub fn open_listed<D: Disk>(
    file: &mut Collections<D>,
    cursors: &mut Cursors,
    connection: ConnId,
    namespace: &str,
    left: ListLeft<'_>,
    rest: Rest,
) -> Result<(), NoMemory>
    requires number { cursors.old.next < 2 ^ 63 }
    requires within { All IsWithin rest.value }
    ensures { OpensPinned D.history connection namespace.now left.entry.number
        left.entry.projection.now (way_by left.entry) rest.value result file.old file.new
        cursors.old cursors.new }
{
    let version = file.pin()?;
    match open_list(cursors, version, connection, namespace, left, rest) {
        Ok(()) => Ok(()),
        Err(fault) => {
            file.unpin(version);
            Err(fault)
        }
    }
}
