//! Batches of documents in the order of an index: its entries are read a few at a time, and the document of each is looked up in a
//! version of the collections, until the batch is full.

ghost use Rattle.std.specs.Prelude.{◌≡◌, ◌<◌, ◌≤◌, ◌^◌, [], IfOk, IfSome, None, OnOk, false, length};
ghost use Rattle.collections.specs.Versions.{ReadsVersion};
ghost use Rattle.index.specs.View.{texts_of};
ghost use Rattle.replies.specs.OpenBatch.{IsOpen};
ghost use Rattle.replies.specs.View.{IsSendable};
ghost use Rattle.walks.specs.Batches.{Gives, is_over};
ghost use Rattle.walks.specs.InOrder.{AreLedIn, GivesLed, GivesOne, HasReadFirst, IsIndexedIn, IsLedIn, IsOrderedBatch, IsOrderedIn};

use crate::batches::{BatchAsked, GivenBatch, Giving, Walk, begun, ended};
use bson::NoMemory;
use collections::{Collections, NextTexts};
use filter::Filter;
use index::IndexSpec;
use page::Disk;
use pager::Version;
use path::Refusal;
use planner::id_text;
use projection::Projection;
use std::alloc::Global;

/// So many entries are read at a time at most.
pub const MOST_READ: usize = 1_024;

/// A walk through the entries of an index that has one for each document: which of the documents it gives, and from which entry it goes
/// on.
#[derive(Clone, Copy)]
pub struct OrderedWalk<'a> {
    pub filter: &'a Filter,
    pub projection: &'a Projection,
    pub index: &'a IndexSpec,
    /// How many of what matches are left out at the front.
    pub skip: usize,
    /// How many may come then; 0 is no limit.
    pub limit: usize,
    /// It goes on from the first entry that has this text or one above it.
    pub from: &'a [u8],
    /// It ends with the entries of this text and of all that goes on from it.
    pub last: &'a [u8],
}

/// These bytes.
fn bytes_of(alloc: Global, bytes: &[u8]) -> Result<Vec<u8>, NoMemory>
    ensures { IfOk result (λ v. v.items ≡ bytes.now) }
{
    Vec::from_slice(alloc, bytes)
}

/// Lends the document of an entry, by the entry's text, to a batch, and says whether the batch has no room for it.
fn give_one<D: Disk>(
    alloc: Global,
    file: &mut Collections<D>,
    version: Version,
    number: u32,
    index: &IndexSpec,
    text: &[u8],
    giving: &mut Giving<'_>,
) -> Result<bool, Refusal>
    requires over { is_over giving.old ≡ false }
    requires none { giving.old.next ≡ None }
    ensures reads { ReadsVersion D.history version (IsLedIn number index.now text.now)
        (λ now one is_left. GivesOne one.document giving.old is_left giving.new)
        result file.old file.new }
    ensures next { IfOk result (λ is_left. is_left ≡ false → giving.new.next ≡ None) }
    ensures open { OnOk result (IsOpen giving.old.batch → IsOpen giving.new.batch) }
{
    let Some(id) = id_text(index, text) else {
        return Err(Refusal::StorageFailed);
    };
    let Some(document) = file.document_in(version, number, id)? else {
        return Err(Refusal::StorageFailed);
    };
    if !giving.put(&document.raw())? {
        return Ok(false);
    }
    giving.next = Some(bytes_of(alloc, id)?);
    Ok(true)
}

/// Lends the documents of entries to a batch, by their texts, until the batch is over, and tells the entry for which it has no room.
fn give_texts<D: Disk>(
    alloc: Global,
    file: &mut Collections<D>,
    version: Version,
    number: u32,
    index: &IndexSpec,
    texts: &[Vec<u8>],
    giving: &mut Giving<'_>,
) -> Result<Option<Vec<u8>>, Refusal>
    requires { giving.old.next ≡ None }
    ensures reads { ReadsVersion D.history version
        (AreLedIn number index.now (texts_of texts.now))
        (λ now chosen left. GivesLed index.now (texts_of texts.now) chosen.documents
        giving.old giving.new left) result file.old file.new }
    ensures open { OnOk result (IsOpen giving.old.batch → IsOpen giving.new.batch) }
{
    'texts: for text in texts {
        if giving.is_over() {
            return Ok(None);
        }
        if give_one(alloc, file, version, number, index, text, giving)? {
            return Ok(Some(bytes_of(alloc, text)?));
        }
    }
    Ok(None)
}

/// How many entries are read at a time for a batch of so many documents.
fn width_for(walk: &OrderedWalk<'_>, most: usize) -> usize {
    let wanted = match walk.limit {
        0 => most.saturating_add(1),
        limit => limit.min(most.saturating_add(1)),
    };
    wanted.saturating_add(walk.skip).min(MOST_READ)
}

/// Lends the documents of an index's entries to a batch, so many entries at a time, until the batch is over or none is left, and tells
/// the entry for which it has no room. `None` where it isn't over after so many times.
fn give_in_order<D: Disk>(
    alloc: Global,
    file: &mut Collections<D>,
    version: Version,
    number: u32,
    walk: &OrderedWalk<'_>,
    width: usize,
    times: u32,
    giving: &mut Giving<'_>,
) -> Result<Option<Option<Vec<u8>>>, Refusal>
    requires { giving.old.next ≡ None }
    ensures reads { ReadsVersion D.history version (IsIndexedIn number walk.now.index.now)
        (λ now c found. (start : Giving) → Gives start [] giving.old → IfSome found
        (HasReadFirst start giving.new walk.now.from.now walk.now.last.now
        (record { collection = c; definition = walk.now.index.now })))
        result file.old file.new }
    ensures open { OnOk result (IsOpen giving.old.batch → IsOpen giving.new.batch) }
{
    let index = walk.index.number();
    let mut from = bytes_of(alloc, walk.from)?;
    for _ in 0..times {
        let read = file.next_texts_in(version, number, index, &from, walk.last, width)?;
        let NextTexts { texts, next } = read;
        let left = give_texts(alloc, file, version, number, walk.index, &texts, giving)?;
        if giving.is_over() {
            return Ok(Some(left));
        }
        let Some(next) = next else {
            return Ok(Some(None));
        };
        from = next;
    }
    Ok(None)
}

/// A batch of what comes in the order of an index of a version's collection of a number from an entry on, and the text of the entry from
/// which it goes on; `None` where the batch isn't full after entries were read so many times.
pub fn batch_in_order<D: Disk>(
    alloc: Global,
    file: &mut Collections<D>,
    version: Version,
    number: u32,
    walk: &OrderedWalk<'_>,
    asked: &BatchAsked<'_>,
    times: u32,
) -> Result<Option<GivenBatch>, Refusal>
    requires short { length asked.now.namespace.now ≤ 255 }
    requires number { asked.now.number < 2 ^ 63 }
    ensures reads { ReadsVersion D.history version (IsOrderedIn number walk.now)
        (λ now o found. IfSome found (IsOrderedBatch o.sort walk.now asked.now o.home.documents))
        result file.old file.new }
    ensures sendable { IfOk result (λ found. IfSome found (λ b. IsSendable b.reply)) }
{
    let given = Walk {
        filter: walk.filter,
        projection: walk.projection,
        skip: walk.skip,
        limit: walk.limit,
        from: walk.from,
    };
    let mut giving = begun(alloc, &given, asked)?;
    let width = width_for(walk, asked.most);
    let read = give_in_order(
        alloc,
        file,
        version,
        number,
        walk,
        width,
        times,
        &mut giving,
    )?;
    let Some(left) = read else {
        return Ok(None);
    };
    let batch = ended(giving, asked)?;
    let GivenBatch { reply, count, .. } = batch;
    Ok(Some(GivenBatch {
        reply,
        count,
        next: left,
    }))
}
