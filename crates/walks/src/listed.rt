//! Batches of documents that are told by a list of their `_id`s: each is looked up by itself in a version of the collections, and none
//! is kept.

ghost use Rattle.std.specs.Prelude.{◌≡◌, ◌<◌, ◌≤◌, ◌^◌, [], IfOk, OnOk, is_some, length, map, nat_lt};
ghost use Rattle.collections.specs.Versions.{ReadsVersion};
ghost use Rattle.index.specs.View.{texts_of};
ghost use Rattle.projection.specs.Projection.{project};
ghost use Rattle.replies.specs.OpenBatch.{AreOffered, HasGiven, IsOffered, IsOpen};
ghost use Rattle.replies.specs.View.{IsSendable};
ghost use Rattle.walks.specs.Listed.{AreListedIn, IsListedBatch, IsStoredIn, given_of, id_text_of};

use crate::batches::{BatchAsked, GivenBatch, offer_within};
use bson::{NoMemory, Value};
use bson_bytes::{RawDoc, SpelledDocument};
use collections::Collections;
use page::Disk;
use pager::Version;
use path::Refusal;
use projection::Projection;
use replies::OpenBatch;
use std::alloc::Global;
use value_order::group_text;

/// Documents that are to be given: the key texts of their `_id`s, in their order.
#[derive(Clone, Copy)]
pub struct Listed<'a> {
    pub ids: &'a [Vec<u8>],
    pub projection: &'a Projection,
}

/// The key text of a document's `_id`; of null's where it has none, as a disk may give some.
fn id_text_in(alloc: Global, document: &RawDoc<'_>) -> Result<Vec<u8>, NoMemory>
    ensures { IfOk result (λ text. text.items ≡ id_text_of document.now) }
{
    match document.get("_id") {
        Some(id) => group_text(alloc, &id.value(alloc)?),
        None => group_text(alloc, &Value::Null),
    }
}

/// The key texts of the `_id`s of documents, in their order.
pub fn listed_texts(alloc: Global, documents: &[SpelledDocument]) -> Result<Vec<Vec<u8>>, NoMemory>
    ensures { IfOk result (λ ids. texts_of ids.items ≡ map id_text_of documents.now) }
{
    let mut texts = Vec::with_capacity(alloc, documents.len())?;
    'documents: for document in documents {
        texts.push(id_text_in(alloc, &document.raw())?)?;
    }
    Ok(texts)
}

/// The text at a place, from which a batch goes on that has those before it; `None` where it has all.
fn next_of(alloc: Global, ids: &[Vec<u8>], place: usize) -> Result<Option<Vec<u8>>, NoMemory>
    ensures { IfOk result (λ next. is_some next ≡ nat_lt place (length ids.now)) }
{
    if ids.len() <= place {
        return Ok(None);
    }
    Ok(Some(Vec::from_slice(alloc, &ids[place])?))
}

/// Puts what a projection leaves of the document of an `_id` in a version into a batch, if it goes into it, and says whether it did.
fn offer_one<D: Disk>(
    alloc: Global,
    file: &mut Collections<D>,
    version: Version,
    number: u32,
    projection: &Projection,
    id: &[u8],
    batch: &mut OpenBatch,
) -> Result<bool, Refusal>
    ensures reads { ReadsVersion D.history version (IsStoredIn number id.now)
        (λ now one is_taken. IsOffered batch.old (project projection.now one.document)
        is_taken batch.new) result file.old file.new }
    ensures open { OnOk result (IsOpen batch.old → IsOpen batch.new) }
{
    let Some(document) = file.document_in(version, number, id)? else {
        return Err(Refusal::StorageFailed);
    };
    offer_within(alloc, batch, projection, &document.raw())
}

/// Puts the documents of a list into a batch that has none, as far as they go into it.
fn offer_listed<D: Disk>(
    alloc: Global,
    file: &mut Collections<D>,
    version: Version,
    number: u32,
    listed: &Listed<'_>,
    batch: &mut OpenBatch,
) -> Result<(), Refusal>
    requires empty { HasGiven batch.old [] }
    ensures reads { ReadsVersion D.history version
        (AreListedIn number (texts_of listed.now.ids.now))
        (λ now chosen _. AreOffered batch.old (given_of listed.now.projection.now chosen)
        batch.new.count batch.new) result file.old file.new }
    ensures open { OnOk result (IsOpen batch.new) }
{
    'ids: for id in listed.ids {
        if !offer_one(alloc, file, version, number, listed.projection, id, batch)? {
            return Ok(());
        }
    }
    Ok(())
}

/// A batch of documents of a version's collection of a number that a list tells, and where it goes on.
pub fn batch_of_listed<D: Disk>(
    alloc: Global,
    file: &mut Collections<D>,
    version: Version,
    number: u32,
    listed: &Listed<'_>,
    asked: &BatchAsked<'_>,
) -> Result<GivenBatch, Refusal>
    requires short { length asked.now.namespace.now ≤ 255 }
    requires number { asked.now.number < 2 ^ 63 }
    ensures reads { ReadsVersion D.history version
        (AreListedIn number (texts_of listed.now.ids.now))
        (λ now chosen b. IsListedBatch asked.now (given_of listed.now.projection.now chosen) b)
        result file.old file.new }
    ensures sendable { IfOk result (λ b. IsSendable b.reply) }
{
    let mut batch = OpenBatch::begin(alloc, asked.kind, asked.most)?;
    offer_listed(alloc, file, version, number, listed, &mut batch)?;
    let count = batch.count();
    let next = next_of(alloc, listed.ids, count)?;
    let reply = batch.end(next.is_none(), asked.number, asked.namespace)?;
    Ok(GivenBatch { reply, count, next })
}
