//! Batches that are spelled while a collection is walked through: no document of them is kept, and a walk
//! ends where its batch is full.

ghost use Rattle.std.specs.Prelude.{◌≡◌, ◌<◌, ◌≤◌, ◌^◌, IfErr, IfOk, [], IfSome, false, length, option_map};
ghost use Rattle.collections.specs.Lookups.{ReadsOf};
ghost use Rattle.collections.specs.Versions.{ReadsVersion};
ghost use Rattle.filter.specs.Matches.{matches};
ghost use Rattle.index.specs.View.{texts_of};
ghost use Rattle.projection.specs.Projection.{project};
ghost use Rattle.entry_model.specs.LawfulState.{IsStorable};
ghost use Rattle.entry_model.specs.State.{key_of};
ghost use Rattle.replies.specs.OpenBatch.{IsOffered, IsOpen};
ghost use Rattle.replies.specs.View.{IsSendable};
ghost use Rattle.value_order.specs.KeyText.{tree_text};
ghost use Rattle.asked_documents.specs.Asking.{IsAsked, IsAskedIn};
ghost use Rattle.asked_documents.specs.ById.{AreIdsOfAsked};
ghost use Rattle.walks.specs.Batches.{Gives, IsBegun, IsEnded, IsGivenBatch, IsWholeBatch, PassFrom, Puts, is_over, is_reached};

use crate::by_ids::fold_by_ids;
use crate::id_range::{IdSpan, span_asked};
use crate::within::{document_of, is_within};
use bson::NoMemory;
use bson_bytes::{RawDoc, SpelledDocument};
use btree::Bounds;
use collections::{Collections, DocumentFold};
use entries::Catalogued;
use filter::Filter;
use page::Disk;
use pager::Version;
use path::Refusal;
use projection::Projection;
use replies::{BatchKind, OpenBatch};
use std::alloc::Global;
use stored_documents::id_text;
use tree_model::is_within as is_below;

/// A walk through the documents of a collection in ascending order of `_id`: which of them it gives, and from
/// which key text it goes on.
#[derive(Clone, Copy)]
pub struct Walk<'a> {
    pub filter: &'a Filter,
    pub projection: &'a Projection,
    /// How many of what matches are left out at the front.
    pub skip: usize,
    /// How many may come then; 0 is no limit.
    pub limit: usize,
    /// It goes on from the first document whose `_id` has this key text or one above it; empty at the
    /// beginning.
    pub from: &'a [u8],
}

/// The batch that is asked for.
#[derive(Clone, Copy)]
pub struct BatchAsked<'a> {
    pub kind: BatchKind,
    pub namespace: &'a str,
    /// The number of the cursor, which the reply says where others are left.
    pub number: u64,
    /// The most documents.
    pub most: usize,
}

/// A batch that a walk gave.
#[derive(Drop)]
pub struct GivenBatch {
    pub reply: SpelledDocument,
    pub count: usize,
    /// Where others are left: the key text from which the walk goes on. Nothing is left out at the front
    /// then, and the limit is less by what was given.
    pub next: Option<Vec<u8>>,
}

/// The documents that a walk gives, put into a batch until one is left.
#[derive(Drop)]
pub(crate) struct Giving<'a> {
    alloc: Global,
    filter: &'a Filter,
    projection: &'a Projection,
    skip: usize,
    limit: usize,
    batch: OpenBatch,
    /// The key text of the first one for which the batch has no room.
    pub(crate) next: Option<Vec<u8>>,
}

/// Whether so many documents are as many as may come.
fn is_reached(limit: usize, count: usize) -> bool
    ensures { result ≡ is_reached limit count }
{
    limit != 0 && limit <= count
}

/// Puts what a projection leaves of a document into a batch, if it goes into it, and says whether it did;
/// `StorageFailed` where it is over the limits of those that are stored, as a disk may give some.
pub(crate) fn offer_within(
    alloc: Global,
    batch: &mut OpenBatch,
    projection: &Projection,
    document: &RawDoc<'_>,
) -> Result<bool, Refusal>
    ensures offered { IfOk result (λ is_taken. IsOffered batch.old
        (project projection.now document.now) is_taken batch.new) }
    ensures refuses { IsStorable document.now → IfErr result (λ e. e ≡ Refusal.OutOfMemory) }
{
    if !is_within(alloc, document)? {
        return Err(Refusal::StorageFailed);
    }
    Ok(batch.offer(projection, document)?)
}

/// The key text of a document's `_id`.
fn text_of(alloc: Global, document: &RawDoc<'_>) -> Result<Vec<u8>, Refusal>
    ensures text { IfOk result (λ text. text.items ≡ tree_text (key_of document.now)) }
    ensures refuses { IsStorable document.now → IfErr result (λ e. e ≡ Refusal.OutOfMemory) }
{
    let built = document_of(alloc, document)?;
    id_text(alloc, &built)
}

impl Giving<'_> {
    /// Whether it stays as it is, whatever else may come.
    pub(crate) fn is_over(&self) -> bool
        ensures { result ≡ is_over self.now }
    {
        self.next.is_some() || is_reached(self.limit, self.batch.count())
    }

    /// Puts what is given of the next document into the batch, and says whether the batch has no room for it.
    pub(crate) fn put(&mut self, document: &RawDoc<'_>) -> Result<bool, Refusal>
        requires { is_over self.old ≡ false }
        ensures puts { IfOk result (λ is_left. Puts self.old document.now is_left self.new) }
        ensures refuses { IsStorable document.now → IfErr result (λ e. e ≡ Refusal.OutOfMemory) }
    {
        if !self.filter.matches_raw(self.alloc, document)? {
            return Ok(false);
        }
        if 0 < self.skip {
            self.skip -= 1;
            return Ok(false);
        }
        let is_taken = offer_within(self.alloc, &mut self.batch, self.projection, document)?;
        Ok(!is_taken)
    }
}

impl DocumentFold for Giving<'_> {
    ghost makes = { Gives };

    fn is_done(&self) -> bool {
        self.is_over()
    }

    fn take(&mut self, document: &RawDoc<'_>) -> Result<(), Refusal> {
        if self.is_over() {
            return Ok(());
        }
        if self.put(document)? {
            self.next = Some(text_of(self.alloc, document)?);
        }
        Ok(())
    }
}

/// What is given of a walk before a document is lent.
pub(crate) fn begun<'a>(
    alloc: Global,
    walk: &Walk<'a>,
    asked: &BatchAsked<'_>,
) -> Result<Giving<'a>, NoMemory>
    ensures { IfOk result (IsBegun walk.now asked.now) }
{
    let batch = OpenBatch::begin(alloc, asked.kind, asked.most)?;
    Ok(Giving {
        alloc,
        filter: walk.filter,
        projection: walk.projection,
        skip: walk.skip,
        limit: walk.limit,
        batch,
        next: None,
    })
}

/// Between which texts all documents lie that a filter matches, of those that have this text or one above it.
fn span_from(alloc: Global, filter: &Filter, from: &[u8]) -> Result<IdSpan, NoMemory>
    ensures { IfOk result (λ span. PassFrom (matches filter.now) from.now
        span.first.items (option_map (λ v. v.items) span.end)) }
{
    let span = span_asked(alloc, filter)?;
    if !is_below(&span.first, Some(from)) {
        return Ok(span);
    }
    Ok(IdSpan {
        first: Vec::from_slice(alloc, from)?,
        end: span.end,
    })
}

/// The batch, whose reply says whether others are left.
pub(crate) fn ended(given: Giving<'_>, asked: &BatchAsked<'_>) -> Result<GivenBatch, NoMemory>
    requires has_some { IsOpen given.batch }
    requires short { length asked.now.namespace.now ≤ 255 }
    requires number { asked.now.number < 2 ^ 63 }
    ensures ended { IfOk result (IsEnded given.entry asked.now) }
    ensures sendable { IfOk result (λ b. IsSendable b.reply) }
{
    let Giving { batch, next, .. } = given;
    let count = batch.count();
    let reply = batch.end(next.is_none(), asked.number, asked.namespace)?;
    Ok(GivenBatch { reply, count, next })
}

/// A batch of what a walk gives of the documents of a collection, and where it goes on.
pub fn batch_of_turn<D: Disk>(
    alloc: Global,
    file: &mut Collections<D>,
    home: &Catalogued,
    walk: &Walk<'_>,
    asked: &BatchAsked<'_>,
) -> Result<GivenBatch, Refusal>
    requires short { length asked.now.namespace.now ≤ 255 }
    requires number { asked.now.number < 2 ^ 63 }
    ensures reads { ReadsOf D.history (IsAsked home.now)
        (λ now c b. IsGivenBatch walk.now asked.now c.documents b) result file.old file.new }
    ensures sendable { IfOk result (λ b. IsSendable b.reply) }
{
    if file.is_stopped() {
        return Err(Refusal::StorageFailed);
    }
    let span = span_from(alloc, walk.filter, walk.from)?;
    let texts = Bounds {
        from: &span.first,
        to: span.end.as_deref(),
    };
    let giving = begun(alloc, walk, asked)?;
    let given = file.fold_documents_within(home.number, texts, giving)?;
    Ok(ended(given, asked)?)
}

/// The same of a version's collection of a number.
pub fn batch_of_version<D: Disk>(
    alloc: Global,
    file: &mut Collections<D>,
    version: Version,
    number: u32,
    walk: &Walk<'_>,
    asked: &BatchAsked<'_>,
) -> Result<GivenBatch, Refusal>
    requires short { length asked.now.namespace.now ≤ 255 }
    requires number { asked.now.number < 2 ^ 63 }
    ensures reads { ReadsVersion D.history version (IsAskedIn number)
        (λ now c b. IsGivenBatch walk.now asked.now c.documents b) result file.old file.new }
    ensures sendable { IfOk result (λ b. IsSendable b.reply) }
{
    let span = span_from(alloc, walk.filter, walk.from)?;
    let texts = Bounds {
        from: &span.first,
        to: span.end.as_deref(),
    };
    let giving = begun(alloc, walk, asked)?;
    let given = file.fold_documents_in(version, number, texts, giving)?;
    Ok(ended(given, asked)?)
}

/// A batch of what a walk gives from its beginning of documents that have some of these ascending `_id`s, and of no others. `None`: others
/// are left.
pub fn batch_by_ids<D: Disk>(
    alloc: Global,
    file: &mut Collections<D>,
    home: &Catalogued,
    walk: &Walk<'_>,
    asked: &BatchAsked<'_>,
    ids: &[Vec<u8>],
) -> Result<Option<GivenBatch>, Refusal>
    requires short { length asked.now.namespace.now ≤ 255 }
    requires number { asked.now.number < 2 ^ 63 }
    requires from { walk.now.from.now ≡ [] }
    ensures reads { ReadsOf D.history
        (AreIdsOfAsked home.now (matches walk.now.filter.now) (texts_of ids.now))
        (λ now c found. IfSome found (IsWholeBatch walk.now asked.now c.documents))
        result file.old file.new }
    ensures sendable { IfOk result (λ found. IfSome found (λ b. IsSendable b.reply)) }
{
    if file.is_stopped() {
        return Err(Refusal::StorageFailed);
    }
    let giving = begun(alloc, walk, asked)?;
    let given = fold_by_ids(file, home.number, ids, giving)?;
    if given.next.is_some() {
        return Ok(None);
    }
    Ok(Some(ended(given, asked)?))
}
