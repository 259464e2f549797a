//! The documents of a collection that a pipeline needs.

ghost use Rattle.std.specs.Prelude.{◌≡◌, true, All, IfOk, List, [], ◌∷◌, ◌++◌};
ghost use Rattle.bson.specs.Tree.{Pairs};
ghost use Rattle.aggregate_model.specs.Taking.{takes, IsEnough, SufficesTaken};
ghost use Rattle.pipelines.specs.View.{pipeline_of};
ghost use Rattle.collections.specs.Lookups.{ReadsOf};
ghost use Rattle.command_model.specs.Insert.{documents_at};
ghost use Rattle.database_model.specs.Aggregate.{AreEnough};
ghost use Rattle.database_model.specs.Lawful.{IsWithin};
ghost use Rattle.index.specs.View.{texts_of};
ghost use Rattle.asked_documents.specs.Asking.{IsAsked};
ghost use Rattle.asked_documents.specs.ById.{AreIdsOf};
ghost use Rattle.queries.specs.Folding.{Needs};

use crate::needed_by_order::needed_by_order;
use crate::taken_by::TakenBy;
use aggregate::{most_needed, still_needed, takes_raw};
use bson::{Document, NoMemory};
use bson_bytes::RawDoc;
use candidate_ids::asked_ids;
use collections::{Collections, DocumentFold};
use entries::Catalogued;
use page::Disk;
use path::Refusal;
use pipelines::Pipeline;
use std::alloc::Global;
use std::mem;
use walks::{built_within, fold_asked, fold_by_ids};

/// So many documents are kept before those that aren't needed any more are let go.
const ROOM: usize = 1024;

/// Copies of documents.
fn copies(alloc: Global, documents: &[&Document]) -> Result<Vec<Document>, NoMemory>
    ensures { IfOk result (λ v. v.items ≡ documents_at documents.now) }
{
    let mut copies = Vec::with_capacity(alloc, documents.len())?;
    'documents: for document in documents {
        copies.push(document.copy()?)?;
    }
    Ok(copies)
}

/// Those of documents that are needed still. Where all of them are, none is copied.
fn only_needed(
    alloc: Global,
    pipeline: &Pipeline,
    these: Vec<Document>,
) -> Result<Vec<Document>, NoMemory>
    ensures { (seen : List Pairs) → IsEnough (pipeline_of pipeline.now) these.items seen
        → IfOk result (λ v. IsEnough (pipeline_of pipeline.now) v.items seen) }
{
    let lent = these.iter().collect(alloc)?;
    let needed = still_needed(pipeline, lent)?;
    if needed.len() == these.len() {
        drop(needed);
        return Ok(these);
    }
    copies(alloc, &needed)
}

/// These documents and one more. Where there are as many as there is room for, those that aren't needed any more are let
/// go before, and there is room for twice those that are left.
fn with_one_more(
    alloc: Global,
    pipeline: &Pipeline,
    mut these: Vec<Document>,
    room: &mut usize,
    document: Document,
) -> Result<Vec<Document>, NoMemory>
    ensures { (seen : List Pairs) → IsEnough (pipeline_of pipeline.now) these.items seen
        → takes (pipeline_of pipeline.now) document ≡ true
        → IfOk result (λ v. IsEnough (pipeline_of pipeline.now) v.items (seen ++ document ∷ [])) }
{
    if these.len() >= *room {
        these = only_needed(alloc, pipeline, these)?;
        *room = ROOM.max(these.len().saturating_mul(2));
    }
    these.push(document)?;
    Ok(these)
}

/// Whether so many of those that a pipeline takes are enough.
fn are_enough(pipeline: &Pipeline, count: usize) -> bool
    ensures { result ≡ true → SufficesTaken (pipeline_of pipeline.now) count }
{
    match most_needed(pipeline) {
        Some(most) => most <= count,
        None => false,
    }
}

/// Documents that a pipeline needs, of those that are lent: of those that it takes never many more than it keeps.
#[derive(Drop)]
struct Needing<'a> {
    alloc: Global,
    pipeline: &'a Pipeline,
    needed: Vec<Document>,
    room: usize,
    /// Whether no other is needed, whatever comes.
    is_enough: bool,
}

impl DocumentFold for Needing<'_> {
    ghost makes = { Needs };

    fn is_done(&self) -> bool {
        self.is_enough
    }

    fn take(&mut self, document: &RawDoc<'_>) -> Result<(), Refusal> {
        if self.is_enough {
            return Ok(());
        }
        if !takes_raw(self.alloc, self.pipeline, document)? {
            return Ok(());
        }
        let built = built_within(self.alloc, document)?;
        let needed = mem::replace(&mut self.needed, Vec::new(self.alloc));
        self.needed = with_one_more(self.alloc, self.pipeline, needed, &mut self.room, built)?;
        self.is_enough = are_enough(self.pipeline, self.needed.len());
        Ok(())
    }
}

/// The documents of a collection in a file that a pipeline needs, by a walk through it: of those that it takes no more than it keeps.
/// Where it sorts them and keeps the first ones, it never holds many more than these.
fn needed_scanned<D: Disk>(
    alloc: Global,
    file: &mut Collections<D>,
    home: &Catalogued,
    pipeline: &Pipeline,
) -> Result<Vec<Document>, Refusal>
    ensures reads { ReadsOf D.history (IsAsked home.now)
        (λ now c few. AreEnough (pipeline_of pipeline.now) few.items c.documents)
        result file.old file.new }
    ensures within { IfOk result (λ few. All IsWithin few.items) }
{
    let needing = Needing {
        alloc,
        pipeline,
        needed: Vec::new(alloc),
        room: ROOM,
        is_enough: are_enough(pipeline, 0),
    };
    let walked = fold_asked(alloc, file, home, &TakenBy { pipeline }, needing)?;
    if walked.is_enough {
        return Ok(walked.needed);
    }
    Ok(only_needed(alloc, pipeline, walked.needed)?)
}

/// The documents of the collection of a number that a pipeline needs, where those that it takes have some of these `_id`s, told by
/// their ascending key texts.
pub(crate) fn needed_by_ids<D: Disk>(
    alloc: Global,
    file: &mut Collections<D>,
    number: u32,
    pipeline: &Pipeline,
    ids: &[Vec<u8>],
) -> Result<Vec<Document>, Refusal>
    ensures reads { ReadsOf D.history
        (AreIdsOf number (takes (pipeline_of pipeline.now)) (texts_of ids.now))
        (λ now c few. AreEnough (pipeline_of pipeline.now) few.items c.documents)
        result file.old file.new }
    ensures within { IfOk result (λ few. All IsWithin few.items) }
{
    let needing = Needing {
        alloc,
        pipeline,
        needed: Vec::new(alloc),
        room: ROOM,
        is_enough: are_enough(pipeline, 0),
    };
    let walked = fold_by_ids(file, number, ids, needing)?;
    if walked.is_enough {
        return Ok(walked.needed);
    }
    Ok(only_needed(alloc, pipeline, walked.needed)?)
}

/// The documents of a collection in a file that a pipeline needs, in ascending order of `_id`: of those that it takes no more than it
/// keeps. Where a `$match` in front asks for an `_id`, or an index serves it, they are looked up; else the collection is walked through.
fn needed_by_id<D: Disk>(
    alloc: Global,
    file: &mut Collections<D>,
    home: &Catalogued,
    pipeline: &Pipeline,
) -> Result<Vec<Document>, Refusal>
    ensures reads { ReadsOf D.history (IsAsked home.now)
        (λ now c few. AreEnough (pipeline_of pipeline.now) few.items c.documents)
        result file.old file.new }
    ensures within { IfOk result (λ few. All IsWithin few.items) }
{
    match asked_ids(alloc, file, home, &TakenBy { pipeline })? {
        Some(ids) => needed_by_ids(alloc, file, home.number, pipeline, &ids),
        None => needed_scanned(alloc, file, home, pipeline),
    }
}

/// The documents of a collection in a file that a pipeline needs. Where it keeps the first ones of a `$sort` and an index is in that
/// order, they are read in that order, as far as they are kept.
pub(crate) fn needed_in<D: Disk>(
    alloc: Global,
    file: &mut Collections<D>,
    home: &Catalogued,
    pipeline: &Pipeline,
) -> Result<Vec<Document>, Refusal>
    ensures reads { ReadsOf D.history (IsAsked home.now)
        (λ now c few. AreEnough (pipeline_of pipeline.now) few.items c.documents)
        result file.old file.new }
    ensures within { IfOk result (λ few. All IsWithin few.items) }
{
    match needed_by_order(alloc, file, home, pipeline)? {
        Some(few) => Ok(few),
        None => needed_by_id(alloc, file, home, pipeline),
    }
}
