//! What a pipeline makes of the documents of a collection.

ghost use Rattle.std.specs.Prelude.{◌≡◌, All, IfOk, [], length};
ghost use Rattle.aggregate.specs.Gathering.{HasGathered};
ghost use Rattle.aggregate_model.specs.Taking.{takes};
ghost use Rattle.pipelines.specs.View.{pipeline_of};
ghost use Rattle.collections.specs.Lookups.{ReadsOf};
ghost use Rattle.database_model.specs.Lawful.{IsWithin};
ghost use Rattle.index.specs.View.{texts_of};
ghost use Rattle.asked_documents.specs.Asking.{IsAsked};
ghost use Rattle.asked_documents.specs.ById.{AreIdsOf};
ghost use Rattle.queries.specs.Folding.{Gathers};
ghost use Rattle.queries.specs.Piping.{Pipes};

use crate::needed::{needed_by_ids, needed_in};
use crate::taken_by::TakenBy;
use aggregate::{Gathering, run};
use bson::Document;
use bson_bytes::RawDoc;
use candidate_ids::asked_ids;
use collections::{Collections, DocumentFold};
use entries::Catalogued;
use page::Disk;
use path::Refusal;
use pipelines::Pipeline;
use std::alloc::Global;
use stored_documents::STORED_LIMIT;
use walks::fold_asked;

/// A pipeline that groups documents as they are lent. It keeps none of them.
#[derive(Drop)]
struct Grouping<'a> {
    alloc: Global,
    gathering: Gathering<'a>,
}

impl DocumentFold for Grouping<'_> {
    ghost makes = { Gathers };

    fn is_done(&self) -> bool {
        self.gathering.is_refused()
    }

    fn take(&mut self, document: &RawDoc<'_>) -> Result<(), Refusal> {
        Ok(self.gathering.take(self.alloc, document)?)
    }
}

/// What a pipeline makes of documents that are its own.
fn piped(pipeline: &Pipeline, documents: Vec<Document>) -> Result<Vec<Document>, Refusal>
    requires { All IsWithin documents.items }
    ensures pipes { Pipes (pipeline_of pipeline.now) result documents.items }
    ensures within { IfOk result (λ v. All IsWithin v.items) }
{
    run(pipeline, documents, STORED_LIMIT as u32)
}

/// What a pipeline makes of a collection's documents that groups them, by a walk through it.
fn grouped_scanned<D: Disk>(
    alloc: Global,
    file: &mut Collections<D>,
    home: &Catalogued,
    pipeline: &Pipeline,
    gathering: Gathering<'_>,
) -> Result<Result<Vec<Document>, Refusal>, Refusal>
    requires { HasGathered (pipeline_of pipeline.now) [] gathering }
    ensures reads { ReadsOf D.history (IsAsked home.now)
        (λ now c given. Pipes (pipeline_of pipeline.now) given c.documents)
        result file.old file.new }
    ensures within { IfOk result (λ given. IfOk given (λ v. All IsWithin v.items)) }
{
    let grouping = Grouping { alloc, gathering };
    let walked = fold_asked(alloc, file, home, &TakenBy { pipeline }, grouping)?;
    Ok(walked.gathering.into_documents(alloc, STORED_LIMIT as u32))
}

/// What a pipeline makes of the documents of the collection of a number, where those that it takes have some of these `_id`s, told by
/// their ascending key texts.
fn piped_by_ids<D: Disk>(
    alloc: Global,
    file: &mut Collections<D>,
    number: u32,
    pipeline: &Pipeline,
    ids: &[Vec<u8>],
) -> Result<Result<Vec<Document>, Refusal>, Refusal>
    ensures reads { ReadsOf D.history
        (AreIdsOf number (takes (pipeline_of pipeline.now)) (texts_of ids.now))
        (λ now c given. Pipes (pipeline_of pipeline.now) given c.documents)
        result file.old file.new }
    ensures within { IfOk result (λ given. IfOk given (λ v. All IsWithin v.items)) }
{
    let few = needed_by_ids(alloc, file, number, pipeline, ids)?;
    Ok(piped(pipeline, few))
}

/// What a pipeline makes of a collection's documents that groups them. Where a `$match` in front asks for an `_id`, or an index serves
/// it, they are looked up.
fn grouped_in<D: Disk>(
    alloc: Global,
    file: &mut Collections<D>,
    home: &Catalogued,
    pipeline: &Pipeline,
    gathering: Gathering<'_>,
) -> Result<Result<Vec<Document>, Refusal>, Refusal>
    requires { HasGathered (pipeline_of pipeline.now) [] gathering }
    ensures reads { ReadsOf D.history (IsAsked home.now)
        (λ now c given. Pipes (pipeline_of pipeline.now) given c.documents)
        result file.old file.new }
    ensures within { IfOk result (λ given. IfOk given (λ v. All IsWithin v.items)) }
{
    match asked_ids(alloc, file, home, &TakenBy { pipeline })? {
        Some(ids) => piped_by_ids(alloc, file, home.number, pipeline, &ids),
        None => grouped_scanned(alloc, file, home, pipeline, gathering),
    }
}

/// What a pipeline makes of those of a collection's documents that it needs.
fn piped_needed<D: Disk>(
    alloc: Global,
    file: &mut Collections<D>,
    home: &Catalogued,
    pipeline: &Pipeline,
) -> Result<Result<Vec<Document>, Refusal>, Refusal>
    ensures reads { ReadsOf D.history (IsAsked home.now)
        (λ now c given. Pipes (pipeline_of pipeline.now) given c.documents)
        result file.old file.new }
    ensures within { IfOk result (λ given. IfOk given (λ v. All IsWithin v.items)) }
{
    let few = needed_in(alloc, file, home, pipeline)?;
    Ok(piped(pipeline, few))
}

/// What a pipeline makes of the documents of a collection in a file, or its refusal. Where it groups them before all else but a
/// `$match`, it holds their groups alone.
pub fn piped_in<D: Disk>(
    alloc: Global,
    file: &mut Collections<D>,
    home: &Catalogued,
    pipeline: &Pipeline,
) -> Result<Result<Vec<Document>, Refusal>, Refusal>
    ensures reads { ReadsOf D.history (IsAsked home.now)
        (λ now c given. Pipes (pipeline_of pipeline.now) given c.documents)
        result file.old file.new }
    ensures within { IfOk result (λ given. IfOk given (λ v. All IsWithin v.items)) }
{
    match Gathering::of(pipeline) {
        Some(gathering) => grouped_in(alloc, file, home, pipeline, gathering),
        None => piped_needed(alloc, file, home, pipeline),
    }
}
