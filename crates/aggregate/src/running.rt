//! What pipelines make of documents.

ghost use Rattle.std.specs.Prelude.{◌≡◌, map};
ghost use Rattle.outcome.specs.Outcome.{Gives};
ghost use Rattle.aggregate_model.specs.Pipeline.{after_stage, run};
ghost use Rattle.pipelines.specs.View.{stage_of, pipeline_of};

use crate::limits::within_limits;
use crate::stages::apply_stage;
use bson::Document;
use path::Refusal;
use pipelines::{Pipeline, Stage};
use std::alloc::Global;

/// What a stage makes of documents, where none of them is over a limit: the first one that is decides.
fn after_stage(
    alloc: Global,
    stage: &Stage,
    documents: Vec<Document>,
    limit: u32,
) -> Result<Vec<Document>, Refusal>
    ensures { Gives Refusal.OutOfMemory (λ v. v.items) result
        (after_stage (stage_of stage.now) limit documents.items) }
{
    within_limits(apply_stage(alloc, stage, documents)?, limit)
}

/// What stages make of documents, one after the other.
pub(crate) fn run_stages(
    alloc: Global,
    stages: &[Stage],
    documents: Vec<Document>,
    limit: u32,
) -> Result<Vec<Document>, Refusal>
    ensures { Gives Refusal.OutOfMemory (λ v. v.items) result
        (run (map stage_of stages.now) limit documents.items) }
{
    let mut documents = documents;
    'stages: for stage in stages {
        documents = after_stage(alloc, stage, documents, limit)?;
    }
    Ok(documents)
}

/// What a pipeline makes of documents.
///
/// Refused by the first stage that can't be done, or after which a document is over a limit: the first such document
/// decides, with `BSONObjectTooLarge` over `limit` bytes, else with `BadValue` over 90 levels.
pub fn run(
    pipeline: &Pipeline,
    documents: Vec<Document>,
    limit: u32,
) -> Result<Vec<Document>, Refusal>
    ensures { Gives Refusal.OutOfMemory (λ v. v.items) result
        (run (pipeline_of pipeline.now) limit documents.items) }
{
    run_stages(pipeline.alloc, &pipeline.stages, documents, limit)
}
