//! The table of the stages: what each does.
//!
//! One more stage is one more entry here and a file that does it; its name and how its operand is read stand in crate
//! `pipelines`.

ghost use Rattle.std.specs.Prelude.{◌≡◌};
ghost use Rattle.outcome.specs.Outcome.{Gives};
ghost use Rattle.aggregate_model.specs.Stages.{apply_stage};
ghost use Rattle.pipelines.specs.View.{stage_of};

use crate::count::counted;
use crate::groups::grouped;
use crate::matching::matching;
use crate::projecting::all_projected;
use crate::unwinding::unwound;
use crate::windows::{limited, skipped};
use bson::Document;
use path::Refusal;
use pipelines::Stage;
use std::alloc::Global;

/// What a stage makes of documents, which are moved and not copied where it changes none.
pub(crate) fn apply_stage(
    alloc: Global,
    stage: &Stage,
    documents: Vec<Document>,
) -> Result<Vec<Document>, Refusal>
    ensures { Gives Refusal.OutOfMemory (λ v. v.items) result
        (apply_stage (stage_of stage.now) documents.items) }
{
    match stage {
        Stage::Match(filter) => Ok(matching(filter, documents)),
        Stage::Project(projecting) => all_projected(alloc, projecting, &documents),
        Stage::Unwind(path) => unwound(alloc, path, documents),
        Stage::Group(grouping) => grouped(grouping, &documents),
        Stage::Sort(sort) => Ok(sort.order(documents)?),
        Stage::Skip(count) => Ok(skipped(alloc, *count, documents)?),
        Stage::Limit(count) => Ok(limited(*count, documents)),
        Stage::Count(name) => counted(alloc, name, &documents),
    }
}
