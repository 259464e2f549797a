//! Pipelines, and reading one.

ghost use Rattle.std.specs.Prelude.{◌≡◌, map};
ghost use Rattle.bson.specs.View.{tree};
ghost use Rattle.outcome.specs.Outcome.{Gives};
ghost use Rattle.aggregate_model.specs.Pipeline.{read_stage, read_pipeline};
ghost use Rattle.pipelines.specs.View.{stage_of, pipeline_of};

use crate::operands::only_pair_in;
use crate::stage::Stage;
use crate::stages::{read_operand, stage_named};
use bson::Value;
use path::Refusal;
use std::alloc::Global;

/// The most stages of a pipeline.
pub const MOST_STAGES: usize = 100;

/// Stages, the first one first.
pub struct Pipeline {
    pub alloc: Global,
    pub stages: Vec<Stage>,
}

// (written out, so that no crate above proves again that its parts are let go)
impl Drop for Pipeline {
    fn drop(self) {
        let Pipeline {
            alloc: _,
            stages: _,
        } = self;
    }
}

/// The stage of a document with one pair, its name and its operand.
fn read_stage(alloc: Global, value: &Value) -> Result<Stage, Refusal>
    ensures { Gives Refusal.OutOfMemory stage_of result (read_stage (tree value.now)) }
{
    let (name, operand) = only_pair_in(value)?;
    match stage_named(name) {
        Some(stage) => read_operand(alloc, stage, operand),
        None => Err(Refusal::FailedToParse),
    }
}

impl Pipeline {
    /// The pipeline that values spell, or the first misuse from the left. Of a 101st stage nothing is looked at.
    ///
    /// `FailedToParse` where a stage is no document of one pair, is unknown or is given what it doesn't take; a filter, a
    /// sort or a projection in it is refused with its own refusals.
    pub fn read(alloc: Global, stages: &[Value]) -> Result<Pipeline, Refusal>
        ensures { Gives Refusal.OutOfMemory pipeline_of result
            (read_pipeline (map tree stages.now)) }
    {
        let mut read = Vec::new(alloc);
        'stages: for value in stages {
            if read.len() == MOST_STAGES {
                return Err(Refusal::FailedToParse);
            }
            let stage = read_stage(alloc, value)?;
            read.push(stage)?;
        }
        Ok(Pipeline {
            alloc,
            stages: read,
        })
    }
}
