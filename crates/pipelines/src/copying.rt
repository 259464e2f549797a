//! Pipelines of their own that are equal to others.

ghost use Rattle.std.specs.Prelude.{◌≡◌, IfOk};
ghost use Rattle.pipelines.specs.View.{stage_of, pipeline_of};

use crate::pipeline::Pipeline;
use crate::stage::Stage;
use bson::NoMemory;

impl Stage {
    fn copy(&self) -> Result<Stage, NoMemory>
        ensures { IfOk result (λ s. stage_of s ≡ stage_of self.now) }
    {
        match self {
            Stage::Match(filter) => Ok(Stage::Match(filter.copy()?)),
            Stage::Project(projecting) => Ok(Stage::Project(projecting.copy()?)),
            Stage::Unwind(path) => Ok(Stage::Unwind(path.copy()?)),
            Stage::Group(grouping) => Ok(Stage::Group(grouping.copy()?)),
            Stage::Sort(sort) => Ok(Stage::Sort(sort.copy()?)),
            Stage::Skip(count) => Ok(Stage::Skip(*count)),
            Stage::Limit(count) => Ok(Stage::Limit(*count)),
            Stage::Count(name) => Ok(Stage::Count(name.copy()?)),
        }
    }
}

impl Pipeline {
    /// An equal pipeline of its own.
    pub fn copy(&self) -> Result<Pipeline, NoMemory>
        ensures { IfOk result (λ p. pipeline_of p ≡ pipeline_of self.now) }
    {
        let mut stages = Vec::with_capacity(self.alloc, self.stages.len())?;
        'stages: for stage in &self.stages {
            stages.push(stage.copy()?)?;
        }
        Ok(Pipeline {
            alloc: self.alloc,
            stages,
        })
    }
}
