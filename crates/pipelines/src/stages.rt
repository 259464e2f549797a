//! The table of the stages: their names and their operands.
//!
//! One more stage is one more entry here (its name, how its operand is read) and a `Stage`; what it does stands in crate
//! `aggregate`.

ghost use Rattle.std.specs.Prelude.{◌≡◌};
ghost use Rattle.bson.specs.View.{tree};
ghost use Rattle.outcome.specs.Outcome.{Gives};
ghost use Rattle.aggregate_model.specs.Stages.{stage_named, read_operand};
ghost use Rattle.pipelines.specs.View.{stage_of};
ghost use Rattle.aggregate_model.specs.declared.stages.StageName.TheVariants as names;

use crate::grouping::Grouping;
use crate::names::FieldName;
use crate::operands::{document_in, dollar_path_in, number_in, text_in};
use crate::projecting::Projecting;
use crate::stage::Stage;
use aggregate_model::StageName;
use bson::Value;
use filter::Filter;
use path::Refusal;
use sort::Sort;
use std::alloc::Global;

/// The stage that is called so.
pub(crate) fn stage_named(name: &str) -> Option<StageName>
    ensures { result ≡ stage_named name.now }
{
    match name {
        _ if name == "$match" => Some(StageName::Match),
        _ if name == "$project" => Some(StageName::Project),
        _ if name == "$unwind" => Some(StageName::Unwind),
        _ if name == "$group" => Some(StageName::Group),
        _ if name == "$sort" => Some(StageName::Sort),
        _ if name == "$skip" => Some(StageName::Skip),
        _ if name == "$limit" => Some(StageName::Limit),
        _ if name == "$count" => Some(StageName::Count),
        _ => None,
    }
}

fn read_match(alloc: Global, value: &Value) -> Result<Stage, Refusal>
    ensures { Gives Refusal.OutOfMemory stage_of result
        (read_operand names.Match (tree value.now)) }
{
    Ok(Stage::Match(Filter::read(alloc, document_in(value)?)?))
}

fn read_project(alloc: Global, value: &Value) -> Result<Stage, Refusal>
    ensures { Gives Refusal.OutOfMemory stage_of result
        (read_operand names.Project (tree value.now)) }
{
    Ok(Stage::Project(Projecting::read(alloc, document_in(value)?)?))
}

fn read_group(alloc: Global, value: &Value) -> Result<Stage, Refusal>
    ensures { Gives Refusal.OutOfMemory stage_of result
        (read_operand names.Group (tree value.now)) }
{
    Ok(Stage::Group(Grouping::read(alloc, document_in(value)?)?))
}

fn read_sort(alloc: Global, value: &Value) -> Result<Stage, Refusal>
    ensures { Gives Refusal.OutOfMemory stage_of result
        (read_operand names.Sort (tree value.now)) }
{
    Ok(Stage::Sort(Sort::read(alloc, document_in(value)?)?))
}

/// What a stage does with this operand.
pub(crate) fn read_operand(alloc: Global, stage: StageName, value: &Value) -> Result<Stage, Refusal>
    ensures { Gives Refusal.OutOfMemory stage_of result (read_operand stage (tree value.now)) }
{
    match stage {
        StageName::Match => read_match(alloc, value),
        StageName::Project => read_project(alloc, value),
        StageName::Unwind => Ok(Stage::Unwind(dollar_path_in(alloc, value)?)),
        StageName::Group => read_group(alloc, value),
        StageName::Sort => read_sort(alloc, value),
        StageName::Skip => Ok(Stage::Skip(number_in(0, value)?)),
        StageName::Limit => Ok(Stage::Limit(number_in(1, value)?)),
        StageName::Count => Ok(Stage::Count(FieldName::read(alloc, text_in(value)?)?)),
    }
}
