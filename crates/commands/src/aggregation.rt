//! `aggregate`: what a pipeline makes of the documents of a collection.

ghost use Rattle.std.specs.Prelude.{◌≡◌};
ghost use Rattle.bson.specs.View.{tree, pairs_of};
ghost use Rattle.outcome.specs.Outcome.{Gives, Does};
ghost use Rattle.pipelines.specs.View.{pipeline_of};
ghost use Rattle.command_model.specs.Aggregate.{no_cursor_fields, cursor_field, read_cursor, stages_in, no_aggregate_fields, aggregate_field, read_aggregate};
ghost use Rattle.command_model.specs.Command.{as_command, aggregate};
ghost use Rattle.commands.specs.View.{command_read};

use crate::command::Command;
use crate::fields::{CommonFields, Fields, read_fields};
use crate::names::namespace_of;
use crate::values::{count_in, document_in, text_in};
use bson::{Document, Pair, Value};
use path::Refusal;
use pipelines::Pipeline;
use std::alloc::Global;
use std::marker::Model;

/// A pipeline over the documents of a collection, and how many of what it gives may go into the first batch.
#[derive(Drop)]
pub struct Aggregate {
    pub namespace: String,
    pub pipeline: Pipeline,
    pub batch_size: Option<usize>,
}

/// The fields of the cursor's document that were met so far.
#[derive(Drop)]
struct CursorFields {
    batch_size: Option<usize>,
}

impl Model for CursorFields {
    ghost use Rattle.command_model.specs.Aggregate as aggregates;

    ghost Value = { aggregates.CursorFields };

    ghost view = { λ a. record { batch_size = a.batch_size } };
}

impl<'a> Fields<'a> for CursorFields {
    ghost field = { cursor_field };

    fn read_field(&mut self, _alloc: Global, name: &str, value: &'a Value) -> Result<(), Refusal> {
        if name == "batchSize" {
            self.batch_size = Some(count_in(value)?);
            Ok(())
        } else {
            Err(Refusal::FailedToParse)
        }
    }
}

fn read_cursor(alloc: Global, document: &Document) -> Result<CursorFields, Refusal>
    ensures { Gives Refusal.OutOfMemory (λ c. c) result (read_cursor document.now) }
{
    read_fields(alloc, CursorFields { batch_size: None }, document.pairs())
}

/// The pipeline that an array spells; `TypeMismatch` where a value is no array.
fn stages_in(alloc: Global, value: &Value) -> Result<Pipeline, Refusal>
    ensures { Gives Refusal.OutOfMemory pipeline_of result (stages_in (tree value.now)) }
{
    match value {
        Value::Array(array) => Pipeline::read(alloc, array.items()),
        _ => Err(Refusal::TypeMismatch),
    }
}

/// The fields of an `aggregate` that were met so far.
#[derive(Drop)]
struct AggregateFields<'a> {
    common: CommonFields<'a>,
    pipeline: Option<Pipeline>,
    cursor: Option<CursorFields>,
}

impl<'a> Model for AggregateFields<'a> {
    ghost use Rattle.std.specs.Prelude.{option_map};
    ghost use Rattle.command_model.specs.Aggregate as aggregates;
    ghost use Rattle.std.specs.Coded.{codes};
    ghost use Rattle.aggregate_model.specs.StageCode.{coded_stage};
    ghost use Rattle.pipelines.specs.View.{pipeline_of};

    ghost Value = { aggregates.AggregateFields };

    ghost coded = { Prim.hlevel (codes, coded_stage) };

    ghost view = { λ a. record {
      common = a.common;
      pipeline = option_map pipeline_of a.pipeline;
      cursor = a.cursor;
    } };
}

impl<'a> Fields<'a> for AggregateFields<'a> {
    ghost field = { aggregate_field };

    fn read_field(&mut self, alloc: Global, name: &str, value: &'a Value) -> Result<(), Refusal> {
        if name == "pipeline" {
            self.pipeline = Some(stages_in(alloc, value)?);
            Ok(())
        } else if name == "cursor" {
            self.cursor = Some(read_cursor(alloc, document_in(value)?)?);
            Ok(())
        } else {
            self.common.read_field(alloc, name, value)
        }
    }
}

/// Reads an `aggregate` from the value of its name, which is the collection's, and its further fields.
pub(crate) fn read_aggregate<'a>(
    alloc: Global,
    collection: &Value,
    pairs: &'a [Pair],
) -> Result<Command<'a>, Refusal>
    ensures { Gives Refusal.OutOfMemory command_read result
        (as_command aggregate (read_aggregate (tree collection.now) (pairs_of pairs.now))) }
{
    let name = text_in(collection)?;
    let none = AggregateFields {
        common: CommonFields::new(),
        pipeline: None,
        cursor: None,
    };
    let AggregateFields {
        common,
        pipeline,
        cursor,
    } = read_fields(alloc, none, pairs)?;
    let database = common.database()?;
    let pipeline = pipeline.ok_or(Refusal::FailedToParse)?;
    let cursor = cursor.ok_or(Refusal::FailedToParse)?;
    Ok(Command::Aggregate(Aggregate {
        namespace: namespace_of(alloc, database, name)?,
        pipeline,
        batch_size: cursor.batch_size,
    }))
}
