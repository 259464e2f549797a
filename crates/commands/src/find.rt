//! `find`: documents that match, sorted, a part of them, and what is given of each.

ghost use Rattle.std.specs.Prelude.{◌≡◌};
ghost use Rattle.bson.specs.View.{tree, pairs_of};
ghost use Rattle.outcome.specs.Outcome.{Gives, Does};
ghost use Rattle.command_model.specs.Find.{no_find_fields, find_field, projection_field, window_field, query_of, read_find};
ghost use Rattle.command_model.specs.Values.{spelled_in};
ghost use Rattle.projection.specs.ProjectionReading.{read_projection};
ghost use Rattle.sort.specs.SortReading.{read_sort};
ghost use Rattle.command_model.specs.Command.{as_command, find};
ghost use Rattle.commands.specs.View.{command_read};

use crate::command::Command;
use crate::fields::{CommonFields, Fields, read_fields};
use crate::names::namespace_of;
use crate::values::{count_in, document_in, filter_in, text_in};
use bson::{Pair, Value};
use filter::Filter;
use path::Refusal;
use projection::Projection;
use sort::Sort;
use std::alloc::Global;
use std::marker::Model;

/// Which documents, in which order, and what is given of each.
#[derive(Drop)]
pub struct Query {
    pub filter: Filter,
    pub sort: Sort,
    /// How many of what matches are left out at the front.
    pub skip: usize,
    /// How many may come then; 0 is no limit.
    pub limit: usize,
    pub projection: Projection,
}

impl Model for Query {
    ghost use Rattle.command_model.specs.Find as finds;
    ghost use Rattle.std.specs.Coded.{codes};
    ghost use Rattle.filter.specs.ConditionCode.{coded_conditions};

    ghost Value = { finds.Query };

    ghost coded = { Prim.hlevel (codes, coded_conditions) };

    ghost view = { λ a. record {
      filter = a.filter;
      sort = a.sort;
      skip = a.skip;
      limit = a.limit;
      projection = a.projection;
    } };
}

/// A query over a collection, and how many documents may go into the first batch.
#[derive(Drop)]
pub struct Find {
    pub namespace: String,
    pub query: Query,
    pub batch_size: Option<usize>,
}

/// The fields of a `find` that were met so far.
#[derive(Drop)]
pub(crate) struct FindFields<'a> {
    common: CommonFields<'a>,
    filter: Option<Filter>,
    sort: Option<Sort>,
    projection: Option<Projection>,
    skip: Option<usize>,
    limit: Option<usize>,
    batch_size: Option<usize>,
}

impl<'a> Model for FindFields<'a> {
    ghost use Rattle.command_model.specs.Find as finds;
    ghost use Rattle.std.specs.Coded.{codes};
    ghost use Rattle.filter.specs.ConditionCode.{coded_conditions};

    ghost Value = { finds.FindFields };

    ghost coded = { Prim.hlevel (codes, coded_conditions) };

    ghost view = { λ a. record {
      common = a.common;
      filter = a.filter;
      sort = a.sort;
      projection = a.projection;
      skip = a.skip;
      limit = a.limit;
      batch_size = a.batch_size;
    } };
}

impl<'a> FindFields<'a> {
    pub(crate) fn new() -> FindFields<'a>
        ensures { result ≡ no_find_fields }
    {
        FindFields {
            common: CommonFields::new(),
            filter: None,
            sort: None,
            projection: None,
            skip: None,
            limit: None,
            batch_size: None,
        }
    }

    /// What is asked for. A missing filter matches all documents, a missing sort changes no order, and a missing
    /// projection leaves all.
    pub(crate) fn query(self, alloc: Global) -> Query
        ensures { result ≡ query_of self.entry }
    {
        Query {
            filter: self.filter.unwrap_or(Filter::new(alloc)),
            sort: self.sort.unwrap_or(Sort::new(alloc)),
            skip: self.skip.unwrap_or(0),
            limit: self.limit.unwrap_or(0),
            projection: self.projection.unwrap_or(Projection::new(alloc)),
        }
    }
}

fn sort_in(alloc: Global, value: &Value) -> Result<Sort, Refusal>
    ensures { Gives Refusal.OutOfMemory (λ s. s) result (spelled_in read_sort (tree value.now)) }
{
    Sort::read(alloc, document_in(value)?)
}

fn projection_in(alloc: Global, value: &Value) -> Result<Projection, Refusal>
    ensures { Gives Refusal.OutOfMemory (λ p. p) result
        (spelled_in read_projection (tree value.now)) }
{
    Projection::read(alloc, document_in(value)?)
}

impl<'a> FindFields<'a> {
    /// Reads what is given of each document.
    fn read_projection(&mut self, alloc: Global, value: &Value) -> Result<(), Refusal>
        ensures { Does Refusal.OutOfMemory result self.new
            (projection_field self.old (tree value.now)) }
    {
        self.projection = Some(projection_in(alloc, value)?);
        Ok(())
    }

    /// Reads one of the fields that say how many documents come, or one that every command may have.
    fn read_window(&mut self, alloc: Global, name: &str, value: &'a Value) -> Result<(), Refusal>
        ensures { Does Refusal.OutOfMemory result self.new
            (window_field self.old name.now (tree value.now)) }
    {
        if name == "skip" {
            self.skip = Some(count_in(value)?);
            Ok(())
        } else if name == "limit" {
            self.limit = Some(count_in(value)?);
            Ok(())
        } else if name == "batchSize" {
            self.batch_size = Some(count_in(value)?);
            Ok(())
        } else {
            self.common.read_field(alloc, name, value)
        }
    }
}

impl<'a> Fields<'a> for FindFields<'a> {
    ghost field = { find_field };

    fn read_field(&mut self, alloc: Global, name: &str, value: &'a Value) -> Result<(), Refusal> {
        if name == "filter" {
            self.filter = Some(filter_in(alloc, value)?);
            Ok(())
        } else if name == "sort" {
            self.sort = Some(sort_in(alloc, value)?);
            Ok(())
        } else if name == "projection" {
            self.read_projection(alloc, value)
        } else {
            self.read_window(alloc, name, value)
        }
    }
}

/// Reads a `find` from the value of its name, which is the collection's, and its further fields.
pub(crate) fn read_find<'a>(
    alloc: Global,
    collection: &Value,
    pairs: &'a [Pair],
) -> Result<Command<'a>, Refusal>
    ensures { Gives Refusal.OutOfMemory command_read result
        (as_command find (read_find (tree collection.now) (pairs_of pairs.now))) }
{
    let name = text_in(collection)?;
    let found = read_fields(alloc, FindFields::new(), pairs)?;
    let database = found.common.database()?;
    let batch_size = found.batch_size;
    Ok(Command::Find(Find {
        namespace: namespace_of(alloc, database, name)?,
        query: found.query(alloc),
        batch_size,
    }))
}
