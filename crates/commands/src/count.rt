//! `count`: how many documents match.

ghost use Rattle.std.specs.Prelude.{◌≡◌};
ghost use Rattle.bson.specs.View.{tree, pairs_of};
ghost use Rattle.outcome.specs.Outcome.{Gives, Does};
ghost use Rattle.command_model.specs.Count.{no_count_fields, count_field, read_count};
ghost use Rattle.command_model.specs.Command.{as_command, count};
ghost use Rattle.commands.specs.View.{command_read};

use crate::command::Command;
use crate::fields::{CommonFields, Fields, read_fields};
use crate::names::namespace_of;
use crate::values::{count_in, filter_in, text_in};
use bson::{Pair, Value};
use filter::Filter;
use path::Refusal;
use std::alloc::Global;
use std::marker::Model;

/// A filter over a collection, how many of the matching documents are left out, and how many may be counted then;
/// a limit of 0 is none.
#[derive(Drop)]
pub struct Count {
    pub namespace: String,
    pub filter: Filter,
    pub skip: usize,
    pub limit: usize,
}

/// The fields of a `count` that were met so far.
#[derive(Drop)]
struct CountFields<'a> {
    common: CommonFields<'a>,
    filter: Option<Filter>,
    skip: Option<usize>,
    limit: Option<usize>,
}

impl<'a> Model for CountFields<'a> {
    ghost use Rattle.command_model.specs.Count as counts;
    ghost use Rattle.std.specs.Coded.{codes};
    ghost use Rattle.filter.specs.ConditionCode.{coded_conditions};

    ghost Value = { counts.CountFields };

    ghost coded = { Prim.hlevel (codes, coded_conditions) };

    ghost view = { λ a. record {
      common = a.common;
      filter = a.filter;
      skip = a.skip;
      limit = a.limit;
    } };
}

impl<'a> Fields<'a> for CountFields<'a> {
    ghost field = { count_field };

    fn read_field(&mut self, alloc: Global, name: &str, value: &'a Value) -> Result<(), Refusal> {
        if name == "query" {
            self.filter = Some(filter_in(alloc, value)?);
            Ok(())
        } else if name == "skip" {
            self.skip = Some(count_in(value)?);
            Ok(())
        } else if name == "limit" {
            self.limit = Some(count_in(value)?);
            Ok(())
        } else {
            self.common.read_field(alloc, name, value)
        }
    }
}

/// Reads a `count` from the value of its name, which is the collection's, and its further fields.
pub(crate) fn read_count<'a>(
    alloc: Global,
    collection: &Value,
    pairs: &'a [Pair],
) -> Result<Command<'a>, Refusal>
    ensures { Gives Refusal.OutOfMemory command_read result
        (as_command count (read_count (tree collection.now) (pairs_of pairs.now))) }
{
    let name = text_in(collection)?;
    let none = CountFields {
        common: CommonFields::new(),
        filter: None,
        skip: None,
        limit: None,
    };
    let found = read_fields(alloc, none, pairs)?;
    let database = found.common.database()?;
    Ok(Command::Count(Count {
        namespace: namespace_of(alloc, database, name)?,
        filter: found.filter.unwrap_or(Filter::new(alloc)),
        skip: found.skip.unwrap_or(0),
        limit: found.limit.unwrap_or(0),
    }))
}
