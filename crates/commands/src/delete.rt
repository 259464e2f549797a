//! `delete`: documents to be taken away from a collection, statement by statement.

ghost use Rattle.std.specs.Prelude.{◌≡◌};
ghost use Rattle.bson.specs.View.{tree, pairs_of, items_of};
ghost use Rattle.outcome.specs.Outcome.{Gives, Does};
ghost use Rattle.command_model.specs.Delete.{no_deletion_fields, only_first_in, deletion_field, read_deletion, no_delete_fields, deletions_in, delete_field, read_delete};
ghost use Rattle.command_model.specs.Statements.{each_of};
ghost use Rattle.command_model.specs.Values.{spelled_in};
ghost use Rattle.command_model.specs.Command.{as_command, delete};
ghost use Rattle.commands.specs.View.{command_read};

use crate::command::Command;
use crate::fields::{CommonFields, Fields, read_fields};
use crate::names::namespace_of;
use crate::statements::statements_in;
use crate::values::{count_in, document_in, filter_in, text_in};
use bson::{Document, Pair, Value};
use filter::Filter;
use path::Refusal;
use std::alloc::Global;
use std::marker::Model;

/// A statement of a delete: it takes away the first document that matches, or all of them.
#[derive(Drop)]
pub struct Deletion {
    pub filter: Filter,
    pub only_first: bool,
}

impl Model for Deletion {
    ghost use Rattle.command_model.specs.Delete as deletes;
    ghost use Rattle.std.specs.Coded.{codes};
    ghost use Rattle.filter.specs.ConditionCode.{coded_conditions};

    ghost Value = { deletes.Deletion };

    ghost coded = { Prim.hlevel (codes, coded_conditions) };

    ghost view = { λ a. record { filter = a.filter; only_first = a.only_first } };
}

/// From 1 to 1,000 statements over a collection.
#[derive(Drop)]
pub struct Delete {
    pub namespace: String,
    pub deletions: Vec<Deletion>,
}

/// The fields of a statement that were met so far.
#[derive(Drop)]
struct DeletionFields {
    filter: Option<Filter>,
    only_first: Option<bool>,
}

impl Model for DeletionFields {
    ghost use Rattle.command_model.specs.Delete as deletes;
    ghost use Rattle.std.specs.Coded.{codes};
    ghost use Rattle.filter.specs.ConditionCode.{coded_conditions};

    ghost Value = { deletes.DeletionFields };

    ghost coded = { Prim.hlevel (codes, coded_conditions) };

    ghost view = { λ a. record { filter = a.filter; only_first = a.only_first } };
}

/// Whether the first document alone is meant: 1, and not 0.
fn only_first_in(value: &Value) -> Result<bool, Refusal>
    ensures { Gives Refusal.OutOfMemory (λ b. b) result (only_first_in (tree value.now)) }
{
    match count_in(value)? {
        0 => Ok(false),
        1 => Ok(true),
        _ => Err(Refusal::BadValue),
    }
}

impl<'a> Fields<'a> for DeletionFields {
    ghost field = { deletion_field };

    fn read_field(&mut self, alloc: Global, name: &str, value: &'a Value) -> Result<(), Refusal> {
        if name == "q" {
            self.filter = Some(filter_in(alloc, value)?);
            Ok(())
        } else if name == "limit" {
            self.only_first = Some(only_first_in(value)?);
            Ok(())
        } else {
            Err(Refusal::FailedToParse)
        }
    }
}

/// The statement that a document spells: a filter `q`, and a `limit` of 0 or 1. Neither may be missing.
fn read_deletion(alloc: Global, statement: &Document) -> Result<Deletion, Refusal>
    ensures { Gives Refusal.OutOfMemory (λ d. d) result (read_deletion statement.now) }
{
    let none = DeletionFields {
        filter: None,
        only_first: None,
    };
    let found = read_fields(alloc, none, statement.pairs())?;
    let filter = found.filter.ok_or(Refusal::FailedToParse)?;
    let only_first = found.only_first.ok_or(Refusal::FailedToParse)?;
    Ok(Deletion { filter, only_first })
}

/// The statements that the items of an array spell.
fn all_deletions(alloc: Global, items: &[Value]) -> Result<Vec<Deletion>, Refusal>
    ensures { Gives Refusal.OutOfMemory (λ v. v.items) result
        (each_of (spelled_in read_deletion) (items_of items.now)) }
{
    let mut deletions = Vec::with_capacity(alloc, items.len())?;
    'items: for item in items {
        deletions.push(read_deletion(alloc, document_in(item)?)?)?;
    }
    Ok(deletions)
}

/// The statements of a delete.
fn deletions_in(alloc: Global, value: &Value) -> Result<Vec<Deletion>, Refusal>
    ensures { Gives Refusal.OutOfMemory (λ v. v.items) result (deletions_in (tree value.now)) }
{
    all_deletions(alloc, statements_in(value)?)
}

/// The fields of a `delete` that were met so far.
#[derive(Drop)]
struct DeleteFields<'a> {
    common: CommonFields<'a>,
    deletions: Option<Vec<Deletion>>,
}

impl<'a> Model for DeleteFields<'a> {
    ghost use Rattle.std.specs.Prelude.{option_map};
    ghost use Rattle.command_model.specs.Delete as deletes;
    ghost use Rattle.std.specs.Coded.{codes};
    ghost use Rattle.filter.specs.ConditionCode.{coded_conditions};

    ghost Value = { deletes.DeleteFields };

    ghost coded = { Prim.hlevel (codes, coded_conditions) };

    ghost view = { λ a. record {
      common = a.common;
      deletions = option_map
          (λ v. v.items) a.deletions;
    } };
}

impl<'a> Fields<'a> for DeleteFields<'a> {
    ghost field = { delete_field };

    fn read_field(&mut self, alloc: Global, name: &str, value: &'a Value) -> Result<(), Refusal> {
        if name == "deletes" {
            self.deletions = Some(deletions_in(alloc, value)?);
            Ok(())
        } else {
            self.common.read_field(alloc, name, value)
        }
    }
}

/// Reads a `delete` from the value of its name, which is the collection's, and its further fields.
pub(crate) fn read_delete<'a>(
    alloc: Global,
    collection: &Value,
    pairs: &'a [Pair],
) -> Result<Command<'a>, Refusal>
    ensures { Gives Refusal.OutOfMemory command_read result
        (as_command delete (read_delete (tree collection.now) (pairs_of pairs.now))) }
{
    let name = text_in(collection)?;
    let none = DeleteFields {
        common: CommonFields::new(),
        deletions: None,
    };
    let DeleteFields { common, deletions } = read_fields(alloc, none, pairs)?;
    let database = common.database()?;
    let deletions = deletions.ok_or(Refusal::FailedToParse)?;
    Ok(Command::Delete(Delete {
        namespace: namespace_of(alloc, database, name)?,
        deletions,
    }))
}
