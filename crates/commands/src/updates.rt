//! `update`: documents of a collection to be changed, statement by statement.

ghost use Rattle.std.specs.Prelude.{◌≡◌};
ghost use Rattle.bson.specs.View.{tree, pairs_of, items_of};
ghost use Rattle.outcome.specs.Outcome.{Gives, Does};
ghost use Rattle.command_model.specs.Update.{flag_field, no_statement_fields, statement_field, read_statement, no_update_fields, update_statements_in, update_field, read_update_command};
ghost use Rattle.command_model.specs.Statements.{each_of};
ghost use Rattle.command_model.specs.Values.{spelled_in};
ghost use Rattle.update_model.specs.Parsing.{read_update};
ghost use Rattle.update.specs.View.{update_of};
ghost use Rattle.command_model.specs.Command.{as_command, update};
ghost use Rattle.commands.specs.View.{command_read};

use crate::command::Command;
use crate::fields::{CommonFields, Fields, read_fields};
use crate::names::namespace_of;
use crate::statements::statements_in;
use crate::values::{bool_in, document_in, filter_in, text_in};
use bson::{Document, Pair, Value};
use filter::Filter;
use path::Refusal;
use std::alloc::Global;
use std::marker::Model;
use update::Update as Change;

/// A statement of an update: what it makes of the first document that matches, or with `multi` of all of them. Where
/// none matches, an upsert makes a document.
#[derive(Drop)]
pub struct UpdateStatement {
    pub filter: Filter,
    pub change: Change,
    pub upsert: bool,
    pub multi: bool,
}

impl Model for UpdateStatement {
    ghost use Rattle.command_model.specs.Update as updates;
    ghost use Rattle.std.specs.Coded.{codes};
    ghost use Rattle.filter.specs.ConditionCode.{coded_conditions};
    ghost use Rattle.update_model.specs.UpdateCode.{coded_update};
    ghost use Rattle.update.specs.View.{update_of};

    ghost Value = { updates.UpdateStatement };

    ghost coded = { Prim.hlevel (codes, coded_conditions, coded_update) };

    ghost view = { λ a. record {
      filter = a.filter;
      change = update_of a.change;
      upsert = a.upsert;
      multi = a.multi;
    } };
}

/// From 1 to 1,000 statements over a collection.
#[derive(Drop)]
pub struct Update {
    pub namespace: String,
    pub statements: Vec<UpdateStatement>,
}

/// The fields of a statement that were met so far.
#[derive(Drop)]
struct UpdateStatementFields {
    filter: Option<Filter>,
    change: Option<Change>,
    upsert: bool,
    multi: bool,
}

impl Model for UpdateStatementFields {
    ghost use Rattle.std.specs.Prelude.{option_map};
    ghost use Rattle.command_model.specs.Update as updates;
    ghost use Rattle.std.specs.Coded.{codes};
    ghost use Rattle.filter.specs.ConditionCode.{coded_conditions};
    ghost use Rattle.update_model.specs.UpdateCode.{coded_update};
    ghost use Rattle.update.specs.View.{update_of};

    ghost Value = { updates.UpdateStatementFields };

    ghost coded = { Prim.hlevel (codes, coded_conditions, coded_update) };

    ghost view = { λ a. record {
      filter = a.filter;
      change = option_map update_of a.change;
      upsert = a.upsert;
      multi = a.multi;
    } };
}

/// The change that a document spells; `TypeMismatch` where the value is none.
fn change_in(alloc: Global, value: &Value) -> Result<Change, Refusal>
    ensures { Gives Refusal.OutOfMemory update_of result
        (spelled_in read_update (tree value.now)) }
{
    Change::read(alloc, document_in(value)?)
}

impl UpdateStatementFields {
    /// Reads one of the fields that say whether a document is made and whether all are changed.
    fn read_flag(&mut self, name: &str, value: &Value) -> Result<(), Refusal>
        ensures { Does Refusal.OutOfMemory result self.new
            (flag_field self.old name.now (tree value.now)) }
    {
        if name == "upsert" {
            self.upsert = bool_in(value)?;
            Ok(())
        } else if name == "multi" {
            self.multi = bool_in(value)?;
            Ok(())
        } else {
            Err(Refusal::FailedToParse)
        }
    }
}

impl<'a> Fields<'a> for UpdateStatementFields {
    ghost field = { statement_field };

    fn read_field(&mut self, alloc: Global, name: &str, value: &'a Value) -> Result<(), Refusal> {
        if name == "q" {
            self.filter = Some(filter_in(alloc, value)?);
            Ok(())
        } else if name == "u" {
            self.change = Some(change_in(alloc, value)?);
            Ok(())
        } else {
            self.read_flag(name, value)
        }
    }
}

/// The statement that a document spells: a filter `q` and an update `u`, neither of which may be missing, and two
/// booleans, `upsert` and `multi`. A replacement with `multi` is met at the end of the statement: `FailedToParse`.
fn read_statement(alloc: Global, statement: &Document) -> Result<UpdateStatement, Refusal>
    ensures { Gives Refusal.OutOfMemory (λ s. s) result (read_statement statement.now) }
{
    let none = UpdateStatementFields {
        filter: None,
        change: None,
        upsert: false,
        multi: false,
    };
    let found = read_fields(alloc, none, statement.pairs())?;
    let filter = found.filter.ok_or(Refusal::FailedToParse)?;
    let change = found.change.ok_or(Refusal::FailedToParse)?;
    if change.is_replacement() && found.multi {
        return Err(Refusal::FailedToParse);
    }
    Ok(UpdateStatement {
        filter,
        change,
        upsert: found.upsert,
        multi: found.multi,
    })
}

/// The statements that the items of an array spell.
fn all_statements(alloc: Global, items: &[Value]) -> Result<Vec<UpdateStatement>, Refusal>
    ensures { Gives Refusal.OutOfMemory (λ v. v.items) result
        (each_of (spelled_in read_statement) (items_of items.now)) }
{
    let mut statements = Vec::with_capacity(alloc, items.len())?;
    'items: for item in items {
        statements.push(read_statement(alloc, document_in(item)?)?)?;
    }
    Ok(statements)
}

/// The statements of an update.
fn update_statements_in(alloc: Global, value: &Value) -> Result<Vec<UpdateStatement>, Refusal>
    ensures { Gives Refusal.OutOfMemory (λ v. v.items) result
        (update_statements_in (tree value.now)) }
{
    all_statements(alloc, statements_in(value)?)
}

/// The fields of an `update` that were met so far.
#[derive(Drop)]
struct UpdateFields<'a> {
    common: CommonFields<'a>,
    statements: Option<Vec<UpdateStatement>>,
}

impl<'a> Model for UpdateFields<'a> {
    ghost use Rattle.std.specs.Prelude.{option_map};
    ghost use Rattle.command_model.specs.Update as updates;
    ghost use Rattle.std.specs.Coded.{codes};
    ghost use Rattle.filter.specs.ConditionCode.{coded_conditions};
    ghost use Rattle.update_model.specs.UpdateCode.{coded_update};

    ghost Value = { updates.UpdateFields };

    ghost coded = { Prim.hlevel (codes, coded_conditions, coded_update) };

    ghost view = { λ a. record {
      common = a.common;
      statements = option_map
          (λ v. v.items) a.statements;
    } };
}

impl<'a> Fields<'a> for UpdateFields<'a> {
    ghost field = { update_field };

    fn read_field(&mut self, alloc: Global, name: &str, value: &'a Value) -> Result<(), Refusal> {
        if name == "updates" {
            self.statements = Some(update_statements_in(alloc, value)?);
            Ok(())
        } else {
            self.common.read_field(alloc, name, value)
        }
    }
}

/// Reads an `update` from the value of its name, which is the collection's, and its further fields.
pub(crate) fn read_update<'a>(
    alloc: Global,
    collection: &Value,
    pairs: &'a [Pair],
) -> Result<Command<'a>, Refusal>
    ensures { Gives Refusal.OutOfMemory command_read result
        (as_command update (read_update_command (tree collection.now) (pairs_of pairs.now))) }
{
    let name = text_in(collection)?;
    let none = UpdateFields {
        common: CommonFields::new(),
        statements: None,
    };
    let UpdateFields { common, statements } = read_fields(alloc, none, pairs)?;
    let database = common.database()?;
    let statements = statements.ok_or(Refusal::FailedToParse)?;
    Ok(Command::Update(Update {
        namespace: namespace_of(alloc, database, name)?,
        statements,
    }))
}
