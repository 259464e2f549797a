//! `explain`: how a `find` looks for its documents.

ghost use Rattle.std.specs.Prelude.{◌≡◌};
ghost use Rattle.bson.specs.View.{tree, pairs_of};
ghost use Rattle.outcome.specs.Outcome.{Gives};
ghost use Rattle.command_model.specs.Find.{no_find_fields};
ghost use Rattle.command_model.specs.Explain.{explained_field, read_explained_find, read_explained, read_explain};
ghost use Rattle.command_model.specs.Command.{as_command, explain};
ghost use Rattle.commands.specs.View.{command_read};

use crate::command::Command;
use crate::fields::{CommonFields, Fields, read_fields};
use crate::find::{FindFields, Query};
use crate::names::namespace_of;
use crate::values::{document_in, text_in};
use bson::{Document, Pair, Value};
use path::Refusal;
use std::alloc::Global;
use std::marker::Model;

/// A query over a collection, of which it is asked how its documents are looked for.
#[derive(Drop)]
pub struct Explain {
    pub namespace: String,
    pub query: Query,
}

/// The fields of the `find` inside it that were met so far.
#[derive(Drop)]
struct ExplainedFields<'a> {
    found: FindFields<'a>,
}

impl<'a> Model for ExplainedFields<'a> {
    ghost use Rattle.command_model.specs.Find as finds;
    ghost use Rattle.std.specs.Coded.{codes};
    ghost use Rattle.filter.specs.ConditionCode.{coded_conditions};

    ghost Value = { finds.FindFields };

    ghost coded = { Prim.hlevel (codes, coded_conditions) };

    ghost view = { λ a. a.found };
}

impl<'a> ExplainedFields<'a> {
    fn new() -> ExplainedFields<'a>
        ensures { result ≡ no_find_fields }
    {
        ExplainedFields {
            found: FindFields::new(),
        }
    }
}

impl<'a> Fields<'a> for ExplainedFields<'a> {
    ghost field = { explained_field };

    fn read_field(&mut self, alloc: Global, name: &str, value: &'a Value) -> Result<(), Refusal> {
        if name == "$db" {
            return Err(Refusal::FailedToParse);
        }
        self.found.read_field(alloc, name, value)
    }
}

/// The `find` inside it, from the value of its name and its further fields: the collection's name, and what is asked for.
fn read_explained_find<'a>(
    alloc: Global,
    collection: &'a Value,
    pairs: &'a [Pair],
) -> Result<(&'a str, Query), Refusal>
    ensures { Gives Refusal.OutOfMemory (λ x. (x.0.now, x.1)) result
        (read_explained_find (tree collection.now) (pairs_of pairs.now)) }
{
    let name = text_in(collection)?;
    let fields = read_fields(alloc, ExplainedFields::new(), pairs)?;
    Ok((name, fields.found.query(alloc)))
}

/// The `find` that a document spells; `FailedToParse` where its first name is another, or missing.
fn read_explained(alloc: Global, asked: &Document) -> Result<(&str, Query), Refusal>
    ensures { Gives Refusal.OutOfMemory (λ x. (x.0.now, x.1)) result (read_explained asked.now) }
{
    match asked.pairs().split_first() {
        Some((first, rest)) if first.name.as_str() == "find" => {
            read_explained_find(alloc, &first.value, rest)
        }
        _ => Err(Refusal::FailedToParse),
    }
}

/// Reads an `explain` from the value of its name, which is a `find`, and its further fields.
pub(crate) fn read_explain<'a>(
    alloc: Global,
    asked: &Value,
    pairs: &'a [Pair],
) -> Result<Command<'a>, Refusal>
    ensures { Gives Refusal.OutOfMemory command_read result
        (as_command explain (read_explain (tree asked.now) (pairs_of pairs.now))) }
{
    let (name, query) = read_explained(alloc, document_in(asked)?)?;
    let found = read_fields(alloc, CommonFields::new(), pairs)?;
    let database = found.database()?;
    Ok(Command::Explain(Explain {
        namespace: namespace_of(alloc, database, name)?,
        query,
    }))
}
