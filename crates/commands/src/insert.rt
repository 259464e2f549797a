//! `insert`: documents to be stored in a collection.

ghost use Rattle.std.specs.Prelude.{◌≡◌};
ghost use Rattle.bson.specs.View.{tree, pairs_of, items_of};
ghost use Rattle.outcome.specs.Outcome.{Gives};
ghost use Rattle.command_model.specs.Insert.{no_insert_fields, documents_in, insert_field, read_insert};
ghost use Rattle.command_model.specs.Statements.{each_of};
ghost use Rattle.command_model.specs.Values.{document_in};
ghost use Rattle.command_model.specs.Command.{as_command, insert};
ghost use Rattle.command_model.specs.Insert.{documents_at};
ghost use Rattle.commands.specs.View.{command_read};

use crate::command::Command;
use crate::fields::{CommonFields, Fields, read_fields};
use crate::names::namespace_of;
use crate::statements::statements_in;
use crate::values::{document_in, text_in};
use bson::{Document, Pair, Value};
use path::Refusal;
use std::alloc::Global;
use std::marker::Model;

/// Documents to be stored, in the order written, from 1 to 1,000.
#[derive(Drop)]
pub struct Insert<'a> {
    pub namespace: String,
    pub documents: Vec<&'a Document>,
}

/// The fields of an `insert` that were met so far.
#[derive(Drop)]
struct InsertFields<'a> {
    common: CommonFields<'a>,
    documents: Option<Vec<&'a Document>>,
}

impl<'a> Model for InsertFields<'a> {
    ghost use Rattle.std.specs.Prelude.{option_map, map};
    ghost use Rattle.std.specs.Coded.{codes};
    ghost use Rattle.bson.specs.TreeCode.{coded_pairs};
    ghost use Rattle.command_model.specs.Insert as inserts;

    ghost Value = { inserts.InsertFields };

    ghost coded = { Prim.hlevel (codes, coded_pairs) };

    ghost view = { λ a. record {
      common = a.common;
      documents = option_map (λ v. map (λ d. d.now) v.items) a.documents;
    } };
}

/// The documents that the items of an array are, all of which have to be some.
fn all_documents(alloc: Global, items: &[Value]) -> Result<Vec<&Document>, Refusal>
    ensures { Gives Refusal.OutOfMemory (λ v. documents_at v.items) result
        (each_of document_in (items_of items.now)) }
{
    let mut documents = Vec::with_capacity(alloc, items.len())?;
    'items: for item in items {
        documents.push(document_in(item)?)?;
    }
    Ok(documents)
}

/// The documents of an insert.
fn documents_in(alloc: Global, value: &Value) -> Result<Vec<&Document>, Refusal>
    ensures { Gives Refusal.OutOfMemory (λ v. documents_at v.items) result
        (documents_in (tree value.now)) }
{
    all_documents(alloc, statements_in(value)?)
}

impl<'a> Fields<'a> for InsertFields<'a> {
    ghost field = { insert_field };

    fn read_field(&mut self, alloc: Global, name: &str, value: &'a Value) -> Result<(), Refusal> {
        if name == "documents" {
            self.documents = Some(documents_in(alloc, value)?);
            Ok(())
        } else {
            self.common.read_field(alloc, name, value)
        }
    }
}

/// Reads an `insert` from the value of its name, which is the collection's, and its further fields.
pub(crate) fn read_insert<'a>(
    alloc: Global,
    collection: &Value,
    pairs: &'a [Pair],
) -> Result<Command<'a>, Refusal>
    ensures { Gives Refusal.OutOfMemory command_read result
        (as_command insert (read_insert (tree collection.now) (pairs_of pairs.now))) }
{
    let name = text_in(collection)?;
    let none = InsertFields {
        common: CommonFields::new(),
        documents: None,
    };
    let InsertFields { common, documents } = read_fields(alloc, none, pairs)?;
    let database = common.database()?;
    let documents = documents.ok_or(Refusal::FailedToParse)?;
    Ok(Command::Insert(Insert {
        namespace: namespace_of(alloc, database, name)?,
        documents,
    }))
}
