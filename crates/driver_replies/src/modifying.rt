//! A `findAndModify`: the commands that it takes, and its answer.

ghost use Rattle.std.specs.Prelude.{◌≡◌, ◌≤◌, true, None, IfOk, OnOk, codes, option_map};
ghost use Rattle.bson.specs.Lookup.{lookup};
ghost use Rattle.bson.specs.Lawful.{levels, pairs_levels};
ghost use Rattle.bson.specs.Tree.{document, pair, no_pairs};
ghost use Rattle.bson.specs.View.{tree};
ghost use Rattle.driver_replies.specs.Fields.{words};
ghost use Rattle.driver_replies.specs.Modifying.{part_in, or_empty, modification_of, find_one, with_sort, find_first, part_of, by_id, subject_of, made_by, with_upserted, write_name, write_one, removal, replacement, change_one, upsert_of, asked_upsert, update_none, nothing_done, done_with, value_of, modified_reply};

use crate::fields::{Fact, add, document_of, put, put_text};
use crate::fresh_ids::FreshIds;
use crate::parts::{Part, part_in, part_or_empty};
use crate::tally::upserted_id;
use crate::upserts::{add_id, is_true, is_upsert};
use crate::writes::Write;
use bson::{Array, Document, NoMemory, Value};
use std::alloc::Global;

/// What a `findAndModify` asks for: the filter of the first document, the update, whether the document
/// is deleted, whether it is told as it is then, whether one is made where none is found, and the object ids that are fresh.
#[derive(Drop)]
pub struct Modification {
    pub filter: Part,
    pub update: Part,
    pub is_removal: bool,
    pub wants_new: bool,
    pub may_insert: bool,
    pub ids: FreshIds,
}

/// A find by a filter, up to that.
fn find_by(alloc: Global, collection: &str, filter: &Part) -> Result<Document, NoMemory>
    ensures { IfOk result (λ d. d ≡ pair (codes "find") (words collection.now)
        (pair (codes "filter") (document filter.now) no_pairs)) }
{
    let mut command = Document::new(alloc);
    put_text(alloc, &mut command, "find", collection)?;
    put(&mut command, "filter", filter.value()?)?;
    Ok(command)
}

/// A find by the `query` of a command, up to its filter.
pub(crate) fn find_query(
    alloc: Global,
    collection: &str,
    body: &Document,
) -> Result<Document, NoMemory>
    ensures { IfOk result (λ d. d ≡ pair (codes "find") (words collection.now)
        (pair (codes "filter")
        (document (or_empty (part_in (lookup body.now (codes "query"))))) no_pairs)) }
{
    let filter = part_or_empty(alloc, body.get("query"))?;
    find_by(alloc, collection, &filter)
}

/// A find of one document.
pub fn find_one(
    alloc: Global,
    database: &str,
    collection: &str,
    filter: &Part,
) -> Result<Document, NoMemory>
    ensures { IfOk result (λ d. d ≡ find_one database.now collection.now filter.now) }
{
    let mut command = find_by(alloc, collection, filter)?;
    put(&mut command, "limit", Value::Int32(1))?;
    put_text(alloc, &mut command, "$db", database)?;
    Ok(command)
}

/// Adds to a find by what its documents are sorted, if a command says that.
fn put_sort(find: &mut Document, sort: Option<&Value>) -> Result<(), NoMemory>
    requires { lookup find.old (codes "sort") ≡ None }
    ensures { OnOk result
        (find.new ≡ with_sort (part_in (option_map (λ v. tree v.now) sort.entry)) find.old) }
{
    match part_in(sort)? {
        Some(sort) => {
            let value = sort.value();
            drop(sort);
            put(find, "sort", value?)
        }
        None => Ok(()),
    }
}

/// The find of the first document that a `findAndModify` asks for.
pub fn find_first(
    alloc: Global,
    database: &str,
    collection: &str,
    body: &Document,
) -> Result<Document, NoMemory>
    ensures { IfOk result (λ d. d ≡ find_first database.now collection.now body.now) }
{
    let filter = part_or_empty(alloc, body.get("query"))?;
    let command = find_one(alloc, database, collection, &filter);
    drop(filter);
    let mut command = command?;
    put_sort(&mut command, body.get("sort"))?;
    Ok(command)
}

/// What finds a document by this `_id`, where that is nested no deeper than those that are stored.
fn subject_by(alloc: Global, id: &Value) -> Result<Option<Part>, NoMemory>
    requires { levels (tree id.now) ≤ 99 }
    ensures { IfOk result (λ part. part ≡ part_of (by_id (tree id.now))) }
{
    let mut filter = Document::new(alloc);
    put(&mut filter, "_id", id.copy()?)?;
    Ok(Part::new(filter))
}

/// What finds a document by its `_id`.
#[tactic(auto, using(crate::specs::LevelLaws::part_levels))]
pub fn subject_of(alloc: Global, found: &Part) -> Result<Option<Part>, NoMemory>
    ensures { IfOk result (λ part. part ≡ subject_of found.now) }
{
    match found.document().get("_id") {
        Some(id) => subject_by(alloc, id),
        None => Ok(None),
    }
}

/// What finds the document that an upsert made, as its reply says.
pub fn made_by(alloc: Global, reply: &Document) -> Result<Option<Part>, NoMemory>
    ensures { IfOk result (λ part. part ≡ made_by reply.now) }
{
    match upserted_id(reply) {
        Some(id) => subject_by(alloc, id),
        None => Ok(None),
    }
}

/// A write of one statement.
fn write_one(
    alloc: Global,
    write: Write,
    database: &str,
    collection: &str,
    statement: Document,
) -> Result<Document, NoMemory>
    requires { pairs_levels statement ≤ 97 }
    ensures { IfOk result
        (λ d. d ≡ write_one write database.now collection.now statement) }
{
    let mut statements = Array::new(alloc);
    add(&mut statements, Value::Document(statement))?;
    let _levels = statements.levels();
    let mut command = Document::new(alloc);
    put_text(alloc, &mut command, write.name(), collection)?;
    put(&mut command, write.field(), Value::Array(statements))?;
    put_text(alloc, &mut command, "$db", database)?;
    Ok(command)
}

/// The statement that deletes a document.
fn removal(alloc: Global, subject: &Part) -> Result<Document, NoMemory>
    ensures is { IfOk result (λ d. d ≡ removal subject.now) }
    ensures flat { IfOk result (λ d. pairs_levels d ≤ 97) }
{
    let mut statement = Document::new(alloc);
    put(&mut statement, "q", subject.value()?)?;
    put(&mut statement, "limit", Value::Int32(1))?;
    Ok(statement)
}

/// The statement that updates what a filter finds.
fn replacement(alloc: Global, filter: &Part, update: &Part) -> Result<Document, NoMemory>
    ensures is { IfOk result (λ d. d ≡ replacement filter.now update.now) }
    ensures flat { IfOk result (λ d. pairs_levels d ≤ 97) }
{
    let mut statement = Document::new(alloc);
    put(&mut statement, "q", filter.value()?)?;
    put(&mut statement, "u", update.value()?)?;
    Ok(statement)
}

/// Says which document is new.
#[tactic(auto, using(crate::specs::LevelLaws::part_levels))]
fn add_upserted(done: &mut Document, subject: &Document) -> Result<(), NoMemory>
    requires flat { pairs_levels subject.now ≤ 90 }
    requires new { lookup done.old (codes "upserted") ≡ None }
    ensures { OnOk result
        (done.new ≡ with_upserted true (lookup subject.now (codes "_id")) done.old) }
{
    match subject.get("_id") {
        Some(id) => put(done, "upserted", id.copy()?),
        None => Ok(()),
    }
}

/// What was done with the document that this finds, which may be a new one.
fn done_with(
    alloc: Global,
    is_removal: bool,
    is_new: bool,
    subject: &Part,
) -> Result<Document, NoMemory>
    ensures is { IfOk result (λ d. d ≡ done_with is_removal is_new subject.now) }
    ensures flat { IfOk result (λ d. pairs_levels d ≤ 98) }
{
    let mut done = document_of(alloc, &[("n", Fact::Int32(1))])?;
    if is_removal {
        return Ok(done);
    }
    put(&mut done, "updatedExisting", Value::Bool(!is_new))?;
    if !is_new {
        return Ok(done);
    }
    add_upserted(&mut done, subject.document())?;
    Ok(done)
}

/// A document that is told, or null where there is none.
fn told_value(value: Option<&Part>) -> Result<Value, NoMemory>
    ensures is { IfOk result
        (λ v. tree v ≡ value_of (option_map (λ part. part.now) value.entry)) }
    ensures flat { IfOk result (λ v. levels (tree v) ≤ 99) }
{
    match value {
        Some(part) => part.value(),
        None => Ok(Value::Null),
    }
}

/// The answer: what was done, and the document, if there is one.
fn modified_reply(alloc: Global, done: Document, value: Option<&Part>) -> Result<Document, NoMemory>
    requires { pairs_levels done ≤ 98 }
    ensures { IfOk result
        (λ d. d ≡ modified_reply done (option_map (λ part. part.now) value.entry)) }
{
    let mut reply = Document::new(alloc);
    put(&mut reply, "lastErrorObject", Value::Document(done))?;
    put(&mut reply, "value", told_value(value)?)?;
    put(&mut reply, "ok", Value::Int64(1))?;
    Ok(reply)
}

impl Modification {
    /// What the command asks for. A part that is nested deeper than documents that are stored counts as none.
    pub fn new(alloc: Global, ids: FreshIds, body: &Document) -> Result<Modification, NoMemory>
        ensures { IfOk result (λ m. m ≡ modification_of ids body.now) }
    {
        Ok(Modification {
            filter: part_or_empty(alloc, body.get("query"))?,
            update: part_or_empty(alloc, body.get("update"))?,
            is_removal: is_true(body.get("remove")),
            wants_new: is_true(body.get("new")),
            may_insert: is_true(body.get("upsert")),
            ids,
        })
    }

    /// What changes or deletes the document that was found.
    pub fn change_one(
        &self,
        alloc: Global,
        database: &str,
        collection: &str,
        subject: &Part,
    ) -> Result<Document, NoMemory>
        ensures { IfOk result
            (λ d. d ≡ change_one database.now collection.now self.now subject.now) }
    {
        if self.is_removal {
            let statement = removal(alloc, subject)?;
            return write_one(alloc, Write::Delete, database, collection, statement);
        }
        let statement = replacement(alloc, subject, &self.update)?;
        write_one(alloc, Write::Update, database, collection, statement)
    }

    /// The statement that makes a document where none was found.
    fn upsert(&self, alloc: Global) -> Result<Document, NoMemory>
        ensures is { IfOk result (λ d. d ≡ asked_upsert self.now) }
        ensures flat { IfOk result (λ d. pairs_levels d ≤ 97) }
    {
        let mut statement = replacement(alloc, &self.filter, &self.update)?;
        put(&mut statement, "upsert", Value::Bool(true))?;
        if !is_upsert(&statement) {
            return Ok(statement);
        }
        add_id(&mut statement, self.ids.first())?;
        Ok(statement)
    }

    /// What is asked where no document was found: what makes one, or the update as it is, which changes nothing.
    pub fn update_none(
        &self,
        alloc: Global,
        database: &str,
        collection: &str,
    ) -> Result<Document, NoMemory>
        ensures { IfOk result (λ d. d ≡ update_none database.now collection.now self.now) }
    {
        if self.may_insert {
            let statement = self.upsert(alloc)?;
            return write_one(alloc, Write::Update, database, collection, statement);
        }
        let statement = replacement(alloc, &self.filter, &self.update)?;
        write_one(alloc, Write::Update, database, collection, statement)
    }

    /// The answer where no document was found.
    pub fn none_reply(&self, alloc: Global) -> Result<Document, NoMemory>
        ensures { IfOk result (λ d. d ≡ modified_reply (nothing_done self.now) None) }
    {
        let mut done = document_of(alloc, &[("n", Fact::Int32(0))])?;
        if !self.is_removal {
            put(&mut done, "updatedExisting", Value::Bool(false))?;
        }
        modified_reply(alloc, done, None)
    }

    /// The answer where a document was changed, deleted or made, with the document that is told.
    pub fn reply(
        &self,
        alloc: Global,
        is_new: bool,
        subject: &Part,
        value: Option<&Part>,
    ) -> Result<Document, NoMemory>
        ensures { IfOk result (λ d. d ≡ modified_reply
            (done_with self.now.is_removal is_new subject.now)
            (option_map (λ part. part.now) value.entry)) }
    {
        let done = done_with(alloc, self.is_removal, is_new, subject)?;
        modified_reply(alloc, done, value)
    }
}
