//! What the statements of a write did.

ghost use Rattle.std.specs.Prelude.{◌≡◌, ◌≤◌, ◌==◌, false, IfOk, IfSome, OnOk, option_map};
ghost use Rattle.std.specs.List.{list_any};
ghost use Rattle.bson.specs.Lawful.{levels};
ghost use Rattle.bson.specs.View.{tree};
ghost use Rattle.driver_replies.specs.Tallies.{code_in, refused, no_tally, added, id_in, first_id_in, upserted_id, upserted_document, with_done, with_error, with_reply, with_counts, with_list, write_reply};

use crate::fields::{add, put, set};
use crate::texts::text_or_none;
use crate::write_errors::error_document;
use bson::{Array, Document, NoMemory, Value};
use std::alloc::Global;

/// What the statements of a write did so far: how many documents they met and changed, which ones upserts made, and which statements were
/// refused.
#[derive(Drop)]
pub struct Tally {
    pub n: i32,
    pub modified: i32,
    pub upserted: Array,
    pub errors: Array,
}

/// The number of the refusal that a reply is.
pub fn refused(reply: &Document) -> Option<i32>
    ensures { result ≡ refused reply.now }
{
    match reply.get("code") {
        Some(Value::Int32(code)) => Some(*code),
        _ => None,
    }
}

/// A count and one more, up to what an int32 holds.
fn added(sum: i32, value: Option<&Value>) -> i32
    ensures { result ≡ added sum (option_map (λ v. tree v.now) value.entry) }
{
    match value {
        Some(Value::Int32(number)) => sum.saturating_add(*number),
        _ => sum,
    }
}

/// The `_id` of a document.
fn id_in(value: &Value) -> Option<&Value>
    ensures { option_map (λ v. tree v.now) result ≡ id_in (tree value.now) }
{
    match value {
        Value::Document(document) => document.get("_id"),
        _ => None,
    }
}

/// The `_id` of the first of some documents.
fn first_id_in(value: Option<&Value>) -> Option<&Value>
    ensures { option_map (λ v. tree v.now) result
        ≡ first_id_in (option_map (λ v. tree v.now) value.entry) }
{
    let Some(Value::Array(documents)) = value else {
        return None;
    };
    match documents.items().first() {
        Some(document) => id_in(document),
        None => None,
    }
}

/// The `_id` of the document that an upsert made.
pub(crate) fn upserted_id(reply: &Document) -> Option<&Value>
    ensures id { option_map (λ v. tree v.now) result ≡ upserted_id reply.now }
    ensures flat { IfSome result (λ v. levels (tree v.now) ≤ 97) }
{
    let _levels = reply.levels();
    first_id_in(reply.get("upserted"))
}

/// What is told of the document that an upsert made.
fn upserted_document(alloc: Global, index: i32, id: Value) -> Result<Document, NoMemory>
    requires { levels (tree id) ≤ 97 }
    ensures { IfOk result (λ d. d ≡ upserted_document index (tree id)) }
{
    let mut document = Document::new(alloc);
    put(&mut document, "index", Value::Int32(index))?;
    put(&mut document, "_id", id)?;
    Ok(document)
}

/// Puts a list that holds something into a reply.
fn put_list(reply: &mut Document, name: &str, list: Array) -> Result<(), NoMemory>
    requires { list_any (λ b. b == 0) name.now ≡ false }
    ensures { OnOk result (reply.new ≡ with_list name.now list reply.old) }
{
    let _levels = list.levels();
    if list.is_empty() {
        return Ok(());
    }
    set(reply, name, Value::Array(list))
}

impl Tally {
    /// Nothing was done yet.
    pub fn new(alloc: Global) -> Tally
        ensures { result ≡ no_tally }
    {
        Tally {
            n: 0,
            modified: 0,
            upserted: Array::new(alloc),
            errors: Array::new(alloc),
        }
    }

    /// Notes that the statement of an index was refused.
    fn refuse(&mut self, alloc: Global, index: i32, code: i32, text: &str) -> Result<(), NoMemory>
        ensures { OnOk result (self.new ≡ with_error index code text.now self.old) }
    {
        let error = error_document(alloc, index, code, text)?;
        add(&mut self.errors, Value::Document(error))
    }

    /// Notes what a statement did.
    fn count(&mut self, alloc: Global, index: i32, reply: &Document) -> Result<(), NoMemory>
        ensures { OnOk result (self.new ≡ with_done index reply.now self.old) }
    {
        self.n = added(self.n, reply.get("n"));
        self.modified = added(self.modified, reply.get("nModified"));
        let Some(id) = upserted_id(reply) else {
            return Ok(());
        };
        let document = upserted_document(alloc, index, id.copy()?)?;
        add(&mut self.upserted, Value::Document(document))
    }

    /// Takes the reply to the statement of an index.
    pub fn take(&mut self, alloc: Global, index: i32, reply: &Document) -> Result<(), NoMemory>
        ensures { OnOk result (self.new ≡ with_reply index reply.now self.old) }
    {
        match refused(reply) {
            Some(code) => {
                let text = text_or_none(reply.get("errmsg"));
                self.refuse(alloc, index, code, text)
            }
            None => self.count(alloc, index, reply),
        }
    }

    /// How many documents were met; an update says how many it changed.
    fn counts(&self, alloc: Global, is_update: bool) -> Result<Document, NoMemory>
        ensures { IfOk result (λ d. d ≡ with_counts is_update self.now) }
    {
        let mut reply = Document::new(alloc);
        put(&mut reply, "n", Value::Int32(self.n))?;
        if !is_update {
            return Ok(reply);
        }
        put(&mut reply, "nModified", Value::Int32(self.modified))?;
        Ok(reply)
    }

    /// The reply of the whole.
    pub fn reply(self, alloc: Global, is_update: bool) -> Result<Document, NoMemory>
        ensures { IfOk result (λ d. d ≡ write_reply is_update self) }
    {
        let mut reply = self.counts(alloc, is_update)?;
        put_list(&mut reply, "upserted", self.upserted)?;
        put_list(&mut reply, "writeErrors", self.errors)?;
        set(&mut reply, "ok", Value::Int64(1))?;
        Ok(reply)
    }
}
