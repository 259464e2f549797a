//! A `distinct`: documents are found, batch after batch, and the values of a path in them are told.

ghost use Rattle.std.specs.Prelude.{◌≡◌, IfOk, option_map, codes};
ghost use Rattle.bson.specs.Lookup.{lookup};
ghost use Rattle.driver_replies.specs.Distinct.{documents_in, key_of, with_documents};
ghost use Rattle.drivers.specs.Answering.{cursor_left, distinct_next, distinct_on, distinct_wait};
ghost use Rattle.drivers.specs.Starting.{text_fault, distinct_fault, distinct_unless};
ghost use Rattle.drivers.specs.declared.plan.Wait.TheVariants as waits;

use crate::answering::cursor_left;
use crate::modifying::part_fault;
use crate::plan::{Plan, Wait};
use crate::starting::unheard;
use crate::step::Step;
use bson::{Document, NoMemory, Value};
use driver_fields::{Reason, refusal_reply};
use driver_replies::{
    Distinct, collection_of, documents_in, find_values, get_more, key_of, text_or_none,
};
use std::alloc::Global;

/// Why a field that is a text is refused, if it is.
fn text_fault(name: &'static str, body: &Document) -> Option<(&'static str, Reason)>
    ensures { option_map (λ x. (x.0.now, x.1)) result ≡ text_fault name.now body.now }
{
    match body.get(name) {
        Some(Value::String(_)) => None,
        _ => Some((name, Reason::FieldType)),
    }
}

/// Why a `distinct` is refused before its path is looked at, if it is.
fn distinct_fault(body: &Document) -> Option<(&'static str, Reason)>
    ensures { option_map (λ x. (x.0.now, x.1)) result ≡ distinct_fault body.now }
{
    if let Some(fault) = text_fault("key", body) {
        return Some(fault);
    }
    part_fault("query", body)
}

/// What is asked first for a `distinct`, or why it is refused.
pub(crate) fn distinct_first(alloc: Global, body: &Document) -> Result<Step, NoMemory>
    ensures { IfOk result
        (λ s. s ≡ distinct_unless (distinct_fault body.now) (key_of body.now) body.now) }
{
    if let Some((name, reason)) = distinct_fault(body) {
        return Ok(Step::Reply(refusal_reply(alloc, reason, name)?));
    }
    let Some(path) = key_of(alloc, body)? else {
        return Ok(Step::Reply(refusal_reply(alloc, Reason::NoPath, "key")?));
    };
    let database = text_or_none(body.get("$db"));
    let command = find_values(alloc, database, collection_of(body), &path, body)?;
    Ok(Step::Ask(command))
}

/// What is kept of a `distinct`.
pub(crate) fn distinct_wait(alloc: Global, body: &Document) -> Result<Wait, NoMemory>
    ensures { IfOk result (λ w. w ≡ distinct_wait body.now) }
{
    match Distinct::new(alloc, body)? {
        Some(distinct) => Ok(Wait::Distinct(distinct)),
        None => Ok(Wait::Plain),
    }
}

impl Plan {
    /// Asks for the next batch of a cursor, or gives the values.
    fn distinct_next(
        &mut self,
        alloc: Global,
        cursor: Option<i64>,
        distinct: Distinct,
    ) -> Result<Step, NoMemory>
        requires { self.old.wait ≡ waits.Plain }
        ensures { IfOk result (λ s. (self.new, s) ≡ distinct_next cursor self.old distinct) }
    {
        let Some(cursor) = cursor else {
            let reply = distinct.reply(alloc)?;
            return Ok(unheard(self.more_to_come, Step::Reply(reply)));
        };
        let database = self.database.as_str();
        let command = get_more(alloc, database, self.collection.as_str(), cursor);
        self.wait_for(Wait::Distinct(distinct));
        Ok(Step::AskOwner(cursor, command?))
    }

    /// Takes the values of a batch of documents.
    pub(crate) fn distinct_on(
        &mut self,
        alloc: Global,
        mut distinct: Distinct,
        reply: Document,
    ) -> Result<Step, NoMemory>
        requires { self.old.wait ≡ waits.Plain }
        ensures { IfOk result (λ s. (self.new, s) ≡ distinct_on
            (documents_in (lookup reply (codes "cursor"))) self.old distinct reply) }
    {
        let Some(documents) = documents_in(&reply) else {
            return self.final_step(alloc, reply);
        };
        distinct.take(alloc, documents)?;
        self.distinct_next(alloc, cursor_left(&reply), distinct)
    }
}
