//! A `findAndModify`: a document is found, then changed, deleted or made, and told.

ghost use Rattle.std.specs.Prelude.{◌≡◌, ◌||◌, IfOk, is_some, option_map, codes};
ghost use Rattle.bson.specs.Lookup.{lookup};
ghost use Rattle.bson.specs.View.{tree};
ghost use Rattle.driver_replies.specs.Listing.{batch_in};
ghost use Rattle.driver_replies.specs.Modifying.{change_one, done_with, modified_reply, subject_of};
ghost use Rattle.driver_replies.specs.Tallies.{refused};
ghost use Rattle.drivers.specs.Answering.{told_step, modified, changed_by, changed, done_nothing, subject_after, change_found, found_none, found, first_part, found_again};
ghost use Rattle.drivers.specs.Starting.{part_fault, parts_fault, flag_fault, flags_fault, choice_fault, modify_fault, modify_unless};
ghost use Rattle.drivers.specs.declared.plan.Wait.TheVariants as waits;

use crate::plan::{Plan, Wait};
use crate::starting::unheard;
use crate::step::Step;
use bson::{Array, Document, NoMemory, Value};
use driver_fields::{Reason, refusal_reply};
use driver_replies::{
    Modification, Part, collection_of, find_first, find_one, first_batch, is_part, is_true,
    made_by, part_in, refused, subject_of, text_or_none,
};
use std::alloc::Global;

/// Why a part of a command is refused, if it is: it is no document, or nested deeper than those that are stored.
pub(crate) fn part_fault(name: &'static str, body: &Document) -> Option<(&'static str, Reason)>
    ensures { option_map (λ x. (x.0.now, x.1)) result ≡ part_fault name.now body.now }
{
    match body.get(name) {
        Some(value) if !is_part(value) => Some((name, Reason::FieldType)),
        _ => None,
    }
}

/// Why a field of a `findAndModify` that is true or false is refused, if it is.
fn flag_fault(name: &'static str, body: &Document) -> Option<(&'static str, Reason)>
    ensures { option_map (λ x. (x.0.now, x.1)) result ≡ flag_fault name.now body.now }
{
    match body.get(name) {
        None | Some(Value::Bool(_)) => None,
        Some(_) => Some((name, Reason::FieldType)),
    }
}

/// Why what a `findAndModify` is to do is refused, if it is.
fn choice_fault(body: &Document) -> Option<(&'static str, Reason)>
    ensures { option_map (λ x. (x.0.now, x.1)) result ≡ choice_fault body.now }
{
    let updates = body.get("update").is_some();
    if is_true(body.get("remove")) {
        if updates || is_true(body.get("new")) || is_true(body.get("upsert")) {
            return Some(("remove", Reason::NoChoice));
        }
        return None;
    }
    if updates {
        return None;
    }
    Some(("update", Reason::NoChoice))
}

/// Why one of the parts of a `findAndModify` is refused, if one is.
fn parts_fault(body: &Document) -> Option<(&'static str, Reason)>
    ensures { option_map (λ x. (x.0.now, x.1)) result ≡ parts_fault body.now }
{
    if let Some(fault) = part_fault("query", body) {
        return Some(fault);
    }
    if let Some(fault) = part_fault("sort", body) {
        return Some(fault);
    }
    part_fault("update", body)
}

/// Why one of the fields of a `findAndModify` that are true or false is refused, if one is.
fn flags_fault(body: &Document) -> Option<(&'static str, Reason)>
    ensures { option_map (λ x. (x.0.now, x.1)) result ≡ flags_fault body.now }
{
    if let Some(fault) = flag_fault("remove", body) {
        return Some(fault);
    }
    if let Some(fault) = flag_fault("new", body) {
        return Some(fault);
    }
    flag_fault("upsert", body)
}

/// Why a `findAndModify` is refused, if it is.
fn modify_fault(body: &Document) -> Option<(&'static str, Reason)>
    ensures { option_map (λ x. (x.0.now, x.1)) result ≡ modify_fault body.now }
{
    if let Some(fault) = parts_fault(body) {
        return Some(fault);
    }
    if let Some(fault) = flags_fault(body) {
        return Some(fault);
    }
    choice_fault(body)
}

/// What is asked first for a `findAndModify`, or why it is refused.
pub(crate) fn modify_first(alloc: Global, body: &Document) -> Result<Step, NoMemory>
    ensures { IfOk result (λ s. s ≡ modify_unless (modify_fault body.now) body.now) }
{
    if let Some((name, reason)) = modify_fault(body) {
        return Ok(Step::Reply(refusal_reply(alloc, reason, name)?));
    }
    let database = text_or_none(body.get("$db"));
    let command = find_first(alloc, database, collection_of(body), body)?;
    Ok(Step::Ask(command))
}

/// The first of some entries, where it is a document.
fn first_part(entries: &Array) -> Result<Option<Part>, NoMemory>
    ensures { IfOk result (λ part. part ≡ first_part entries.now) }
{
    part_in(entries.items().first())
}

/// What finds the document that was changed or deleted, or was made: none where that was refused.
fn subject_after(
    alloc: Global,
    was: Option<&Part>,
    reply: &Document,
) -> Result<Option<Part>, NoMemory>
    ensures { IfOk result (λ subject. subject ≡ subject_after (refused reply.now)
        (option_map (λ part. part.now) was.entry) reply.now) }
{
    if refused(reply).is_some() {
        return Ok(None);
    }
    match was {
        Some(found) => subject_of(alloc, found),
        None => made_by(alloc, reply),
    }
}

/// The answer that tells a document as it is now: none where the reply that finds it again is a refusal.
fn told_again(
    alloc: Global,
    modification: &Modification,
    is_new: bool,
    subject: &Part,
    reply: &Document,
) -> Result<Option<Document>, NoMemory>
    ensures { IfOk result (λ answer. answer ≡ option_map (λ entries. modified_reply
        (done_with modification.now.is_removal is_new subject.now) (first_part entries))
        (batch_in (lookup reply.now (codes "cursor")))) }
{
    let Some(entries) = first_batch(reply)? else {
        return Ok(None);
    };
    let now = first_part(&entries)?;
    let answer = modification.reply(alloc, is_new, subject, now.as_ref())?;
    Ok(Some(answer))
}

impl Plan {
    /// A document was changed, deleted or made: what is told of it, as it was or as it is now.
    fn modified(
        &mut self,
        alloc: Global,
        modification: Modification,
        is_new: bool,
        was: Option<Part>,
        subject: Part,
    ) -> Result<Step, NoMemory>
        requires { self.old.wait ≡ waits.Plain }
        ensures { IfOk result (λ s. (self.new, s)
            ≡ modified self.old modification is_new was subject) }
    {
        if !modification.wants_new {
            let reply = modification.reply(alloc, is_new, &subject, was.as_ref());
            drop((modification, was, subject));
            return Ok(unheard(self.more_to_come, Step::Reply(reply?)));
        }
        drop(was);
        let database = self.database.as_str();
        let command = find_one(alloc, database, self.collection.as_str(), &subject);
        self.wait_for(Wait::Again(modification, is_new, subject));
        Ok(Step::Ask(command?))
    }

    /// Tells that no document was found, and none is made.
    fn done_nothing(&self, alloc: Global, modification: Modification) -> Result<Step, NoMemory>
        requires { self.now.wait ≡ waits.Plain }
        ensures { IfOk result (λ s. (self.now, s) ≡ done_nothing self.now modification) }
    {
        let reply = modification.none_reply(alloc);
        drop(modification);
        Ok(unheard(self.more_to_come, Step::Reply(reply?)))
    }

    /// Takes the reply to what changes, deletes or makes a document.
    pub(crate) fn changed(
        &mut self,
        alloc: Global,
        modification: Modification,
        was: Option<Part>,
        reply: Document,
    ) -> Result<Step, NoMemory>
        requires { self.old.wait ≡ waits.Plain }
        ensures { IfOk result (λ s. (self.new, s)
            ≡ changed (refused reply) self.old modification was reply) }
    {
        if was.is_none() && !modification.may_insert && refused(&reply).is_none() {
            drop((was, reply));
            return self.done_nothing(alloc, modification);
        }
        match subject_after(alloc, was.as_ref(), &reply) {
            Ok(Some(subject)) => {
                drop(reply);
                let is_new = was.is_none();
                self.modified(alloc, modification, is_new, was, subject)
            }
            Ok(None) => {
                drop((modification, was));
                self.final_step(alloc, reply)
            }
            Err(fault) => {
                drop((modification, was, reply));
                Err(fault)
            }
        }
    }

    /// Asks the update where no document was found, so that it makes one, or is refused where it is none.
    fn found_none(&mut self, alloc: Global, modification: Modification) -> Result<Step, NoMemory>
        requires { self.old.wait ≡ waits.Plain }
        ensures { IfOk result (λ s. (self.new, s) ≡ found_none self.old modification) }
    {
        if modification.is_removal {
            return self.done_nothing(alloc, modification);
        }
        let database = self.database.as_str();
        let command = modification.update_none(alloc, database, self.collection.as_str());
        self.wait_for(Wait::Changed(modification, None));
        Ok(Step::Ask(command?))
    }

    /// The command that changes or deletes the document that was found, if its `_id` finds it.
    fn change_command(
        &self,
        alloc: Global,
        modification: &Modification,
        found: &Part,
    ) -> Result<Option<Document>, NoMemory>
        ensures { IfOk result (λ command. command ≡ option_map
            (change_one self.now.database self.now.collection modification.now)
            (subject_of found.now)) }
    {
        let Some(subject) = subject_of(alloc, found)? else {
            return Ok(None);
        };
        let database = self.database.as_str();
        let collection = self.collection.as_str();
        let command = modification.change_one(alloc, database, collection, &subject)?;
        Ok(Some(command))
    }

    /// Changes or deletes the document that was found.
    fn found_part(
        &mut self,
        alloc: Global,
        modification: Modification,
        found: Part,
        reply: Document,
    ) -> Result<Step, NoMemory>
        requires { self.old.wait ≡ waits.Plain }
        ensures { IfOk result (λ s. (self.new, s)
            ≡ change_found (subject_of found) self.old modification found reply) }
    {
        match self.change_command(alloc, &modification, &found) {
            Ok(Some(command)) => {
                drop(reply);
                self.wait_for(Wait::Changed(modification, Some(found)));
                Ok(Step::Ask(command))
            }
            Ok(None) => {
                drop((modification, found));
                self.final_step(alloc, reply)
            }
            Err(fault) => {
                drop((modification, found, reply));
                Err(fault)
            }
        }
    }

    /// Takes the first document, if one was found.
    pub(crate) fn found(
        &mut self,
        alloc: Global,
        modification: Modification,
        reply: Document,
    ) -> Result<Step, NoMemory>
        requires { self.old.wait ≡ waits.Plain }
        ensures { IfOk result (λ s. (self.new, s)
            ≡ found (batch_in (lookup reply (codes "cursor"))) self.old modification reply) }
    {
        let Some(entries) = first_batch(&reply)? else {
            return self.final_step(alloc, reply);
        };
        if entries.is_empty() {
            return self.found_none(alloc, modification);
        }
        match first_part(&entries)? {
            Some(found) => self.found_part(alloc, modification, found, reply),
            None => self.final_step(alloc, reply),
        }
    }

    /// Takes the document as it is now.
    pub(crate) fn found_again(
        &mut self,
        alloc: Global,
        modification: Modification,
        is_new: bool,
        subject: Part,
        reply: Document,
    ) -> Result<Step, NoMemory>
        requires { self.old.wait ≡ waits.Plain }
        ensures { IfOk result (λ s. (self.new, s)
            ≡ found_again (batch_in (lookup reply (codes "cursor"))) self.old modification is_new
            subject reply) }
    {
        let answer = told_again(alloc, &modification, is_new, &subject, &reply);
        drop((modification, subject));
        match answer? {
            Some(answer) => Ok(unheard(self.more_to_come, Step::Reply(answer))),
            None => self.final_step(alloc, reply),
        }
    }
}
