//! From a message of a driver to its answer.

ghost use Rattle.std.specs.Prelude.{◌≡◌, IfOk, option_map, codes};
ghost use Rattle.bson.specs.View.{tree};
ghost use Rattle.bson.specs.Lookup.{lookup};
ghost use Rattle.driver_replies.specs.WriteErrors.{refused_statement};
ghost use Rattle.driver_replies.specs.Writes.{write_of, after_reply};
ghost use Rattle.driver_replies.specs.Cursors.{ids_of, first_id};
ghost use Rattle.drivers.specs.Starting.{name_of, started};
ghost use Rattle.driver_replies.specs.Listing.{batch_in, retold};
ghost use Rattle.drivers.specs.declared.plan.Wait.TheVariants as waits;
ghost use Rattle.drivers.specs.Answering.{is_single, kill_wait, collections_wait, write_wait, other_wait, wait_of, is_modification, first_plan_for, first_plan_in, first_plan, batch_wait, asked_wait, with_asked};
ghost use Rattle.drivers.specs.Answering.{asks_alone, final, reworded, error_step, drop_next, drop_step, drop_listed, drop_on, next_statement, whole_step, statement_step, end_cursor, cursor_left, kill_next, killed, answered_by, answered};

use crate::answering::{cursor_left, end, kill_command, reword, widen};
use crate::distinct::distinct_wait;
use crate::explaining::explained;
use crate::server_info::ServerInfo;
use crate::starting::{name_of, start, unheard};
use crate::step::Step;
use bson::{Array, Document, NoMemory, Text};
use driver_fields::{Asked, kept};
use driver_messages::Message;
use driver_replies::{
    Batch, Distinct, FreshIds, Kills, Modification, Part, Tally, Write, collection_of,
    drop_command, drop_first, dropped_reply, first_batch, first_id, ids_of, indexes_told, is_alone,
    is_gone, is_ordered_in, is_true, name_in, refused_statement, retold, text_or_none, write_of,
};
use std::alloc::Global;
use std::mem;

/// What the next reply of the database is to.
#[derive(Drop)]
pub enum Wait {
    /// It makes the answer.
    Plain,
    /// It makes the answer, but a cursor that it leaves is ended first.
    Single,
    /// The cursor is ended, and this makes the answer.
    Ended(Document),
    /// It makes the answer, in which the refusal of the one statement is told as drivers expect it.
    Write,
    /// What `Batch` is to, before it is asked: the write, whether the first of its statements that is refused is the last, and the object
    /// ids that are fresh.
    Whole(Write, bool, FreshIds),
    /// It makes the answer, unless a statement was refused: then each of these is asked by itself.
    Batch(Batch),
    /// It is about the first of these statements.
    Statement(Batch),
    /// It is about the first of these cursors.
    Kill(Kills),
    /// It lists the collections that are to be dropped.
    Listed,
    /// It is about the first of these collections, each of which is dropped.
    Drops(Array),
    /// It makes the answer, with the collection of this name alone, if there is one.
    Collections(Option<Text>),
    /// It lists indexes, and makes the answer.
    Indexes,
    /// It says a plan, and makes the answer.
    Explained,
    /// It tells the first document, if there is one, which is changed.
    Found(Modification),
    /// It says that the document that was found so was changed, or that one was made.
    Changed(Modification, Option<Part>),
    /// It tells the document again that this finds, which may be a new one.
    Again(Modification, bool, Part),
    /// It has the next documents, or the first, whose values are told.
    Distinct(Distinct),
}

/// What is kept of a message until the database has answered: whether the driver wants no reply, the database and the collection
/// that the command names, whether it is an update, and what the next reply is to.
#[derive(Drop)]
pub struct Plan {
    pub more_to_come: bool,
    pub database: Text,
    pub collection: Text,
    pub is_update: bool,
    pub wait: Wait,
}

/// What is kept of the cursors that a `killCursors` names.
fn kill_wait(alloc: Global, body: &Document) -> Result<Wait, NoMemory>
    ensures { IfOk result (λ w. w ≡ kill_wait body.now (ids_of body.now)) }
{
    let Some(ids) = ids_of(alloc, body)? else {
        return Ok(Wait::Plain);
    };
    let command = kept(Asked::KillCursors, body.copy()?);
    Ok(Wait::Kill(Kills::new(alloc, command, ids)))
}

/// What is kept of the collections that a `listCollections` asks for.
fn collections_wait(alloc: Global, body: &Document) -> Result<Wait, NoMemory>
    ensures { IfOk result (λ w. w ≡ collections_wait body.now) }
{
    match name_in(body.get("filter")) {
        Some(name) => Ok(Wait::Collections(Some(Text::from_str(alloc, name)?))),
        None => Ok(Wait::Collections(None)),
    }
}

/// Whether a command is a find whose first batch is its last.
fn is_single(body: &Document) -> bool
    ensures { result ≡ is_single body.now }
{
    if name_of(body) == "find" {
        return is_true(body.get("singleBatch"));
    }
    false
}

/// What the first reply to a write is to.
fn write_wait(ids: FreshIds, body: &Document, write: Write) -> Wait
    ensures { result ≡ write_wait ids body.now write }
{
    if is_alone(write, body.get(write.field())) {
        return Wait::Write;
    }
    Wait::Whole(write, is_ordered_in(body.get("ordered")), ids)
}

/// What the first reply to a command is to that may be a write.
fn other_wait(ids: FreshIds, body: &Document) -> Wait
    ensures { result ≡ other_wait ids body.now (write_of (name_of body.now)) }
{
    match write_of(name_of(body)) {
        Some(write) => write_wait(ids, body, write),
        None => Wait::Plain,
    }
}

/// Whether a command is a `findAndModify`, by one of its two names.
fn is_modification(name: &str) -> bool
    ensures { result ≡ is_modification name.now }
{
    name == "findAndModify" || name == "findandmodify"
}

/// What the first reply to a command is to.
fn wait_of(alloc: Global, ids: FreshIds, body: &Document) -> Result<Wait, NoMemory>
    ensures { IfOk result (λ w. w ≡ wait_of ids body.now) }
{
    let name = name_of(body);
    if name == "killCursors" {
        return kill_wait(alloc, body);
    }
    if name == "listCollections" {
        return collections_wait(alloc, body);
    }
    if name == "listIndexes" {
        return Ok(Wait::Indexes);
    }
    if name == "dropDatabase" {
        return Ok(Wait::Listed);
    }
    if name == "explain" {
        return Ok(Wait::Explained);
    }
    if is_modification(name) {
        return Ok(Wait::Found(Modification::new(alloc, ids, body)?));
    }
    if name == "distinct" {
        return distinct_wait(alloc, body);
    }
    if is_single(body) {
        return Ok(Wait::Single);
    }
    Ok(other_wait(ids, body))
}

/// What is kept of a command until it is asked.
fn first_plan_for(
    alloc: Global,
    ids: FreshIds,
    more_to_come: bool,
    body: &Document,
) -> Result<Plan, NoMemory>
    ensures { IfOk result (λ p. p ≡ first_plan_for ids more_to_come body.now) }
{
    let database = Text::from_str(alloc, text_or_none(body.get("$db")))?;
    let collection = Text::from_str(alloc, collection_of(body))?;
    let wait = wait_of(alloc, ids, body)?;
    Ok(Plan {
        more_to_come,
        database,
        collection,
        is_update: name_of(body) == "update",
        wait,
    })
}

fn first_plan(alloc: Global, ids: FreshIds, message: &Message) -> Result<Plan, NoMemory>
    ensures { IfOk result (λ p. p ≡ first_plan ids message.now) }
{
    match &message.body {
        Ok(body) => first_plan_for(alloc, ids, message.more_to_come, body),
        Err(_) => first_plan_for(alloc, ids, message.more_to_come, &Document::new(alloc)),
    }
}

/// What is kept of statements that may be asked one after the other, where there are any.
fn batch_wait(batch: Batch) -> Wait
    ensures { result ≡ batch_wait batch }
{
    if batch.left.is_empty() {
        return Wait::Plain;
    }
    Wait::Batch(batch)
}

/// What the reply is to, once this was asked.
fn asked_wait(alloc: Global, wait: Wait, command: Document) -> Wait
    ensures { result ≡ asked_wait wait command }
{
    match wait {
        Wait::Whole(write, is_ordered, ids) => {
            batch_wait(Batch::new(alloc, write, is_ordered, ids, command))
        }
        other => other,
    }
}

impl Plan {
    /// What is done first with a message, and what is kept of it until that is asked. It fails for want of memory alone.
    pub fn start(
        alloc: Global,
        info: &ServerInfo,
        message: Message,
    ) -> Result<(Plan, Step), NoMemory>
        ensures { IfOk result
            (λ x. (x.0 ≡ first_plan info.now.ids message) × (x.1 ≡ started info.now message)) }
    {
        let plan = match first_plan(alloc, info.ids, &message) {
            Ok(plan) => plan,
            Err(fault) => {
                drop(message);
                return Err(fault);
            }
        };
        match start(alloc, info, message) {
            Ok(step) => Ok((plan, step)),
            Err(fault) => {
                drop(plan);
                Err(fault)
            }
        }
    }

    /// The database was asked this: what of it is kept until the answer.
    pub fn keep(&mut self, alloc: Global, command: Document)
        ensures { self.new ≡ with_asked self.old command }
    {
        let wait = mem::replace(&mut self.wait, Wait::Plain);
        self.wait_for(asked_wait(alloc, wait, command));
    }

    /// Whether nobody else may ask the database before the answer.
    pub fn asks_alone(&self) -> bool
        ensures { result ≡ asks_alone self.now.wait }
    {
        matches!(
            self.wait,
            Wait::Found(_) | Wait::Changed(..) | Wait::Again(..)
        )
    }

    /// The answer that a reply of the database makes.
    pub(crate) fn final_step(&self, alloc: Global, mut reply: Document) -> Result<Step, NoMemory>
        ensures { IfOk result (λ s. s ≡ final self.now reply) }
    {
        let database = self.database.as_str();
        reword(alloc, &mut reply, database, self.collection.as_str())?;
        widen(&mut reply)?;
        Ok(unheard(self.more_to_come, Step::Reply(reply)))
    }

    /// Keeps what the next reply is to.
    pub(crate) fn wait_for(&mut self, wait: Wait)
        ensures { self.new ≡ record self.old { wait = wait } }
    {
        drop(mem::replace(&mut self.wait, wait));
    }

    /// Ends the cursor that a reply leaves, if it leaves one.
    fn end_cursor(&mut self, alloc: Global, mut reply: Document) -> Result<Step, NoMemory>
        requires { self.old.wait ≡ waits.Plain }
        ensures { IfOk result (λ s. (self.new, s) ≡ end_cursor (cursor_left reply) self.old reply) }
    {
        let Some(id) = cursor_left(&reply) else {
            return self.final_step(alloc, reply);
        };
        end(&mut reply)?;
        self.wait_for(Wait::Ended(reply));
        let command = kill_command(alloc, self.database.as_str(), self.collection.as_str(), id)?;
        Ok(Step::AskOwner(id, command))
    }

    /// How the refusal of a statement is answered.
    fn error_step(&self, alloc: Global, mut reply: Document) -> Result<Step, NoMemory>
        ensures { IfOk result (λ s. s
            ≡ error_step (refused_statement (lookup reply (codes "code"))) self.now reply) }
    {
        if refused_statement(reply.get("code")).is_none() {
            return self.final_step(alloc, reply);
        }
        let database = self.database.as_str();
        reword(alloc, &mut reply, database, self.collection.as_str())?;
        let mut tally = Tally::new(alloc);
        tally.take(alloc, 0, &reply)?;
        let answer = tally.reply(alloc, self.is_update)?;
        Ok(unheard(self.more_to_come, Step::Reply(answer)))
    }

    /// Asks the next statement, or gives the answer for all.
    fn next_statement(&mut self, alloc: Global, batch: Batch) -> Result<Step, NoMemory>
        requires { self.old.wait ≡ waits.Plain }
        ensures { IfOk result (λ s. (self.new, s) ≡ statement_step self.old batch) }
    {
        match batch.command(alloc) {
            Ok(Some(command)) => {
                self.wait_for(Wait::Statement(batch));
                Ok(Step::Ask(command))
            }
            Ok(None) => {
                let reply = batch.reply(alloc)?;
                Ok(unheard(self.more_to_come, Step::Reply(reply)))
            }
            Err(fault) => {
                drop(batch);
                Err(fault)
            }
        }
    }

    /// Takes the reply to a write as a whole.
    fn whole(&mut self, alloc: Global, batch: Batch, reply: Document) -> Result<Step, NoMemory>
        requires { self.old.wait ≡ waits.Plain }
        ensures { IfOk result (λ s. (self.new, s)
            ≡ whole_step (refused_statement (lookup reply (codes "code"))) self.old batch reply) }
    {
        if refused_statement(reply.get("code")).is_none() {
            return self.final_step(alloc, reply);
        }
        self.next_statement(alloc, batch)
    }

    /// Takes the reply to a statement.
    fn statement(
        &mut self,
        alloc: Global,
        mut batch: Batch,
        mut reply: Document,
    ) -> Result<Step, NoMemory>
        requires { self.old.wait ≡ waits.Plain }
        ensures { IfOk result (λ s. (self.new, s) ≡ statement_step self.old
            (after_reply batch (reworded self.old.database self.old.collection reply))) }
    {
        let database = self.database.as_str();
        reword(alloc, &mut reply, database, self.collection.as_str())?;
        batch.take(alloc, &reply)?;
        self.next_statement(alloc, batch)
    }

    /// Goes on with the next cursor, or gives the answer for all.
    fn kill_next(&mut self, alloc: Global, kills: Kills) -> Result<Step, NoMemory>
        requires { self.old.wait ≡ waits.Plain }
        ensures { IfOk result
            (λ s. (self.new, s) ≡ kill_next (first_id kills.left) self.old kills) }
    {
        let Some(id) = first_id(&kills.left) else {
            let reply = kills.reply(alloc)?;
            return Ok(unheard(self.more_to_come, Step::Reply(reply)));
        };
        let command = kills.command(alloc, id);
        self.wait_for(Wait::Kill(kills));
        Ok(Step::AskOwner(id, command?))
    }

    /// Takes the answer for a cursor.
    fn killed(&mut self, alloc: Global, mut kills: Kills, reply: Document) -> Result<Step, NoMemory>
        requires { self.old.wait ≡ waits.Plain }
        ensures { IfOk result (λ s. (self.new, s)
            ≡ killed (lookup reply (codes "cursorsKilled")) self.old kills reply) }
    {
        if reply.get("cursorsKilled").is_none() {
            return self.final_step(alloc, reply);
        }
        kills.take(&reply)?;
        self.kill_next(alloc, kills)
    }

    /// Drops the next collection, or gives the answer for all.
    fn drop_next(&mut self, alloc: Global, collections: Array) -> Result<Step, NoMemory>
        requires { self.old.wait ≡ waits.Plain }
        ensures { IfOk result (λ s. (self.new, s) ≡ drop_step self.old collections) }
    {
        let Some(command) = drop_command(alloc, self.database.as_str(), &collections)? else {
            let reply = dropped_reply(alloc, self.database.as_str())?;
            return Ok(unheard(self.more_to_come, Step::Reply(reply)));
        };
        self.wait_for(Wait::Drops(collections));
        Ok(Step::Ask(command))
    }

    /// Takes the list of the collections that are to be dropped.
    fn drop_listed(&mut self, alloc: Global, reply: Document) -> Result<Step, NoMemory>
        requires { self.old.wait ≡ waits.Plain }
        ensures { IfOk result (λ s. (self.new, s)
            ≡ drop_listed (batch_in (lookup reply (codes "cursor"))) self.old reply) }
    {
        let Some(collections) = first_batch(&reply)? else {
            return self.final_step(alloc, reply);
        };
        self.drop_next(alloc, collections)
    }

    /// Takes the answer for a collection that was to be dropped.
    fn drop_on(
        &mut self,
        alloc: Global,
        mut collections: Array,
        reply: Document,
    ) -> Result<Step, NoMemory>
        requires { self.old.wait ≡ waits.Plain }
        ensures { IfOk result (λ s. (self.new, s) ≡ drop_on self.old collections reply) }
    {
        if !is_gone(&reply) {
            return self.final_step(alloc, reply);
        }
        drop_first(&mut collections);
        self.drop_next(alloc, collections)
    }

    /// The answer that lists collections.
    fn retell(
        &self,
        alloc: Global,
        wanted: &Option<Text>,
        reply: Document,
    ) -> Result<Step, NoMemory>
        ensures { IfOk result (λ s. s ≡ final self.now (retold wanted.now self.now.database
            (batch_in (lookup reply (codes "cursor"))) reply)) }
    {
        let reply = retold(alloc, wanted, self.database.as_str(), reply)?;
        self.final_step(alloc, reply)
    }

    /// What is done where the database was asked, which the plan was told (`keep`), and answered so. It fails for want of memory alone,
    /// and then the plan is of no use.
    pub fn answer(&mut self, alloc: Global, reply: Document) -> Result<Step, NoMemory>
        ensures { IfOk result (λ s. (self.new, s) ≡ answered self.old reply) }
    {
        match mem::replace(&mut self.wait, Wait::Plain) {
            Wait::Plain => self.final_step(alloc, reply),
            Wait::Single => self.end_cursor(alloc, reply),
            Wait::Ended(answer) => self.final_step(alloc, answer),
            Wait::Write => self.error_step(alloc, reply),
            Wait::Whole(..) => self.final_step(alloc, reply),
            Wait::Batch(batch) => self.whole(alloc, batch, reply),
            Wait::Statement(batch) => self.statement(alloc, batch, reply),
            Wait::Listed => self.drop_listed(alloc, reply),
            Wait::Drops(collections) => self.drop_on(alloc, collections, reply),
            Wait::Kill(kills) => self.killed(alloc, kills, reply),
            Wait::Collections(wanted) => self.retell(alloc, &wanted, reply),
            Wait::Indexes => self.final_step(alloc, indexes_told(alloc, reply)?),
            Wait::Explained => self.final_step(alloc, explained(alloc, reply)?),
            Wait::Found(modification) => self.found(alloc, modification, reply),
            Wait::Changed(modification, was) => self.changed(alloc, modification, was, reply),
            Wait::Again(modification, is_new, subject) => {
                self.found_again(alloc, modification, is_new, subject, reply)
            }
            Wait::Distinct(distinct) => self.distinct_on(alloc, distinct, reply),
        }
    }
}
