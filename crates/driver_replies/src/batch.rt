//! The statements of a write, asked one after the other.

ghost use Rattle.std.specs.Prelude.{◌≡◌, ◌≤◌, IfOk, OnOk, option_map};
ghost use Rattle.bson.specs.Tree.{item, no_items};
ghost use Rattle.bson.specs.Edits.{without_item};
ghost use Rattle.bson.specs.Lawful.{levels, pairs_levels};
ghost use Rattle.bson.specs.View.{tree, items_of};
ghost use Rattle.driver_replies.specs.Writes.{field_of, is_alone, is_ordered_in, statements_in, batch_of, asked_upsert, asked_document, asked_statement, next_command, first_needs_id, is_zero_count, finds_nothing, left_after, passed, with_tally, after_reply, batch_reply};

use crate::fields::{add, set};
use crate::fresh_ids::FreshIds;
use crate::tally::{Tally, refused};
use crate::upserts::{add_id, needs_id};
use crate::writes::Write;
use bson::{Array, Document, NoMemory, Value};
use std::alloc::Global;

/// What is known of the statements of a write that are asked one after the other: the command without them, those that are left, with
/// the one that was asked in front, its index, whether the first that is refused is the last, whether an upsert is asked to make a
/// document, the object ids that are fresh, and what was done.
#[derive(Drop)]
pub struct Batch {
    pub write: Write,
    pub body: Document,
    pub left: Array,
    pub index: i32,
    pub is_ordered: bool,
    pub is_new: bool,
    pub ids: FreshIds,
    pub tally: Tally,
}

/// Whether the first of some statements needs an `_id` for the document that it may make.
fn first_needs_id(write: Write, statements: &Array) -> bool
    ensures { result ≡ first_needs_id write statements.now }
{
    match statements.items().first() {
        Some(statement) => needs_id(write, statement),
        None => false,
    }
}

/// Whether a write has one statement, and that needs no `_id`.
pub fn is_alone(write: Write, statements: Option<&Value>) -> bool
    ensures { result ≡ is_alone write (option_map (λ v. tree v.now) statements.entry) }
{
    match statements {
        Some(Value::Array(statements)) => {
            statements.len() == 1 && !first_needs_id(write, statements)
        }
        _ => false,
    }
}

/// Whether the first statement that is refused is the last.
pub fn is_ordered_in(value: Option<&Value>) -> bool
    ensures { result ≡ is_ordered_in (option_map (λ v. tree v.now) value.entry) }
{
    match value {
        Some(Value::Bool(truth)) => *truth,
        _ => true,
    }
}

/// The statements that a field holds.
fn statements_in(alloc: Global, value: Option<Value>) -> Array
    ensures { result ≡ statements_in (option_map tree value) }
{
    match value {
        Some(Value::Array(statements)) => statements,
        _ => Array::new(alloc),
    }
}

/// Whether a count is 0.
fn is_zero_count(value: Option<&Value>) -> bool
    ensures { result ≡ is_zero_count (option_map (λ v. tree v.now) value.entry) }
{
    match value {
        Some(Value::Int32(number)) => *number == 0,
        _ => false,
    }
}

/// Takes the first of some values away, if there is one.
pub fn drop_first(statements: &mut Array)
    ensures { statements.new ≡ without_item statements.old 0 }
{
    if statements.is_empty() {
        return;
    }
    let _statement = statements.remove_at(0);
}

impl Batch {
    /// Nothing was asked yet.
    pub fn new(
        alloc: Global,
        write: Write,
        is_ordered: bool,
        ids: FreshIds,
        mut body: Document,
    ) -> Batch
        ensures { result ≡ batch_of write is_ordered ids body }
    {
        let left = statements_in(alloc, body.remove(write.field()));
        Batch {
            write,
            body,
            left,
            index: 0,
            is_ordered,
            is_new: false,
            ids,
            tally: Tally::new(alloc),
        }
    }

    /// An upsert that says no `_id`, as it is asked.
    fn asked_upsert(&self, upsert: &Document) -> Result<Document, NoMemory>
        requires { pairs_levels upsert.now ≤ 97 }
        ensures { IfOk result (λ d. d ≡ asked_upsert self.now upsert.now) }
    {
        let mut asked = upsert.copy()?;
        if !self.is_new {
            let _upsert = asked.remove("upsert");
            return Ok(asked);
        }
        add_id(&mut asked, self.ids.first())?;
        Ok(asked)
    }

    /// A statement, as it is asked.
    fn asked_statement(&self, statement: &Value) -> Result<Value, NoMemory>
        requires { levels (tree statement.now) ≤ 98 }
        ensures asked { IfOk result (λ v. tree v ≡ asked_statement self.now (tree statement.now)) }
        ensures flat { IfOk result (λ v. levels (tree v) ≤ 98) }
    {
        match statement {
            Value::Document(upsert) if needs_id(self.write, statement) => {
                Ok(Value::Document(self.asked_upsert(upsert)?))
            }
            _ => statement.copy(),
        }
    }

    /// The command for the first of the statements that are left, if one is left.
    pub fn command(&self, alloc: Global) -> Result<Option<Document>, NoMemory>
        ensures { IfOk result (λ x. x ≡ next_command self.now.left self.now) }
    {
        let Some(statement) = self.left.items().first() else {
            return Ok(None);
        };
        let mut statements = Array::new(alloc);
        add(&mut statements, self.asked_statement(statement)?)?;
        let _levels = statements.levels();
        let mut command = self.body.copy()?;
        set(&mut command, self.write.field(), Value::Array(statements))?;
        Ok(Some(command))
    }

    /// Whether an upsert that was asked as an update found nothing.
    fn finds_nothing(&self, reply: &Document) -> bool
        ensures { result ≡ finds_nothing self.now reply.now }
    {
        first_needs_id(self.write, &self.left)
            && !self.is_new
            && refused(reply).is_none()
            && is_zero_count(reply.get("n"))
    }

    /// Passes over the first of the statements that are left, or over all, where they are in order and it was refused.
    fn pass(&mut self, alloc: Global, reply: &Document)
        ensures { self.new ≡ passed self.old reply.now }
    {
        self.index = self.index.saturating_add(1);
        self.is_new = false;
        self.ids = self.ids.next();
        if self.is_ordered && refused(reply).is_some() {
            self.left = Array::new(alloc);
        } else {
            drop_first(&mut self.left);
        }
    }

    /// Takes the reply to the first of the statements that are left.
    pub fn take(&mut self, alloc: Global, reply: &Document) -> Result<(), NoMemory>
        ensures { OnOk result (self.new ≡ after_reply self.old reply.now) }
    {
        if self.finds_nothing(reply) {
            self.is_new = true;
            return Ok(());
        }
        self.tally.take(alloc, self.index, reply)?;
        self.pass(alloc, reply);
        Ok(())
    }

    /// The answer for all.
    pub fn reply(self, alloc: Global) -> Result<Document, NoMemory>
        ensures { IfOk result (λ d. d ≡ batch_reply self) }
    {
        self.tally.reply(alloc, self.write.is_update())
    }
}
