//! Cursors that are ended one after the other.

ghost use Rattle.std.specs.Prelude.{◌≡◌, IfOk, OnOk, option_map};
ghost use Rattle.bson.specs.View.{tree, items_of};
ghost use Rattle.driver_replies.specs.Cursors.{number_of, cursor_of, wide_ids, ids_in, ids_of, first_id, kill_one, no_kills, is_more, was_killed, after, told_ids, kill_reply};

use crate::fields::{add, put, set};
use bson::{Array, Document, NoMemory, Value};
use std::alloc::Global;

/// The most cursors of one command.
const MOST_CURSORS: usize = 1000;

/// What is known of the cursors of a `killCursors`: the command, the cursors that are left, with the one that was asked for in front,
/// those that were ended, and those that were missing.
#[derive(Drop)]
pub struct Kills {
    pub body: Document,
    pub left: Array,
    pub killed: Array,
    pub missing: Array,
}

/// A number as an int32 or an int64.
fn number_of(value: &Value) -> Option<i64>
    ensures { result ≡ number_of (tree value.now) }
{
    match value {
        Value::Int32(number) => Some(i64::from(*number)),
        Value::Int64(number) => Some(*number),
        _ => None,
    }
}

/// The number of a cursor beside the name of a command.
pub fn cursor_of(body: &Document) -> Option<i64>
    ensures { result ≡ cursor_of body.now }
{
    match body.pairs().first() {
        Some(pair) => number_of(&pair.value),
        None => None,
    }
}

/// All of these as int64, if they are numbers.
fn wide_ids(alloc: Global, ids: &[Value]) -> Result<Option<Array>, NoMemory>
    ensures { IfOk result (λ x. x ≡ wide_ids (items_of ids.now)) }
{
    let mut wide = Array::new(alloc);
    'ids: for id in ids {
        let Some(number) = number_of(id) else {
            return Ok(None);
        };
        add(&mut wide, Value::Int64(number))?;
    }
    Ok(Some(wide))
}

/// The cursors that a command names.
pub fn ids_of(alloc: Global, body: &Document) -> Result<Option<Array>, NoMemory>
    ensures { IfOk result (λ x. x ≡ ids_of body.now) }
{
    let Some(Value::Array(ids)) = body.get("cursors") else {
        return Ok(None);
    };
    if MOST_CURSORS < ids.len() {
        return Ok(None);
    }
    wide_ids(alloc, ids.items())
}

/// The first of these cursors.
pub fn first_id(ids: &Array) -> Option<i64>
    ensures { result ≡ first_id ids.now }
{
    match ids.items().first() {
        Some(id) => number_of(id),
        None => None,
    }
}

/// The command for one cursor, in place of one for several.
pub fn kill_one(alloc: Global, body: &mut Document, id: i64) -> Result<(), NoMemory>
    ensures { OnOk result (body.new ≡ kill_one body.old id) }
{
    let mut ids = Array::new(alloc);
    add(&mut ids, Value::Int64(id))?;
    set(body, "cursors", Value::Array(ids))
}

/// Whether the cursor that was asked for was there.
fn was_killed(reply: &Document) -> bool
    ensures { result ≡ was_killed reply.now }
{
    match reply.get("cursorsKilled") {
        Some(Value::Array(ids)) => !ids.is_empty(),
        _ => false,
    }
}

/// Which cursors were ended, and which were missing.
fn told_ids(alloc: Global, killed: Array, missing: Array) -> Result<Document, NoMemory>
    ensures { IfOk result (λ d. d ≡ told_ids killed missing) }
{
    let _levels = killed.levels();
    let _levels = missing.levels();
    let mut reply = Document::new(alloc);
    put(&mut reply, "cursorsKilled", Value::Array(killed))?;
    put(&mut reply, "cursorsNotFound", Value::Array(missing))?;
    Ok(reply)
}

impl Kills {
    /// Nothing is known yet.
    pub fn new(alloc: Global, body: Document, ids: Array) -> Kills
        ensures { result ≡ no_kills body ids }
    {
        Kills {
            body,
            left: ids,
            killed: Array::new(alloc),
            missing: Array::new(alloc),
        }
    }

    /// Takes the answer for the first cursor of those that are left.
    pub fn take(&mut self, reply: &Document) -> Result<(), NoMemory>
        ensures { OnOk result (self.new ≡ after self.old reply.now) }
    {
        let Some(id) = first_id(&self.left) else {
            return Ok(());
        };
        let _id = self.left.remove_at(0);
        if was_killed(reply) {
            add(&mut self.killed, Value::Int64(id))
        } else {
            add(&mut self.missing, Value::Int64(id))
        }
    }

    /// The command for a cursor.
    pub fn command(&self, alloc: Global, id: i64) -> Result<Document, NoMemory>
        ensures { IfOk result (λ d. d ≡ kill_one self.now.body id) }
    {
        let mut command = self.body.copy()?;
        kill_one(alloc, &mut command, id)?;
        Ok(command)
    }

    /// The answer for all.
    pub fn reply(self, alloc: Global) -> Result<Document, NoMemory>
        ensures { IfOk result (λ d. d ≡ kill_reply self) }
    {
        let Kills {
            body: _,
            left: _,
            killed,
            missing,
        } = self;
        let mut reply = told_ids(alloc, killed, missing)?;
        put(&mut reply, "cursorsAlive", Value::Array(Array::new(alloc)))?;
        put(
            &mut reply,
            "cursorsUnknown",
            Value::Array(Array::new(alloc)),
        )?;
        put(&mut reply, "ok", Value::Int64(1))?;
        Ok(reply)
    }
}
