//! What `killCursors` is answered: which of the ids that it names a connection's cursors have.

ghost use Rattle.std.specs.Prelude.{◌≡◌, ◌&&◌, not, IfOk, OnOk};
ghost use Rattle.std.specs.List.{list_any};
ghost use Rattle.std.specs.Ordering.{int_eq};
ghost use Rattle.bson.specs.Tree.{scalar, int64, item, no_items, no_pairs, append_items};
ghost use Rattle.database_model.specs.KillCursors.{no_ids, with_id, told_apart, has_cursor, id_items, kill_reply};
ghost use Rattle.cursors.specs.Held.{cursors_of};
ghost use Rattle.database_model.specs.Refusals.{ok_reply};

use crate::cursors::Cursors;
use bson::{Array, Document, NoMemory, Value};
use replies::{ConnId, add, done, put};
use std::alloc::Global;
use std::marker::Model;

/// The ids that are killed and those that aren't found, in the order asked.
#[derive(Drop)]
pub struct ToldApart {
    killed: Vec<i64>,
    not_found: Vec<i64>,
}

impl Model for ToldApart {
    ghost use Rattle.database_model.specs.KillCursors as kills;

    ghost Value = { kills.ToldApart };

    ghost view = { λ a. record { killed = a.killed.items; not_found = a.not_found.items } };
}

impl ToldApart {
    fn new(alloc: Global) -> ToldApart
        ensures { result ≡ no_ids }
    {
        ToldApart {
            killed: Vec::new(alloc),
            not_found: Vec::new(alloc),
        }
    }

    /// Whether an id was named before, and killed.
    fn has_killed(&self, id: &i64) -> bool
        ensures { result ≡ list_any (int_eq id.now) self.now.killed }
    {
        self.killed.contains(id)
    }

    fn add(&mut self, is_killed: bool, id: &i64) -> Result<(), NoMemory>
        ensures { OnOk result (self.new ≡ with_id is_killed id.now self.old) }
    {
        if is_killed {
            self.killed.push(*id)?;
        } else {
            self.not_found.push(*id)?;
        }
        Ok(())
    }
}

/// Which of these ids a connection's cursors have, over a namespace. An id that is named again isn't found.
pub fn tell_apart(
    alloc: Global,
    cursors: &Cursors,
    connection: ConnId,
    namespace: &str,
    ids: &[i64],
) -> Result<ToldApart, NoMemory>
    ensures { IfOk result (λ t. t ≡ told_apart
        (has_cursor connection namespace.now (cursors_of cursors.now)) no_ids ids.now) }
{
    let mut told = ToldApart::new(alloc);
    'ids: for id in ids {
        let is_killed = cursors.has(connection, namespace, id) && !told.has_killed(id);
        told.add(is_killed, id)?;
    }
    Ok(told)
}

/// Adds an id to an array.
fn add_id(array: &mut Array, id: &i64) -> Result<(), NoMemory>
    ensures { OnOk result
        (array.new ≡ append_items array.old (item (scalar (int64 id.now)) no_items)) }
{
    add(array, Value::Int64(*id))
}

/// Ids as an array.
fn id_array(alloc: Global, ids: &[i64]) -> Result<Array, NoMemory>
    ensures { IfOk result (λ a. a ≡ id_items ids.now) }
{
    let mut array = Array::new(alloc);
    'ids: for id in ids {
        add_id(&mut array, id)?;
    }
    Ok(array)
}

/// The reply that says which ids were killed.
pub fn kill_reply(alloc: Global, told: &ToldApart) -> Result<Document, NoMemory>
    ensures { IfOk result (λ d. d ≡ ok_reply (kill_reply told.now)) }
{
    let mut reply = Document::new(alloc);
    put_told(alloc, &mut reply, told)?;
    done(reply)
}

fn put_told(alloc: Global, reply: &mut Document, told: &ToldApart) -> Result<(), NoMemory>
    requires { reply.old ≡ no_pairs }
    ensures { OnOk result (reply.new ≡ kill_reply told.now) }
{
    put(
        reply,
        "cursorsKilled",
        Value::Array(id_array(alloc, &told.killed)?),
    )?;
    put(
        reply,
        "cursorsNotFound",
        Value::Array(id_array(alloc, &told.not_found)?),
    )
}
