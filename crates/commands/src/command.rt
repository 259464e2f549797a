//! The command that a body spells.

ghost use Rattle.std.specs.Prelude.{IfOk};
ghost use Rattle.bson.specs.Tree.{pair};
ghost use Rattle.bson.specs.View.{tree, pairs_of};
ghost use Rattle.outcome.specs.Outcome.{Gives};
ghost use Rattle.command_model.specs.Command.{command_of, IsBounded};
ghost use Rattle.commands.specs.View.{command_read};

use crate::aggregation::{Aggregate, read_aggregate};
use crate::count::{Count, read_count};
use crate::create::{Create, read_create};
use crate::create_indexes::{CreateIndexes, read_create_indexes};
use crate::delete::{Delete, read_delete};
use crate::drop_collection::{DropCollection, read_drop};
use crate::drop_indexes::{DropIndexes, read_drop_indexes};
use crate::explain::{Explain, read_explain};
use crate::find::{Find, read_find};
use crate::get_more::{GetMore, read_get_more};
use crate::hello::read_hello;
use crate::insert::{Insert, read_insert};
use crate::kill_cursors::{KillCursors, read_kill_cursors};
use crate::list_collections::{ListCollections, read_list_collections};
use crate::list_indexes::{ListIndexes, read_list_indexes};
use crate::ping::read_ping;
use crate::updates::{Update, read_update};
use bson::{Document, Pair, Value};
use path::Refusal;
use std::alloc::Global;

/// A command that was read.
pub enum Command<'a> {
    Ping,
    Hello,
    Insert(Insert<'a>),
    Find(Find),
    GetMore(GetMore),
    KillCursors(KillCursors),
    Count(Count),
    Delete(Delete),
    Update(Update),
    Aggregate(Aggregate),
    Create(Create),
    Drop(DropCollection),
    ListCollections(ListCollections<'a>),
    CreateIndexes(CreateIndexes),
    DropIndexes(DropIndexes<'a>),
    ListIndexes(ListIndexes),
    Explain(Explain),
}

// (written out, so that no crate above proves again that its parts are let go)
impl Drop for Command<'_> {
    fn drop(self) {
        match self {
            Command::Ping | Command::Hello => {}
            Command::Insert(_) => {}
            Command::Find(_) => {}
            Command::GetMore(_) => {}
            Command::KillCursors(_) => {}
            Command::Count(_) => {}
            Command::Delete(_) => {}
            Command::Update(_) => {}
            Command::Aggregate(_) => {}
            Command::Create(_) => {}
            Command::Drop(_) => {}
            Command::ListCollections(_) => {}
            Command::CreateIndexes(_) => {}
            Command::DropIndexes(_) => {}
            Command::ListIndexes(_) => {}
            Command::Explain(_) => {}
        }
    }
}

/// The command of this name, read from the value of its name and the fields behind it.
#[tactic(auto, unfolding(command_model::specs::Command::command_of))]
fn read_named<'a>(
    alloc: Global,
    name: &str,
    value: &'a Value,
    fields: &'a [Pair],
) -> Result<Command<'a>, Refusal>
    ensures { Gives Refusal.OutOfMemory command_read result
        (command_of (pair name.now (tree value.now) (pairs_of fields.now))) }
{
    match name {
        "ping" => read_ping(alloc, value, fields),
        "hello" => read_hello(alloc, value, fields),
        "insert" => read_insert(alloc, value, fields),
        "find" => read_find(alloc, value, fields),
        "getMore" => read_get_more(alloc, value, fields),
        "killCursors" => read_kill_cursors(alloc, value, fields),
        "count" => read_count(alloc, value, fields),
        "delete" => read_delete(alloc, value, fields),
        "update" => read_update(alloc, value, fields),
        "aggregate" => read_aggregate(alloc, value, fields),
        "create" => read_create(alloc, value, fields),
        "drop" => read_drop(alloc, value, fields),
        "listCollections" => read_list_collections(alloc, value, fields),
        "createIndexes" => read_create_indexes(alloc, value, fields),
        "dropIndexes" => read_drop_indexes(alloc, value, fields),
        "listIndexes" => read_list_indexes(alloc, value, fields),
        "explain" => read_explain(alloc, value, fields),
        _ => Err(Refusal::CommandNotFound),
    }
}

impl<'a> Command<'a> {
    /// The command that a body spells, which its first name says.
    ///
    /// The first of these refusals: `CommandNotFound`; `TypeMismatch` where the collection's name is no
    /// string, the number of a cursor no int64, or what is explained no document; what is wrong with a field, in the order written; `FailedToParse` where a field
    /// is missing; `InvalidNamespace`.
    #[tactic(auto, unfolding(command_model::specs::Command::command_of))]
    pub fn read(alloc: Global, body: &'a Document) -> Result<Command<'a>, Refusal>
        ensures gives { Gives Refusal.OutOfMemory command_read result (command_of body.now) }
        ensures bounded { IfOk result (λ c. IsBounded (command_read c)) }
    {
        match body.pairs().split_first() {
            Some((first, rest)) => read_named(alloc, first.name.as_str(), &first.value, rest),
            None => Err(Refusal::CommandNotFound),
        }
    }
}
