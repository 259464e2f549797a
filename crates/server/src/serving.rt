//! The messages of a turn, answered one after the other.

ghost use Rattle.std.specs.Prelude.{◌≡◌, [], IfOk, true, false};
ghost use Rattle.page.specs.History.{KeepsWord};
ghost use Rattle.op_msg.specs.Request.{reply_bytes};
ghost use Rattle.database_model.specs.World.{are_untouched};
ghost use Rattle.replies.specs.View.{answer_of, IsSendable};
ghost use Rattle.engine.specs.View.{world, turn_start, reply_of};
ghost use Rattle.engine.specs.Continuing.{Continues};
ghost use Rattle.engine.specs.Laws.{BodyOnlyReads};
ghost use Rattle.engine.specs.Durable.{disk_history, failed_reads_of, has_changes, is_stopped, IsRunning, IsSound, KeepsChanges};
ghost use Rattle.path.specs.declared.refusal.Refusal.TheVariants.{OutOfMemory};
ghost use Rattle.std.specs.Prelude.{Result};
ghost use Rattle.bson.specs.Tree.{Pairs};
ghost use Rattle.outcome.specs.Outcome.{Gives};
ghost use Rattle.bson_bytes.specs.declared.fault.BsonFault.{BsonFault};
ghost use Rattle.bson_bytes.specs.declared.fault.BsonFault.TheVariants as bson_faults;
ghost use Rattle.database_model.specs.Step.{WroteNothing};
ghost use Rattle.server.specs.Turn.{AnswersOnAnyDisk, front_of, connections_taken, taken_at, call_at, calls, refused_frames, forget_all, AllRead};
ghost use Rattle.server.specs.Taking.{Serves, IsAnswer};
ghost use Rattle.server.specs.Messages.{RunsMessages};
ghost use Rattle.server.specs.View.{frames_in};
ghost use Rattle.server.specs.Causes.{IsCaused};
ghost use Rattle.server.specs.Durable.{engine_moment};

use crate::connection::{Connection, Taken, take_call};
use crate::preparing::say_full;
use bson::NoMemory;
use engine::{Answer, ConnId, Engine, Reply, body_refusal, refusal_document};
use op_msg::{FrameFault, Request, reply, spelled_reply};
use page::Disk;
use roots::CommitFault;
use std::alloc::Global;

/// The frame of what says that a command was done.
fn frame_of_answer(
    alloc: Global,
    number: u32,
    request_id: u32,
    answer: &Answer,
) -> Result<Vec<u8>, NoMemory>
    requires { IsSendable (answer_of answer.now) }
    ensures { IfOk result (λ v. v.items ≡ reply_bytes number request_id (answer_of answer.now)) }
{
    match answer {
        Answer::Built(document) => reply(alloc, number, request_id, document),
        Answer::Spelled(document) => spelled_reply(alloc, number, request_id, document.bytes()),
    }
}

/// The frame of what the engine answered.
fn frame_of_reply(
    alloc: Global,
    number: u32,
    request_id: u32,
    answer: &Reply,
) -> Result<Vec<u8>, NoMemory>
    requires { IsSendable (reply_of answer.now) }
    ensures { IfOk result (λ v. v.items ≡ reply_bytes number request_id (reply_of answer.now)) }
{
    match answer {
        Reply::Done(answer) => frame_of_answer(alloc, number, request_id, answer),
        Reply::Refused(refusal) => {
            let document = refusal_document(alloc, *refusal)?;
            reply(alloc, number, request_id, &document)
        }
    }
}

/// Runs a request. One whose body found no memory, or is no document, is refused.
fn answer<D: Disk>(engine: &mut Engine<D>, id: ConnId, request: &Request) -> Reply
    requires sound { IsSound D.history engine.old }
    requires running { IsRunning engine.old }
    ensures sound { IsSound D.history engine.new }
    ensures continues { Continues D.history engine.old engine.new }
    ensures running { is_stopped engine.new ≡ is_stopped engine.old }
    ensures answer { KeepsWord (disk_history D.history engine.new)
        → IsAnswer (IsCaused (engine_moment D.history engine.old)
        (engine_moment D.history engine.new)) (world engine.old) id request.now (world engine.new)
        (reply_of result) }
    ensures turn_start { turn_start engine.new ≡ turn_start engine.old }
    ensures keeps { KeepsChanges engine.old engine.new }
    ensures quiet { KeepsWord (disk_history D.history engine.new)
        → (read : Result Pairs BsonFault)
        → Gives bson_faults.Memory (λ d. d) request.now.body read
        → WroteNothing (world engine.old) read (world engine.new)
        → has_changes engine.new ≡ has_changes engine.old }
    ensures reads { (read : Result Pairs BsonFault)
        → Gives bson_faults.Memory (λ d. d) request.now.body read → BodyOnlyReads read
        → has_changes engine.new ≡ has_changes engine.old }
    ensures anyhow { (read : Result Pairs BsonFault)
        → Gives bson_faults.Memory (λ d. d) request.now.body read
        → AnswersOnAnyDisk (world engine.old) id read (world engine.new) (reply_of result) }
    ensures sendable { IsSendable (reply_of result) }
{
    match &request.body {
        Ok(document) => engine.execute(id, document),
        Err(fault) => Reply::Refused(body_refusal(*fault)),
    }
}

/// Answers the message at the front of a connection, if there is one, and puts the frame at the end. It says whether the
/// frame found memory.
fn serve_connection<D: Disk>(
    engine: &mut Engine<D>,
    connection: &mut Connection,
    frames: &mut Vec<(ConnId, Vec<u8>)>,
) -> bool
    requires sound { IsSound D.history engine.old }
    requires running { IsRunning engine.old }
    ensures sound { IsSound D.history engine.new }
    ensures continues { Continues D.history engine.old engine.new }
    ensures running { is_stopped engine.new ≡ is_stopped engine.old }
    ensures serves { Serves (KeepsWord (disk_history D.history engine.new))
        (IsCaused (engine_moment D.history engine.old) (engine_moment D.history engine.new))
        (has_changes engine.new ≡ has_changes engine.old) (has_changes engine.new ≡ false)
        (call_at connection.old (front_of connection.old)) (world engine.old) (world engine.new)
        result (frames_in frames.old.items) (frames_in frames.new.items) }
    ensures connection { connection.new ≡ taken_at connection.old (front_of connection.old) }
    ensures turn_start { turn_start engine.new ≡ turn_start engine.old }
    ensures keeps { KeepsChanges engine.old engine.new }
    ensures reads { AllRead (call_at connection.old (front_of connection.old))
        → has_changes engine.new ≡ has_changes engine.old }
    ensures idle { call_at connection.old (front_of connection.old) ≡ []
        → engine.new ≡ engine.old }
{
    let id = connection.id;
    let Taken::Call(number, request) = take_call(connection) else {
        return true;
    };
    let reply = answer(engine, id, &request);
    if request.more_to_come {
        return true;
    }
    match frame_of_reply(*frames.allocator(), number, request.request_id, &reply) {
        Ok(bytes) => frames.push((id, bytes)).is_ok(),
        Err(_) => false,
    }
}

/// Answers the message at the front of each connection. It says whether every frame found memory.
fn serve_connections<D: Disk>(
    engine: &mut Engine<D>,
    connections: &mut [Connection],
    frames: &mut Vec<(ConnId, Vec<u8>)>,
) -> bool
    requires sound { IsSound D.history engine.old }
    requires running { IsRunning engine.old }
    ensures sound { IsSound D.history engine.new }
    ensures continues { Continues D.history engine.old engine.new }
    ensures running { is_stopped engine.new ≡ is_stopped engine.old }
    ensures serves { Serves (KeepsWord (disk_history D.history engine.new))
        (IsCaused (engine_moment D.history engine.old) (engine_moment D.history engine.new))
        (has_changes engine.new ≡ has_changes engine.old) (has_changes engine.new ≡ false)
        (calls connections.old) (world engine.old) (world engine.new) result
        (frames_in frames.old.items) (frames_in frames.new.items) }
    ensures connections { connections.new ≡ connections_taken connections.old }
    ensures turn_start { turn_start engine.new ≡ turn_start engine.old }
    ensures reads { AllRead (calls connections.old)
        → has_changes engine.new ≡ has_changes engine.old }
    ensures idle { calls connections.old ≡ [] → engine.new ≡ engine.old }
{
    let mut all = true;
    'connections: for connection in connections.iter_mut() {
        let found = serve_connection(engine, connection, frames);
        all &= found;
    }
    all
}

/// Answers the message at the front of each connection, and ends the turn. What the messages changed is made durable, or it is
/// taken back where memory runs out for a frame, or memory or room for the commit: the frames are then the refusals, which
/// were made before. `None` says that a write or a sync failed.
pub(crate) fn run_messages<D: Disk>(
    engine: &mut Engine<D>,
    connections: &mut Vec<Connection>,
    mut refusals: Vec<(ConnId, Vec<u8>)>,
) -> Option<Vec<(ConnId, Vec<u8>)>>
    requires sound { IsSound D.history engine.old }
    requires running { IsRunning engine.old }
    requires idle { turn_start engine.old ≡ (world engine.old).collections }
    requires clean { has_changes engine.old ≡ false }
    requires refusals { frames_in refusals.items
        ≡ refused_frames OutOfMemory connections.old.items }
    ensures { RunsMessages D.history engine.old connections.old.items result engine.new
        connections.new.items }
{
    let mut replies = Vec::new(*connections.allocator());
    if !serve_connections(engine, connections, &mut replies) {
        engine.undo_turn();
        return Some(refusals);
    }
    match engine.commit_turn() {
        Ok(()) => Some(replies),
        Err(CommitFault::Memory) => Some(refusals),
        Err(CommitFault::Full) => {
            say_full(&mut refusals);
            Some(refusals)
        }
        Err(CommitFault::Device) => None,
    }
}

/// The cursors of connections that a fault closed end.
pub(crate) fn forget_closed<D: Disk>(engine: &mut Engine<D>, closed: &[(ConnId, FrameFault)])
    requires sound { IsSound D.history engine.old }
    requires idle { turn_start engine.old ≡ (world engine.old).collections }
    requires rested { are_untouched (world engine.old).cursors ≡ true }
    ensures sound { IsSound D.history engine.new }
    ensures disk { disk_history D.history engine.new ≡ disk_history D.history engine.old }
    ensures running { is_stopped engine.new ≡ is_stopped engine.old }
    ensures moment { engine_moment D.history engine.new ≡ engine_moment D.history engine.old }
    ensures reads { failed_reads_of D.history engine.new ≡ failed_reads_of D.history engine.old }
    ensures world { world engine.new ≡ forget_all (world engine.old) closed.now }
    ensures idle { turn_start engine.new ≡ (world engine.new).collections }
    ensures rested { are_untouched (world engine.new).cursors ≡ true }
    ensures has_changes { has_changes engine.new ≡ has_changes engine.old }
{
    'closed: for (id, _) in closed {
        engine.gone(*id);
    }
}
