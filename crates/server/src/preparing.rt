//! What a turn makes ready before it takes a message, so that it can be undone without memory.

ghost use Rattle.std.specs.Prelude.{◌≡◌, ◌++◌, [], ◌∷◌, IfOk, OnOk};
ghost use Rattle.database_model.specs.Refusals.{refusal_reply};
ghost use Rattle.path.specs.declared.refusal.Refusal.TheVariants.{OutOfMemory};
ghost use Rattle.op_msg.specs.Request.{head_of, reply_bytes};
ghost use Rattle.server.specs.Turn.{front_of, faults, fault_at, frame_unless, refused_frames};
ghost use Rattle.op_msg.specs.ReplyNumbers.{next_number};
ghost use Rattle.server.specs.Taking.{refused_at, fault_in, faults_in, HaveRoom, respelled_frames};
ghost use Rattle.server.specs.View.{frames_in};

use crate::connection::Connection;
use bson::NoMemory;
use engine::{ConnId, full_bytes, out_of_memory_bytes};
use op_msg::{FrameFault, Head, next_number, respell, spelled_reply};
use std::alloc::Global;

/// The frames that a turn hands out if it is undone for want of memory, the connections that it closes, and for each connection
/// the fault at its front.
#[derive(Drop)]
pub(crate) struct Prepared {
    pub refusals: Vec<(ConnId, Vec<u8>)>,
    pub closed: Vec<(ConnId, FrameFault)>,
    pub faults: Vec<Option<FrameFault>>,
}

/// What the message at the front of an open connection says of itself.
fn head_at(connection: &Connection) -> Result<Option<Head>, FrameFault>
    ensures { result ≡ head_of (front_of connection.now) }
{
    if connection.fault.is_some() {
        return Ok(None);
    }
    connection.frames.head()
}

/// The frame that says that memory ran out. Its body is ready-made, so a turn that goes well pays for a copy and no more.
fn no_memory_frame(alloc: Global, number: u32, request_id: u32) -> Result<Vec<u8>, NoMemory>
    ensures { IfOk result
        (λ v. v.items ≡ reply_bytes number request_id (refusal_reply OutOfMemory)) }
{
    spelled_reply(alloc, number, request_id, out_of_memory_bytes())
}

/// Puts the frame of a refusal at the end, unless no reply is wanted.
fn push_refusal(
    frames: &mut Vec<(ConnId, Vec<u8>)>,
    connection: &Connection,
    head: Head,
) -> Result<(), NoMemory>
    ensures { OnOk result (frames_in frames.new.items ≡ frames_in frames.old.items
        ++ frame_unless head.more_to_come connection.now.id (next_number connection.now.last_reply)
        head.request_id (refusal_reply OutOfMemory)) }
{
    if head.more_to_come {
        return Ok(());
    }
    let alloc = *frames.allocator();
    let frame = no_memory_frame(alloc, next_number(connection.last_reply), head.request_id)?;
    frames.push((connection.id, frame))?;
    Ok(())
}

/// Puts a connection's part at the end: the refusal of the message at its front, or its fault.
fn prepare_connection(prepared: &mut Prepared, connection: &Connection) -> Result<(), NoMemory>
    ensures refusals { OnOk result (frames_in prepared.new.refusals.items
        ≡ frames_in prepared.old.refusals.items
        ++ refused_at OutOfMemory connection.now (front_of connection.now)) }
    ensures closed { OnOk result (prepared.new.closed.items
        ≡ prepared.old.closed.items ++ fault_at connection.now (front_of connection.now)) }
    ensures faults { OnOk result (prepared.new.faults.items
        ≡ prepared.old.faults.items ++ fault_in (front_of connection.now) ∷ []) }
{
    match head_at(connection) {
        Ok(None) => Ok(prepared.faults.push(None)?),
        Ok(Some(head)) => {
            prepared.faults.push(None)?;
            push_refusal(&mut prepared.refusals, connection, head)
        }
        Err(fault) => {
            prepared.faults.push(Some(fault))?;
            Ok(prepared.closed.push((connection.id, fault))?)
        }
    }
}

/// Makes ready what an undone turn hands out, and the lists of what the turn closes.
pub(crate) fn prepare(alloc: Global, connections: &[Connection]) -> Result<Prepared, NoMemory>
    ensures refusals { IfOk result
        (λ p. frames_in p.refusals.items ≡ refused_frames OutOfMemory connections.now) }
    ensures closed { IfOk result (λ p. p.closed.items ≡ faults connections.now) }
    ensures faults { IfOk result (λ p. p.faults.items ≡ faults_in connections.now) }
{
    let mut prepared = Prepared {
        refusals: Vec::new(alloc),
        closed: Vec::new(alloc),
        faults: Vec::new(alloc),
    };
    'connections: for connection in connections {
        prepare_connection(&mut prepared, connection)?;
    }
    Ok(prepared)
}

/// Makes each refusal the one that says that there was no room, which is shorter. It takes no memory.
pub(crate) fn say_full(frames: &mut [(ConnId, Vec<u8>)])
    requires { HaveRoom (frames_in frames.old) }
    ensures { frames_in frames.new ≡ respelled_frames (frames_in frames.old) }
{
    'frames: for (_, frame) in frames.iter_mut() {
        respell(frame, full_bytes());
    }
}
