//! What is done with a reply of the server: it is noted which cursor is open, and the message that asked goes on.

ghost use Rattle.std.specs.Prelude.{◌≡◌, drop, Ok, IfOk, OnOk, OnErr};
ghost use Rattle.op_msg.specs.Request.{document_in};
ghost use Rattle.driver_sockets.specs.Alone.{GoesOnAlone};
ghost use Rattle.driver_sockets.specs.Replying.{closed, Becomes, IsClosed, TakesReply};
ghost use Rattle.driver_sockets.specs.Serving.{OthersStay};

use crate::lending::Loan;
use crate::open_cursors::{OpenCursor, OpenCursors};
use crate::socket::Socket;
use bson::{Document, NoMemory, Text, Value};
use bson_bytes::decode;
use drivers::cursor_left;
use op_msg::FRAME_BYTES;
use replies::ConnId;
use std::alloc::{AllocError, Global};

/// The document of a reply of the server.
fn document_of(alloc: Global, frame: &[u8]) -> Result<Document, NoMemory>
    ensures { IfOk result (λ d. document_in (drop 21 frame.now) ≡ Ok d) }
{
    let Some(body) = frame.get(FRAME_BYTES as usize..) else {
        return Err(AllocError);
    };
    match decode(alloc, body) {
        Ok((document, _)) => Ok(document),
        Err(_) => Err(AllocError),
    }
}

/// The database and the collection that a reply's cursor is about.
fn namespace_of(reply: &Document) -> Option<(&str, &str)> {
    let Some(Value::Document(cursor)) = reply.get("cursor") else {
        return None;
    };
    match cursor.get("ns") {
        Some(Value::String(namespace)) => namespace.as_str().split_once('.'),
        _ => None,
    }
}

/// Whether a reply says that the cursor of a command has ended, or is not there.
fn has_ended(reply: &Document) -> bool {
    match reply.get("code") {
        Some(Value::Int32(code)) => *code == 43,
        _ => reply.get("cursorsKilled").is_some() || reply.get("cursor").is_some(),
    }
}

/// Notes the cursor that a reply leaves open, where it is a new one.
fn note_cursor(
    alloc: Global,
    cursors: &mut OpenCursors,
    owner: ConnId,
    opener: Option<usize>,
    reply: &Document,
) -> Result<(), NoMemory> {
    let Some(id) = cursor_left(reply) else {
        return Ok(());
    };
    if cursors.owner_of(id).is_some() {
        return Ok(());
    }
    let (database, collection) = namespace_of(reply).unwrap_or(("", ""));
    cursors.open(OpenCursor {
        id,
        owner,
        opener,
        database: Text::from_str(alloc, database)?,
        collection: Text::from_str(alloc, collection)?,
    })
}

/// The document of what the server has replied on a connection that was lent, once it is noted which cursor
/// has ended by it and which was opened. An `Err`: memory ran out, or no document stands in the frame.
pub fn read_reply(
    alloc: Global,
    cursors: &mut OpenCursors,
    owner: ConnId,
    loan: Loan,
    frame: &[u8],
) -> Result<Document, NoMemory>
    ensures { IfOk result (λ d. document_in (drop 21 frame.now) ≡ Ok d) }
{
    let reply = document_of(alloc, frame)?;
    if let Some(asked) = loan.cursor {
        if has_ended(&reply) && cursor_left(&reply) != Some(asked) {
            cursors.end(asked);
        }
    }
    note_cursor(alloc, cursors, owner, loan.socket, &reply)?;
    Ok(reply)
}

/// The message that a connection was lent to goes on with the reply, if its socket is still there. Where
/// memory runs out for it, the socket is closed.
pub fn go_on(
    alloc: Global,
    sockets: &mut [Socket],
    loan: Loan,
    reply: Document,
) -> Result<(), NoMemory>
    ensures others { OthersStay sockets.old loan.socket sockets.new }
    ensures alone { GoesOnAlone sockets.old loan.socket sockets.new }
    ensures takes { OnOk result (Becomes sockets.old loan.socket
        (λ s t. TakesReply s s.job reply t) sockets.new) }
    ensures closes { OnErr result (Becomes sockets.old loan.socket IsClosed sockets.new) }
{
    let Some(number) = loan.socket else {
        return Ok(());
    };
    if number < sockets.len() {
        return sockets[number].take_reply(alloc, reply);
    }
    Ok(())
}

/// The socket that a connection was lent to is closed, if it is still there.
pub fn give_up(sockets: &mut [Socket], loan: Loan)
    ensures others { OthersStay sockets.old loan.socket sockets.new }
    ensures alone { GoesOnAlone sockets.old loan.socket sockets.new }
    ensures closes { Becomes sockets.old loan.socket (λ s t. t ≡ closed s) sockets.new }
{
    let Some(number) = loan.socket else {
        return;
    };
    if number < sockets.len() {
        sockets[number].is_over = true;
    }
}
