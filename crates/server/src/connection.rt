//! A connection: its unread bytes, and what a turn takes of them.

ghost use Rattle.std.specs.Prelude.{◌≡◌, ◌≢◌, ◌<◌, ◌≤◌, Err, OnErr, MatchResult, is_err, length};
ghost use Rattle.server.specs.ServerState.{feed_connections, drop_connection, find_connection, is_closed_in, place_in};
ghost use Rattle.server.specs.Faults.{feed_fault_name};
ghost use Rattle.server.specs.Taking.{IsTaken, closed_by, closed_connections, fault_beside};
ghost use Rattle.server.specs.Turn.{is_waiting_in, front_of};
ghost use Rattle.op_msg.specs.ReplyNumbers.{next_number};

use engine::ConnId;
use op_msg::{FrameFault, Frames, Request, next_number};
use std::cmp::Ordering;

/// What came on a connection and was not taken, the number of the last reply, and the fault that closed it.
#[derive(Drop)]
pub struct Connection {
    pub id: ConnId,
    pub frames: Frames,
    pub last_reply: u32,
    pub fault: Option<FrameFault>,
}

/// Why bytes were not taken.
#[derive(Clone, Copy, Debug, PartialEq, Eq)]
pub enum FeedFault {
    /// Memory ran out. Nothing changed.
    Memory = 1,
    /// A fault of a frame closed the connection, and it has not ended. The bytes are passed over.
    Closed,
}

impl FeedFault {
    /// The name of the fault, as programs print it.
    pub fn name(self) -> &'static str
        ensures { result.now ≡ feed_fault_name self }
    {
        match self {
            FeedFault::Memory => "Memory",
            FeedFault::Closed => "Closed",
        }
    }
}

/// Where the connection stands, or would stand.
fn place_of(connections: &[Connection], id: ConnId) -> Result<usize, usize>
    ensures place { result ≡ place_in connections.now id }
    ensures within { MatchResult result (λ i. i < length connections.now)
        (λ i. i ≤ length connections.now) }
{
    'connections: for (i, connection) in connections.iter().enumerate() {
        match id.number().cmp(&connection.id.number()) {
            Ordering::Less => return Err(i),
            Ordering::Equal => return Ok(i),
            Ordering::Greater => {}
        }
    }
    Err(connections.len())
}

/// Bytes came on a connection. The first ones open it.
pub(crate) fn feed_connection(
    connections: &mut Vec<Connection>,
    id: ConnId,
    bytes: &[u8],
) -> Result<(), FeedFault>
    ensures fed { result ≢ Err FeedFault.Memory
        → connections.new.items ≡ feed_connections connections.old.items id bytes.now }
    ensures closed { result ≢ Err FeedFault.Memory
        → is_err result ≡ is_closed_in (find_connection connections.old.items id) }
    ensures err { OnErr result (connections.new.items ≡ connections.old.items) }
{
    match place_of(connections, id) {
        Ok(i) => {
            let connection = &mut connections[i];
            if connection.fault.is_some() {
                return Err(FeedFault::Closed);
            }
            match connection.frames.feed(bytes) {
                Ok(()) => Ok(()),
                Err(_) => Err(FeedFault::Memory),
            }
        }
        Err(i) => {
            let mut frames = Frames::new(*connections.allocator());
            if frames.feed(bytes).is_err() {
                return Err(FeedFault::Memory);
            }
            let connection = Connection {
                id,
                frames,
                last_reply: 0,
                fault: None,
            };
            if connections.insert(i, connection).is_err() {
                return Err(FeedFault::Memory);
            }
            Ok(())
        }
    }
}

/// A connection ended.
pub(crate) fn end_connection(connections: &mut Vec<Connection>, id: ConnId)
    ensures { connections.new.items ≡ drop_connection connections.old.items id }
{
    if let Ok(i) = place_of(connections, id) {
        let _ended = connections.remove(i);
    }
}

/// A whole message or a fault stands at the front of an open connection.
pub(crate) fn waits(connections: &[Connection], id: ConnId) -> bool
    ensures { result ≡ is_waiting_in (find_connection connections.now id) }
{
    match place_of(connections, id) {
        Ok(i) => connections[i].fault.is_none() && connections[i].frames.waiting(),
        Err(_) => false,
    }
}

/// What a turn takes from a connection: a message, with the number of its reply.
#[derive(Drop)]
pub(crate) enum Taken {
    Nothing,
    Call(u32, Request),
}

/// Takes the message at the front of an open connection, with the number of its reply. A fault stays where it is.
pub(crate) fn take_call(connection: &mut Connection) -> Taken
    ensures taken { IsTaken connection.old (front_of connection.old) result connection.new }
    ensures id { connection.new.id ≡ connection.old.id }
{
    if connection.fault.is_some() {
        return Taken::Nothing;
    }
    match connection.frames.next() {
        Ok(None) => Taken::Nothing,
        Ok(Some(request)) => {
            let number = next_number(connection.last_reply);
            if !request.more_to_come {
                connection.last_reply = number;
            }
            Taken::Call(number, request)
        }
        Err(_) => Taken::Nothing,
    }
}

/// The fault that stands beside a connection, if one does.
fn fault_beside(faults: &[Option<FrameFault>], i: usize) -> Option<FrameFault>
    ensures { result ≡ fault_beside faults.now i }
{
    match faults.get(i) {
        Some(fault) => *fault,
        None => None,
    }
}

/// Closes a connection, where there is a fault.
fn close_connection(connection: &mut Connection, fault: Option<FrameFault>)
    ensures { connection.new ≡ closed_by connection.old fault }
{
    if fault.is_some() {
        connection.fault = fault;
    }
}

/// Closes each connection that has a fault beside it.
pub(crate) fn close_connections(connections: &mut [Connection], faults: &[Option<FrameFault>])
    ensures { connections.new ≡ closed_connections connections.old faults.now }
{
    'connections: for (i, connection) in connections.iter_mut().enumerate() {
        close_connection(connection, fault_beside(faults, i));
    }
}
