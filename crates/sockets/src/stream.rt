//! One read and one write of a stream that never waits.

ghost use Rattle.std.specs.Prelude.{◌≡◌, [], length};
ghost use Rattle.sockets.specs.Stream.{IsReadBy, IsWrittenBy, IsSentBy};

use crate::queue::Queue;
use std::io::{ErrorKind, Read, Write};

/// What one read did.
#[derive(Clone, Copy, Debug, PartialEq, Eq)]
pub(crate) enum Incoming {
    /// It gave so many bytes, at least one.
    Bytes(usize),
    /// There is nothing for now.
    Nothing,
    /// A signal came before anything was read.
    Interrupted,
    /// It found the end, or failed, or what it gave was not taken.
    Ended,
}

/// Reads once.
pub(crate) fn read_once<R: Read>(stream: &mut R, buffer: &mut [u8]) -> Incoming
    ensures read { IsReadBy result buffer.new (R.remaining stream.old) (R.remaining stream.new) }
    ensures len { length buffer.new ≡ length buffer.old }
{
    match stream.read(buffer) {
        Ok(0) => Incoming::Ended,
        Ok(count) => Incoming::Bytes(count),
        Err(error) => match error.kind() {
            ErrorKind::WouldBlock => Incoming::Nothing,
            ErrorKind::Interrupted => Incoming::Interrupted,
            _ => Incoming::Ended,
        },
    }
}

/// What one write did.
#[derive(Clone, Copy, Debug, PartialEq, Eq)]
pub(crate) enum Outgoing {
    /// So many bytes were taken.
    Bytes(usize),
    /// Nothing is taken for now.
    Full,
    /// A signal came before anything was written.
    Interrupted,
    /// It failed, or there was no memory for what was not taken.
    Failed,
}

/// Writes once.
fn write_once<W: Write>(stream: &mut W, bytes: &[u8]) -> Outgoing
    ensures { IsWrittenBy result bytes.now (W.contents stream.old) (W.contents stream.new) }
{
    match stream.write(bytes) {
        Ok(count) => Outgoing::Bytes(count),
        Err(error) => match error.kind() {
            ErrorKind::WouldBlock => Outgoing::Full,
            ErrorKind::Interrupted => Outgoing::Interrupted,
            _ => Outgoing::Failed,
        },
    }
}

/// Writes once of what waits, and takes away what was taken.
pub(crate) fn send_waiting<W: Write>(stream: &mut W, outbox: &mut Queue) -> Outgoing
    ensures { IsSentBy result outbox.old outbox.new (W.contents stream.old) (W.contents stream.new) }
{
    let outgoing = write_once(stream, outbox.waiting());
    if let Outgoing::Bytes(count) = outgoing {
        outbox.advance(count);
    }
    outgoing
}

/// Writes bytes once, where nothing waits. What is not taken waits from now on.
pub(crate) fn send_first<W: Write>(stream: &mut W, outbox: &mut Queue, bytes: &[u8]) -> Outgoing
    requires { outbox.old ≡ [] }
    ensures { IsSentBy result bytes.now outbox.new (W.contents stream.old) (W.contents stream.new) }
{
    let outgoing = write_once(stream, bytes);
    let rest = match outgoing {
        Outgoing::Bytes(count) => &bytes[count..],
        Outgoing::Full | Outgoing::Interrupted => bytes,
        Outgoing::Failed => return Outgoing::Failed,
    };
    if !rest.is_empty() && outbox.put(rest).is_err() {
        return Outgoing::Failed;
    }
    outgoing
}
