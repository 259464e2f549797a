//! A connection that is served.

ghost use Rattle.std.specs.Prelude.{◌≡◌, ◌≢◌, ◌<◌, ◌++◌, ◌&&◌, ◌||◌, ◌==◌, [], Ok, true, false, not, length};
ghost use Rattle.sockets.specs.Stream.{IsReadBy, IsFedBy, Sends, has_failed};

use crate::queue::Queue;
use crate::service::Service;
use crate::stream::{Incoming, Outgoing, read_once, send_first, send_waiting};
use std::alloc::Global;
use std::io::{Read, Write};
use std::time::Duration;

/// The most bytes of replies that wait for a connection that doesn't read them.
const MOST_WAITING: usize = 67_108_864;

/// A connection: its stream, and the replies that the stream did not take yet.
#[derive(Drop)]
pub(crate) struct Client<T> {
    pub stream: T,
    pub outbox: Queue,
    // there may be more to read than was read
    pub readable: bool,
    // the stream may take more than was written
    pub writable: bool,
    // the peer sends no more, so reads go on to the end
    pub hung_up: bool,
    // the connection has ended, or is to end
    pub is_over: bool,
    // when bytes came last, or a message waited
    pub heard: Duration,
}

impl<T: Read + Write + Drop> Client<T> {
    /// A connection of which nothing was read or written.
    pub fn new(alloc: Global, stream: T, now: Duration) -> Client<T>
        ensures { result.outbox ≡ [] }
    {
        Client {
            stream,
            outbox: Queue::new(alloc),
            readable: false,
            writable: true,
            hung_up: false,
            is_over: false,
            heard: now,
        }
    }

    /// Something may have come: bytes, an end or a failure.
    pub fn set_readable(&mut self, hung_up: bool)
        ensures { self.new
            ≡ record self.old { readable = true; hung_up = self.old.hung_up || hung_up } }
    {
        self.readable = true;
        self.hung_up |= hung_up;
    }

    /// The stream may take bytes again.
    pub fn set_writable(&mut self)
        ensures { self.new ≡ record self.old { writable = true } }
    {
        self.writable = true;
    }

    /// The connection is to end.
    pub fn end(&mut self)
        ensures { self.new ≡ record self.old { is_over = true } }
    {
        self.is_over = true;
    }

    /// Whether a read is due with no further event: all replies were taken, and more may be there.
    pub fn is_due(&self) -> bool
        ensures { result
            ≡ (self.now.readable && not self.now.is_over && (length self.now.outbox == 0)) }
    {
        self.readable && !self.is_over && self.outbox.is_empty()
    }

    /// Whether a write is due with no further event.
    fn may_send(&self) -> bool {
        !self.is_over && self.writable && !self.outbox.is_empty()
    }

    /// Whether a read or a write is due with no further event.
    pub fn is_busy(&self) -> bool {
        self.is_due() || self.may_send()
    }

    /// Reads once, where a read is due. Where replies wait, nothing is read.
    fn read(&mut self, buffer: &mut [u8]) -> Incoming
        ensures read { IsReadBy result buffer.new (T.remaining self.old.stream)
            (T.remaining self.new.stream) }
        ensures waits { self.old.outbox ≢ []
            → (result ≡ Incoming.Nothing) × (self.new ≡ self.old) }
        ensures outbox { self.new.outbox ≡ self.old.outbox }
        ensures len { length buffer.new ≡ length buffer.old }
    {
        if !self.is_due() {
            return Incoming::Nothing;
        }
        let incoming = read_once(&mut self.stream, buffer);
        match incoming {
            // A read of less than was asked took all there was.
            Incoming::Bytes(count) => self.readable = count == buffer.len() || self.hung_up,
            Incoming::Nothing => self.readable = false,
            Incoming::Interrupted => {}
            Incoming::Ended => self.is_over = true,
        }
        incoming
    }

    /// Reads once, where a read is due, and hands what came to the service.
    pub fn hand_on<S: Service>(
        &mut self,
        connection: usize,
        buffer: &mut [u8],
        service: &mut S,
    ) -> Incoming
        requires number { connection < S.PLACES }
        requires sound { S.is_sound service.old }
        ensures sound { S.is_sound service.new }
        ensures fed { IsFedBy S.is_fed connection result buffer.new service.old service.new
            (T.remaining self.old.stream) (T.remaining self.new.stream) }
        ensures waits { self.old.outbox ≢ []
            → (self.new ≡ self.old) × (service.new ≡ service.old) }
        ensures outbox { self.new.outbox ≡ self.old.outbox }
        ensures len { length buffer.new ≡ length buffer.old }
    {
        let incoming = self.read(buffer);
        if let Incoming::Bytes(count) = incoming {
            if service.take_bytes(connection, &buffer[..count]).is_err() {
                self.is_over = true;
                return Incoming::Ended;
            }
        }
        incoming
    }

    /// What a write did, for the next one.
    fn note_write(&mut self, outgoing: Outgoing)
        ensures stream { self.new.stream ≡ self.old.stream }
        ensures outbox { self.new.outbox ≡ self.old.outbox }
        ensures over { self.new.is_over ≡ (self.old.is_over || has_failed outgoing) }
    {
        match outgoing {
            // A write that took less than it was given has filled the socket.
            Outgoing::Bytes(_) => self.writable = self.outbox.is_empty(),
            Outgoing::Full => self.writable = false,
            Outgoing::Interrupted => {}
            Outgoing::Failed => self.is_over = true,
        }
    }

    /// Writes what waits once, where the stream may take some.
    pub fn flush(&mut self)
        ensures { self.new.is_over ≡ false → Sends self.old.outbox self.new.outbox
            (T.contents self.old.stream) (T.contents self.new.stream) }
    {
        if !self.may_send() {
            return;
        }
        let outgoing = send_waiting(&mut self.stream, &mut self.outbox);
        self.note_write(outgoing);
    }

    /// Writes a reply, or has it wait behind those that do.
    pub fn reply(&mut self, frame: &[u8])
        ensures { self.new.is_over ≡ false → Sends (self.old.outbox ++ frame.now) self.new.outbox
            (T.contents self.old.stream) (T.contents self.new.stream) }
    {
        if self.writable && self.outbox.is_empty() {
            let outgoing = send_first(&mut self.stream, &mut self.outbox, frame);
            self.note_write(outgoing);
        } else if self.outbox.waiting().len() > MOST_WAITING || self.outbox.put(frame).is_err() {
            self.is_over = true;
        }
    }
}
