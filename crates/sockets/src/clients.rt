//! The connections, and what is ready of them.

ghost use Rattle.std.specs.Prelude.{◌≡◌, ◌≤◌};

use crate::client::Client;
use crate::service::{ServeFault, Service};
use crate::table::Table;
use mio::event::Event;
use mio::net::{TcpListener as Listener, TcpStream};
use mio::{Events, Interest, Poll, Token};
use std::alloc::Global;
use std::io;
use std::io::ErrorKind;
use std::net::{Net, TcpListener};
use std::time::Duration;

/// The most bytes of one read.
const READ_BYTES: usize = 65_536;

/// What is known of the connections that no one accepted.
#[derive(Clone, Copy, Debug, PartialEq, Eq)]
pub(crate) enum Backlog {
    /// There are none, until the listener is ready again.
    Empty,
    /// There may be some.
    More,
    /// The system gave none, as for want of descriptors.
    Refused,
}

/// The token of the listener. A connection's is its number.
fn listener_token<S: Service>() -> Token {
    Token(S::PLACES)
}

/// The connections, and what tells when they are ready.
#[derive(Drop)]
pub(crate) struct Clients<S: Service> {
    alloc: Global,
    poll: Poll,
    events: Events,
    pub table: Table<TcpStream, S>,
    buffer: Vec<u8>,
}

impl<S: Service> Clients<S> {
    /// So many free places.
    pub fn new(net: &impl Net, alloc: Global, count: usize) -> io::Result<Clients<S>>
        requires { count ≤ S.PLACES }
    {
        Ok(Clients {
            alloc,
            buffer: Vec::from_elem(alloc, 0, READ_BYTES)?,
            events: Events::with_capacity(alloc, S::PLACES.saturating_add(1))?,
            poll: Poll::new(net)?,
            table: Table::new(alloc, count)?,
        })
    }

    /// Gives a connection the least free number, where there is one.
    fn admit(&mut self, mut stream: TcpStream) -> io::Result<()> {
        let Some(connection) = self.table.least_free() else {
            return Ok(());
        };
        let interest = Interest::READABLE | Interest::WRITABLE;
        stream.set_nodelay(true)?;
        self.poll
            .registry()
            .register(&mut stream, Token(connection), interest)?;
        let client = Client::new(self.alloc, stream, self.table.time);
        self.table.open(connection, client);
        Ok(())
    }

    /// Accepts one connection, and waits for it.
    pub fn accept_one(&mut self, listener: &TcpListener) -> io::Result<()> {
        let (stream, _) = listener.accept()?;
        stream.set_nonblocking(true)?;
        self.admit(TcpStream::from_std(stream))
    }

    /// A listener whose connections are accepted as they come.
    pub fn watch(&self, listener: TcpListener) -> io::Result<Listener> {
        listener.set_nonblocking(true)?;
        let mut listener = Listener::from_std(listener);
        self.poll
            .registry()
            .register(&mut listener, listener_token::<S>(), Interest::READABLE)?;
        Ok(listener)
    }

    /// Accepts what waits, as far as numbers are free. A connection that can't be watched is dropped.
    pub fn accept(&mut self, listener: &Listener) -> Backlog {
        for _ in 0..S::PLACES {
            if !self.table.has_room() {
                return Backlog::More;
            }
            match listener.accept() {
                Ok((stream, _)) => {
                    let _ = self.admit(stream);
                }
                Err(error) => match error.kind() {
                    ErrorKind::WouldBlock => return Backlog::Empty,
                    ErrorKind::Interrupted | ErrorKind::ConnectionAborted => {}
                    _ => return Backlog::Refused,
                },
            }
        }
        Backlog::More
    }

    /// Waits until something is ready, at most for so long. Whether a connection may be there to be accepted.
    pub fn wait(&mut self, limit: Option<Duration>) -> io::Result<bool> {
        self.poll.poll(&mut self.events, limit)?;
        let mut accepts = false;
        for event in &self.events {
            if event.token() == listener_token::<S>() {
                accepts = true;
            } else if let Some(client) = self.table.told_of(event.token().0) {
                note(client, event);
            }
        }
        Ok(accepts)
    }

    /// One round over what is ready: it writes what waits, reads, makes a turn where a message waits for one, and forgets
    /// the connections that are over. Whether it made a turn.
    pub fn round(&mut self, service: &mut S) -> Result<bool, ServeFault>
        requires sound { S.is_sound service.old }
        ensures sound { S.is_sound service.new }
    {
        self.table.flush();
        self.table.read(&mut self.buffer, service);
        let turns = self.table.has_messages(service);
        if turns && service.answer(&mut self.table).is_err() {
            return Err(ServeFault::Stopped);
        }
        self.table.settle(service);
        Ok(turns)
    }
}

/// Notes what an event says of a connection.
fn note(client: &mut Client<TcpStream>, event: &Event) {
    if event.is_readable() || event.is_read_closed() || event.is_error() {
        client.set_readable(event.is_read_closed());
    }
    if event.is_writable() || event.is_write_closed() {
        client.set_writable();
    }
}
