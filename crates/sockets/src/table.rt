//! The connections by their numbers.

ghost use Rattle.std.specs.Prelude.{◌≡◌, ◌<◌, ◌≤◌, length, None, false, true, IfOk, IfSome};
ghost use Rattle.sockets.specs.Places.{IsGivenAt, closed_at, is_over_in};

use crate::client::Client;
use crate::marks::Marks;
use crate::service::{Outlet, Service};
use crate::stream::Incoming;
use std::alloc::{AllocError, Global};
use std::io::{Read, Write};
use std::marker::PhantomData;
use std::time::Duration;

/// The connections, each at the place of its number, and no more than the service has numbers for. A free place has nothing of
/// the connection that had it before.
#[derive(Drop)]
pub(crate) struct Table<T, S: Service> {
    pub places: Vec<Option<Client<T>>>,
    // those with which there is something to do: a read, a write, a turn or an end
    busy: Marks,
    // the time of the round
    pub time: Duration,
    // whose numbers they are
    pub numbers: PhantomData<S>,
    ghost few: { length places.items ≤ S.PLACES },
}

impl<T: Read + Write + Drop, S: Service> Table<T, S> {
    /// So many free places.
    pub fn new(alloc: Global, count: usize) -> Result<Table<T, S>, AllocError>
        requires { count ≤ S.PLACES }
    {
        Ok(Table {
            busy: Marks::new(alloc, count)?,
            places: free_places(alloc, count)?,
            time: Duration::ZERO,
            numbers: PhantomData,
        })
    }

    /// The least free number.
    pub fn least_free(&self) -> Option<usize>
        ensures { IfSome result (λ i. i < length self.now.places.items) }
    {
        self.places.iter().position(|place| place.is_none())
    }

    /// Whether a number is free.
    pub fn has_room(&self) -> bool {
        self.places.iter().any(|place| place.is_none())
    }

    /// Whether no connection is open.
    pub fn is_empty(&self) -> bool {
        self.places.iter().all(|place| place.is_none())
    }

    /// Gives a connection a number.
    pub fn open(&mut self, connection: usize, client: Client<T>)
        requires { connection < length self.old.places.items }
    {
        self.places[connection] = Some(client);
        self.busy.set(connection);
    }

    /// The connection that has the number, of which something has come to be known.
    pub fn told_of(&mut self, connection: usize) -> Option<&mut Client<T>> {
        self.busy.set(connection);
        match self.places.get_mut(connection) {
            Some(Some(client)) => Some(client),
            _ => None,
        }
    }

    /// Whether there is something to do without a further event: a read, a write, a turn or an end.
    pub fn is_busy(&self) -> bool {
        self.busy.has_any()
    }

    /// The next connection from this number on with which there is something to do.
    fn next_busy(&self, from: usize) -> Option<usize>
        ensures { IfSome result (λ i. i < length self.now.places.items) }
    {
        let connection = self.busy.next(from)?;
        if self.places.len() <= connection {
            return None;
        }
        Some(connection)
    }

    /// Whether a message of some connection waits for a turn.
    pub fn has_messages(&self, service: &S) -> bool {
        let mut from = 0;
        for _ in 0..self.places.len() {
            let Some(connection) = self.next_busy(from) else {
                return false;
            };
            if self.places[connection].is_some() && service.has_message(connection) {
                return true;
            }
            from = connection + 1;
        }
        false
    }

    /// Writes what waits, as far as the streams take it.
    pub fn flush(&mut self) {
        let mut from = 0;
        for _ in 0..self.places.len() {
            let Some(connection) = self.next_busy(from) else {
                return;
            };
            if let Some(client) = &mut self.places[connection] {
                client.flush();
            }
            from = connection + 1;
        }
    }

    /// Reads once from each connection of which no message and no reply waits, in rising number.
    pub fn read(&mut self, buffer: &mut [u8], service: &mut S)
        requires sound { S.is_sound service.old }
        ensures sound { S.is_sound service.new }
    {
        let now = self.time;
        let mut from = 0;
        for _ in 0..self.places.len() {
            let Some(connection) = self.next_busy(from) else {
                return;
            };
            let place = &mut self.places[connection];
            read_place(place, connection, buffer, service, now);
            from = connection + 1;
        }
    }

    /// Ends the connections of which nothing has come for so long.
    pub fn end_idle(&mut self, limit: Duration) {
        let now = self.time;
        for (connection, place) in self.places.iter_mut().enumerate() {
            if let Some(client) = place {
                if now.saturating_sub(client.heard) >= limit {
                    client.end();
                    self.busy.set(connection);
                }
            }
        }
    }

    /// How long until the first connection has been silent for so long.
    pub fn until_idle(&self, limit: Duration) -> Duration {
        let mut least = limit;
        for place in &self.places {
            if let Some(client) = place {
                let silent = self.time.saturating_sub(client.heard);
                least = least.min(limit.saturating_sub(silent));
            }
        }
        least
    }

    /// Forgets the connections that are over, whose numbers are free, and passes over those with which there is nothing to do from now
    /// on, until something is known of them.
    pub fn settle(&mut self, service: &mut S)
        requires sound { S.is_sound service.old }
        ensures sound { S.is_sound service.new }
    {
        let mut from = 0;
        for _ in 0..self.places.len() {
            let Some(connection) = self.next_busy(from) else {
                return;
            };
            let place = &mut self.places[connection];
            settle_place(place, connection, service);
            if !is_busy(place, connection, service) {
                self.busy.clear(connection);
            }
            from = connection + 1;
        }
    }

    /// Ends all connections.
    pub fn end_all(&mut self) {
        for (connection, place) in self.places.iter_mut().enumerate() {
            if let Some(client) = place {
                client.end();
                self.busy.set(connection);
            }
        }
    }
}

impl<T: Read + Write + Drop, S: Service> Outlet for Table<T, S> {
    ghost use Rattle.sockets.specs.Places.{IsGiven, IsClosed};

    ghost is_given = { λ old i frame new. IsGiven T.contents old.places.items i frame
        new.places.items };

    ghost is_closed = { λ old i new. IsClosed old.places.items i new.places.items };

    fn reply(&mut self, connection: usize, frame: &[u8]) {
        let now = self.time;
        if connection < self.places.len() {
            reply_at(&mut self.places[connection], frame, now);
            self.busy.set(connection);
        }
    }

    fn close(&mut self, connection: usize) {
        if connection < self.places.len() {
            close_at(&mut self.places[connection]);
            self.busy.set(connection);
        }
    }
}

/// Replies to the connection at a place.
fn reply_at<T: Read + Write + Drop>(place: &mut Option<Client<T>>, frame: &[u8], now: Duration)
    ensures { IsGivenAt T.contents place.old frame.now place.new }
{
    if let Some(client) = place {
        client.heard = now;
        client.reply(frame);
    }
}

/// Ends the connection at a place.
fn close_at<T: Read + Write + Drop>(place: &mut Option<Client<T>>)
    ensures { place.new ≡ closed_at place.old }
{
    if let Some(client) = place {
        client.end();
    }
}

/// So many free places.
fn free_places<T: Drop>(alloc: Global, count: usize) -> Result<Vec<Option<Client<T>>>, AllocError>
    ensures { IfOk result (λ places. length places.items ≡ count) }
{
    let mut places = Vec::with_capacity(alloc, count)?;
    for _ in 0..count {
        places.push(None)?;
    }
    Ok(places)
}

/// Reads once from the connection at a place, where neither a message nor a reply of it waits.
fn read_place<T: Read + Write + Drop, S: Service>(
    place: &mut Option<Client<T>>,
    connection: usize,
    buffer: &mut [u8],
    service: &mut S,
    now: Duration,
)
    requires number { connection < S.PLACES }
    requires sound { S.is_sound service.old }
    ensures sound { S.is_sound service.new }
{
    let Some(client) = place else {
        return;
    };
    if !client.is_due() || service.has_message(connection) {
        return;
    }
    if let Incoming::Bytes(_) = client.hand_on(connection, buffer, service) {
        client.heard = now;
    }
}

/// Forgets the connection at a place, where it is over: the service forgets it too, before the number is given anew.
fn settle_place<T: Read + Write + Drop, S: Service>(
    place: &mut Option<Client<T>>,
    connection: usize,
    service: &mut S,
)
    requires number { connection < S.PLACES }
    requires sound { S.is_sound service.old }
    ensures sound { S.is_sound service.new }
    ensures over { is_over_in place.old ≡ true
        → (place.new ≡ None) × S.is_ended service.old connection service.new }
    ensures open { is_over_in place.old ≡ false
        → (place.new ≡ place.old) × (service.new ≡ service.old) }
{
    let Some(client) = place else {
        return;
    };
    if client.is_over {
        service.forget(connection);
        *place = None;
    }
}

/// Whether there is something to do with the connection at a place without a further event.
fn is_busy<T: Read + Write + Drop, S: Service>(
    place: &Option<Client<T>>,
    connection: usize,
    service: &S,
) -> bool
    requires number { connection < S.PLACES }
{
    match place {
        Some(client) => client.is_busy() || service.has_message(connection),
        None => false,
    }
}
