//! Sockets of drivers before a server.

ghost use Rattle.std.specs.Prelude.{◌≡◌, ◌+◌, ◌<◌, ◌^◌, [], OnOk, true, false, None, Some, length, map};
ghost use Rattle.sockets.specs.Handing.{Hands, Closes};
ghost use Rattle.server.specs.Durable.{is_stopped, IsSound};
ghost use Rattle.server.specs.View.{frames_in, state};
ghost use Rattle.driver_sockets.specs.Alone.{IsNobodyAlone, NobodyBetween, StandsAlone};
ghost use Rattle.driver_sockets.specs.Serving.{answered, OthersStay};
ghost use Rattle.driver_sockets.specs.Tying.{AreTied};
ghost use Rattle.front.specs.Fronting.{frame_to, answers_from, closing, closed_from};
ghost use Rattle.front.specs.Rounds.{EndsSome, MakesTurn, OnlyTakes, TakesEach, floor};
ghost use Rattle.front.specs.Turning.{desk, AsksAlone, AsksInTurn, ServesOne};
ghost use Rattle.front.specs.Unread.{AreAtRest, HasTurned, HaveReplies, IsBehind};

use crate::serving::{end_cursor, serve_socket, take_reply};
use driver_sockets::{Lending, OpenCursors, Socket, grow, next_info};
use engine::ConnId;
use page::Disk;
use server::{Core, TurnFault};
use sockets::{NotTaken, Outlet, Service, Stopped};
use std::mem;
use std::rt::Clock;

/// How many sockets there are.
const PLACES: usize = 1_024;
/// The most cursors that a turn ends of sockets that have ended, so that connections are left for messages.
const MOST_ENDS: u8 = 16;
/// How many object ids go by in a millisecond, so that a server that is started again begins behind those that it gave.
const IDS_A_MILLISECOND: u64 = 4_194_304;

/// A server with up to 1,024 sockets of drivers before its 64 connections.
pub struct Front<C: Clock, D: Disk> {
    clock: C,
    core: Core<D>,
    // as many as there were at a time
    sockets: Vec<Socket>,
    lending: Lending,
    cursors: OpenCursors,
    // the socket that is served first in the next turn
    first: usize,
    // the socket during whose message nobody else may ask
    alone: Option<usize>,
    // where the object ids of the next message begin
    next_id: u64,
}

// (written out, so that no crate above proves again that the parts are let go)
impl<C: Clock + Drop, D: Disk + Drop> Drop for Front<C, D> {
    fn drop(self) {
        let Front {
            clock: _,
            core: _,
            sockets: _,
            lending: _,
            cursors: _,
            first: _,
            alone: _,
            next_id: _,
        } = self;
    }
}

impl<C: Clock + Drop, D: Disk + Drop> Front<C, D> {
    /// A front of a server that has no connection yet.
    pub fn new(clock: C, core: Core<D>) -> Front<C, D>
        requires sound { IsSound D.history core }
        requires fresh { (state core).connections ≡ [] }
        ensures sound { IsBehind D.history result.lending.loans result.core }
        ensures tied { AreTied result.lending.loans result.sockets.items }
        ensures stands { StandsAlone result.alone result.sockets.items }
    {
        let alloc = core.allocator();
        let next_id = first_id(&clock);
        Front {
            clock,
            core,
            sockets: Vec::new(alloc),
            lending: Lending::new(),
            cursors: OpenCursors::new(alloc),
            first: 0,
            alone: None,
            next_id,
        }
    }

    /// The milliseconds since 1970.
    fn time(&self) -> u64
        ensures { result < 2 ^ 63 }
    {
        match self.clock.since_1970() {
            Ok(time) => milliseconds(time.as_millis()),
            Err(_) => 0,
        }
    }

    /// Does what can be done of a socket, where no other one's message is one during which nobody else may ask. Whether others may
    /// still ask in this turn.
    fn ask_one(&mut self, number: usize, time: u64) -> bool
        requires time { time < 2 ^ 63 }
        requires sound { IsBehind D.history self.old.lending.loans self.old.core }
        requires tied { AreTied self.old.lending.loans self.old.sockets.items }
        requires inside { number < length self.old.sockets.items }
        requires free { self.old.alone ≡ None }
        requires stands { StandsAlone (Some number) self.old.sockets.items }
        ensures sound { IsBehind D.history self.new.lending.loans self.new.core }
        ensures tied { AreTied self.new.lending.loans self.new.sockets.items }
        ensures stands { StandsAlone self.new.alone self.new.sockets.items }
        ensures between { NobodyBetween self.old.lending.loans self.old.sockets.items
            self.new.lending.loans self.new.sockets.items }
        ensures free { result ≡ true → self.new.alone ≡ None }
        ensures running { is_stopped self.new.core ≡ is_stopped self.old.core }
        ensures others { OthersStay self.old.sockets.items (Some number) self.new.sockets.items }
        ensures alone { result ≡ false → AsksAlone self.new.sockets.items number }
        ensures first { self.new.first ≡ self.old.first }
        ensures serves { ServesOne self.old.sockets.items self.new.sockets.items time number
            (desk self.old) (desk self.new) }
    {
        let info = next_info(&mut self.next_id, number, time);
        let socket = &mut self.sockets[number];
        let _served = serve_socket(
            &mut self.core,
            &mut self.lending,
            &self.cursors,
            number,
            &info,
            socket,
        );
        if self.sockets[number].asks_alone() {
            self.alone = Some(number);
            return false;
        }
        true
    }

    /// Goes on with the message during which nobody else may ask. Whether there is one.
    fn ask_alone(&mut self, time: u64) -> bool
        requires time { time < 2 ^ 63 }
        requires sound { IsBehind D.history self.old.lending.loans self.old.core }
        requires tied { AreTied self.old.lending.loans self.old.sockets.items }
        requires stands { StandsAlone self.old.alone self.old.sockets.items }
        ensures sound { IsBehind D.history self.new.lending.loans self.new.core }
        ensures tied { AreTied self.new.lending.loans self.new.sockets.items }
        ensures stands { StandsAlone self.new.alone self.new.sockets.items }
        ensures between { NobodyBetween self.old.lending.loans self.old.sockets.items
            self.new.lending.loans self.new.sockets.items }
        ensures none { result ≡ false → IsNobodyAlone self.old.sockets.items self.new.alone
            self.new.sockets.items }
        ensures same { result ≡ false → desk self.new ≡ desk self.old }
        ensures first { self.new.first ≡ self.old.first }
        ensures running { is_stopped self.new.core ≡ is_stopped self.old.core }
        ensures asks { result ≡ true → AsksInTurn self.old.sockets.items self.new.sockets.items
            self.old.first self.new.first (desk self.old) (desk self.new) }
    {
        let Some(number) = self.alone.take() else {
            return false;
        };
        if self.sockets.len() <= number {
            return false;
        }
        if !self.sockets[number].asks_alone() {
            return false;
        }
        let _others_may = self.ask_one(number, time);
        true
    }

    /// Takes messages of sockets, each in its turn, and asks the server what they want to know, as far as connections are at rest.
    fn ask_all(&mut self)
        requires sound { IsBehind D.history self.old.lending.loans self.old.core }
        requires tied { AreTied self.old.lending.loans self.old.sockets.items }
        requires stands { StandsAlone self.old.alone self.old.sockets.items }
        ensures sound { IsBehind D.history self.new.lending.loans self.new.core }
        ensures tied { AreTied self.new.lending.loans self.new.sockets.items }
        ensures stands { StandsAlone self.new.alone self.new.sockets.items }
        ensures between { NobodyBetween self.old.lending.loans self.old.sockets.items
            self.new.lending.loans self.new.sockets.items }
        ensures running { is_stopped self.new.core ≡ is_stopped self.old.core }
        ensures asks { AsksInTurn self.old.sockets.items self.new.sockets.items self.old.first
            self.new.first (desk self.old) (desk self.new) }
    {
        let time = self.time();
        if self.ask_alone(time) {
            return;
        }
        let first = self.first % PLACES;
        let count = self.sockets.len();
        'sockets: for step in 0..count {
            let number = (first + step) % count;
            if !self.sockets[number].waits() {
                continue;
            }
            if !self.lending.has_rest() {
                self.first = number;
                return;
            }
            if !self.ask_one(number, time) {
                self.first = number + 1;
                return;
            }
        }
    }

    /// Ends some cursors of sockets that have ended, as far as their owners are at rest.
    fn end_cursors(&mut self)
        requires sound { IsBehind D.history self.old.lending.loans self.old.core }
        requires tied { AreTied self.old.lending.loans self.old.sockets.items }
        requires stands { StandsAlone self.old.alone self.old.sockets.items }
        ensures sound { IsBehind D.history self.new.lending.loans self.new.core }
        ensures tied { AreTied self.new.lending.loans self.new.sockets.items }
        ensures stands { StandsAlone self.new.alone self.new.sockets.items }
        ensures ends { EndsSome self.old self.new }
    {
        'cursors: for times in 0..MOST_ENDS {
            // the number is for the proof, which counts the cursors by it
            let _ = times;
            let Ok(ended) = end_cursor(&mut self.core, &mut self.lending, &self.cursors) else {
                return;
            };
            if !ended {
                return;
            }
        }
    }

    /// Makes a turn of the server, and takes what it replies: each connection is at rest again, and nothing stands on any. Where
    /// memory runs out for it, all that was asked waits for the next turn.
    fn make_turn(&mut self) -> Result<(), Stopped>
        requires sound { IsBehind D.history self.old.lending.loans self.old.core }
        requires tied { AreTied self.old.lending.loans self.old.sockets.items }
        requires stands { StandsAlone self.old.alone self.old.sockets.items }
        ensures sound { IsBehind D.history self.new.lending.loans self.new.core }
        ensures tied { AreTied self.new.lending.loans self.new.sockets.items }
        ensures stands { StandsAlone self.new.alone self.new.sockets.items }
        ensures turns { OnOk result (MakesTurn D.history self.old self.new) }
    {
        match self.core.turn() {
            Ok(turn) => {
                self.take_replies(&turn.replies);
                Ok(())
            }
            Err(TurnFault::Memory) => Ok(()),
            Err(TurnFault::Stopped) => Err(Stopped),
        }
    }

    /// Takes the replies of a turn of the server, of which each connection that is lent has one.
    fn take_replies(&mut self, replies: &[(ConnId, Vec<u8>)])
        requires turned { HasTurned D.history self.old.core }
        requires tied { AreTied self.old.lending.loans self.old.sockets.items }
        requires stands { StandsAlone self.old.alone self.old.sockets.items }
        requires replied { HaveReplies self.old.lending.loans replies.now }
        ensures turned { HasTurned D.history self.new.core }
        ensures tied { AreTied self.new.lending.loans self.new.sockets.items }
        ensures stands { StandsAlone self.new.alone self.new.sockets.items }
        ensures rest { AreAtRest self.new.lending.loans }
        ensures takes { TakesEach (frames_in replies.now) (floor self.old) (floor self.new) }
        ensures only { OnlyTakes self.old self.new }
    {
        'replies: for (id, frame) in replies {
            let _taken = take_reply(
                &mut self.core,
                &mut self.lending,
                &mut self.cursors,
                &mut self.sockets,
                *id,
                frame,
            );
        }
    }
}

impl<C: Clock + Drop, D: Disk + Drop> Service for Front<C, D> {
    ghost use Rattle.front.specs.Fronting.{Forgets, IsFrontSound, TakesBytes};
    ghost use Rattle.front.specs.Rounds.{IsRound};

    ghost PLACES = { 1024 };

    const PLACES: usize = PLACES;

    ghost is_sound = { λ front. IsFrontSound D.history front };

    ghost is_fed = { λ old i bytes new. TakesBytes old i bytes new };

    ghost is_answered = { λ old replies closed new. IsRound D.history old replies closed new };

    ghost is_ended = { λ old i new. Forgets old i new };

    fn take_bytes(&mut self, connection: usize, bytes: &[u8]) -> Result<(), NotTaken> {
        let alloc = self.core.allocator();
        if grow(alloc, &mut self.sockets, connection).is_err() {
            return Err(NotTaken);
        }
        match self.sockets[connection].feed(bytes) {
            Ok(()) => Ok(()),
            Err(_) => Err(NotTaken),
        }
    }

    fn has_message(&self, connection: usize) -> bool {
        match self.sockets.get(connection) {
            Some(socket) => socket.waits(),
            None => false,
        }
    }

    fn answer<O: Outlet>(&mut self, outlet: &mut O) -> Result<(), Stopped> {
        self.end_cursors();
        self.ask_all();
        if self.make_turn().is_err() {
            return Err(Stopped);
        }
        give_answers(&mut self.sockets, outlet);
        close_sockets(&self.sockets, outlet);
        Ok(())
    }

    fn forget(&mut self, connection: usize) {
        self.cursors.abandon(connection);
        self.lending.end(connection);
        let alloc = self.core.allocator();
        if connection < self.sockets.len() {
            drop(mem::replace(&mut self.sockets[connection], Socket::new(alloc)));
        }
    }
}

/// Where object ids begin: where 16 messages a millisecond since 1970 would lead.
fn first_id<C: Clock>(clock: &C) -> u64 {
    match clock.since_1970() {
        Ok(time) => u64::try_from(time.as_millis())
            .unwrap_or(0)
            .wrapping_mul(IDS_A_MILLISECOND),
        Err(_) => 0,
    }
}

/// Milliseconds as a number of 63 bits; 0 where they are more.
fn milliseconds(time: u128) -> u64
    ensures { result < 2 ^ 63 }
{
    if time < 9_223_372_036_854_775_808 {
        time as u64
    } else {
        0
    }
}

/// Hands out the answer of a socket, if it is ready.
fn give_answer<O: Outlet>(number: usize, socket: &mut Socket, outlet: &mut O)
    ensures hands { Hands O.is_given (frame_to number socket.old.answer) outlet.old outlet.new }
    ensures answered { socket.new ≡ answered socket.old }
{
    if let Some(frame) = socket.answer.take() {
        outlet.reply(number, &frame);
    }
}

/// Hands out the answers that are ready.
fn give_answers<O: Outlet>(sockets: &mut [Socket], outlet: &mut O)
    ensures hands { Hands O.is_given (answers_from 0 sockets.old) outlet.old outlet.new }
    ensures answered { sockets.new ≡ map answered sockets.old }
{
    'sockets: for (number, socket) in sockets.iter_mut().enumerate() {
        give_answer(number, socket, outlet);
    }
}

/// Closes a socket, if it is to be closed.
fn close_socket<O: Outlet>(number: usize, socket: &Socket, outlet: &mut O)
    ensures { Closes O.is_closed (closing number socket.now.is_over) outlet.old outlet.new }
{
    if socket.is_over {
        outlet.close(number);
    }
}

/// Closes the sockets that are to be closed.
fn close_sockets<O: Outlet>(sockets: &[Socket], outlet: &mut O)
    ensures { Closes O.is_closed (closed_from 0 sockets.now) outlet.old outlet.new }
{
    'sockets: for (number, socket) in sockets.iter().enumerate() {
        close_socket(number, socket, outlet);
    }
}
