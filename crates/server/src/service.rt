//! A server as the loops over sockets see it.

ghost use Rattle.std.specs.Prelude.{◌≡◌, ◌<◌, ◌≤◌, map};
ghost use Rattle.sockets.specs.Handing.{Hands, Closes};
ghost use Rattle.server.specs.View.{frames_in};
ghost use Rattle.server.specs.Durable.{IsSound};

use crate::turn::{Core, TurnFault};
use engine::{CONNECTIONS, ConnId};
use op_msg::FrameFault;
use page::Disk;
use sockets::{NotTaken, Outlet, ServeFault, Service, Stopped};
use std::net::{Net, TcpListener};

impl<D: Disk> Service for Core<D> {
    ghost use Rattle.std.specs.Prelude.{◌≡◌};
    ghost use Rattle.server.specs.ServerState.{fed, ended};
    ghost use Rattle.server.specs.Serving.{IsAnswered};
    ghost use Rattle.server.specs.View.{state};
    ghost use Rattle.server.specs.Durable.{IsSound};

    ghost PLACES = { 64 };

    const PLACES: usize = CONNECTIONS as usize;

    ghost is_sound = { λ core. IsSound D.history core };

    ghost is_fed = { λ old id bytes new. state new ≡ fed (state old) id bytes };

    ghost is_answered = { λ old replies closed new. IsAnswered D.history old replies closed new };

    ghost is_ended = { λ old id new. state new ≡ ended (state old) id };

    fn take_bytes(&mut self, connection: usize, bytes: &[u8]) -> Result<(), NotTaken> {
        match self.feed(numbered(connection), bytes) {
            Ok(()) => Ok(()),
            Err(_) => Err(NotTaken),
        }
    }

    fn has_message(&self, connection: usize) -> bool {
        self.waiting(numbered(connection))
    }

    fn answer<O: Outlet>(&mut self, outlet: &mut O) -> Result<(), Stopped> {
        match self.turn() {
            Ok(turn) => {
                give_replies(&turn.replies, outlet);
                close_connections(&turn.closed, outlet);
                Ok(())
            }
            // No message was taken, and each waits for the next turn.
            Err(TurnFault::Memory) => Ok(()),
            Err(TurnFault::Stopped) => Err(Stopped),
        }
    }

    fn forget(&mut self, connection: usize) {
        self.gone(numbered(connection));
    }
}

/// The connection of a number.
fn numbered(connection: usize) -> ConnId
    requires { connection < 64 }
    ensures { result ≡ connection }
{
    match ConnId::new(connection as u8) {
        Some(id) => id,
        None => unreachable!(),
    }
}

/// Hands out the replies of a turn.
fn give_replies<O: Outlet>(replies: &[(ConnId, Vec<u8>)], outlet: &mut O)
    ensures { Hands O.is_given (frames_in replies.now) outlet.old outlet.new }
{
    'replies: for (id, frame) in replies {
        outlet.reply(usize::from(id.number()), frame);
    }
}

/// Closes the connections that a turn closed.
fn close_connections<O: Outlet>(closed: &[(ConnId, FrameFault)], outlet: &mut O)
    ensures { Closes O.is_closed (map (λ c. c.0) closed.now) outlet.old outlet.new }
{
    'closed: for (id, _) in closed {
        outlet.close(usize::from(id.number()));
    }
}

/// Accepts so many connections, at most 64, and numbers them from 0. Then it reads from them and makes turns, until so many
/// turns were made or no connection is open; a turn is made only where a message or a fault of a frame waits for one. A
/// connection whose read or write fails or that a fault closed is gone, and at the end all are. `Accept` says that no
/// connection could be taken or waited for, and `Stopped` is the turn's.
pub fn serve_on<R: AllocGlobal + Net, D: Disk>(
    rt: &R,
    listener: &TcpListener,
    connections: usize,
    turns: u64,
    core: &mut Core<D>,
) -> Result<(), ServeFault>
    requires connections { connections ≤ 64 }
    requires sound { IsSound D.history core.old }
    ensures sound { IsSound D.history core.new }
{
    sockets::serve_on(rt, listener, connections, turns, core)
}
