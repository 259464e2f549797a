//! Connections, turns, and what they hand out.

ghost use Rattle.std.specs.Prelude.{◌≡◌};

use crate::connection::{
    Connection, FeedFault, close_connections, end_connection, feed_connection, waits,
};
use crate::preparing::{Prepared, prepare};
use crate::serving::{forget_closed, run_messages};
use engine::{ConnId, Engine};
use op_msg::FrameFault;
use page::Disk;
use roots::{Config, OpenFault};
use std::alloc::{AllocError, Global};
use trusted_disk::TrustedDisk;

/// Why a turn answered no message.
#[derive(Clone, Copy, Debug, PartialEq, Eq)]
pub enum TurnFault {
    /// A write or a sync failed, in this turn or an earlier one. In this turn: its messages were taken, and
    /// what they changed may be durable or not. In an earlier one: nothing changed.
    Stopped = 1,
    /// Memory ran out before a message was taken. Nothing changed.
    Memory,
}

impl TurnFault {
    ghost use Rattle.server.specs.Faults.{turn_fault_name};

    /// The name of the fault, as programs print it.
    pub fn name(self) -> &'static str
        ensures { result.now ≡ turn_fault_name self }
    {
        match self {
            TurnFault::Stopped => "Stopped",
            TurnFault::Memory => "Memory",
        }
    }
}

impl From<AllocError> for TurnFault {
    ghost use Rattle.server.specs.declared.turn.TurnFault.TheVariants.{Memory};

    ghost from_gives = { λ _ e. e ≡ Memory };

    fn from(_e: AllocError) -> TurnFault {
        TurnFault::Memory
    }
}

/// What a turn hands out: frames of replies, each with its connection, and the connections that a fault of a
/// frame closed.
#[derive(Drop)]
pub struct TurnOut {
    pub replies: Vec<(ConnId, Vec<u8>)>,
    pub closed: Vec<(ConnId, FrameFault)>,
}

/// The engine, with no turn open between calls, and the connections in ascending order of their numbers.
pub struct Core<D: Disk> {
    pub(crate) engine: Engine<TrustedDisk<D>>,
    pub(crate) connections: Vec<Connection>,
}

// (written out, so that no crate above proves again that the parts are let go)
impl<D: Disk + Drop> Drop for Core<D> {
    fn drop(self) {
        let Core {
            engine: _,
            connections: _,
        } = self;
    }
}

impl<D: Disk> Core<D> {
    ghost use Rattle.std.specs.Prelude.{◌≢◌, Err, IfOk, IfErr, OnErr, is_err};
    ghost use Rattle.roots.specs.Store.{limit_in};
    ghost use Rattle.collections.specs.Opening.{HasLimit};
    ghost use Rattle.opening.specs.Refusing.{IsFileRefused};
    ghost use Rattle.server.specs.ServerState.{fed, ended, find_connection, is_closed_in};
    ghost use Rattle.server.specs.Turn.{is_waiting_in};
    ghost use Rattle.server.specs.View.{state};
    ghost use Rattle.server.specs.Durable.{disk_history, is_stopped, file_of, moment_of, IsSound};
    ghost use Rattle.server.specs.Opening.{IsCoreOpened, inner_history};
    ghost use Rattle.server.specs.Turning.{TakesTurn};

    /// Opens the database on a disk that a crash may have left; a disk of zeros holds the empty one. It
    /// writes nothing, and syncs before it answers. It doesn't look whether the file is sound: what isn't is
    /// a failure of the command that meets it, and `check` looks at all. An `Err` hands the disk back.
    pub fn open(alloc: Global, disk: D, config: Config) -> Result<Core<D>, (D, OpenFault)>
        ensures opened { IfOk result (IsCoreOpened D.history disk) }
        ensures limit { IfOk result (λ core. HasLimit (limit_in config) (file_of core)) }
        ensures refused { IfErr result (λ e. IsFileRefused D.history disk e.0 e.1) }
    {
        match Engine::open(alloc, disk, config) {
            Ok(engine) => Ok(Core {
                engine,
                connections: Vec::new(alloc),
            }),
            Err(refused) => Err(refused),
        }
    }

    /// Hands the disk back as it is.
    pub fn into_disk(self) -> D
        ensures { D.history result ≡ inner_history D.history self }
    {
        let Core {
            engine,
            connections: _,
        } = self;
        engine.into_disk().into_inner()
    }

    /// Where its memory comes from.
    pub fn allocator(&self) -> Global {
        *self.connections.allocator()
    }

    /// Whether a write or a sync has failed. Nothing is committed any more then, and each turn answers
    /// `Stopped`.
    pub fn is_stopped(&self) -> bool
        ensures { result ≡ is_stopped self.now }
    {
        self.engine.is_stopped()
    }

    /// Takes bytes that came on a connection. The first ones open it. A connection that a fault of a frame
    /// closed answers `Closed` until `gone`, and the bytes are passed over.
    pub fn feed(&mut self, id: ConnId, bytes: &[u8]) -> Result<(), FeedFault>
        requires sound { IsSound D.history self.old }
        ensures sound { IsSound D.history self.new }
        ensures disk { disk_history D.history self.new ≡ disk_history D.history self.old }
        ensures running { is_stopped self.new ≡ is_stopped self.old }
        ensures file { file_of self.new ≡ file_of self.old }
        ensures fed { result ≢ Err FeedFault.Memory
            → state self.new ≡ fed (state self.old) id bytes.now }
        ensures closed { result ≢ Err FeedFault.Memory
            → is_err result ≡ is_closed_in (find_connection (state self.old).connections id) }
        ensures err { OnErr result (state self.new ≡ state self.old) }
    {
        feed_connection(&mut self.connections, id, bytes)
    }

    /// A turn: it takes the first whole message of each open connection, runs them in rising connection
    /// number, makes what they changed durable, and hands out the replies. Where memory runs out for a reply
    /// or for the commit, or the commit finds no greater generation or no free page, the turn is undone and
    /// each reply is the refusal that says so. A connection with a fault at its front is closed. `Memory`
    /// took no message and changed nothing. `Stopped` hands out nothing and closes no connection: a write or a
    /// sync failed in this turn, or before it, and then nothing changed.
    pub fn turn(&mut self) -> Result<TurnOut, TurnFault>
        requires sound { IsSound D.history self.old }
        ensures { TakesTurn D.history self.old result self.new }
    {
        if self.engine.is_stopped() {
            return Err(TurnFault::Stopped);
        }
        let alloc = *self.connections.allocator();
        let Prepared {
            refusals,
            closed,
            faults,
        } = prepare(alloc, &self.connections)?;
        let Some(replies) = run_messages(&mut self.engine, &mut self.connections, refusals) else {
            return Err(TurnFault::Stopped);
        };
        close_connections(&mut self.connections, &faults);
        forget_closed(&mut self.engine, &closed);
        Ok(TurnOut { replies, closed })
    }

    /// A connection has ended: its cursors, its bytes and its count of replies are forgotten.
    pub fn gone(&mut self, id: ConnId)
        requires sound { IsSound D.history self.old }
        ensures sound { IsSound D.history self.new }
        ensures disk { disk_history D.history self.new ≡ disk_history D.history self.old }
        ensures running { is_stopped self.new ≡ is_stopped self.old }
        ensures moment { moment_of D.history self.new ≡ moment_of D.history self.old }
        ensures state { state self.new ≡ ended (state self.old) id }
    {
        self.engine.gone(id);
        end_connection(&mut self.connections, id);
    }

    /// Whether a whole message or a fault of a frame stands at the front of an open connection. It takes no
    /// memory.
    pub fn waiting(&self, id: ConnId) -> bool
        ensures { result ≡ is_waiting_in (find_connection (state self.now).connections id) }
    {
        waits(&self.connections, id)
    }
}
