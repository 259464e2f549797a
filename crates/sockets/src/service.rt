//! What answers, as the loops see it.

ghost use Rattle.std.specs.Prelude.{◌≡◌, ◌<◌, ℕ, List, IsOk, OnOk};
ghost use Rattle.sockets.specs.Faults.{serve_fault_name};
ghost use Rattle.sockets.specs.Handing.{Answers};

/// Why serving ended.
#[derive(Clone, Copy, Debug, PartialEq, Eq)]
pub enum ServeFault {
    /// No connection can be taken, watched or waited for.
    Accept = 1,
    /// The service answers no more.
    Stopped,
}

impl ServeFault {
    /// The name of the fault, as programs print it.
    pub fn name(self) -> &'static str
        ensures { result.now ≡ serve_fault_name self }
    {
        match self {
            ServeFault::Accept => "Accept",
            ServeFault::Stopped => "Stopped",
        }
    }
}

/// The service answers no more.
#[derive(Clone, Copy, Debug, PartialEq, Eq)]
pub struct Stopped;

/// The service took no bytes.
#[derive(Clone, Copy, Debug, PartialEq, Eq)]
pub struct NotTaken;

/// Where a turn puts what it hands out.
pub trait Outlet {
    /// What a reply to a connection does.
    ghost is_given: { Self → ℕ → List ℕ → Self → Type 0 };

    /// What the closing of a connection does.
    ghost is_closed: { Self → ℕ → Self → Type 0 };

    /// A reply to a connection.
    fn reply(&mut self, connection: usize, frame: &[u8])
        ensures given { is_given self.old connection frame.now self.new };

    /// The turn closed a connection.
    fn close(&mut self, connection: usize)
        ensures closed { is_closed self.old connection self.new };
}

/// Something that takes bytes of connections, numbered from 0 on, and answers all of them in turns.
pub trait Service {
    /// How many connections it has numbers for.
    ghost PLACES: { ℕ };

    /// How many connections it has numbers for.
    const PLACES: usize;

    /// What holds between two calls.
    ghost is_sound: { Self → Type 0 };

    /// What bytes of a connection do.
    ghost is_fed: { Self → ℕ → List ℕ → Self → Type 0 };

    /// What a turn does that hands out these replies and closes these connections.
    ghost is_answered: { Self → List (ℕ × List ℕ) → List ℕ → Self → Type 0 };

    /// What the end of a connection does.
    ghost is_ended: { Self → ℕ → Self → Type 0 };

    /// Takes bytes that came on a connection. The first ones open it.
    fn take_bytes(&mut self, connection: usize, bytes: &[u8]) -> Result<(), NotTaken>
        requires number { connection < PLACES }
        requires sound { is_sound self.old }
        ensures sound { is_sound self.new }
        ensures fed { OnOk result (is_fed self.old connection bytes.now self.new) };

    /// Whether a turn would take something from a connection.
    fn has_message(&self, connection: usize) -> bool
        requires number { connection < PLACES };

    /// Answers the first message of each connection, and hands out the replies.
    fn answer<O: Outlet>(&mut self, outlet: &mut O) -> Result<(), Stopped>
        requires sound { is_sound self.old }
        ensures sound { is_sound self.new }
        ensures answered { OnOk result (Answers is_answered O.is_given O.is_closed self.old self.new
            outlet.old outlet.new) };

    /// A connection has ended, and its number is free.
    fn forget(&mut self, connection: usize)
        requires number { connection < PLACES }
        requires sound { is_sound self.old }
        ensures sound { is_sound self.new }
        ensures ended { is_ended self.old connection self.new };
}
