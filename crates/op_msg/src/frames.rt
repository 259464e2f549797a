//! A stream of messages, in whatever chunks it comes.

ghost use Rattle.std.specs.Prelude.{◌≡◌, ◌≤◌, ◌++◌, List, [], take, drop, length, vec_len, OnOk, OnErr};
ghost use Rattle.op_msg.specs.Frame.{front};
ghost use Rattle.op_msg.specs.Request.{IsNext, is_waiting, head_of};
ghost use Rattle.op_msg.specs.Whole.{AreWhole, Joins};

use crate::fault::FrameFault;
use crate::first_message::{read_front, whole_len};
use crate::pieces::Pieces;
use crate::request::{Head, Request, read_request};
use std::alloc::{AllocError, Global};
use std::marker::Model;

/// The bytes of a stream that no message has taken yet. Contracts see it as the list of these bytes.
#[derive(Drop)]
pub struct Frames {
    // whole messages, one behind the other, up to the first fault
    whole: Vec<u8>,
    // how many of these bytes were taken
    taken: usize,
    // what came behind them
    rest: Pieces,
}

impl Model for Frames {
    ghost use Rattle.std.specs.Prelude.{ℕ, List, drop, length, ◌≤◌, ◌++◌};
    ghost use Rattle.op_msg.specs.Whole.{AreWhole, IsBegun};

    ghost Value = { List ℕ };

    ghost view = { λ a. drop a.taken a.whole.items ++ a.rest };

    ghost invariant = { λ a. (a.taken ≤ length a.whole.items)
        × AreWhole (drop a.taken a.whole.items) × IsBegun a.rest };
}

/// Moves what stands behind so many bytes to their place, once they are at least as many as have to move, so that each
/// byte moves once at most. It gives how many still stand before it.
fn take_back(bytes: &mut Vec<u8>, taken: usize) -> usize
    requires { taken ≤ vec_len bytes.old }
    ensures rest { drop result bytes.new.items ≡ drop taken bytes.old.items }
    ensures within { result ≤ length bytes.new.items }
{
    let rest = bytes.len() - taken;
    if taken < rest {
        return taken;
    }
    bytes.copy_within(taken.., 0);
    bytes.truncate(rest);
    0
}

/// Puts a message that a chunk ends behind whole ones, with those that the chunk has whole, and leaves what it has of
/// another one. An `Err` changes nothing.
fn join(whole: &mut Vec<u8>, begun: &mut Pieces, chunk: &[u8], len: usize) -> Result<(), AllocError>
    requires within { len ≤ length chunk.now }
    requires ended { AreWhole (begun.old ++ take len chunk.now) }
    ensures ok { OnOk result
        (Joins whole.old.items begun.old chunk.now whole.new.items begun.new) }
    ensures whole { OnErr result (whole.new.items ≡ whole.old.items) }
    ensures begun { OnErr result (begun.new ≡ begun.old) }
{
    let (_, behind) = chunk.split_at(len);
    let (ended, left) = chunk.split_at(len + whole_len(behind));
    let mut rest = Pieces::new(*whole.allocator());
    rest.push(left)?;
    let before = whole.len();
    let Ok(()) = begun.put_into(whole, ended) else {
        whole.truncate(before);
        return Err(AllocError);
    };
    *begun = rest;
    Ok(())
}

impl Frames {
    /// A stream of which nothing has come.
    pub fn new(alloc: Global) -> Frames
        ensures { result ≡ [] }
    {
        Frames {
            whole: Vec::new(alloc),
            taken: 0,
            rest: Pieces::new(alloc),
        }
    }

    /// Takes the next chunk of the stream. What comes of a message stays in the pieces in which it came until the message
    /// is whole. An `Err` is `FrameFault::Memory` and changes nothing.
    pub fn feed(&mut self, chunk: &[u8]) -> Result<(), FrameFault>
        ensures ok { OnOk result (self.new ≡ self.old ++ chunk.now) }
        ensures err { OnErr result ((self.new ≡ self.old) × (result ≡ Err FrameFault.Memory)) }
    {
        let Some(len) = self.rest.ended_by(chunk) else {
            return Ok(self.rest.push(chunk)?);
        };
        self.taken = take_back(&mut self.whole, self.taken);
        Ok(join(&mut self.whole, &mut self.rest, chunk, len)?)
    }

    /// What the message at the front says of itself, where it is whole. It takes no message and no memory.
    pub fn head(&self) -> Result<Option<Head>, FrameFault>
        ensures { result ≡ head_of (front self.now) }
    {
        let (_, bytes) = self.whole.split_at(self.taken);
        match read_front(bytes)? {
            None => Ok(None),
            Some(front) => Ok(Some(Head {
                request_id: front.message.number,
                more_to_come: front.message.more_to_come,
            })),
        }
    }

    /// Takes the message at the front, if it is whole. A fault of the stream changes nothing, so every later call gives
    /// it again. Where memory ran out for the body, the message is taken and its body is `Err(BsonFault::Memory)`.
    pub fn next(&mut self) -> Result<Option<Request>, FrameFault>
        ensures { IsNext (front self.old) self.old result self.new }
    {
        let alloc = *self.whole.allocator();
        let (_, bytes) = self.whole.split_at(self.taken);
        let Some(front) = read_front(bytes)? else {
            return Ok(None);
        };
        let request = read_request(alloc, &front.message);
        self.taken += front.len;
        Ok(Some(request))
    }

    /// Whether a whole message or a fault stands at the front. It takes no memory.
    pub fn waiting(&self) -> bool
        ensures { result ≡ is_waiting (front self.now) }
    {
        let (_, bytes) = self.whole.split_at(self.taken);
        match read_front(bytes) {
            Ok(None) => false,
            Ok(Some(_)) => true,
            Err(_) => true,
        }
    }
}
