//! What came of a message that isn't whole yet.

ghost use Rattle.std.specs.Prelude.{◌≡◌, ◌≤◌, ◌+◌, ◌++◌, ℕ, List, [], take, length, vec_len, IfSome, OnOk, OnErr};
ghost use Rattle.std.specs.List.{flat_map};
ghost use Rattle.op_msg.specs.Frame.{number_at};
ghost use Rattle.op_msg.specs.Whole.{EndsAt, EndsIn, IsBegun};

use crate::first_message::message_end;
use std::alloc::{AllocError, Global};
use std::marker::Model;

/// The least room of a piece, so that small chunks share one.
const ROOM: usize = 4_096;

/// The bytes of a message that isn't whole yet, in the pieces in which they came. Contracts see it as these bytes.
#[derive(Drop)]
pub(crate) struct Pieces {
    pieces: Vec<Vec<u8>>,
    // how many bytes they have
    len: usize,
    // the first four of them, as far as they came
    front: [u8; 4],
}

impl Model for Pieces {
    ghost use Rattle.std.specs.Prelude.{ℕ, List, take, length, ◌≡◌};
    ghost use Rattle.std.specs.List.{flat_map};

    ghost Value = { List ℕ };

    ghost view = { λ a. flat_map (λ p. p.items) a.pieces.items };

    ghost invariant = { λ a. (a.len ≡ length (flat_map (λ p. p.items) a.pieces.items))
        × (take 4 (flat_map (λ p. p.items) a.pieces.items) ≡ take a.len a.front) };
}

/// The first four bytes, as far as there are so many, of some bytes and a chunk behind them: those of the bytes alone are
/// known, and how many bytes there are.
fn front_with(front: [u8; 4], len: usize, chunk: &[u8]) -> [u8; 4]
    ensures front { (bytes : List ℕ) → length bytes ≡ len → take 4 bytes ≡ take len front
        → take 4 (bytes ++ chunk.now) ≡ take (len + length chunk.now) result }
    ensures four { length result ≡ 4 }
{
    let mut front = front;
    if len < 4 {
        let more = chunk.len().min(4 - len);
        front[len..len + more].copy_from_slice(&chunk[..more]);
    }
    front
}

/// Puts a chunk behind pieces: into the room of the last one, or as a piece of its own.
fn put_behind(pieces: &mut Vec<Vec<u8>>, chunk: &[u8]) -> Result<(), AllocError>
    ensures ok { OnOk result (flat_map (λ p. p.items) pieces.new.items
        ≡ flat_map (λ p. p.items) pieces.old.items ++ chunk.now) }
    ensures err { OnErr result (flat_map (λ p. p.items) pieces.new.items
        ≡ flat_map (λ p. p.items) pieces.old.items) }
{
    if chunk.is_empty() {
        return Ok(());
    }
    if let Some(last) = pieces.last_mut() {
        if chunk.len() <= last.capacity() - last.len() {
            return last.extend_from_slice(chunk);
        }
    }
    let mut piece = Vec::with_capacity(*pieces.allocator(), chunk.len().max(ROOM))?;
    piece.extend_from_slice(chunk)?;
    pieces.push(piece)?;
    Ok(())
}

impl Pieces {
    /// No piece of a message.
    pub(crate) fn new(alloc: Global) -> Pieces
        ensures { result ≡ [] }
    {
        Pieces {
            pieces: Vec::new(alloc),
            len: 0,
            front: [0; 4],
        }
    }

    /// How many bytes of a chunk end the message, if they do; all of them where its length is that of no message.
    pub(crate) fn ended_by(&self, chunk: &[u8]) -> Option<usize>
        requires { IsBegun self.now }
        ensures { EndsIn self.now result chunk.now }
    {
        let len = self.len + chunk.len();
        if len < 4 {
            return None;
        }
        let front = front_with(self.front, self.len, chunk);
        let Some(end) = message_end(u32::from_le_bytes(front) as usize, len) else {
            return None;
        };
        Some(end - self.len)
    }

    /// Takes a chunk that doesn't end the message. An `Err` changes nothing.
    pub(crate) fn push(&mut self, chunk: &[u8]) -> Result<(), AllocError>
        requires { IsBegun (self.old ++ chunk.now) }
        ensures ok { OnOk result (self.new ≡ self.old ++ chunk.now) }
        ensures err { OnErr result (self.new ≡ self.old) }
    {
        put_behind(&mut self.pieces, chunk)?;
        self.front = front_with(self.front, self.len, chunk);
        self.len += chunk.len();
        Ok(())
    }

    /// Puts the bytes behind others, and then more. An `Err` may leave some of them there.
    pub(crate) fn put_into(&self, whole: &mut Vec<u8>, more: &[u8]) -> Result<(), AllocError>
        ensures ok { OnOk result (whole.new.items ≡ whole.old.items ++ self.now ++ more.now) }
        ensures err { OnErr result (take (vec_len whole.old) whole.new.items ≡ whole.old.items) }
    {
        whole.reserve(self.len.saturating_add(more.len()))?;
        'pieces: for piece in &self.pieces {
            whole.extend_from_slice(piece)?;
        }
        whole.extend_from_slice(more)
    }
}
