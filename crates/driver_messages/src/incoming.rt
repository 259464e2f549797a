//! Messages from the bytes of a socket.

ghost use Rattle.std.specs.Prelude.{◌≡◌, ◌≤◌, ◌++◌, [], drop, vec_len, OnOk, OnErr};
ghost use Rattle.driver_messages.specs.Incoming.{next_message, whole_at, is_waiting, IsNext};

use crate::message::Message;
use crate::stream_fault::StreamFault;
use crate::wire::{read_len, read_whole};
use bson::NoMemory;
use std::alloc::Global;
use std::marker::Model;

/// The bytes of a socket that no message has taken yet. Contracts see the list of these bytes.
#[derive(Drop)]
pub struct Incoming {
    bytes: Vec<u8>,
    // how many of the bytes were taken
    taken: usize,
}

impl Model for Incoming {
    ghost use Rattle.std.specs.Prelude.{ℕ, List, drop, length, ◌≤◌};

    ghost Value = { List ℕ };

    ghost view = { λ a. drop a.taken a.bytes.items };

    ghost invariant = { λ a. a.taken ≤ length a.bytes.items };
}

/// Moves what stands behind so many bytes to their place.
fn drop_front(bytes: &mut Vec<u8>, count: usize)
    requires { count ≤ vec_len bytes.old }
    ensures { bytes.new.items ≡ drop count bytes.old.items }
{
    let rest = bytes.len() - count;
    bytes.copy_within(count.., 0);
    bytes.truncate(rest);
}

impl Incoming {
    /// A socket of which nothing has come.
    pub fn new(alloc: Global) -> Incoming
        ensures { result ≡ [] }
    {
        Incoming {
            bytes: Vec::new(alloc),
            taken: 0,
        }
    }

    /// Takes the next bytes of the socket. It fails for want of memory alone, and then changes nothing.
    pub fn feed(&mut self, chunk: &[u8]) -> Result<(), NoMemory>
        ensures ok { OnOk result (self.new ≡ self.old ++ chunk.now) }
        ensures err { OnErr result (self.new ≡ self.old) }
    {
        // Room is taken back once there is more of it than of what has to move, so each byte moves once at most.
        if self.bytes.len() - self.taken <= self.taken {
            drop_front(&mut self.bytes, self.taken);
            self.taken = 0;
        }
        self.bytes.extend_from_slice(chunk)?;
        Ok(())
    }

    /// Takes the message at the front, if it is whole. A fault changes nothing, so every later call gives it again.
    pub fn next(&mut self) -> Result<Option<Message>, StreamFault>
        ensures { IsNext (next_message self.old) self.old result self.new }
    {
        let alloc = *self.bytes.allocator();
        let (_, bytes) = self.bytes.split_at(self.taken);
        let Some(len) = read_len(bytes)? else {
            return Ok(None);
        };
        let (whole, _) = bytes.split_at(len);
        let message = read_whole(alloc, whole)?;
        self.taken += len;
        Ok(Some(message))
    }

    /// Whether a whole message or a fault stands at the front. It takes no memory.
    pub fn waiting(&self) -> bool
        ensures { result ≡ is_waiting (whole_at self.now) }
    {
        let (_, bytes) = self.bytes.split_at(self.taken);
        match read_len(bytes) {
            Ok(None) => false,
            Ok(Some(_)) => true,
            Err(_) => true,
        }
    }
}
