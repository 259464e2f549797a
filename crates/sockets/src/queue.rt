//! Bytes that wait.

ghost use Rattle.std.specs.Prelude.{◌≡◌, ◌≤◌, ◌==◌, ◌++◌, List, [], drop, length, vec_len, OnOk, OnErr};

use std::alloc::{AllocError, Global};
use std::marker::Model;

/// Bytes in the order in which they came. Contracts see it as the list of them.
#[derive(Drop)]
pub(crate) struct Queue {
    bytes: Vec<u8>,
    // how many of the bytes are gone
    taken: usize,
}

impl Model for Queue {
    ghost use Rattle.std.specs.Prelude.{ℕ, List, drop, length, ◌≤◌};

    ghost Value = { List ℕ };

    ghost view = { λ a. drop a.taken a.bytes.items };

    ghost invariant = { λ a. a.taken ≤ length a.bytes.items };
}

/// Moves what stands behind so many bytes to their place.
fn drop_front(bytes: &mut Vec<u8>, count: usize)
    requires { count ≤ vec_len bytes.old }
    ensures { bytes.new.items ≡ drop count bytes.old.items }
{
    let rest = bytes.len() - count;
    bytes.copy_within(count.., 0);
    bytes.truncate(rest);
}

impl Queue {
    /// An empty queue. It takes no memory until bytes wait.
    pub fn new(alloc: Global) -> Queue
        ensures { result ≡ [] }
    {
        Queue {
            bytes: Vec::new(alloc),
            taken: 0,
        }
    }

    /// Whether nothing waits.
    pub fn is_empty(&self) -> bool
        ensures { result ≡ (length self.now == 0) }
    {
        self.bytes.len() - self.taken == 0
    }

    /// The bytes that wait.
    pub fn waiting(&self) -> &[u8]
        ensures { result.now ≡ self.now }
    {
        let (_, bytes) = self.bytes.split_at(self.taken);
        bytes
    }

    /// Adds bytes. An `Err` changes nothing.
    pub fn put(&mut self, bytes: &[u8]) -> Result<(), AllocError>
        ensures ok { OnOk result (self.new ≡ self.old ++ bytes.now) }
        ensures err { OnErr result (self.new ≡ self.old) }
    {
        // Room is taken back once there is more of it than of what has to move, so each byte moves once at most.
        if self.bytes.len() - self.taken <= self.taken {
            drop_front(&mut self.bytes, self.taken);
            self.taken = 0;
        }
        self.bytes.extend_from_slice(bytes)
    }

    /// The first bytes are gone. With the last one goes the memory that they took.
    pub fn advance(&mut self, count: usize)
        requires { count ≤ length self.old }
        ensures { self.new ≡ drop count self.old }
    {
        self.taken += count;
        if self.taken == self.bytes.len() {
            self.bytes = Vec::new(*self.bytes.allocator());
            self.taken = 0;
        }
    }
}
