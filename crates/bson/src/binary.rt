//! Binary values: bytes with a subtype.

ghost use Rattle.std.specs.Prelude.{◌≡◌, ◌≢◌, ◌<◌, MatchOption, IfOk};
ghost use Rattle.bson.specs.Lawful.{IsBytes};

use std::alloc::{AllocError, Global};
use std::marker::Model;

/// What the bytes of a binary are of: any byte but 2, the standard's old binary, whose bytes hold a
/// second count.
#[derive(Clone, Copy, Debug, PartialEq, Eq)]
pub struct Subtype {
    byte: u8,
}

impl Model for Subtype {
    ghost use Rattle.std.specs.Prelude.{ℕ, ◌≢◌};

    ghost Value = { ℕ };

    ghost view = { λ a. a.byte };

    ghost inverse = { λ n. record { byte = n } };

    ghost invariant = { λ a. a.byte ≢ 2 };
}

impl Subtype {
    /// The subtype of this byte; `None` at 2.
    pub fn new(byte: u8) -> Option<Subtype>
        ensures { MatchOption result (byte ≡ 2) (λ s. (s ≡ byte) × (byte ≢ 2)) }
    {
        if byte == 2 {
            return None;
        }
        Some(Subtype { byte })
    }

    /// The byte that stands for the subtype.
    pub fn byte(self) -> u8
        ensures value { result ≡ self }
        ensures lawful { self ≢ 2 }
        ensures fits { self < 256 }
    {
        self.byte
    }
}

/// Bytes of its own, which contracts see as a list.
#[derive(Debug, Drop)]
pub struct Bytes {
    bytes: Vec<u8>,
}

impl Model for Bytes {
    ghost use Rattle.std.specs.Prelude.{ℕ, List};

    ghost Value = { List ℕ };

    ghost use Rattle.bson.specs.Lawful.{IsBytes};

    ghost view = { λ a. a.bytes.items };

    ghost invariant = { λ a. IsBytes a.bytes.items };
}

impl Bytes {
    /// A copy of these bytes.
    pub fn from_slice(alloc: Global, bytes: &[u8]) -> Result<Bytes, AllocError>
        ensures { IfOk result (λ b. b ≡ bytes.now) }
    {
        Ok(Bytes {
            bytes: Vec::from_slice(alloc, bytes)?,
        })
    }

    /// The bytes themselves, which are not copied.
    pub fn from_vec(bytes: Vec<u8>) -> Bytes
        ensures { result ≡ bytes.items }
    {
        Bytes { bytes }
    }

    /// All the bytes.
    pub fn as_slice(&self) -> &[u8]
        ensures value { result.now ≡ self.now }
        ensures lawful { IsBytes self.now }
    {
        self.bytes.as_slice()
    }

    /// An equal value of its own.
    pub fn copy(&self) -> Result<Bytes, AllocError>
        ensures { IfOk result (λ b. b ≡ self.now) }
    {
        let alloc = *self.bytes.allocator();
        Bytes::from_slice(alloc, self.bytes.as_slice())
    }
}

/// A binary: bytes, and what they are of.
#[derive(Debug, Drop)]
pub struct Binary {
    pub subtype: Subtype,
    pub bytes: Bytes,
}

impl Binary {
    /// An equal binary of its own.
    pub fn copy(&self) -> Result<Binary, AllocError>
        ensures { IfOk result
            (λ b. (b.subtype ≡ self.now.subtype) × (b.bytes ≡ self.now.bytes)) }
    {
        Ok(Binary {
            subtype: self.subtype,
            bytes: self.bytes.copy()?,
        })
    }
}
