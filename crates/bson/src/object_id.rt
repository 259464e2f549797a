//! Object ids.

ghost use Rattle.std.specs.Prelude.{◌≡◌, length};
ghost use Rattle.bson.specs.Lawful.{IsBytes};

use std::marker::Model;

/// Twelve bytes that name an object, which contracts see as a list.
#[derive(Clone, Copy, Debug, PartialEq, Eq)]
pub struct ObjectId {
    bytes: [u8; 12],
}

impl Model for ObjectId {
    ghost use Rattle.std.specs.Prelude.{◌≡◌, ℕ, List, length};

    ghost Value = { List ℕ };

    ghost use Rattle.bson.specs.Lawful.{IsBytes};

    ghost view = { λ a. a.bytes };

    ghost inverse = { λ bytes. record { bytes = bytes } };

    ghost invariant = { λ a. (length a.bytes ≡ 12) × IsBytes a.bytes };
}

impl ObjectId {
    /// The object id of these bytes.
    pub fn new(bytes: [u8; 12]) -> ObjectId
        ensures { result ≡ bytes }
    {
        ObjectId { bytes }
    }

    /// Its twelve bytes.
    pub fn bytes(&self) -> &[u8; 12]
        ensures value { result.now ≡ self.now }
        ensures len { length self.now ≡ 12 }
        ensures lawful { IsBytes self.now }
    {
        &self.bytes
    }
}
