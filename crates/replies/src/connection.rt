//! The number of a connection.

ghost use Rattle.std.specs.Prelude.{◌≡◌, ◌<◌, ◌≤◌, IfSome, IfNone};

use std::marker::Model;

/// The connections that there may be.
pub const CONNECTIONS: u8 = 64;

/// A connection.
#[derive(Clone, Copy, Debug, Drop)]
pub struct ConnId {
    number: u8,
}

impl Model for ConnId {
    ghost use Rattle.std.specs.Prelude.{ℕ, ◌≡◌, ◌<◌, refl};

    ghost Value = { ℕ };

    ghost view = { λ a. a.number };

    ghost invariant = { λ a. a.number < 64 };

    ghost inverse = { λ n. record { number = n } };
}

impl ConnId {
    /// The connection of a number; `None` from `CONNECTIONS` on.
    pub fn new(number: u8) -> Option<ConnId>
        ensures some { IfSome result (λ c. c ≡ number) }
        ensures none { IfNone result (64 ≤ number) }
    {
        if number < CONNECTIONS {
            Some(ConnId { number })
        } else {
            None
        }
    }

    /// The number that stands for the connection.
    pub fn number(self) -> u8
        ensures { result ≡ self }
    {
        self.number
    }
}
