//! Whether a disk is trusted, which only contracts know. It takes no memory.
ghost use Rattle.std.specs.Prelude.{◌≡◌, Bool};
ghost use Rattle.std.specs.Borrow.{ftrue};

use std::marker::Model;

/// A truth value that no code holds.
#[derive(Drop)]
pub struct Trusted {
    pub ghost value: { Bool },
}

impl Model for Trusted {
    ghost also_owns = { λ _. ftrue };
}

impl Trusted {
    /// Either may be told.
    pub fn any() -> Trusted
        ghost trusted: { Bool }
        ensures { result.value ≡ trusted }
    {
        Trusted {}
    }
}
