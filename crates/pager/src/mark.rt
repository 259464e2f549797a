//! How far a turn has come.
ghost use Rattle.std.specs.Prelude.{◌≡◌};

/// How far the running turn has come: `undo_to` leads back to here, until the turn ends.
#[derive(Clone, Copy, Debug)]
pub struct Mark {
    pub(crate) book: freelist::Mark,
    pub(crate) made: usize,
    pub(crate) retired: usize,
    ghost same: { book.changes ≡ made },
}
