//! How far a turn has come.

/// How far the running turn has come: `undo_to` leads back to here, until the turn ends.
#[derive(Clone, Copy)]
pub struct Mark {
    pub(crate) pages: pager::Mark,
    pub(crate) root: u32,
}
