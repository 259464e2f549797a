//! Which cursors are to end.

use replies::ConnId;

/// Cursors that are to end.
#[derive(Clone, Copy)]
pub enum Ends<'a> {
    /// Those of a connection and a namespace that have one of these ids.
    Asked(ConnId, &'a str, &'a [i64]),
    /// Those of a connection.
    Of(ConnId),
    /// Those that the running turn opened or advanced.
    Touched,
}
