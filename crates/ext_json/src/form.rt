//! The two forms of writing.

/// How a document is written.
#[derive(Clone, Copy, Debug, PartialEq, Eq)]
pub(crate) enum Form {
    /// Each value with its type.
    Canonical,
    /// For people: as plain JSON where the type is read back.
    Relaxed,
}
