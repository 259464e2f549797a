//! Why words ask for nothing.

/// Why no program is run.
#[derive(Clone, Copy, Debug, PartialEq, Eq)]
pub enum WordsFault {
    /// The words ask for no program that there is, or for help.
    Usage,
    /// Memory ran out.
    Memory,
}
