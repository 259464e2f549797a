//! The operators of updates.

/// An operator of updates.
#[derive(Clone, Copy)]
pub enum Operator {
    Set,
    Unset,
    Increment,
    Least,
    Greatest,
    Push,
    Pull,
    Rename,
}
