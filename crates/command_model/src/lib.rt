//! What the body of a message asks for, and why it is refused: each command with its fields, as functions of a body.
//! It stands in specs/: the crate has no code but a limit that others ask for too.
#![tactic(auto)]

/// The most bytes of a namespace: a database's name, a dot, and a collection's name.
pub const NAMESPACE_LIMIT: usize = 255;
