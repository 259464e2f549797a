//! The accumulators of groups.

/// What is made of the values of a group.
#[derive(Clone, Copy)]
pub enum Accumulator {
    Sum,
    Least,
    Greatest,
    First,
    Last,
    Push,
}
