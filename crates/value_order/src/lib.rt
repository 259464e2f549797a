//! The order of values, and texts of bytes that order as the values do.
#![tactic(auto)]

mod classes;
pub mod laws;
mod order;
mod texts;
mod wrapper;

pub use classes::{class, class_of_scalar};
pub use order::{compare, compare_keys, compare_scalar};
pub use texts::{Direction, KeyFault, KeyPart, group_text, key_text};
pub use wrapper::Order;

/// The most bytes of a key text.
pub const KEY_LIMIT: usize = 500;
