//! A sorted map in pages. A change writes fresh pages, and the tree before it stays readable.
#![tactic(auto)]

mod chain;
mod changing;
mod cutting;
mod editing;
mod folding;
mod in_page;
mod joining;
mod lookup;
mod node;
mod one_child;
mod parts;
mod root;
mod scanning;
mod settling;
mod taking_apart;

pub use folding::{Bounds, Fold, fold_entries};
pub use lookup::get;
pub use root::{change, insert, remove};
pub use scanning::{Batch, Entry, Range, scan};
