//! What a tree of pages is, and the pages that it is kept in, apart from the code that looks into one and changes it (crate `btree`).
//!
//! `pages` is what a store of pages gives, `edit` a change at a key, `search` finds keys among those of a page.
#![tactic(auto)]

mod edit;
pub mod laws;
mod pages;
mod search;

pub use edit::Edit;
pub use pages::{Pages, TreeFault};
pub use search::{
    branch_child, branch_key, child_of_key, high_bound, is_between, is_within, leaf_cell, leaf_key,
    lies_between, low_bound, place_of_end, place_of_key,
};
