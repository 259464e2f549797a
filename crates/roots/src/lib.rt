//! A store with two root sectors over a disk: what is committed survives a crash at any moment.
#![tactic(auto)]

mod counting;
pub mod laws;
mod listing;
mod opening;
mod reachable_pages;
mod replace;
mod root;
mod store;

pub use counting::PageCounts;
pub use listing::list_models;
pub use opening::OpenFault;
pub use root::{MAX_PAGES, Root};
pub use store::{CommitFault, Config, LEAST_LIMIT, Store, end_of};
