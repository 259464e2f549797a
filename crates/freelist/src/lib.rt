//! The pages of a file: which are in use, which wait until nobody reads them any more, and which are free.
#![tactic(auto)]

mod book;
mod draft;
pub mod laws;
mod list;
mod list_fault;
mod states;
mod turns;

pub use book::{FreePages, Mark, NoMemory};
pub use list::{FreeList, ListPage, ListPages, read_list};
pub use list_fault::ListFault;
