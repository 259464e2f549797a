//! A disk of sectors: what its calls do, what a crash may leave, and a disk in memory.
#![tactic(auto)]

mod branches;
mod cells;
mod disk;
mod fail_once;
mod file;
pub mod laws;
mod leaves;
mod memory;
mod page_cache;
mod page_content;
mod page_fault;
mod page_image;
mod pages;
mod splicing;
mod stop;
mod zeros;

pub use branches::Branch;
pub use cells::{CELL_BYTES, Cell, Child, INLINE_BYTES, Stored};
pub use disk::{DeviceFault, Disk};
pub use fail_once::FailDisk;
pub use file::{FileDisk, FileFault};
pub use leaves::Leaf;
pub use memory::MemDisk;
pub use page_cache::{CACHED_PAGES, PageCache, SharedPage};
pub use page_content::PageContent;
pub use page_fault::PageFault;
pub use page_image::{
    BODY_BYTES, CHAIN_BYTES, FREE_NUMBERS, PAGE_BYTES, PageImage, chain_page, free_list_page,
};
pub use pages::{read_page, write_page};
pub use stop::StopDisk;
pub use zeros::is_all_zero;
