//! Tests of the storage, from `page` to `pager`: pages and trees byte by byte, files that no commit left, how many pages a
//! file has, lists of free pages, and a disk in a file.
#![tactic(auto)]

#[cfg(test)]
mod cached_pages;
#[cfg(test)]
mod damaged_files;
#[cfg(test)]
mod file_disk;
#[cfg(test)]
mod free_lists;
#[cfg(test)]
mod page_bytes;
#[cfg(test)]
mod page_counts;
#[cfg(test)]
mod tree_bytes;
