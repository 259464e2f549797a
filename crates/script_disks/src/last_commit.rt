//! A file whose last commit has the greatest number that there is.

use crate::sectors::{read_sector, write_sector};
use page::MemDisk;
use script_text::Fault;

/// The number of a root's commit.
fn number_in(root: &[u8; 512]) -> u64 {
    match root[16..24].first_chunk::<8>() {
        Some(bytes) => u64::from_le_bytes(*bytes),
        None => 0,
    }
}

/// Writes a root with this number in the sector where that belongs.
fn put_root(memory: &mut MemDisk, root: &[u8; 512], number: u64) -> Result<(), Fault> {
    let mut bytes = *root;
    bytes[16..24].copy_from_slice(&number.to_le_bytes());
    write_sector(memory, number % 2, &bytes)
}

/// Gives the last commit the greatest number, and the one before it the greatest but one.
pub fn with_last_commit(memory: &mut MemDisk) -> Result<(), Fault> {
    let even = read_sector(memory, 0)?;
    let odd = read_sector(memory, 1)?;
    let newest = if number_in(&odd) < number_in(&even) {
        even
    } else {
        odd
    };
    put_root(memory, &newest, u64::MAX)?;
    put_root(memory, &newest, u64::MAX - 1)
}
