//! Sectors of a device, as a script says them.

use page::{Disk, MemDisk};
use script_text::{Fault, differs, put_over};
use std::alloc::Global;

/// Reads a sector.
pub fn read_sector(memory: &mut MemDisk, number: u64) -> Result<[u8; 512], Fault> {
    let mut bytes = [0; 512];
    match memory.read(number, &mut bytes) {
        Ok(()) => Ok(bytes),
        Err(_) => Err(Fault::Memory),
    }
}

/// Writes a sector.
pub(crate) fn write_sector(
    memory: &mut MemDisk,
    number: u64,
    bytes: &[u8; 512],
) -> Result<(), Fault> {
    match memory.write(number, bytes) {
        Ok(()) => Ok(()),
        Err(_) => Err(Fault::Memory),
    }
}

/// Has these bytes in a sector, from a place on.
pub fn put_in_sector(
    memory: &mut MemDisk,
    number: u64,
    place: usize,
    bytes: &[u8],
) -> Result<(), Fault> {
    let mut sector = read_sector(memory, number)?;
    put_over(&mut sector, place, bytes)?;
    write_sector(memory, number, &sector)
}

/// Whether a sector begins with these bytes, and has zeros behind them.
pub fn is_sector(alloc: Global, sector: &[u8; 512], front: &[u8]) -> Result<(), Fault> {
    let mut whole = [0; 512];
    put_over(&mut whole, 0, front)?;
    let Some((place, wanted, came)) = first_difference(&whole, sector) else {
        return Ok(());
    };
    let wanted = format!(in alloc; "{wanted:02x} at byte {place} of the sector")?;
    let came = format!(in alloc; "{came:02x}")?;
    Err(differs(alloc, wanted.as_str(), came.as_str())?)
}

/// The first place where a sector has another byte than is wanted, with both.
fn first_difference(wanted: &[u8; 512], came: &[u8; 512]) -> Option<(usize, u8, u8)> {
    for (place, (wanted, came)) in wanted.iter().zip(came.iter()).enumerate() {
        if wanted != came {
            return Some((place, *wanted, *came));
        }
    }
    None
}
