//! Rows of tables that are written as text.

use bson::NoMemory;
use std::alloc::Global;

/// The first part of a row and what stands behind its bar.
pub(crate) fn split(row: &str) -> (&str, &str) {
    match row.split_once('|') {
        Some((first, rest)) => (first.trim(), rest.trim()),
        None => (row, ""),
    }
}

/// Puts bytes in hexadecimal digits, and a mark behind them.
pub(crate) fn put_digits(
    out: &mut String,
    alloc: Global,
    bytes: &[u8],
    mark: char,
) -> Result<(), NoMemory> {
    out.push_str(hex::encode(alloc, bytes)?.as_str())?;
    out.push(mark)?;
    Ok(())
}
