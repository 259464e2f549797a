//! Trees whose pages are written out byte by byte, read through a pager.

use crate::damaged_files::{CHAINS, TREE, file_of};
use btree::{Range, get, scan};
use page::MemDisk;
use pager::Pager;
use std::alloc::Global;
use std::test::Fail;
use tree_model::TreeFault;

/// A root page, a key, and the value there.
type Found = (u32, &'static [u8], Result<Option<&'static [u8]>, TreeFault>);

/// In three levels with empty values.
const IN_TREE: [Found; 10] = [
    (1, b"a", Ok(Some(b""))),
    (1, b"h", Ok(Some(b""))),
    (1, b"m", Ok(Some(b""))),
    (1, b"z", Ok(Some(b""))),
    (1, b"", Ok(None)),
    (1, b"b", Ok(None)),
    (1, b"zz", Ok(None)),
    (2, b"h", Ok(Some(b""))),
    (7, b"z", Ok(Some(b""))),
    (0, b"a", Ok(None)),
];

/// In a leaf whose values are zeros in chains. A page of a chain is no tree, nor is one that isn't there.
const IN_CHAINS: [Found; 7] = [
    (1, b"k", Ok(Some(&[0; 8_000]))),
    (1, b"l", Ok(Some(&[0; 4_076]))),
    (1, b"n", Ok(Some(&[0; 331]))),
    (2, b"k", Err(TreeFault::Kind)),
    (7, b"k", Err(TreeFault::Kind)),
    (8, b"k", Err(TreeFault::Number)),
    (u32::MAX, b"k", Err(TreeFault::Number)),
];

/// From which key and up to which a scan goes, how many entries it gives at most, the keys that it gives, and where it goes on.
type Scanned = (
    &'static [u8],
    Option<&'static [u8]>,
    usize,
    &'static [&'static [u8]],
    Option<&'static [u8]>,
);

const SCANNED: [Scanned; 5] = [
    (b"", None, 10, &[b"a", b"h", b"m", b"z"], None),
    (b"", None, 2, &[b"a", b"h"], Some(b"m")),
    (b"m", None, 2, &[b"m", b"z"], None),
    (b"b", Some(b"z"), 10, &[b"h", b"m"], None),
    (b"", None, 0, &[], Some(b"a")),
];

fn pager_of(alloc: Global, fronts: &[&[u8]; 7]) -> Result<Pager<MemDisk>, Fail> {
    match Pager::open(alloc, file_of(alloc, fronts, "0.0=00")?, 20) {
        Ok(pager) => Ok(pager),
        Err(_) => Err(Fail::from("it isn't opened")),
    }
}

/// Whether a root page and a key give this.
fn is_found(alloc: Global, pager: &mut Pager<MemDisk>, row: &Found) -> bool {
    let (root, key, wanted) = row;
    match (get(alloc, pager, *root, key), wanted) {
        (Ok(Some(value)), Ok(Some(wanted))) => value.as_slice() == *wanted,
        (Ok(None), Ok(None)) => true,
        (Err(fault), Err(wanted)) => fault == *wanted,
        _ => false,
    }
}

/// Whether a scan gives this.
fn is_scanned(alloc: Global, pager: &mut Pager<MemDisk>, row: &Scanned) -> bool {
    let (from, to, limit, keys, next) = row;
    let range = Range {
        from: *from,
        to: *to,
        limit: *limit,
    };
    match scan(alloc, pager, 1, range) {
        Ok(batch) => {
            batch.next.as_deref() == *next
                && batch.entries.len() == keys.len()
                && batch
                    .entries
                    .iter()
                    .zip(*keys)
                    .all(|(entry, key)| entry.key.as_slice() == *key)
        }
        Err(_) => false,
    }
}

/// The first row that isn't so.
fn first_wrong(alloc: Global, pager: &mut Pager<MemDisk>, rows: &[Found]) -> Option<usize> {
    for (row, found) in rows.iter().enumerate() {
        if !is_found(alloc, pager, found) {
            return Some(row);
        }
    }
    None
}

/// The first row that isn't so in a file of these pages.
fn wrong_in(alloc: Global, fronts: &[&[u8]; 7], rows: &[Found]) -> Result<Option<usize>, Fail> {
    let mut pager = pager_of(alloc, fronts)?;
    let wrong = first_wrong(alloc, &mut pager, rows);
    drop(pager);
    Ok(wrong)
}

#[test]
fn keys_are_found(rt: HostRuntime) -> Result<(), Fail> {
    assert_eq!(rt; wrong_in(rt.alloc(), &CHAINS, &IN_CHAINS)?, None);
    assert_eq!(rt; wrong_in(rt.alloc(), &TREE, &IN_TREE)?, None);
    Ok(())
}

/// The first scan that doesn't give what its row says.
fn first_wrong_scan(alloc: Global, pager: &mut Pager<MemDisk>, rows: &[Scanned]) -> Option<usize> {
    for (row, scanned) in rows.iter().enumerate() {
        if !is_scanned(alloc, pager, scanned) {
            return Some(row);
        }
    }
    None
}

#[test]
fn ranges_are_handed_out(rt: HostRuntime) -> Result<(), Fail> {
    let mut pager = pager_of(rt.alloc(), &TREE)?;
    let wrong = first_wrong_scan(rt.alloc(), &mut pager, &SCANNED);
    drop(pager);
    assert_eq!(rt; wrong, None);
    Ok(())
}
