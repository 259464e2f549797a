//! Sound files in which one thing is changed: they aren't opened, or they are where what is there then is sound too.

use crate::page_bytes::page_of;
use page::{MemDisk, write_page};
use pager::Pager;
use roots::OpenFault;
use std::alloc::Global;
use std::test::Fail;

/// Sector 1 up to its last byte that isn't zero: generation 1, the tree below page 1, 8 pages.
const ROOT: &[u8] = b"DOCPAGE1\x01\0\0\0\0\x10\0\0\x01\0\0\0\0\0\0\0\x01\0\0\0\x08";

/// Three levels: page 1 over 2 and, from "m" on, 3; page 2 over the leaves 4 and, from "g" on, 5; page 3 over the leaves 6
/// and, from "t" on, 7.
pub(crate) const TREE: [&[u8]; 7] = [
    b"\x02\0\x02\0\x01\0\0\0\x01\0\0\0\0\0\0\0\x02\0\0\0\x01\0m\x03",
    b"\x02\0\x02\0\x02\0\0\0\x01\0\0\0\0\0\0\0\x04\0\0\0\x01\0g\x05",
    b"\x02\0\x02\0\x03\0\0\0\x01\0\0\0\0\0\0\0\x06\0\0\0\x01\0t\x07",
    b"\x01\0\x01\0\x04\0\0\0\x01\0\0\0\0\0\0\0\x01\0\0\0\0\0a",
    b"\x01\0\x01\0\x05\0\0\0\x01\0\0\0\0\0\0\0\x01\0\0\0\0\0h",
    b"\x01\0\x01\0\x06\0\0\0\x01\0\0\0\0\0\0\0\x01\0\0\0\0\0m",
    b"\x01\0\x01\0\x07\0\0\0\x01\0\0\0\0\0\0\0\x01\0\0\0\0\0z",
];

/// A leaf whose values lie in chains: "k" with 8,000 bytes in the pages 2 and 3, "l" with 4,076 in page 4, "m" and "n" with
/// 331 each in the pages 5 and 6. Page 7 is a chain that nothing names.
pub(crate) const CHAINS: [&[u8]; 7] = [
    b"\x01\0\x04\0\x01\0\0\0\x01\0\0\0\0\0\0\0\x01\0\x40\x1f\0\0k\x02\0\0\0\
\x01\0\xec\x0f\0\0l\x04\0\0\0\x01\0\x4b\x01\0\0m\x05\0\0\0\x01\0\x4b\x01\0\0n\x06",
    b"\x03\0\xec\x0f\x02\0\0\0\x01\0\0\0\0\0\0\0\x03",
    b"\x03\0\x54\x0f\x03\0\0\0\x01",
    b"\x03\0\xec\x0f\x04\0\0\0\x01",
    b"\x03\0\x4b\x01\x05\0\0\0\x01",
    b"\x03\0\x4b\x01\x06\0\0\0\x01",
    b"\x03\0\x4b\x01\x07\0\0\0\x01",
];

/// Changes of the tree that leave a tree. Each is a page, a place in it, and the bytes there: the root of the last commit stands at
/// place 512 of page 0.
const TREE_SOUND: &[&str] = &[
    // the least and the greatest key of each leaf's range
    "4.22=00 4.22=66 5.22=67 5.22=6c 6.22=73 7.22=74 7.22=ff",
    // what parts two leaves moves between their keys
    "2.22=62 3.22=6e",
    // the tree is page 2 with what is below it, a leaf, or nothing
    "0.536=02 0.536=04 0.536=00",
    // as many pages as a file may have
    "0.540=00001000",
];

/// Changes that leave none.
const TREE_DAMAGED: &[&str] = &[
    // a child page 0, one behind the end of the file, one far behind it
    "1.16=00 1.23=00 2.23=00 1.16=08 1.23=08 3.23=08 1.23=ffffffff 2.26=01",
    // a branch below itself, at once and by way of its child
    "2.16=02 2.16=01",
    // a child in the place of another
    "1.16=03 3.16=07",
    // another page's number, and a number behind all
    "1.4=02 2.4=03 4.4=05 4.4=00 4.7=01",
    // no generation, and later ones than the root's
    "1.8=00 2.8=00 4.8=00 1.8=02 2.8=02 4.8=02 4.15=01",
    // kinds, and the byte behind them
    "1.0=00 4.0=00 4.0=05 4.0=02 2.0=01 2.0=03 4.0=03 1.1=01 4.1=01",
    // fewer cells or children than there are, and more
    "4.2=00 4.2=02 2.2=01 2.2=03 4.3=01 2.3=01",
    // keys that aren't below what parts their leaf from the next, or are below what parts it from the last
    "4.22=67 5.22=66 5.22=6d 6.22=6c 6.22=74 7.22=73",
    // what parts two leaves lies outside of their own branch's range
    "2.22=6d 2.22=6e 3.22=6d 3.22=6c",
    // leaves at two depths: the left one or the right one stands too high
    "1.16=04 1.23=07",
    // bytes behind the last cell and the last child, and at the end
    "4.23=01 4.4095=01 1.27=01 2.27=01 2.4095=01",
    // a free list in the place of a leaf and of a branch
    "4.0=04 2.0=04",
    // keys that fall
    "4.2=02000400000001000000000000000100000000006201000000000061",
    // the root of the tree is behind the end, and the end before a page; a list of free pages, and how many it names
    "0.536=08 0.540=07 0.544=01 0.548=01 0.540=01001000",
];

/// Changes of the chains that leave other bytes of the values.
const CHAINS_SOUND: &[&str] = &[
    // bytes of a value
    "2.20=07 2.4095=07 3.3943=07 5.350=07",
    // "n" lies in page 7
    "1.56=07",
];

/// Changes that leave no chain.
const CHAINS_DAMAGED: &[&str] = &[
    // the first page 0, behind the end, the leaf itself
    "1.23=00 1.23=08 1.23=01 1.26=01",
    // the chain of another value, of as many bytes, of others
    "1.56=05 1.45=04 1.34=02",
    // no page behind the first, one behind the end, itself, its leaf, one of too many bytes or too few
    "2.16=00 2.16=08 2.16=02 2.16=01 2.16=04 2.16=07",
    // a page behind the last, that is full or isn't
    "4.16=07 3.16=07 5.16=07",
    // values of a byte more or less than their chains, and of 65,536 more
    "1.18=41 1.18=3f 1.29=ed 1.29=eb 1.40=4c 1.31=01",
    // pages of a byte more or less, of none, and of more than there are
    "5.2=4a 5.2=4c 5.2=0000 2.2=ed",
    // pages of other kinds, of another number, of no generation and a later one
    "5.0=01 5.0=02 5.0=04 5.0=00 5.1=01 5.4=06 5.8=00 5.8=02 3.8=02",
    // bytes behind the value, at once and at the end
    "5.351=01 3.3944=01 5.4095=01",
];

/// A page, a place in it and the bytes there, as the tables write them.
fn change_of(alloc: Global, text: &str) -> Option<(u32, usize, Vec<u8>)> {
    let (place, bytes) = text.split_once('=')?;
    let (page, at) = place.split_once('.')?;
    let bytes = hex::decode(alloc, bytes).ok()?;
    Some((page.parse::<u32>().ok()?, at.parse::<usize>().ok()?, bytes))
}

/// Page 0 with its root, and other bytes at a place.
fn root_page(at: usize, bytes: &[u8]) -> [u8; 4096] {
    let mut page = page_of(&[], 512, ROOT);
    for (byte, new) in page.iter_mut().skip(at).zip(bytes) {
        *byte = *new;
    }
    page
}

/// A file of these pages with a change.
pub(crate) fn file_of(alloc: Global, fronts: &[&[u8]; 7], change: &str) -> Result<MemDisk, Fail> {
    let (changed, at, bytes) = change_of(alloc, change).ok_or("no change")?;
    let mut disk = MemDisk::new(alloc);
    write_page(
        &mut disk,
        0,
        &root_page(at, if changed == 0 { &bytes } else { b"" }),
    )?;
    for (i, front) in fronts.iter().enumerate() {
        let page = (i as u32).wrapping_add(1);
        let bytes = if page == changed {
            bytes.as_slice()
        } else {
            b""
        };
        write_page(&mut disk, page, &page_of(front, at, bytes))?;
    }
    Ok(disk)
}

/// The first of the changes in a line after which a file isn't answered so.
fn first_wrong<'a>(
    alloc: Global,
    fronts: &[&[u8]; 7],
    line: &'a str,
    wanted: Option<OpenFault>,
) -> Result<Option<&'a str>, Fail> {
    for change in line.split(' ') {
        let fault = match Pager::open(alloc, file_of(alloc, fronts, change)?, 20) {
            Ok(_) => None,
            Err((_, fault)) => Some(fault),
        };
        if fault != wanted {
            return Ok(Some(change));
        }
    }
    Ok(None)
}

/// Pages, changes of them, and the answer to each.
const ROWS: [(&[&[u8]; 7], &[&str], Option<OpenFault>); 4] = [
    (&TREE, TREE_SOUND, None),
    (&TREE, TREE_DAMAGED, Some(OpenFault::Damaged)),
    (&CHAINS, CHAINS_SOUND, None),
    (&CHAINS, CHAINS_DAMAGED, Some(OpenFault::Damaged)),
];

#[test]
fn changed_files(rt: HostRuntime) -> Result<(), Fail> {
    for (fronts, lines, wanted) in ROWS {
        for line in lines {
            assert_eq!(rt; first_wrong(rt.alloc(), fronts, line, wanted)?, None);
        }
    }
    Ok(())
}
