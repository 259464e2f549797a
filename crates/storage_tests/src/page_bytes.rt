//! Pages as bytes: rows written out by hand, and the first fault of hostile ones.

use page::{PageFault, PageImage, chain_page, free_list_page};
use std::alloc::Global;

/// Page 7 of generation 3: "a" with the value "xy", and "b" with 331 bytes in a chain from page 9.
const LEAF: &[u8] = b"\x01\0\x02\0\x07\0\0\0\x03\0\0\0\0\0\0\0\
\x01\0\x02\0\0\0axy\x01\0\x4b\x01\0\0b\x09";

/// Page 8 of generation 3: page 5, and from the key "m" on page 6.
const BRANCH: &[u8] = b"\x02\0\x02\0\x08\0\0\0\x03\0\0\0\0\0\0\0\x05\0\0\0\x01\0m\x06";

/// Page 4 of generation 2: the end of a chain, with three bytes.
const CHAIN: &[u8] = b"\x03\0\x03\0\x04\0\0\0\x02\0\0\0\0\0\0\0\0\0\0\0\x0a\x14\x1e";

/// Page 3 of generation 2: the end of the free list, with the pages 5 and 300.
const FREE_LIST: &[u8] = b"\x04\0\x02\0\x03\0\0\0\x02\0\0\0\0\0\0\0\0\0\0\0\x05\0\0\0\x2c\x01";

/// Page 2 of generation 2: "k" with 331 bytes in a chain from page 3; that chain, of zeros; page 5 of generation 3: page 1, and from
/// the key "m" on page 4.
const VALUE: &[u8] = b"\x01\0\x01\0\x02\0\0\0\x02\0\0\0\0\0\0\0\x01\0\x4b\x01\0\0k\x03";

const VALUE_CHAIN: &[u8] = b"\x03\0\x4b\x01\x03\0\0\0\x02";

const PARTED: &[u8] = b"\x02\0\x02\0\x05\0\0\0\x03\0\0\0\0\0\0\0\x01\0\0\0\x01\0m\x04";

/// Page 7 of generation 3 up to its one cell: keys of 1, 1, 1,354 and 1,355 bytes, values of 330, 331 and no bytes.
const INLINE: &[u8] = b"\x01\0\x01\0\x07\0\0\0\x03\0\0\0\0\0\0\0\x01\0\x4a\x01\0\0";

const CHAINED: &[u8] = b"\x01\0\x01\0\x07\0\0\0\x03\0\0\0\0\0\0\0\x01\0\x4b\x01\0\0";

const LONG: &[u8] = b"\x01\0\x01\0\x07\0\0\0\x03\0\0\0\0\0\0\0\x4a\x05\0\0\0\0";

const TOO_LONG: &[u8] = b"\x01\0\x01\0\x07\0\0\0\x03\0\0\0\0\0\0\0\x4b\x05\0\0\0\0";

/// A page, the number under which it is read, a place in it and the bytes there, and the fault under the root of generation 3.
type Row = (&'static [u8], u32, usize, &'static [u8], Option<PageFault>);

const ROWS: [Row; 36] = [
    (LEAF, 7, 0, b"\x01", None),
    (FREE_LIST, 3, 0, b"\x04", None),
    // a leaf with a value in a chain, that chain, and a branch
    (VALUE, 2, 0, b"\x01", None),
    (VALUE_CHAIN, 3, 0, b"\x03", None),
    (PARTED, 5, 0, b"\x02", None),
    // kinds, and the byte behind them, which come before the number
    (LEAF, 7, 0, b"\0", Some(PageFault::Kind)),
    (LEAF, 7, 0, b"\x05", Some(PageFault::Kind)),
    (LEAF, 6, 1, b"\x01", Some(PageFault::Kind)),
    // another page, no generation, and one above the root's
    (LEAF, 6, 0, b"\x01", Some(PageFault::Number)),
    (LEAF, 7, 8, b"\0", Some(PageFault::Number)),
    (LEAF, 7, 8, b"\x04", Some(PageFault::Number)),
    (LEAF, 6, 2, b"\0", Some(PageFault::Number)),
    // none of the cells, fewer, more than a page has room for, and a byte behind them
    (LEAF, 7, 2, b"\0", Some(PageFault::Length)),
    (LEAF, 7, 2, b"\x01", Some(PageFault::Length)),
    (LEAF, 7, 3, b"\x03", Some(PageFault::Length)),
    (LEAF, 7, 4095, b"\x01", Some(PageFault::Length)),
    (BRANCH, 8, 2, b"\x01", Some(PageFault::Length)),
    (BRANCH, 8, 3, b"\x03", Some(PageFault::Length)),
    // keys that don't rise, which come last
    (LEAF, 7, 22, b"b", Some(PageFault::Order)),
    (LEAF, 7, 22, b"c", Some(PageFault::Order)),
    (
        LEAF,
        7,
        22,
        b"cxy\x01\0\x4b\x01\0\0b\x09\0\0\0\x01",
        Some(PageFault::Length),
    ),
    (BRANCH, 8, 2, b"\x03", Some(PageFault::Order)),
    // a page of a chain that goes on and isn't full, fewer bytes than there are, and more than there can be
    (CHAIN, 4, 16, b"\x01", Some(PageFault::Length)),
    (CHAIN, 4, 2, b"\x02", Some(PageFault::Length)),
    (CHAIN, 4, 3, b"\x10", Some(PageFault::Length)),
    // the same of the free list
    (FREE_LIST, 3, 2, b"\x01", Some(PageFault::Length)),
    (FREE_LIST, 3, 3, b"\x04", Some(PageFault::Length)),
    (FREE_LIST, 3, 4095, b"\x01", Some(PageFault::Length)),
    // 330 bytes of a value lie in the cell, 331 in a chain, and a cell has at most 1,360
    (INLINE, 7, 22, &[7; 331], None),
    (INLINE, 7, 22, &[7; 332], Some(PageFault::Length)),
    (CHAINED, 7, 22, &[7; 5], None),
    (CHAINED, 7, 22, &[7; 6], Some(PageFault::Length)),
    (CHAINED, 7, 22, &[7; 332], Some(PageFault::Length)),
    (LONG, 7, 22, &[7; 1354], None),
    (LONG, 7, 22, &[7; 1355], Some(PageFault::Length)),
    (TOO_LONG, 7, 22, &[7; 1355], Some(PageFault::Length)),
];

/// A page that begins with these bytes, has others at a place, and zeros behind.
pub(crate) fn page_of(front: &[u8], at: usize, bytes: &[u8]) -> [u8; 4096] {
    let mut page = [0; 4096];
    for (byte, new) in page.iter_mut().zip(front) {
        *byte = *new;
    }
    for (byte, new) in page.iter_mut().skip(at).zip(bytes) {
        *byte = *new;
    }
    page
}

/// The fault of a page under the root of generation 3. One that has none is written as it was read.
fn fault_of(alloc: Global, page: &[u8; 4096], number: u32) -> Result<bool, PageFault> {
    let image = PageImage::read(alloc, page, number, 3)?;
    let mut written = [1; 4096];
    image.write(&mut written);
    Ok(written == *page)
}

#[test]
fn pages_are_read_and_written(rt: HostRuntime) {
    for (row, (front, number, at, bytes, fault)) in ROWS.iter().enumerate() {
        let page = page_of(front, *at, bytes);
        let wanted = match fault {
            Some(fault) => Err(*fault),
            None => Ok(true),
        };
        assert_eq!(rt; fault_of(rt.alloc(), &page, *number), wanted, "row {row}");
    }
    assert!(rt; chain_page(2, 4, 0, &[10, 20, 30]) == page_of(CHAIN, 0, b"\x03"));
    assert!(rt; free_list_page(2, 3, 0, &[5, 300]) == page_of(FREE_LIST, 0, b"\x04"));
}
