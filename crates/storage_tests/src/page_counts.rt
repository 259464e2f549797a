//! How many pages files have, and what is free again: no contract bounds the pages of a tree.

use btree::{insert, remove};
use freelist::{FreePages, NoMemory};
use page::{MemDisk, PageContent};
use pager::Pager;
use roots::Store;
use std::alloc::Global;
use std::test::Fail;
use tree_model::Pages;

/// The longest value.
const VALUE: &[u8] = &[7; 65_535];

/// The tree of nothing in a file of at most so many pages.
fn new_file(alloc: Global, limit: u32) -> Result<Pager<MemDisk>, &'static str> {
    match Pager::open(alloc, MemDisk::new(alloc), limit) {
        Ok(pager) => Ok(pager),
        Err(_) => Err("zeros don't open"),
    }
}

/// A turn that puts a value of so many bytes at a number's key of so many bytes, or takes it away.
fn turn(
    alloc: Global,
    pager: &mut Pager<MemDisk>,
    number: u32,
    size: usize,
    value: Option<usize>,
) -> bool {
    let mut bytes = [0; 1024];
    bytes[..4].copy_from_slice(&number.to_be_bytes());
    let key = &bytes[..size.min(1024)];
    let root = pager.root();
    let changed = match value {
        Some(len) => insert(alloc, pager, root, key, &VALUE[..len.min(65_535)]),
        None => remove(alloc, pager, root, key),
    };
    match changed {
        Ok(root) => pager.commit(root).is_ok(),
        Err(_) => false,
    }
}

/// How many pages a turn can take now, up to so many. They are taken back.
fn count_free(alloc: Global, pager: &mut Pager<MemDisk>, limit: u32) -> u32 {
    let mark = pager.mark();
    let mut count: u32 = 0;
    for _ in 0..limit {
        let content = PageContent::Chain {
            next: 0,
            bytes: Vec::new(alloc),
        };
        if pager.allocate(content).is_err() {
            break;
        }
        count = count.saturating_add(1);
    }
    pager.undo_to(mark);
    count
}

/// How many pages the file has, with page 0.
fn pages_of(pager: Pager<MemDisk>) -> u32 {
    match Store::open(pager.into_disk()) {
        Ok(store) => store.root().pages,
        Err(_) => u32::MAX,
    }
}

/// So many keys of so many bytes, with values of these lengths; how many pages the file may have, and how
/// many it needs at most.
///
/// An entry of 17 and 100 bytes takes 6 more. A leaf of less than nine twentieths of its 4,080 bytes, 14 entries or
/// fewer, is joined with the page beside it, unless the last change came behind all of them: some 67 leaves at most,
/// and 45 for such ends. A child takes 6 + 17 bytes of a branch, and 44 are less than a quarter: 3 branches at most,
/// and a root. A turn makes two pages on each of three
/// levels at most, and a new root; the list of free pages has one, and the one before it another. With page 0
/// these are 126, where a page that is free is taken before a new one; 140 are let pass. A file that lost a
/// page each turn would have 2,000.
///
/// A key of 1,014 bytes and 330 of its value are 1,350, so a leaf has three entries or four, and a branch
/// four children.
const COMING: [(u32, usize, &[usize], u32, u32); 2] = [
    (1_000, 17, &[100], 400, 140),
    (200, 1_014, &[330, 0, 331, 1, 330, 65_535], 2_000, 2_000),
];

/// Puts entries of these lengths, each in a turn, in another order than that of their keys.
fn come(
    alloc: Global,
    pager: &mut Pager<MemDisk>,
    keys: u32,
    size: usize,
    lengths: &[usize],
) -> bool {
    for i in 0..keys {
        let length = lengths.iter().cycle().nth(i as usize).copied();
        if !turn(alloc, pager, i.wrapping_mul(389) % keys, size, length) {
            return false;
        }
    }
    true
}

/// Removes them in a third order.
fn go(alloc: Global, pager: &mut Pager<MemDisk>, keys: u32, size: usize) -> bool {
    for i in 0..keys {
        if !turn(alloc, pager, i.wrapping_mul(123) % keys, size, None) {
            return false;
        }
    }
    true
}

#[test]
fn entries_come_and_go(rt: HostRuntime) -> Result<(), Fail> {
    let alloc = rt.alloc();
    for (keys, size, lengths, limit, most) in COMING {
        let mut pager = new_file(alloc, limit)?;
        assert!(rt; come(alloc, &mut pager, keys, size, lengths), "{keys} keys");
        assert!(rt;
            go(alloc, &mut pager, keys, size) && pager.root() == 0,
            "{keys} keys"
        );
        // all but page 0, and the list that names all others: 1,019 with each page of its own
        let free = count_free(alloc, &mut pager, 3_000);
        let pages = pages_of(pager);
        let listed = pages.saturating_sub(1).div_ceil(1_020);
        assert!(rt;
            free.saturating_add(listed) == limit - 1 && pages <= most,
            "{free} free of {pages} pages"
        );
    }
    Ok(())
}

/// A key of 17 bytes and a value of 330 take 353 with their lengths: 11 go into a leaf's 4,080 bytes. Two
/// thousand in ascending order fill 182 leaves. A branch has 59 children of 6 + 17 bytes where it is filled
/// to a third: 4 branches at most, and a root. One leaf more may stand at the end, where two share what is
/// left, and with page 0 these are 189. A turn makes two pages on each of three levels at most, and a new
/// root, and the list of free pages and the one before have one each.
#[test]
fn rising_entries_fill_their_leaves(rt: HostRuntime) -> Result<(), Fail> {
    let alloc = rt.alloc();
    let mut pager = new_file(alloc, 1_000)?;
    for key in 0..2_000 {
        assert!(rt; turn(alloc, &mut pager, key, 17, Some(330)));
    }
    let pages = pages_of(pager);
    assert!(rt; pages <= 189 + 7 + 2, "{pages} pages");
    Ok(())
}

/// Lengths of the value at one key, turn by turn, and the pages of its tree and of the list of free pages: a
/// leaf, one for each 4,076 bytes of a value of more than 330, and from the second turn on the list's.
const LENGTHS: [(usize, u32); 9] = [
    (330, 1),
    (331, 3),
    (65_535, 19),
    (331, 3),
    (65_534, 19),
    (4_076, 3),
    (4_077, 4),
    (0, 2),
    (65_535, 19),
];

/// The old value and the new one have 18 pages each at most, and their lists one each: with page 0 the file
/// has 39.
#[test]
fn values_replace_each_other(rt: HostRuntime) -> Result<(), Fail> {
    let mut pager = new_file(rt.alloc(), 100)?;
    for (length, pages) in LENGTHS {
        assert!(rt; turn(rt.alloc(), &mut pager, 0, 4, Some(length)));
        let free = count_free(rt.alloc(), &mut pager, 200);
        assert_eq!(rt; free.wrapping_add(pages), 99, "{length}");
    }
    assert!(rt; pages_of(pager) <= 39);
    Ok(())
}

/// What a book of two pages gives while a version is pinned that reaches page 1, before and after a commit,
/// and then.
fn taken(book: &mut FreePages) -> Result<[Option<u32>; 4], NoMemory> {
    book.pin(5)?;
    book.retire(1, 5)?;
    let pinned = book.take()?;
    book.commit(6);
    let committed = book.take()?;
    book.unpin(5);
    Ok([pinned, committed, book.take()?, book.take()?])
}

/// A server pins the version that an open cursor reads on in.
#[test]
fn pinned_pages_are_not_taken(rt: HostRuntime) -> Result<(), Fail> {
    let mut book = FreePages::open(rt.alloc(), &[1, 2], 3, 5)?;
    assert_eq!(rt; taken(&mut book)?, [None, None, Some(1), None]);
    assert_eq!(rt; (book.version(), book.failed_allocations()), (6, 3));
    Ok(())
}
