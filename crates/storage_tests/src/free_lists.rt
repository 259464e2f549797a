//! Lists of free pages: which pages they take and name, and one that is written to a disk and read.

use freelist::{FreeList, FreePages, ListFault, NoMemory, read_list};
use page::{Disk, MemDisk, write_page};
use roots::{Root, Store, list_models};
use std::alloc::Global;
use std::test::Fail;

/// How many pages each page of the list names, in a file of so many pages of which none but page 0 is in use.
fn listed(alloc: Global, pages: u32) -> Result<Vec<usize>, NoMemory> {
    let mut sizes = Vec::new(alloc);
    let mut book = FreePages::open(alloc, &[], pages, 1)?;
    if let Some(list) = book.write_list(alloc, pages)? {
        for at in 0..list.pages.len() {
            let part = list.part(alloc, at)?;
            sizes.push(part.named.len())?;
        }
    }
    Ok(sizes)
}

/// How many pages a file has, and how many each page of its list names: 1,019, and the last one what is left. The list's own pages
/// aren't among them.
const LISTS: [(u32, &[usize]); 5] = [
    (1, &[]),
    (2, &[0]),
    (1_021, &[1_019]),
    (1_022, &[1_019, 0]),
    (1_023, &[1_019, 1]),
];

#[test]
fn lists_have_the_pages_that_they_need(rt: HostRuntime) -> Result<(), Fail> {
    for (pages, sizes) in LISTS {
        assert_eq!(rt; listed(rt.alloc(), pages)?.as_slice(), sizes);
    }
    Ok(())
}

/// The one page that isn't in use was retired in this turn, so none is free for the list.
#[test]
fn a_list_without_room_is_refused(rt: HostRuntime) -> Result<(), Fail> {
    let mut book = FreePages::open(rt.alloc(), &[1], 2, 5)?;
    book.retire(1, 5)?;
    assert!(rt; book.write_list(rt.alloc(), 2)?.is_none());
    assert_eq!(rt; book.failed_allocations(), 1);
    Ok(())
}

/// Writes the root of an empty tree in nine pages, and the pages of their list.
fn write_out(alloc: Global, list: &FreeList, disk: &mut MemDisk) -> Result<bool, NoMemory> {
    let root = Root {
        generation: 1,
        tree: 0,
        pages: 9,
        free_list: 0,
        free_count: 0,
    };
    let mut written = disk.write(1, &root.sector()).is_ok();
    for model in &list_models(alloc, list, 1)? {
        let mut bytes = [0; 4096];
        model.image().write(&mut bytes);
        written = written && write_page(disk, model.image().page, &bytes).is_ok();
    }
    Ok(written)
}

#[test]
fn a_list_is_read_from_a_disk(rt: HostRuntime) -> Result<(), Fail> {
    let mut disk = MemDisk::new(rt.alloc());
    let mut book = FreePages::open(rt.alloc(), &[1, 4, 6, 8], 9, 1)?;
    if let Some(list) = book.write_list(rt.alloc(), 9)? {
        assert!(rt; write_out(rt.alloc(), &list, &mut disk)?);
    }
    let named = match Store::open(disk) {
        Ok(mut store) => read_list(rt.alloc(), &mut store, 9, 2, 3).map(|list| list.named),
        Err(_) => Err(ListFault::Damaged),
    };
    assert!(rt; named.is_ok_and(|named| named.as_slice() == [3, 5, 7].as_slice()));
    Ok(())
}
