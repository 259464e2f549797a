//! The cache of pages: what was put last, what was removed, and which page goes where there is no room.

use page::{PageCache, PageContent, PageImage, SharedPage};
use std::alloc::{AllocError, Global};
use std::test::Fail;

/// A page of a chain with one byte.
fn chain_of(alloc: Global, page: u32, byte: u8) -> Result<SharedPage, AllocError> {
    let image = PageImage {
        page,
        generation: 1,
        content: PageContent::Chain {
            next: 0,
            bytes: Vec::from_slice(alloc, &[byte])?,
        },
    };
    SharedPage::new(alloc, image)
}

/// The byte of the page that is kept under this number, or None.
fn byte_of(cache: &mut PageCache, page: u32) -> Option<u8> {
    let shared = cache.get(page)?;
    match &shared.image().content {
        PageContent::Chain { bytes, .. } => bytes.first().copied(),
        _ => None,
    }
}

/// Puts pages of these numbers with a byte.
fn fill(
    cache: &mut PageCache,
    alloc: Global,
    from: u32,
    to: u32,
    byte: u8,
) -> Result<(), AllocError> {
    for page in from..to {
        cache.put(page, chain_of(alloc, page, byte)?);
    }
    Ok(())
}

/// What is kept of five pages.
fn kept(cache: &mut PageCache) -> [Option<u8>; 5] {
    [
        byte_of(cache, 1),
        byte_of(cache, 2),
        byte_of(cache, 3),
        byte_of(cache, 5),
        byte_of(cache, 1025),
    ]
}

/// Puts 1,025 pages, of which page 1 is read, and another byte for page 5; the byte that page 1 had.
fn fill_past_room(cache: &mut PageCache, alloc: Global) -> Result<Option<u8>, AllocError> {
    fill(cache, alloc, 1, 1025, 7)?;
    let byte = byte_of(cache, 1);
    fill(cache, alloc, 1025, 1026, 8)?;
    fill(cache, alloc, 5, 6, 30)?;
    Ok(byte)
}

/// 1,024 pages find room. Of 1,025 the one goes that was used longest ago, which is page 2, since page 1 was read.
#[test]
fn the_oldest_page_goes(rt: HostRuntime) -> Result<(), Fail> {
    let mut cache = PageCache::new(rt.alloc())?;
    let filled = fill_past_room(&mut cache, rt.alloc());
    let before = kept(&mut cache);
    cache.remove(5);
    let after = kept(&mut cache);
    drop(cache);
    assert_eq!(rt; filled?, Some(7));
    assert_eq!(rt; before, [Some(7), None, Some(7), Some(30), Some(8)]);
    assert_eq!(rt; after, [Some(7), None, Some(7), None, Some(8)]);
    Ok(())
}
