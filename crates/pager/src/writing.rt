//! Pages of a turn that are retired in the book, written, and kept in the cache.
ghost use Rattle.std.specs.Prelude.{◌≡◌, ◌<◌, ◌≤◌, IfOk, OnOk, length};
ghost use Rattle.std.specs.List.{AllByRecursion};
ghost use Rattle.freelist.specs.Book.{undone};
ghost use Rattle.page.specs.Content.{IsContent};
ghost use Rattle.page.specs.Format.{PageModel};
ghost use Rattle.pager.specs.Order.{pages_at};
ghost use Rattle.pager.specs.Writing.{Forgets, KeepsAll, retired_all, written_of};

use crate::cached_pages::keep_page;
use freelist::{FreePages, NoMemory};
use page::{PageCache, SharedPage};
use std::alloc::{AllocError, Global};

/// Retires these pages in the book, but those that aren't in use.
pub(crate) fn retire_all(book: &mut FreePages, pages: &[u32], version: u64) -> Result<(), NoMemory>
    ensures retired { OnOk result (book.new ≡ retired_all version pages.now book.old) }

    // What was retired can be taken back.
    ensures back { undone (length book.old.turn) book.new ≡ book.old }
    ensures longer { length book.old.turn ≤ length book.new.turn }
{
    for page in pages {
        book.retire(*page, version)?;
    }
    Ok(())
}

/// The pages that a commit writes, in the order of these places, as far as a tree may have them: those that the book has in use,
/// and those that were retired at this version where a pin keeps them.
pub(crate) fn pages_to_write(
    alloc: Global,
    book: &FreePages,
    made: &[SharedPage],
    places: &[u32],
    version: u64,
) -> Result<Vec<SharedPage>, AllocError>
    requires { AllByRecursion (λ place. place < length made.now) places.now }
    ensures written { IfOk result (λ v.
        v.items ≡ written_of version book.now (pages_at made.now places.now)) }
    ensures content { IfOk result (λ v.
        AllByRecursion (λ (model : PageModel). IsContent model.content) v.items) }
{
    let mut written = Vec::new(alloc);
    let keeps = book.keeps(version);
    for place in places {
        let shared = &made[*place as usize];
        let image = shared.image();
        if image.is_of_tree() && (book.is_in_use(image.page) || keeps) {
            written.push(shared.clone_ref()?)?;
        }
    }
    Ok(written)
}

/// Keeps those of these pages in the cache that a tree may have, as far as there is room and memory.
pub(crate) fn keep_all(cache: &mut PageCache, pages: &[SharedPage])
    ensures { KeepsAll pages.now cache.old cache.new }
{
    for shared in pages {
        let image = shared.image();
        if !image.is_of_tree() {
            continue;
        }
        keep_page(cache, image.page, shared);
    }
}

/// Keeps none of these pages in the cache.
pub(crate) fn forget_all(cache: &mut PageCache, pages: &[u32])
    ensures { Forgets pages.now cache.old cache.new }
{
    for page in pages {
        cache.remove(*page);
    }
}
