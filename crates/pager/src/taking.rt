//! A page is taken from the book, and made; and what was made is taken back.
ghost use Rattle.std.specs.Prelude.{◌≡◌, nat_lt, Some, IfOk, IfErr};
ghost use Rattle.std.specs.List.{filter};
ghost use Rattle.freelist.specs.Book.{Takes};
ghost use Rattle.page.specs.Format.{IsFit, PageModel};
ghost use Rattle.tree_model.specs.View.{content_in};
ghost use Rattle.pager.specs.Calls.{Refuses};

use freelist::FreePages;
use page::{PageContent, PageImage, SharedPage};
use std::alloc::Global;
use tree_model::TreeFault;

/// Makes a page of this content on the least free page.
pub(crate) fn take_page(
    alloc: Global,
    book: &mut FreePages,
    generation: u64,
    content: PageContent,
) -> Result<SharedPage, TreeFault>
    requires { IsFit (content_in content) }
    ensures taken { IfOk result (λ shared. Takes (Some shared.page) book.old book.new) }
    ensures generation { IfOk result (λ shared. shared.generation ≡ generation) }
    ensures content { IfOk result (λ shared. shared.content ≡ content_in content) }
    ensures refused { IfErr result (λ fault. Refuses fault book.old book.new) }
{
    let mark = book.mark();
    let Some(page) = book.take()? else {
        return Err(TreeFault::Full);
    };
    let image = PageImage {
        page,
        generation,
        content,
    };
    let Ok(shared) = SharedPage::new(alloc, image) else {
        book.undo_to(mark);
        return Err(TreeFault::Memory);
    };
    Ok(shared)
}

/// Keeps the places below this number of pages, in their order.
pub(crate) fn keep_lower(places: &mut Vec<u32>, count: usize)
    ensures { places.new.items ≡ filter (λ place. nat_lt place count) places.old.items }
{
    places.retain(|place| (*place as usize) < count);
}
