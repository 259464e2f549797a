//! A list of free pages in the making.
ghost use Rattle.std.specs.Prelude.{◌≡◌, ◌+◌, ◌<◌, ◌++◌, ◌∷◌, [], true, max, slice_set, IfOk, OnOk};
ghost use Rattle.freelist.specs.Book.{is_in_use};
ghost use Rattle.freelist.specs.ListWriting.{Counts, needs_more};
ghost use Rattle.freelist.specs.declared.states.PageState.TheVariants as states;

use crate::book::NoMemory;
use crate::list::list_pages;
use crate::states::PageStates;
use std::alloc::Global;

/// A list in the making: its own pages so far, the page count of the file with them, and how many pages below that aren't in use.
#[derive(Drop)]
pub(crate) struct Draft {
    pub(crate) pages: Vec<u32>,
    pub(crate) page_count: usize,
    unused: usize,
}

impl Draft {
    /// A list with its first page, in a file of so many pages with it, of which so many aren't in use.
    pub(crate) fn first(
        alloc: Global,
        page: u32,
        page_count: usize,
        unused: usize,
    ) -> Result<Draft, NoMemory>
        ensures pages { IfOk result (λ draft. draft.pages.items ≡ page ∷ []) }
        ensures count { IfOk result (λ draft. draft.page_count ≡ page_count) }
        ensures unused { IfOk result (λ draft. draft.unused ≡ unused) }
    {
        let mut pages = Vec::new(alloc);
        pages.push(page)?;
        Ok(Draft {
            pages,
            page_count,
            unused,
        })
    }

    /// Whether the list has fewer pages of its own than it needs.
    pub(crate) fn needs_more(&self) -> bool
        ensures { result ≡ needs_more self.now }
    {
        self.pages.len() < list_pages(self.unused)
    }

    /// Notes a page that was taken for the list.
    pub(crate) fn note(&mut self, page: u32, pages: &mut PageStates) -> Result<(), NoMemory>
        requires some { 0 < page }
        requires taken { is_in_use pages.old page ≡ true }
        requires counts { Counts self.old (slice_set pages.old page states.Free) }
        ensures pages { OnOk result (self.new.pages.items ≡ self.old.pages.items ++ page ∷ []) }
        ensures count { OnOk result (self.new.page_count ≡ max self.old.page_count (page + 1)) }
        ensures counts { OnOk result (Counts self.new pages.old) }
        ensures same { pages.new ≡ pages.old }
    {
        self.pages.push(page)?;
        let page = page as usize;
        if page < self.page_count {
            self.unused -= 1;
        } else {
            self.unused += pages.count_unused(self.page_count, page);
            self.page_count = page + 1;
        }
        Ok(())
    }
}
