//! What each page of a file is.
ghost use Rattle.std.specs.Prelude.{◌≡◌, ◌<◌, ◌≤◌, ◌+◌, ◌-◌, ◌*◌, ◌++◌, [], true, false, IfOk, replicate, slice_set, get_or, List, length, max};
ghost use Rattle.freelist.specs.Book.{IsStart, is_in_use, least_free};
ghost use Rattle.freelist.specs.ListWriting.{unused_below};
ghost use Rattle.freelist.specs.Search.{MarksHold, IsFirst, IsNextUnused, NoneFits, fits, marks_after, marks_passed};
ghost use Rattle.freelist.specs.declared.states.PageState.{PageState};
ghost use Rattle.freelist.specs.declared.states.PageState.TheVariants as states;

use crate::book::NoMemory;
use std::alloc::Global;
use std::marker::Model;

/// So many pages are passed over at once where none of them is sought.
const BLOCK: usize = 256;

/// What a page is.
#[derive(Clone, Copy, Debug)]
pub(crate) enum PageState {
    /// It may be taken.
    Free,
    /// It was taken, or was in use at the opening, and wasn't retired since then.
    InUse,
    /// It was retired, and isn't free again yet.
    Retired,
}

/// Which pages a search looks for.
#[derive(Clone, Copy, Debug)]
enum Sought {
    /// Those that may be taken.
    Free,
    /// Those that aren't in use.
    Unused,
}

impl Sought {
    /// Whether a page in this state is one of them.
    fn fits(self, state: PageState) -> bool
        ensures { result ≡ fits self state }
    {
        match self {
            Sought::Free => matches!(state, PageState::Free),
            Sought::Unused => !matches!(state, PageState::InUse),
        }
    }
}

/// Where the first sought one of these pages stands. Their number where there is none.
fn place_of(sought: Sought, pages: &[PageState]) -> usize
    ensures { IsFirst sought 0 result pages.now }
{
    pages
        .iter()
        .position(|state| sought.fits(*state))
        .unwrap_or(pages.len())
}

/// Marks a block of which so many pages were passed over, if that is all of it.
#[tactic(auto, using(std::proofs::lemmas::List::set_past))]
fn mark_block(block: usize, passed: usize, marks: &mut [bool])
    ensures { marks.new ≡ marks_passed block passed marks.old }
{
    if passed == BLOCK && block < marks.len() {
        marks[block] = true;
    }
}

/// The next page at which a search looks, behind one that isn't sought: a sought one of its block, or the block's end.
fn behind(sought: Sought, page: usize, pages: &[PageState], marks: &mut [bool]) -> usize
    requires marked { MarksHold sought marks.old pages.now }
    requires inside { page < length pages.now }
    requires other { fits sought (get_or pages.now page states.InUse) ≡ false }
    ensures marked { MarksHold sought marks.new pages.now }
    ensures rises { page < result }
    ensures inside { result ≤ length pages.now }
    ensures passed { NoneFits sought page result pages.now }
{
    let block = page / BLOCK;
    let end = page + (BLOCK - page % BLOCK).min(pages.len() - page);
    if block < marks.len() && marks[block] {
        return end;
    }
    let passed = place_of(sought, &pages[page..end]);
    mark_block(block, passed, marks);
    page + passed
}

/// The first sought page from this one on. A page past the limit where there is none.
fn first_from(sought: Sought, from: usize, pages: &[PageState], marks: &mut [bool]) -> usize
    requires marked { MarksHold sought marks.old pages.now }
    ensures marked { MarksHold sought marks.new pages.now }
    ensures first { IsFirst sought from result pages.now }
{
    let mut page = from;
    while page < pages.len() {
        if sought.fits(pages[page]) {
            return page;
        }
        page = behind(sought, page, pages, marks);
    }
    page
}

/// Takes the mark from a page's block, where the page is sought in its new state.
#[tactic(auto, using(std::proofs::lemmas::List::set_past))]
fn unmark_block(sought: Sought, page: usize, state: PageState, marks: &mut [bool])
    ensures { marks.new ≡ marks_after sought page state marks.old }
{
    let block = page / BLOCK;
    if sought.fits(state) && block < marks.len() {
        marks[block] = false;
    }
}

/// Where the search for a free page begins once a page is in a new state.
fn start_after(start: usize, page: usize, state: PageState) -> usize
    ensures { (pages : List PageState) → IsStart start pages
        → IsStart result (slice_set pages page state) }
{
    if Sought::Free.fits(state) && 0 < page {
        start.min(page)
    } else {
        start
    }
}

/// What each page below a file's limit is.
#[derive(Drop)]
pub(crate) struct PageStates {
    list: Vec<PageState>,
    /// From page 1 on, no page below this one is free.
    start: usize,
    /// Of each block of pages, whether it is known that none of them is free.
    full: Vec<bool>,
    /// Of each block of pages, whether it is known that all of them are in use.
    used: Vec<bool>,
}

impl Model for PageStates {
    ghost use Rattle.std.specs.Prelude.{List};
    ghost use Rattle.std.specs.Coded.{coded_list};
    ghost use Rattle.freelist.specs.declared.states.PageState.{PageState};
    ghost use Rattle.freelist.specs.Coding.{state_code};
    ghost use Rattle.freelist.specs.Search.{IsSearch};

    ghost Value = { List PageState };

    ghost coded = { coded_list state_code };

    ghost view = { λ a. a.list.items };

    ghost invariant = { λ a. IsSearch a.start a.full.items a.used.items a.list.items };
}

impl PageStates {
    ghost use Rattle.freelist.specs.declared.states.PageState.TheVariants as states;

    /// So many pages, all free. Page 0 is always one of them.
    pub(crate) fn new(alloc: Global, limit: u32) -> Result<PageStates, NoMemory>
        ensures { IfOk result (λ pages. pages ≡ replicate (max limit 1) states.Free) }
    {
        let count = limit.max(1) as usize;
        Ok(PageStates {
            list: vec![in alloc; PageState::Free; count]?,
            start: 1,
            full: vec![in alloc; false; count / BLOCK]?,
            used: vec![in alloc; false; count / BLOCK]?,
        })
    }

    /// So many pages in use, and free ones behind them up to a limit, if it isn't reached yet. There is page 0 at least.
    pub(crate) fn filled(alloc: Global, in_use: u32, limit: u32) -> Result<PageStates, NoMemory>
        ensures { IfOk result (λ pages. pages ≡ replicate in_use states.InUse
            ++ replicate (max (max limit in_use) 1 - in_use) states.Free) }
    {
        let count = limit.max(in_use).max(1) as usize;
        let mut list = vec![in alloc; PageState::InUse; in_use as usize]?;
        list.resize(count, PageState::Free)?;
        Ok(PageStates {
            list,
            start: 1,
            full: vec![in alloc; false; count / BLOCK]?,
            used: vec![in alloc; false; count / BLOCK]?,
        })
    }

    /// Whether a page is in use.
    pub(crate) fn is_in_use(&self, page: u32) -> bool
        ensures { result ≡ is_in_use self.now page }
    {
        matches!(self.list.get(page as usize), Some(PageState::InUse))
    }

    /// The next page from this one to below that one that isn't in use, or that one where all are.
    fn next_unused(&mut self, from: usize, end: usize) -> usize
        ensures same { self.new ≡ self.old }
        ensures next { IsNextUnused from end result self.old }
    {
        let first = first_from(Sought::Unused, from.max(1), &self.list, &mut self.used);
        if first < self.list.len() {
            first.min(end)
        } else {
            end
        }
    }

    /// Whether a page below this one isn't in use.
    pub(crate) fn has_unused(&mut self, end: usize) -> bool
        ensures same { self.new ≡ self.old }
        ensures some { result ≡ true → 0 < length (unused_below end self.old) }
        ensures none { result ≡ false → unused_below end self.old ≡ [] }
    {
        self.next_unused(0, end) < end
    }

    /// How many of the pages from this one to below that one aren't in use.
    pub(crate) fn count_unused(&mut self, from: usize, to: usize) -> usize
        ensures same { self.new ≡ self.old }
        ensures count { from ≤ to → length (unused_below from self.old) + result
            ≡ length (unused_below to self.old) }
    {
        let mut count = 0;
        let mut page = self.next_unused(from, to);
        while page < to {
            count += 1;
            page = self.next_unused(page + 1, to);
        }
        count
    }

    /// The pages below this one that aren't in use, in ascending order.
    pub(crate) fn unused_below(&mut self, alloc: Global, end: usize) -> Result<Vec<u32>, NoMemory>
        ensures same { self.new ≡ self.old }
        ensures list { IfOk result (λ v. v.items ≡ unused_below end self.old) }
    {
        let mut unused = Vec::new(alloc);
        let mut page = self.next_unused(0, end);
        while page < end {
            unused.push(page as u32)?;
            page = self.next_unused(page + 1, end);
        }
        Ok(unused)
    }

    /// The least free page from page 1 on.
    pub(crate) fn least_free(&mut self) -> Option<u32>
        ensures result { result ≡ least_free self.old }
        ensures same { self.new ≡ self.old }
    {
        self.start = first_from(Sought::Free, self.start, &self.list, &mut self.full);
        if self.start < self.list.len() {
            Some(self.start as u32)
        } else {
            None
        }
    }

    /// Says of a page below the limit what it is from now on.
    pub(crate) fn set(&mut self, page: u32, state: PageState)
        ensures { self.new ≡ slice_set self.old page state }
    {
        let at = page as usize;
        if let Some(place) = self.list.get_mut(at) {
            *place = state;
        }
        self.start = start_after(self.start, at, state);
        unmark_block(Sought::Free, at, state, &mut self.full);
        unmark_block(Sought::Unused, at, state, &mut self.used);
    }
}
