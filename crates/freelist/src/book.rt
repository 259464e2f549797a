//! The book of a file's pages.
ghost use Rattle.std.specs.Prelude.{◌≡◌, ◌-◌, ℕ, IfOk, OnOk, OnErr, max, length};
ghost use Rattle.freelist.specs.Book.{Book, Takes, is_in_use, is_pinned, retired, committed, pinned, unpinned, undone, opened};
ghost use Rattle.freelist.specs.FreeList.{opened_by};
ghost use Rattle.freelist.specs.ListWriting.{Counts, DraftsList, FindsRoom, GoesBack, IsDraft, WritesList};

use crate::draft::Draft;
use crate::list::FreeList;
use crate::states::{PageState, PageStates};
use crate::turns::{Change, Retirement, is_pinned, note, release, remove_pin, settle};
use std::alloc::{AllocError, Global};
use std::marker::Model;

/// A growth of memory was refused. What was asked for didn't happen.
pub type NoMemory = AllocError;

/// How far the running turn has come: `undo_to` leads back to here, until the turn ends.
#[derive(Clone, Copy, Debug, PartialEq, Eq)]
pub struct Mark {
    changes: usize,
}

/// The book of a file's pages: those in use, those that wait until no pinned version reaches them, and those that are
/// free. It knows no tree: whoever copies pages says what it retires, and at which version.
#[derive(Drop)]
pub struct FreePages {
    pages: PageStates,
    waiting: Vec<Retirement>,
    turn: Vec<Change>,
    pins: Vec<u64>,
    version: u64,
    failed_allocations: u64,
}

impl Model for FreePages {
    ghost use Rattle.std.specs.Prelude.{◌+◌, ◌≤◌, length, vec_capacity};
    ghost use Rattle.freelist.specs.Book.{Book};
    ghost use Rattle.freelist.specs.Coding.{book_code};

    ghost Value = { Book };

    ghost coded = { book_code };

    ghost view = { λ a. record {
      states = a.pages;
      waiting = a.waiting.items;
      turn = a.turn.items;
      pins = a.pins.items;
      version = a.version;
      failed_allocations = a.failed_allocations;
    } };

    ghost invariant = { λ a.
        length a.waiting.items + length a.turn.items ≤ vec_capacity a.waiting };
}

impl FreePages {
    /// The book of a file with these pages in use, that was committed at this version. Pages below the limit may be
    /// taken, which is the greater of the most pages that the file may have and those that it has.
    pub fn open(
        alloc: Global,
        in_use: &[u32],
        limit: u32,
        version: u64,
    ) -> Result<FreePages, NoMemory>
        ensures { IfOk result (λ book. book ≡ opened in_use.now (max limit 1) version) }
    {
        let mut pages = PageStates::new(alloc, limit)?;
        'pages: for page in in_use {
            pages.set(*page, PageState::InUse);
        }
        Ok(FreePages {
            pages,
            waiting: Vec::new(alloc),
            turn: Vec::new(alloc),
            pins: Vec::new(alloc),
            version,
            failed_allocations: 0,
        })
    }

    /// The book of a file with so many pages, whose list names these, that was committed at this version. The others of its pages
    /// are in use, and those from there to the limit are free.
    pub fn open_listed(
        alloc: Global,
        named: &[u32],
        page_count: u32,
        limit: u32,
        version: u64,
    ) -> Result<FreePages, NoMemory>
        ensures { IfOk result (λ book. book
            ≡ opened_by named.now page_count (max (max limit page_count) 1) version) }
    {
        let mut pages = PageStates::filled(alloc, page_count, limit)?;
        // page 0 holds the roots, and is never taken
        pages.set(0, PageState::Free);
        'pages: for page in named {
            pages.set(*page, PageState::Free);
        }
        Ok(FreePages {
            pages,
            waiting: Vec::new(alloc),
            turn: Vec::new(alloc),
            pins: Vec::new(alloc),
            version,
            failed_allocations: 0,
        })
    }

    /// Takes the least free page; `None` where no page is free, which is counted. An `Err` leaves all as it was.
    pub fn take(&mut self) -> Result<Option<u32>, NoMemory>
        ensures takes { IfOk result (λ found. Takes found self.old self.new) }
        ensures err { OnErr result (self.new ≡ self.old) }
    {
        let Some(page) = self.pages.least_free() else {
            self.failed_allocations = self.failed_allocations.saturating_add(1);
            return Ok(None);
        };
        note(&mut self.turn, &mut self.waiting, Change::Taken { page })?;
        self.pages.set(page, PageState::InUse);
        Ok(Some(page))
    }

    /// Retires a page that is in use: versions up to this one reach it. A page that isn't in use stays what it is. An
    /// `Err` leaves all as it was.
    pub fn retire(&mut self, page: u32, version: u64) -> Result<(), NoMemory>
        ensures retired { OnOk result (self.new ≡ retired page version self.old) }
        ensures err { OnErr result (self.new ≡ self.old) }
    {
        if !self.pages.is_in_use(page) {
            return Ok(());
        }
        note(
            &mut self.turn,
            &mut self.waiting,
            Change::Retired { page, version },
        )?;
        self.pages.set(page, PageState::Retired);
        Ok(())
    }

    /// Makes the list of a file of so many pages: it names all that aren't in use, also those that wait, and takes the least free
    /// pages for itself, which may lie behind the others. `None` where too few pages are free for that; then, and at an `Err`, all
    /// is as it was, but that a page was asked for and none was free is counted.
    pub fn write_list(
        &mut self,
        alloc: Global,
        page_count: u32,
    ) -> Result<Option<FreeList>, NoMemory>
        ensures list { IfOk result (λ found. WritesList page_count found self.old self.new) }
        ensures err { OnErr result (self.new ≡ self.old) }
    {
        let mark = self.mark();
        match self.draft_list(alloc, page_count) {
            Ok(Some(list)) => Ok(Some(list)),
            Ok(None) => {
                self.undo_to(mark);
                Ok(None)
            }
            Err(fault) => {
                self.undo_to(mark);
                Err(fault)
            }
        }
    }

    /// Makes the list. But for a list that was made, what it took is to be taken back.
    fn draft_list(&mut self, alloc: Global, page_count: u32) -> Result<Option<FreeList>, NoMemory>
        ensures list { IfOk result (λ found. DraftsList page_count found self.old self.new) }
        ensures err { OnErr result (GoesBack self.old self.old self.new) }
    {
        if !self.pages.has_unused(page_count as usize) {
            return Ok(Some(FreeList {
                pages: Vec::new(alloc),
                named: Vec::new(alloc),
            }));
        }
        let Some(page) = self.take()? else {
            return Ok(None);
        };
        let page_count = (page_count as usize).max(page as usize + 1);
        let named = self.pages.unused_below(alloc, page_count)?;
        let draft = Draft::first(alloc, page, page_count, named.len())?;
        if draft.needs_more() {
            drop(named);
            return self.draft_more(alloc, draft);
        }
        Ok(Some(FreeList {
            pages: draft.pages,
            named,
        }))
    }

    /// Makes the list of a draft that needs more pages.
    fn draft_more(&mut self, alloc: Global, draft: Draft) -> Result<Option<FreeList>, NoMemory>
        requires { Counts draft self.old.states }
        ensures list { (page_count : ℕ) (first : Book) → IsDraft page_count draft first self.old
            → IfOk result (λ found. DraftsList page_count found first self.new) }
        ensures err { (page_count : ℕ) (first : Book) → IsDraft page_count draft first self.old
            → OnErr result (GoesBack first first self.new) }
    {
        let Some(draft) = self.take_pages(draft)? else {
            return Ok(None);
        };
        let named = self.pages.unused_below(alloc, draft.page_count)?;
        Ok(Some(FreeList {
            pages: draft.pages,
            named,
        }))
    }

    /// Takes pages for the list until it has room.
    fn take_pages(&mut self, begun: Draft) -> Result<Option<Draft>, NoMemory>
        requires { Counts begun self.old.states }
        ensures pages { (page_count : ℕ) (first : Book) → IsDraft page_count begun first self.old
            → IfOk result (λ found. FindsRoom page_count found first self.new) }
        ensures err { (page_count : ℕ) (first : Book) → IsDraft page_count begun first self.old
            → OnErr result (GoesBack first first self.new) }
    {
        let mut draft = begun;
        while draft.needs_more() {
            let Some(page) = self.take()? else {
                return Ok(None);
            };
            draft.note(page, &mut self.pages)?;
        }
        Ok(Some(draft))
    }

    /// Whether the page was taken, or was in use at the opening, and wasn't retired since then.
    pub fn is_in_use(&self, page: u32) -> bool
        ensures { result ≡ is_in_use self.now.states page }
    {
        self.pages.is_in_use(page)
    }

    /// Ends the turn. What it retired is free, but for pages that a pin keeps, which wait.
    pub fn commit(&mut self, version: u64)
        ensures { self.new ≡ committed version self.old }
    {
        settle(&self.turn, &self.pins, &mut self.pages, &mut self.waiting);
        self.turn.clear();
        self.version = version;
    }

    /// Pins a version: pages that were retired at it or later aren't free before it is unpinned. An `Err` leaves all
    /// as it was.
    pub fn pin(&mut self, version: u64) -> Result<(), NoMemory>
        ensures pinned { OnOk result (self.new ≡ pinned version self.old) }
        ensures err { OnErr result (self.new ≡ self.old) }
    {
        self.pins.push(version)?;
        Ok(())
    }

    /// Takes one pin of a version away, and frees the pages that waited for it alone.
    pub fn unpin(&mut self, version: u64)
        ensures { self.new ≡ unpinned version self.old }
    {
        remove_pin(&mut self.pins, version);
        release(&self.pins, &mut self.pages, &mut self.waiting);
    }

    /// Whether a pin keeps what is retired at this version.
    pub fn keeps(&self, version: u64) -> bool
        ensures { result ≡ is_pinned self.now.pins version }
    {
        is_pinned(&self.pins, version)
    }

    /// How far the running turn has come.
    pub fn mark(&self) -> Mark
        ensures { result.changes ≡ length self.now.turn }
    {
        Mark {
            changes: self.turn.len(),
        }
    }

    /// Takes back what the turn took and retired since a mark of it. Pins stay.
    pub fn undo_to(&mut self, mark: Mark)
        ensures { self.new ≡ undone mark.changes self.old }
    {
        while mark.changes < self.turn.len() {
            self.undo_last();
        }
    }

    /// Takes back the last change.
    fn undo_last(&mut self)
        ensures { self.new ≡ undone (length self.old.turn - 1) self.old }
    {
        match self.turn.pop() {
            Some(Change::Taken { page }) => self.pages.set(page, PageState::Free),
            Some(Change::Retired { page, version: _ }) => self.pages.set(page, PageState::InUse),
            None => {}
        }
    }

    /// The version that was committed last.
    pub fn version(&self) -> u64
        ensures { result ≡ self.now.version }
    {
        self.version
    }

    /// How often a page was asked for and none was free. At its greatest value it stays.
    pub fn failed_allocations(&self) -> u64
        ensures { result ≡ self.now.failed_allocations }
    {
        self.failed_allocations
    }
}
