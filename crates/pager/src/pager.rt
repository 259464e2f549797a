//! The pages of a database file.
ghost use Rattle.std.specs.Prelude.{◌≡◌};

use crate::cached_pages::read_page;
use crate::finding::{find_page, find_place};
use crate::mark::Mark;
use crate::planning::plan_commit;
use crate::taking::{keep_lower, take_page};
use crate::version::Version;
use crate::writing::{forget_all, keep_all};
use freelist::FreePages;
use page::{Disk, PageCache, PageContent, SharedPage};
use roots::{CommitFault, MAX_PAGES, OpenFault, PageCounts, Store};
use std::alloc::{AllocError, Global};
use std::marker::Model;
use tree_model::{Pages, TreeFault};
use trusted_disk::TrustedDisk;

/// The pages of a database file: those of the tree that is committed, read through a cache, and those that
/// the running turn has made and retired since then.
#[derive(Drop)]
pub struct Pager<D: Disk> {
    alloc: Global,
    store: Store<D>,
    cache: PageCache,
    book: FreePages,
    made: Vec<SharedPage>,
    /// Where each page was made, in ascending order of the pages' numbers.
    places: Vec<u32>,
    retired: Vec<u32>,
    /// The own pages of the list of free pages that the committed root names, if it names one.
    listed: Vec<u32>,
}

impl<D: Disk> Model for Pager<D> {
    ghost use Rattle.pager.specs.State.{State};

    ghost Value = { State D };

    ghost use Rattle.pager.specs.Kept.{IsKept};

    ghost view = { λ a. record {
      store = a.store;
      made = a.made.items;
      retired = a.retired.items;
      book = a.book;
    } };

    ghost invariant = { λ a. IsKept D.history a.store a.cache a.made.items a.book
        a.listed.items a.places.items };
}

impl<D: Disk> Pager<D> {
    ghost use Rattle.std.specs.Prelude.{Bool, IfOk, IfErr, length};
    ghost use Rattle.roots.specs.Store.{durable_root, failed_reads, is_stopped};
    ghost use Rattle.pager.specs.Asking.{OnlyWrites};
    ghost use Rattle.pager.specs.Capacity.{TreesFit};
    ghost use Rattle.pager.specs.Commit.{CommitsPages, CountsTakes, MovesTurns};
    ghost use Rattle.pager.specs.Counting.{CountsPages};
    ghost use Rattle.pager.specs.Limit.{IsWithinLimit, LimitStays, limit_of};
    ghost use Rattle.pager.specs.Opening.{HasLimit, IsPagerOpened, IsPagerRefused};
    ghost use Rattle.pager.specs.Pinning.{KeepsOlder, KeepsVersions, Pins, Unpins, VersionsStay};
    ghost use Rattle.pager.specs.State.{State};
    ghost use Rattle.pager.specs.Trusting.{trusting_pager};
    ghost use Rattle.pager.specs.Turn.{IsOrderly, LeadsBack, Returns, is_changed, undone_to};
    ghost use Rattle.pager.specs.View.{pager_history};

    /// Opens a disk that a crash may have left, as a file of at most so many pages, or those that it has. It
    /// reads the list of free pages, and of the tree the root page alone, where the root names a list; each
    /// page of the tree where it names none. An `Err` hands the disk back.
    pub fn open(alloc: Global, disk: D, limit: u32) -> Result<Pager<D>, (D, OpenFault)>
        ensures opened { IfOk result (IsPagerOpened D.history disk) }
        ensures limit { IfOk result (HasLimit limit) }
        ensures refused { IfErr result (λ e. IsPagerRefused D.history disk e.0 e.1) }
    {
        let mut store = match Store::open(disk) {
            Ok(store) => store,
            Err(refused) => return Err(refused),
        };
        let Ok(cache) = PageCache::new(alloc) else {
            return Err((store.into_disk(), OpenFault::Memory));
        };
        let (book, listed) = match store.free_pages(alloc, limit.min(MAX_PAGES)) {
            Ok(found) => found,
            Err(fault) => return Err((store.into_disk(), fault)),
        };
        Ok(Pager {
            alloc,
            store,
            cache,
            book,
            made: Vec::new(alloc),
            retired: Vec::new(alloc),
            places: Vec::new(alloc),
            listed,
        })
    }

    /// Hands the disk back as it is.
    pub fn into_disk(self) -> D
        ensures { result ≡ self.store.disk }
    {
        self.store.into_disk()
    }

    /// The same pager over the same disk, whose word counts from now on only where what the caller chooses is
    /// true.
    pub fn trusting(self) -> Pager<TrustedDisk<D>>
        ghost trusted: { Bool }
        ensures { result ≡ trusting_pager trusted self }
    {
        Pager {
            alloc: self.alloc,
            store: self.store.trusting(),
            cache: self.cache,
            book: self.book,
            made: self.made,
            places: self.places,
            retired: self.retired,
            listed: self.listed,
        }
    }

    /// The root page of the committed tree, or 0 where it is empty.
    pub fn root(&self) -> u32
        ensures { result ≡ (durable_root self.now.store).tree }
    {
        self.store.root().tree
    }

    /// The number of the commit that was the last one.
    pub fn generation(&self) -> u64
        ensures { result ≡ (durable_root self.now.store).generation }
    {
        self.store.root().generation
    }

    /// Whether a write or a sync has failed. A stopped pager commits nothing any more.
    pub fn is_stopped(&self) -> bool
        ensures { result ≡ is_stopped self.now.store }
    {
        self.store.is_stopped()
    }

    /// How often a read of the disk has failed, as far as a u64 counts.
    pub fn failed_reads(&self) -> u64
        ensures { result ≡ failed_reads self.now.store }
    {
        self.store.failed_reads()
    }

    /// How often a page was asked for and none was free, as far as a u64 counts.
    pub fn failed_allocations(&self) -> u64
        ensures { result ≡ self.now.book.failed_allocations }
    {
        self.book.failed_allocations()
    }

    /// Each page of the turn's tree is one of the file's and is reached once, so the tree has few entries.
    pub fn trees_fit(&self)
        ensures { TreesFit D.history self.now }
    {
        let _ = &self.made;
    }

    /// The file has no more pages than it may have, and each page of the turn is one that it may have.
    pub fn fits_limit(&self)
        ensures { IsWithinLimit self.now }
    {
        let _ = &self.made;
    }

    /// How many pages the file has by the last commit, and how many of them nothing reaches. It reads each
    /// page of the committed tree, and of the list that the root names, from the disk, not from the cache.
    /// Damaged where these pages are no tree, or no list that fits it.
    pub fn count_pages(&mut self) -> Result<PageCounts, OpenFault>
        ensures { CountsPages D.history result self.old self.new }
    {
        self.store.count_pages(self.alloc)
    }

    /// Whether the running turn has made or retired a page.
    pub fn is_changed(&self) -> bool
        ensures { result ≡ is_changed self.now }
    {
        !self.made.is_empty() || !self.retired.is_empty()
    }

    /// How far the running turn has come.
    pub fn mark(&self) -> Mark
        ensures orderly { IsOrderly self.now }
        ensures made { result.made ≡ length self.now.made }
        ensures retired { result.retired ≡ length self.now.retired }
    {
        Mark {
            book: self.book.mark(),
            made: self.made.len(),
            retired: self.retired.len(),
        }
    }

    /// Takes back what the turn has made and retired since a mark of it.
    pub fn undo_to(&mut self, mark: Mark)
        ensures undone { self.new ≡ undone_to mark.made mark.retired self.old }
        ensures begun { LeadsBack D.history mark.made mark.retired self.old self.new }
        ensures returns { Returns D.history mark.made mark.retired self.old self.new }
        ensures versions { KeepsOlder D.history mark.made self.old self.new }
        ensures limit { limit_of self.new ≡ limit_of self.old }
    {
        self.book.undo_to(mark.book);
        self.made.truncate(mark.made);
        self.retired.truncate(mark.retired);
        keep_lower(&mut self.places, mark.made);
    }

    /// Pins the tree below this page as it is now: what it reaches isn't free before it is unpinned, whatever
    /// is committed meanwhile. A version may be pinned several times. An `Err` leaves all as it was.
    pub fn pin(&mut self, root: u32) -> Result<Version, AllocError>
        ensures pins { Pins D.history root result self.old self.new }
        ensures limit { limit_of self.new ≡ limit_of self.old }
    {
        let generation = self.store.root().generation;
        self.book.pin(generation)?;
        Ok(Version { generation, root })
    }

    /// Ends a pin of a version, in the middle of a turn too. The pages that waited for it alone are free.
    pub fn unpin(&mut self, version: Version)
        ensures unpins { Unpins D.history version self.old self.new }
        ensures limit { limit_of self.new ≡ limit_of self.old }
    {
        self.book.unpin(version.generation);
    }

    /// What only reads, makes and retires pages keeps each version that is pinned.
    pub fn versions_stay()
        ensures { VersionsStay D.history }
    {}

    /// What only reads, makes and retires pages leaves the number of pages that the file may have.
    pub fn limit_stays()
        ensures { LimitStays D.history }
    {}

    /// Makes the tree below this page the committed one, with a list of the pages that are free then: the
    /// pages that the turn made and didn't retire are written, then those of the list, then the root. What it
    /// retired is free from then on, and so are the pages of the list that the last root named. `Full` where
    /// no page is free for the list. An `Err` leaves the turn, to be undone. It reads nothing.
    pub fn commit(&mut self, root: u32) -> Result<(), CommitFault>
        ensures commits { CommitsPages D.history root result self.old self.new }
        ensures takes { CountsTakes result self.old self.new }
        ensures calls { OnlyWrites D.history result self.old self.new }
        ensures moves { MovesTurns D.history root result self.old self.new }
        ensures versions { KeepsVersions D.history self.old self.new }
        ensures limit { limit_of self.new ≡ limit_of self.old }
    {
        if self.store.is_stopped() {
            return Err(CommitFault::Device);
        }
        let mark = self.book.mark();
        let plan = match plan_commit(
            self.alloc,
            &mut self.book,
            &self.made,
            &self.places,
            &self.retired,
            &self.listed,
            self.store.root(),
        ) {
            Ok(plan) => plan,
            Err(fault) => return Err(fault),
        };
        forget_all(&mut self.cache, &plan.listed);
        let list = plan.free_list;
        let count = plan.free_count;
        if let Err(fault) = self.store.commit(&plan.written, root, list, count) {
            self.book.undo_to(mark);
            return Err(fault);
        }
        self.book.commit(self.store.root().generation);
        keep_all(&mut self.cache, &plan.written);
        self.made.clear();
        self.retired.clear();
        self.places.clear();
        self.listed = plan.listed;
        Ok(())
    }
}

impl<D: Disk> Pages for Pager<D> {
    ghost use Rattle.pager.specs.View.{store_of};

    ghost store = { λ p. store_of D.history p };

    fn read(&mut self, page: u32) -> Result<SharedPage, TreeFault> {
        if let Some(shared) = find_page(&self.made, &self.places, page) {
            return Ok(shared.clone_ref()?);
        }
        read_page(self.alloc, &mut self.store, &mut self.cache, page)
    }

    fn allocate(&mut self, content: PageContent) -> Result<u32, TreeFault> {
        self.made.reserve(1)?;
        self.places.reserve(1)?;
        let generation = self.store.root().generation.saturating_add(1);
        let shared = take_page(self.alloc, &mut self.book, generation, content)?;
        let page = shared.image().page;
        self.cache.remove(page);
        let at = find_place(&self.made, &self.places, page);
        self.places.insert(at, self.made.len() as u32).unwrap();
        self.made.push(shared).unwrap();
        Ok(page)
    }

    fn retire(&mut self, page: u32) -> Result<(), TreeFault> {
        match self.retired.push(page) {
            Ok(()) => Ok(()),
            Err(_) => Err(TreeFault::Memory),
        }
    }
}
