//! Turns of a database file.

ghost use Rattle.std.specs.Prelude.{◌≡◌};

use crate::mark::Mark;
use crate::remembered::{Remembered, forget_tree};
use page::Disk;
use pager::Pager;
use roots::{CommitFault, OpenFault, PageCounts};
use std::alloc::Global;
use std::marker::Model;
use trusted_disk::TrustedDisk;

/// The collections of a database file: a turn begins with those that are committed, changes them by edits of the tree, and is made
/// durable or taken back as a whole.
pub struct Collections<D: Disk> {
    pub(crate) alloc: Global,
    pub(crate) pager: Pager<D>,
    /// The root page of the turn's tree, 0 where it is empty.
    pub(crate) root: u32,
    /// Where the turn began.
    begun: pager::Mark,
    /// What the catalogue said of the last collection that was asked for. It names a tree only while that has what it said.
    pub(crate) remembered: Option<Remembered>,
}

// (written out, so that no crate above proves again that pages and their cache are let go)
impl<D: Disk + Drop> Drop for Collections<D> {
    fn drop(self) {
        let Collections {
            alloc: _,
            pager: _,
            root: _,
            begun: _,
            remembered: _,
        } = self;
    }
}

impl<D: Disk> Model for Collections<D> {
    ghost use Rattle.collections.specs.State.{State};

    ghost Value = { State D };

    ghost use Rattle.std.specs.Prelude.{◌≡◌};
    ghost use Rattle.collections.specs.Remembering.{IsRemembered};

    ghost view = { λ a. record { pager = a.pager; root = a.root } };

    ghost invariant = { λ a. (a.begun.made ≡ 0) × (a.begun.retired ≡ 0)
        × IsRemembered D.history (record { pager = a.pager; root = a.root }) a.remembered };
}

impl<D: Disk> Collections<D> {
    ghost use Rattle.std.specs.Prelude.{Bool, IfErr, IfOk};
    ghost use Rattle.pager.specs.Asking.{OnlyWrites};
    ghost use Rattle.collections.specs.Committing.{CommitsCollections};
    ghost use Rattle.collections.specs.Counting.{CountsPages};
    ghost use Rattle.collections.specs.Marks.{IsMarkOf, ReturnsTo, Undoes};
    ghost use Rattle.collections.specs.Opening.{HasLimit, AreCollectionsOpened, AreCollectionsRefused};
    ghost use Rattle.collections.specs.Trusting.{trusting_state};
    ghost use Rattle.collections.specs.Versions.{CommitsVersions, KeepsSinceStart, KeepsThen, pins_of};
    ghost use Rattle.collections.specs.View.{disk_history, generation, is_changed, is_stopped, pages_of};

    /// Opens a disk that a crash may have left, as a file of at most so many pages, or those that it has. It reads the list of free
    /// pages, and of the tree the root page alone; each page of the tree where the file has no list. An `Err` hands the disk back.
    pub fn open(alloc: Global, disk: D, limit: u32) -> Result<Collections<D>, (D, OpenFault)>
        ensures opened { IfOk result (AreCollectionsOpened D.history disk) }
        ensures limit { IfOk result (HasLimit limit) }
        ensures refused { IfErr result (λ e. AreCollectionsRefused D.history disk e.0 e.1) }
    {
        let pager = match Pager::open(alloc, disk, limit) {
            Ok(pager) => pager,
            Err((disk, fault)) => return Err((disk, fault)),
        };
        Ok(Collections {
            alloc,
            root: pager.root(),
            begun: pager.mark(),
            pager,
            remembered: None,
        })
    }

    /// Hands the disk back as it is.
    pub fn into_disk(self) -> D
        ensures { result ≡ self.pager.store.disk }
    {
        let Collections {
            alloc: _,
            pager,
            root: _,
            begun: _,
            remembered: _,
        } = self;
        pager.into_disk()
    }

    /// The same collections on the same disk, whose word counts from now on only where what the caller chooses is true.
    pub fn trusting(self) -> Collections<TrustedDisk<D>>
        ghost trusted: { Bool }
        ensures { result ≡ trusting_state trusted self }
    {
        let Collections {
            alloc,
            pager,
            root,
            begun,
            remembered: _,
        } = self;
        Collections {
            alloc,
            pager: pager.trusting(),
            root,
            begun,
            remembered: None,
        }
    }

    /// Whether a write or a sync has failed. What has stopped commits nothing any more.
    pub fn is_stopped(&self) -> bool
        ensures { result ≡ is_stopped self.now }
    {
        self.pager.is_stopped()
    }

    /// How often a read of the disk has failed, as far as a u64 counts.
    pub fn failed_reads(&self) -> u64
        ensures { result ≡ (pages_of D.history self.now).failed_reads }
    {
        self.pager.failed_reads()
    }

    /// How often a page was asked for and none was free, as far as a u64 counts.
    pub fn failed_allocations(&self) -> u64
        ensures { result ≡ (pages_of D.history self.now).failed_allocations }
    {
        self.pager.failed_allocations()
    }

    /// The number of the commit that was the last one.
    pub fn generation(&self) -> u64
        ensures { result ≡ generation self.now }
    {
        self.pager.generation()
    }

    /// Whether the turn has changed something.
    pub fn is_changed(&self) -> bool
        ensures { result ≡ is_changed self.now }
    {
        self.root != self.pager.root()
    }

    /// How many pages the file has by the last commit, and how many of them nothing reaches. It reads each page of the committed
    /// tree from the disk. Damaged where these pages are no tree, Device where a write or a sync has failed.
    pub fn count_pages(&mut self) -> Result<PageCounts, OpenFault>
        ensures { CountsPages D.history result self.old self.new }
    {
        if self.pager.is_stopped() {
            return Err(OpenFault::Device);
        }
        self.pager.count_pages()
    }

    /// How far the turn has come.
    pub fn mark(&self) -> Mark
        ensures { IsMarkOf result self.now }
    {
        Mark {
            pages: self.pager.mark(),
            root: self.root,
        }
    }

    /// Takes back what the turn has done since a mark of it.
    pub fn undo_to(&mut self, mark: Mark)
        ensures returns { ReturnsTo D.history mark self.old self.new }
        ensures versions { KeepsThen D.history mark self.old self.new }
        ensures pins { pins_of self.new ≡ pins_of self.old }
    {
        forget_tree(&mut self.remembered);
        self.pager.undo_to(mark.pages);
        self.root = mark.root;
    }

    /// Takes back the whole turn.
    pub fn undo(&mut self)
        ensures undoes { Undoes D.history self.old self.new }
        ensures versions { KeepsSinceStart D.history self.old self.new }
        ensures pins { pins_of self.new ≡ pins_of self.old }
    {
        forget_tree(&mut self.remembered);
        self.pager.undo_to(self.begun);
        self.root = self.pager.root();
    }

    /// Makes the turn durable; the next one begins with what it leaves. An `Err` leaves the turn, to be undone. It reads nothing.
    pub fn commit(&mut self) -> Result<(), CommitFault>
        ensures commits { CommitsCollections D.history result self.old self.new }
        ensures calls { OnlyWrites D.history result self.old.pager self.new.pager }
        ensures versions { CommitsVersions D.history result self.old self.new }
        ensures pins { pins_of self.new ≡ pins_of self.old }
    {
        forget_tree(&mut self.remembered);
        self.pager.commit(self.root)
    }
}
