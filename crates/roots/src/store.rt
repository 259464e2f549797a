//! A store: its disk, and the root that it committed last.
ghost use Rattle.std.specs.Prelude.{◌≡◌, ◌≢◌, ◌+◌, ◌*◌, ◌<◌, ◌≤◌, Bool, IfOk, IfErr, OnOk, OnErr, ℕ, length, max};
ghost use Rattle.std.specs.List.{AllByRecursion};
ghost use Rattle.page.specs.History.{KeepsWord, now, reads};
ghost use Rattle.page.specs.Calls.{MakesCalls};
ghost use Rattle.page.specs.Crash.{ExtendsHistory, LeavesOnly, IsImageOutside};
ghost use Rattle.page.specs.Format.{PageModel, page_bytes};
ghost use Rattle.page.specs.Page.{IsSectorOf, page_at};
ghost use Rattle.roots.specs.Counting.{CountsPages};
ghost use Rattle.roots.specs.Commit.{CommitsRoot, LeavesPages, MovesDisk, MovesMaps};
ghost use Rattle.roots.specs.HeldFile.{HoldsNoFile};
ghost use Rattle.roots.specs.Image.{IsOnPages, model_at};
ghost use Rattle.roots.specs.Opening.{IsStoreOpened, IsStoreRefused};
ghost use Rattle.roots.specs.Store.{CountsFault, disk_history, durable_root, failed_reads, is_stopped, limit_in};
ghost use Rattle.roots.specs.Listed.{OnlyReads};
ghost use Rattle.roots.specs.Walk.{FindsFile, FindsFree, Looks, ReadsPageModel};
ghost use Rattle.roots.specs.Trusting.{trusting_store};
ghost use Rattle.roots.specs.Turn.{AreWritten, LieBehind, end_behind, numbers_of};

use crate::counting::{PageCounts, counts_of};
use crate::listing::{checked_list, read_fault, read_named};
use crate::opening::{OpenFault, read_root};
use crate::reachable_pages::{is_of_tree, reached_pages, read_model};
use crate::replace::replace;
use crate::root::{MAX_PAGES, Root};
use freelist::FreePages;
use page::{DeviceFault, Disk, PageImage, SharedPage, write_page};
use std::alloc::Global;
use trusted_disk::TrustedDisk;

/// The fewest pages that a limit leaves to a file.
pub const LEAST_LIMIT: u32 = 16;

/// How a file is opened.
#[derive(Clone, Copy, Debug, PartialEq, Eq)]
pub struct Config {
    /// The most pages of the file. Below 16 counts as 16, above 1,048,576 as that.
    pub max_pages: u32,
}

impl Config {
    /// The most pages of the file, if it hasn't more already: from 16 to 1,048,576.
    pub fn limit(self) -> u32
        ensures { result ≡ limit_in self }
    {
        if self.max_pages < LEAST_LIMIT {
            LEAST_LIMIT
        } else if self.max_pages > MAX_PAGES {
            MAX_PAGES
        } else {
            self.max_pages
        }
    }
}

/// Why a commit failed.
#[derive(Clone, Copy, Debug, PartialEq, Eq)]
pub enum CommitFault {
    /// A write or a sync failed, in this call or an earlier one. The store has stopped.
    Device = 1,
    /// Out of memory. Nothing changed.
    Memory,
    /// No greater generation is left, and nothing changed; or, to who makes a list of free pages, no page is
    /// free for it.
    Full,
}

impl CommitFault {
    ghost use Rattle.roots.specs.FaultNames.{commit_fault_name};

    /// The fault's name, as it is printed.
    pub fn name(self) -> &'static str
        ensures { result.now ≡ commit_fault_name self }
    {
        match self {
            CommitFault::Device => "Device",
            CommitFault::Memory => "Memory",
            CommitFault::Full => "Full",
        }
    }
}

fn greater(one: u32, other: u32) -> u32
    ensures { result ≡ max one other }
{
    if one < other { other } else { one }
}

/// The number of pages of a file that ends behind these, with page 0.
pub fn end_of(made: &[SharedPage]) -> u32
    ensures { AllByRecursion (λ (model : PageModel). model.page < 1048576) made.now
        → result ≡ end_behind 1 made.now }
{
    match made.last() {
        Some(last) => last.image().page.saturating_add(1),
        None => 1,
    }
}

/// Writes a page, which these bytes hold from then on.
fn write_shared<D: Disk>(
    disk: &mut D,
    shared: &SharedPage,
    bytes: &mut [u8; 4096],
) -> Result<(), DeviceFault>
    ensures extends { ExtendsHistory (D.history disk.old) (D.history disk.new) }
    ensures calls { MakesCalls 8 result (D.history disk.old) (D.history disk.new) }
    ensures any_moment { let before = now (D.history disk.old) in
        LeavesOnly (D.history disk.old) (D.history disk.new)
        (IsImageOutside before (IsSectorOf shared.now.page)) }
    ensures others { let before = now (D.history disk.old) in
        KeepsWord (D.history disk.new)
        → (k : ℕ) → (IsSectorOf shared.now.page k → ⊥) → now (D.history disk.new) k ≡ before k }
    ensures written { KeepsWord (D.history disk.new) → OnOk result
        (page_at (reads (now (D.history disk.new))) shared.now.page ≡ page_bytes shared.now) }
    ensures failed { KeepsWord (D.history disk.new)
        → OnErr result ((D.history disk.old).failed_writes < (D.history disk.new).failed_writes) }
{
    let image = shared.image();
    image.write(bytes);
    write_page(disk, image.page, bytes)
}

/// Writes pages in their order.
fn write_made<D: Disk>(disk: &mut D, made: &[SharedPage]) -> Result<(), DeviceFault>
    ensures extends { ExtendsHistory (D.history disk.old) (D.history disk.new) }
    ensures calls { MakesCalls (8 * length made.now) result
        (D.history disk.old) (D.history disk.new) }

    // Elsewhere a crash leaves what it could leave before.
    ensures any_moment { let before = now (D.history disk.old) in
        LeavesOnly (D.history disk.old) (D.history disk.new)
        (IsImageOutside before (IsOnPages (numbers_of made.now))) }
    ensures others { let before = now (D.history disk.old) in
        KeepsWord (D.history disk.new) → (k : ℕ) → (IsOnPages (numbers_of made.now) k → ⊥)
        → now (D.history disk.new) k ≡ before k }
    ensures written { KeepsWord (D.history disk.new) → LieBehind 0 made.now
        → OnOk result (AreWritten (reads (now (D.history disk.new))) made.now) }
    ensures failed { KeepsWord (D.history disk.new)
        → OnErr result ((D.history disk.old).failed_writes < (D.history disk.new).failed_writes) }
{
    let mut bytes = [0; 4096];
    for shared in made {
        write_shared(disk, shared, &mut bytes)?;
    }
    Ok(())
}

/// Writes pages, and behind them the root that names their tree.
fn write_commit<D: Disk>(disk: &mut D, made: &[SharedPage], root: Root) -> Result<(), DeviceFault>
    ensures extends { ExtendsHistory (D.history disk.old) (D.history disk.new) }
    ensures calls { MakesCalls (8 * length made.now + 3) result
        (D.history disk.old) (D.history disk.new) }
    ensures moves { MovesDisk made.now root result (D.history disk.old) (D.history disk.new) }
    ensures others { KeepsWord (D.history disk.new) → (k : ℕ) → 2 ≤ k
        → (IsOnPages (numbers_of made.now) k → ⊥)
        → reads (now (D.history disk.new)) k ≡ reads (now (D.history disk.old)) k }
    ensures written { KeepsWord (D.history disk.new) → LieBehind 0 made.now
        → OnOk result (AreWritten (reads (now (D.history disk.new))) made.now) }
    ensures failed { KeepsWord (D.history disk.new)
        → OnErr result ((D.history disk.old).failed_writes < (D.history disk.new).failed_writes) }
{
    write_made(disk, made)?;
    replace(disk, root.generation % 2, &root.sector())
}

/// How often a read has failed, behind one that was refused so, where so many had failed before.
fn failed_behind(fault: OpenFault, before: u64) -> u64
    ensures { CountsFault fault before result }
{
    match fault {
        OpenFault::Device => before.saturating_add(1),
        _ => before,
    }
}

/// A tree on a disk, made durable by one commit after another.
#[derive(Drop)]
pub struct Store<D> {
    disk: D,
    root: Root,
    stopped: bool,
    // how often a read of the disk has failed, as far as a u64 counts
    failed_reads: u64,
}

impl<D: Disk> Store<D> {
    /// Opens a disk that a crash may have left. It reads the two roots, writes nothing, and syncs before it
    /// answers. An `Err` hands the disk back.
    pub fn open(mut disk: D) -> Result<Store<D>, (D, OpenFault)>
        ensures opened { IfOk result (IsStoreOpened D.history disk) }
        ensures refused { IfErr result (λ e. IsStoreRefused D.history disk e.0 e.1) }
    {
        let root = match read_root(&mut disk) {
            Ok(root) => root,
            Err(fault) => return Err((disk, fault)),
        };
        match disk.sync() {
            Ok(()) => Ok(Store {
                disk,
                root,
                stopped: false,
                failed_reads: 0,
            }),
            Err(DeviceFault) => Err((disk, OpenFault::Device)),
        }
    }

    /// Hands the disk back as it is.
    pub fn into_disk(self) -> D
        ensures { result ≡ self.disk }
    {
        self.disk
    }

    /// The same store on the same disk, whose word counts from now on only where what the caller chooses is
    /// true.
    pub fn trusting(self) -> Store<TrustedDisk<D>>
        ghost trusted: { Bool }
        ensures { result ≡ trusting_store trusted self }
    {
        Store {
            disk: TrustedDisk::new(self.disk),
            root: self.root,
            stopped: self.stopped,
            failed_reads: self.failed_reads,
        }
    }

    /// The root that was committed last.
    pub fn root(&self) -> Root
        ensures { result ≡ durable_root self.now }
    {
        self.root
    }

    /// Whether a write or a sync has failed. A stopped store commits nothing any more.
    pub fn is_stopped(&self) -> bool
        ensures { result ≡ is_stopped self.now }
    {
        self.stopped
    }

    /// How often a read of the disk has failed since the store was opened, as far as a u64 counts.
    pub fn failed_reads(&self) -> u64
        ensures { result ≡ failed_reads self.now }
    {
        self.failed_reads
    }

    /// The page of this number, as the disk holds it under the root that was committed last. Damaged where it
    /// is no page of that file.
    pub fn read(&mut self, alloc: Global, page: u32) -> Result<PageImage, OpenFault>
        ensures looks { Looks result (disk_history D.history self.old)
            (disk_history D.history self.new) }
        ensures reads { ReadsPageModel D.history page result self.old self.new }
    {
        match read_model(alloc, &mut self.disk, self.root, page) {
            Ok(image) => Ok(image),
            Err(fault) => {
                self.failed_reads = failed_behind(fault, self.failed_reads);
                Err(fault)
            }
        }
    }

    /// The pages that the committed root reaches: those of its tree, then those of its list of free pages, if
    /// it names one; and the list's own once more. Damaged where they are no tree, or where the list isn't
    /// one or doesn't fit the tree. It reads each of them once.
    fn live_pages(&mut self, alloc: Global) -> Result<(Vec<u32>, Vec<u32>), OpenFault>
        ensures looks { Looks result (disk_history D.history self.old)
            (disk_history D.history self.new) }
        ensures same { OnlyReads D.history self.old self.new }
        ensures finds { FindsFile D.history result self.old self.new }
    {
        let mut live = match reached_pages(alloc, &mut self.disk, self.root) {
            Ok(live) => live,
            Err(fault) => {
                self.failed_reads = failed_behind(fault, self.failed_reads);
                return Err(fault);
            }
        };
        let list = checked_list(alloc, self, &live)?;
        live.extend_from_slice(&list.pages)?;
        Ok((live, list.pages))
    }

    /// Reads the root page of the committed tree, if it has one. Damaged where that is no page of a tree.
    fn check_tree_page(&mut self, alloc: Global) -> Result<(), OpenFault>
        ensures looks { Looks result (disk_history D.history self.old)
            (disk_history D.history self.new) }
        ensures same { OnlyReads D.history self.old self.new }
        ensures judged { let root = durable_root self.old in
            let models = model_at (reads (now (disk_history D.history self.old))) root in
            KeepsWord (disk_history D.history self.new)
            → IfErr result (λ fault. fault ≡ OpenFault.Damaged → HoldsNoFile models root) }
    {
        let tree = self.root.tree;
        if tree == 0 {
            return Ok(());
        }
        let image = self.read(alloc, tree)?;
        if is_of_tree(&image) {
            Ok(())
        } else {
            Err(OpenFault::Damaged)
        }
    }

    /// The book of a file whose root names a list of free pages, as the list tells it, and the list's own
    /// pages. It reads these, and the root page of the tree. Damaged where that is no page of a tree, or
    /// where the list is none.
    fn listed_pages(
        &mut self,
        alloc: Global,
        limit: u32,
    ) -> Result<(FreePages, Vec<u32>), OpenFault>
        requires { (durable_root self.old).free_list ≢ 0 }
        ensures looks { Looks result (disk_history D.history self.old)
            (disk_history D.history self.new) }
        ensures finds { FindsFree D.history limit result self.old self.new }
    {
        self.check_tree_page(alloc)?;
        let list = match read_named(alloc, self) {
            Ok(list) => list,
            Err(fault) => return Err(read_fault(fault)),
        };
        let Root {
            generation,
            pages,
            ..
        } = self.root;
        let book = FreePages::open_listed(alloc, &list.named, pages, limit, generation)?;
        Ok((book, list.pages))
    }

    /// The same of any file, found by a walk that reads each page of the tree once, and of the list, if the
    /// root names one. Damaged where they are no tree and no list that fits it.
    fn walked_pages(
        &mut self,
        alloc: Global,
        limit: u32,
    ) -> Result<(FreePages, Vec<u32>), OpenFault>
        ensures looks { Looks result (disk_history D.history self.old)
            (disk_history D.history self.new) }
        ensures finds { FindsFree D.history limit result self.old self.new }
    {
        let (in_use, listed) = self.live_pages(alloc)?;
        let limit = greater(limit, self.root.pages);
        let book = FreePages::open(alloc, &in_use, limit, self.root.generation)?;
        Ok((book, listed))
    }

    /// The book of the file's pages, in which those that the committed root reaches are in use. The others
    /// below the limit, or below the number of pages that the file has, are free. Beside it the own pages of
    /// the root's list. Where the root names a list, it is read, and of the tree the root page alone; else
    /// each page of the tree is, as in a file of an earlier docpage. Damaged where what is read is no such
    /// page.
    pub fn free_pages(
        &mut self,
        alloc: Global,
        limit: u32,
    ) -> Result<(FreePages, Vec<u32>), OpenFault>
        ensures looks { Looks result (disk_history D.history self.old)
            (disk_history D.history self.new) }
        ensures finds { FindsFree D.history limit result self.old self.new }
    {
        if self.root.free_list == 0 {
            self.walked_pages(alloc, limit)
        } else {
            self.listed_pages(alloc, limit)
        }
    }

    /// How many pages the file has, and how many of them nothing reaches: neither page 0 nor one that the
    /// committed root reaches is free. It reads each page of the tree and of the list once. Damaged where
    /// they are none.
    pub fn count_pages(&mut self, alloc: Global) -> Result<PageCounts, OpenFault>
        ensures looks { Looks result (disk_history D.history self.old)
            (disk_history D.history self.new) }
        ensures counts { CountsPages D.history result self.old self.new }
    {
        let (live, _) = self.live_pages(alloc)?;
        Ok(counts_of(self.root, live.len()))
    }

    /// Makes the tree below this page the committed one, with the list of free pages that begins with this
    /// page and names so many (0 and 0 for none). The pages that the turn made, the list's among them,
    /// ascend; they are written, then the next root: eight sectors a page, a sync, a sector, a sync. It reads
    /// nothing and takes no memory.
    pub fn commit(
        &mut self,
        made: &[SharedPage],
        tree: u32,
        free_list: u32,
        free_count: u32,
    ) -> Result<(), CommitFault>
        ensures commits { CommitsRoot D.history tree result self.old self.new }
        ensures calls { MakesCalls (8 * length made.now + 3) result
            (disk_history D.history self.old) (disk_history D.history self.new) }
        ensures moves { MovesMaps D.history made.now tree free_list free_count result
            self.old self.new }
        ensures pages { LeavesPages D.history made.now tree free_list free_count result
            self.old self.new }
    {
        if self.stopped {
            return Err(CommitFault::Device);
        }
        if self.root.generation == u64::MAX {
            return Err(CommitFault::Full);
        }
        // the number of pages never falls
        let root = Root {
            generation: self.root.generation + 1,
            tree,
            pages: greater(self.root.pages, end_of(made)),
            free_list,
            free_count,
        };
        match write_commit(&mut self.disk, made, root) {
            Ok(()) => {
                self.root = root;
                Ok(())
            }
            Err(_) => {
                self.stopped = true;
                Err(CommitFault::Device)
            }
        }
    }
}
