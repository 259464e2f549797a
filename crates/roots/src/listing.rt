//! The list of free pages of a file, read page by page.
ghost use Rattle.std.specs.Prelude.{◌≡◌, ◌≢◌, Err, IfOk};
ghost use Rattle.std.specs.Option.{option_map};
ghost use Rattle.freelist.specs.ListReading.{content_of};
ghost use Rattle.page.specs.View.{content_of as page_content};
ghost use Rattle.freelist.specs.FreeList.{written};
ghost use Rattle.freelist.specs.ListReading.{ReadsList};
ghost use Rattle.freelist.specs.declared.list_fault.ListFault.TheVariants as lists;
ghost use Rattle.page.specs.History.{KeepsWord};
ghost use Rattle.roots.specs.HeldFile.{ChecksStore, FitsTree};
ghost use Rattle.roots.specs.Image.{listed};
ghost use Rattle.roots.specs.Listed.{HasFailed, IsClear, OnlyReads, list_models, listed_by, listed_fault, read_fault};
ghost use Rattle.roots.specs.Store.{disk_history, durable_root};
ghost use Rattle.roots.specs.Walk.{Looks};

use crate::opening::OpenFault;
use crate::root::Root;
use crate::store::Store;
use freelist::{FreeList, ListFault, ListPage, ListPages, read_list};
use page::{Disk, PageContent, PageImage, SharedPage};
use std::alloc::{AllocError, Global};

/// What a page is of a list, if it is one of a list.
fn list_page(content: PageContent) -> Option<ListPage>
    ensures { option_map content_of result ≡ listed (page_content content) }
{
    match content {
        PageContent::FreeList { next, pages } => Some(ListPage { next, named: pages }),
        PageContent::Leaf(_) => None,
        PageContent::Branch(_) => None,
        PageContent::Chain { .. } => None,
    }
}

/// The pages of a list, in its order, as a commit of this generation writes them.
pub fn list_models(
    alloc: Global,
    list: &FreeList,
    generation: u64,
) -> Result<Vec<SharedPage>, AllocError>
    ensures { let parts = written list.now.pages.items list.now.named.items in
        IfOk result (λ v. v.items ≡ list_models generation parts) }
{
    let mut models = Vec::new(alloc);
    for at in 0..list.pages.len() {
        let part = list.part(alloc, at)?;
        let image = PageImage {
            page: list.pages[at],
            generation,
            content: PageContent::FreeList {
                next: part.next,
                pages: part.named,
            },
        };
        models.push(SharedPage::new(alloc, image)?)?;
    }
    Ok(models)
}

/// Why a page of a list wasn't read.
fn list_fault(fault: OpenFault) -> ListFault
    ensures { result ≡ listed_fault fault }
{
    match fault {
        OpenFault::Device => ListFault::Device,
        OpenFault::Memory => ListFault::Memory,
        _ => ListFault::Damaged,
    }
}

impl<D: Disk> ListPages for Store<D> {
    ghost use Rattle.page.specs.History.{KeepsWord};
    ghost use Rattle.roots.specs.Listed.{HasFailed, IsClear, OnlyReads, listed_by};
    ghost use Rattle.roots.specs.ListedLaws.{clear_more, clear_none, fails_later, reads_more, reads_none};
    ghost use Rattle.roots.specs.Store.{disk_history};

    ghost contents = { λ store. listed_by D.history store };

    ghost keeps_word = { λ store. KeepsWord (disk_history D.history store) };

    ghost reads = { λ old new. OnlyReads D.history old new };

    ghost has_failed = { λ old new. HasFailed D.history old new };

    ghost clear = { λ old new. IsClear D.history old new };

    ghost stays = { λ x. reads_none D.history x };

    ghost goes_on = { λ x y z. reads_more D.history x y z };

    ghost failed_later = { λ x y z. fails_later D.history x y z };

    ghost stays_clear = { λ x. clear_none D.history x };

    ghost clear_on = { λ x y z. clear_more D.history x y z };

    fn read_part(&mut self, alloc: Global, page: u32) -> Result<ListPage, ListFault> {
        let image = match self.read(alloc, page) {
            Ok(image) => image,
            Err(fault) => return Err(list_fault(fault)),
        };
        match list_page(image.content) {
            Some(part) => Ok(part),
            None => Err(ListFault::Damaged),
        }
    }
}

/// Why a file isn't opened whose list wasn't read.
pub(crate) fn read_fault(fault: ListFault) -> OpenFault
    ensures { result ≡ read_fault fault }
{
    match fault {
        ListFault::Device => OpenFault::Device,
        ListFault::Memory => OpenFault::Memory,
        ListFault::Damaged => OpenFault::Damaged,
    }
}

/// The list that the committed root names: one without pages where it names none.
pub(crate) fn read_named<D: Disk>(
    alloc: Global,
    store: &mut Store<D>,
) -> Result<FreeList, ListFault>
    ensures reads { OnlyReads D.history store.old store.new }
    ensures list { let root = durable_root store.old in KeepsWord (disk_history D.history store.new)
        → ReadsList (listed_by D.history store.old) root.pages root.free_list root.free_count result }
    ensures device { result ≡ Err lists.Device → HasFailed D.history store.old store.new }
    ensures clear { result ≢ Err lists.Device → IsClear D.history store.old store.new }
{
    let root = store.root();
    if root.free_list == 0 && root.free_count == 0 {
        return Ok(FreeList {
            pages: Vec::new(alloc),
            named: Vec::new(alloc),
        });
    }
    read_list(alloc, store, root.pages, root.free_list, root.free_count)
}

/// Whether the list that a root names, if it names one, fits the tree that reaches these pages: each page of the file is one of the
/// tree's, of the list's or named by it, and none two of these.
fn fits_tree(alloc: Global, root: Root, tree: &[u32], list: &FreeList) -> Result<bool, AllocError>
    ensures { IfOk result (FitsTree root tree.now list.now.pages.items list.now.named.items) }
{
    if root.free_list == 0 {
        return Ok(true);
    }
    list.fills(alloc, root.pages, tree)
}

/// The list that the committed root names, whose tree reaches these pages. Damaged where what it names is no list, or where a page
/// of the file is neither the tree's nor the list's nor named by it.
pub(crate) fn checked_list<D: Disk>(
    alloc: Global,
    store: &mut Store<D>,
    tree: &[u32],
) -> Result<FreeList, OpenFault>
    ensures reads { OnlyReads D.history store.old store.new }
    ensures looks { Looks result (disk_history D.history store.old)
        (disk_history D.history store.new) }
    ensures list { ChecksStore D.history tree.now result store.old store.new }
{
    let list = match read_named(alloc, store) {
        Ok(list) => list,
        Err(fault) => return Err(read_fault(fault)),
    };
    if !fits_tree(alloc, store.root(), tree, &list)? {
        return Err(OpenFault::Damaged);
    }
    Ok(list)
}
