//! Pages of the committed tree, from the cache or from the disk.
ghost use Rattle.std.specs.Prelude.{◌≡◌, IfErr};
ghost use Rattle.tree_model.specs.Reading.{IsNotFull};
ghost use Rattle.pager.specs.Calls.{Keeps, ReadsPage, tree_fault};

use page::{Disk, PageCache, SharedPage};
use roots::{OpenFault, Store};
use std::alloc::Global;
use tree_model::TreeFault;

/// Why a page of the tree wasn't read.
fn tree_fault(fault: OpenFault) -> TreeFault
    ensures { result ≡ tree_fault fault }
{
    match fault {
        OpenFault::Device => TreeFault::Device,
        OpenFault::Memory => TreeFault::Memory,
        _ => TreeFault::Number,
    }
}

/// Keeps a page in the cache, if there is memory for one more owner.
pub(crate) fn keep_page(cache: &mut PageCache, page: u32, shared: &SharedPage)
    ensures { Keeps page shared.now cache.old cache.new }
{
    if let Ok(more) = shared.clone_ref() {
        cache.put(page, more);
    }
}

/// The page of this number, as the disk holds it. It is kept in the cache from then on.
pub(crate) fn read_page<D: Disk>(
    alloc: Global,
    store: &mut Store<D>,
    cache: &mut PageCache,
    page: u32,
) -> Result<SharedPage, TreeFault>
    ensures reads { ReadsPage D.history page result store.old store.new cache.old cache.new }
    ensures full { IfErr result IsNotFull }
{
    if let Some(shared) = cache.get(page) {
        return Ok(shared);
    }
    let image = match store.read(alloc, page) {
        Ok(image) => image,
        Err(fault) => return Err(tree_fault(fault)),
    };
    let Ok(shared) = SharedPage::new(alloc, image) else {
        return Err(TreeFault::Memory);
    };
    keep_page(cache, page, &shared);
    Ok(shared)
}
