// Values that lie in chains of pages.
ghost use Rattle.std.specs.Prelude.{◌≡◌, ◌*◌, ◌+◌, ◌<◌, ◌≤◌, ℕ, List, length, IfErr};
ghost use Rattle.btree.specs.Few.{Costs, chain_pages};
ghost use Rattle.tree_model.specs.Keys.{Pair};
ghost use Rattle.tree_model.specs.Reading.{IsNotFull};
ghost use Rattle.tree_model.specs.Store.{Grows, IsSame, KeepsWord, Store};
ghost use Rattle.tree_model.specs.Tree.{HasLinks, HasChain, next_of, place_of};
ghost use Rattle.tree_model.specs.View.{place_in};
ghost use Rattle.tree_model.specs.Calls.{Reads, Retires, WritesChain};

use page::{PageContent, Stored};
use std::alloc::Global;
use tree_model::{Pages, TreeFault};

/// The most bytes of a value in one page of its chain.
pub(crate) const LINK: usize = 4076;

/// The bytes of a chain.
pub(crate) fn chain_bytes<P: Pages>(
    alloc: Global,
    pages: &mut P,
    first: u32,
    len: u32,
) -> Result<Vec<u8>, TreeFault>
    ensures grows { Grows (P.store pages.old) (P.store pages.new) }
    ensures same { KeepsWord (P.store pages.new)
        → IsSame (P.store pages.old) (P.store pages.new) }
    ensures takes { (P.store pages.new).failed_allocations
        ≡ (P.store pages.old).failed_allocations }
    ensures full { IfErr result IsNotFull }
    ensures reads { (links value : List ℕ) → HasLinks (P.store pages.old) links value
        → next_of links ≡ first
        → length value ≡ len
        → Reads (λ v. v.items) (P.store pages.old) (P.store pages.new) value result }
{
    let mut bytes = Vec::new(alloc);
    let mut page = first;
    let mut left = len as usize;
    while left > 0 {
        let shared = pages.read(page)?;
        let PageContent::Chain { next, bytes: part } = &shared.image().content else {
            return Err(TreeFault::Kind);
        };
        if part.len() != left.min(LINK) {
            return Err(TreeFault::Length);
        }
        bytes.extend_from_slice(part)?;
        left -= part.len();
        page = *next;
    }
    if page != 0 {
        return Err(TreeFault::Length);
    }
    Ok(bytes)
}

/// The bytes of a value.
pub(crate) fn value_bytes<P: Pages>(
    alloc: Global,
    pages: &mut P,
    stored: Stored<'_>,
) -> Result<Vec<u8>, TreeFault>
    ensures grows { Grows (P.store pages.old) (P.store pages.new) }
    ensures same { KeepsWord (P.store pages.new)
        → IsSame (P.store pages.old) (P.store pages.new) }
    ensures takes { (P.store pages.new).failed_allocations
        ≡ (P.store pages.old).failed_allocations }
    ensures full { IfErr result IsNotFull }
    ensures reads { (x : Pair) → place_in stored.entry ≡ place_of x.links x.value
        → HasChain (P.store pages.old) x
        → Reads (λ v. v.items) (P.store pages.old) (P.store pages.new) x.value result }
{
    match stored {
        Stored::Inline(bytes) => Ok(Vec::from_slice(alloc, bytes)?),
        Stored::Chained { len, first } => chain_bytes(alloc, pages, first, len),
    }
}

// How many pages a value of this length takes.
fn links_count(len: usize) -> usize
    ensures enough { len ≤ 4076 * result }
    ensures least { 4076 * result < len + 4076 }
{
    let whole = len / LINK;
    if len % LINK == 0 { whole } else { whole + 1 }
}

/// Writes a value into a chain of pages, from its last page to its first, which is given.
pub(crate) fn write_chain<P: Pages>(
    alloc: Global,
    pages: &mut P,
    value: &[u8],
) -> Result<u32, TreeFault>
    ensures grows { Grows (P.store pages.old) (P.store pages.new) }
    ensures few { 330 < length value.now
        → Costs (P.store pages.old) (P.store pages.new) (chain_pages value.now) }
    ensures writes { WritesChain (P.store pages.old) (P.store pages.new) value.now result }
{
    let mut next = 0;
    let mut left = links_count(value.len());
    while left > 0 {
        let start = (left - 1) * LINK;
        let end = value.len().min(start + LINK);
        let bytes = Vec::from_slice(alloc, &value[start..end])?;
        next = pages.allocate(PageContent::Chain { next, bytes })?;
        left -= 1;
    }
    Ok(next)
}

/// Retires the pages of a chain.
pub(crate) fn retire_chain<P: Pages>(pages: &mut P, first: u32, len: u32) -> Result<(), TreeFault>
    ensures grows { Grows (P.store pages.old) (P.store pages.new) }
    ensures few { Costs (P.store pages.old) (P.store pages.new) 0 }
    ensures retires { (links value : List ℕ) → HasLinks (P.store pages.old) links value
        → next_of links ≡ first
        → length value ≡ len → Retires (P.store pages.old) (P.store pages.new) links result }
{
    let mut page = first;
    let mut left = len as usize;
    while left > 0 {
        let shared = pages.read(page)?;
        let PageContent::Chain { next, bytes: _ } = &shared.image().content else {
            return Err(TreeFault::Kind);
        };
        pages.retire(page)?;
        left = left.saturating_sub(LINK);
        page = *next;
    }
    Ok(())
}
