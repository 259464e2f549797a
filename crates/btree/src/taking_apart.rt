// Taking pages apart, and putting what was taken apart together.
ghost use Rattle.std.specs.Prelude.{◌≡◌, ◌<◌, ◌≤◌, ◌+◌, ◌++◌, ◌∷◌, ℕ, List, Option, length, map, IfErr, IfOk, MatchResult};
ghost use Rattle.page.specs.Content.{Pivot, IsBranch, IsLeaf, Item};
ghost use Rattle.tree_model.specs.Keys.{Each, Entry};
ghost use Rattle.btree.specs.Few.{AreFewPages, GivesFew, WritesUpTo};
ghost use Rattle.btree.specs.Loose.{IsSlot, pivot_slot, item_slot, lowered, slots_of, slots_size, under_key};
ghost use Rattle.btree.specs.LooseView.{slot_in};
ghost use Rattle.btree.specs.OneChild.{slots_between};
ghost use Rattle.tree_model.specs.Store.{Grows, IsAt, KeepsWord, Store};
ghost use Rattle.tree_model.specs.Tree.{Body, IsSound, IsWhole, Shows, content_of, entries_of, pages_of};
ghost use Rattle.btree.specs.Turn.{IsHeld, IsReady, MayFill, Opens, PartsFirst, PartsLast, Turns, model_in};
ghost use Rattle.tree_model.specs.View.{content_in, item_in};
ghost use Rattle.tree_model.specs.declared.pages.TreeFault.TheVariants.{Memory};

use crate::node::{LooseNode, LooseSlot, loose_slot_of_cell, loose_slot_of_page, push_loose_slot};
use crate::parts::{push_cell, write_parts};
use page::{Branch, Cell, Leaf, PageContent};
use std::alloc::Global;
use tree_model::{Pages, TreeFault, branch_child, leaf_cell, low_bound};

/// The cells of a leaf.
pub(crate) fn leaf_cells(alloc: Global, leaf: &Leaf) -> Result<Vec<Cell<'_>>, TreeFault>
    ensures some { 0 < length leaf.now }
    ensures sound { IsLeaf leaf.now }
    ensures ok { IfOk result (λ cells. map item_in cells.items ≡ leaf.now) }
    ensures err { IfErr result (λ e. e ≡ Memory) }
{
    let mut cells = Vec::with_capacity(alloc, leaf.len())?;
    for i in 0..leaf.len() {
        push_cell(&mut cells, leaf_cell(leaf, i))?;
    }
    Ok(cells)
}

// The children of a branch from one place to below another, the first of all under a key.
pub(crate) fn loose_slots_between(
    alloc: Global,
    branch: &Branch,
    low: &[u8],
    from: usize,
    to: usize,
) -> Result<Vec<LooseSlot>, TreeFault>
    requires order { from ≤ to }
    requires within { to ≤ length branch.now }
    ensures ok { IfOk result (λ loose_slots. map slot_in loose_slots.items
        ≡ slots_between from to (map pivot_slot (under_key low.now branch.now))) }
    ensures err { IfErr result (λ e. e ≡ Memory) }
{
    let mut loose_slots = Vec::with_capacity(alloc, to - from)?;
    for i in from..to {
        let key = low_bound(branch, i, low);
        let loose_slot = loose_slot_of_page(alloc, key, branch_child(branch, i).page)?;
        push_loose_slot(&mut loose_slots, loose_slot)?;
    }
    Ok(loose_slots)
}

// The same, at their height.
pub(crate) fn children_between(
    alloc: Global,
    branch: &Branch,
    low: &[u8],
    rank: u32,
    from: usize,
    to: usize,
) -> Result<LooseNode, TreeFault>
    requires order { from ≤ to }
    requires within { to ≤ length branch.now }
    ensures ok { IfOk result (λ node. map slot_in node.loose_slots.items
        ≡ slots_between from to (map pivot_slot (under_key low.now branch.now))) }
    ensures rank { IfOk result (λ node. node.rank ≡ rank) }
    ensures err { IfErr result (λ e. e ≡ Memory) }
{
    let loose_slots = loose_slots_between(alloc, branch, low, from, to)?;
    Ok(LooseNode {
        rank,
        loose_slots,
        fills: false,
    })
}

// The children of a branch, the first under a key.
pub(crate) fn loose_slots_of_branch(
    alloc: Global,
    branch: &Branch,
    low: &[u8],
) -> Result<Vec<LooseSlot>, TreeFault>
    ensures some { IfOk result (λ loose_slots. 0 < length loose_slots.items) }
    ensures sound { IsBranch branch.now }
    ensures ok { IfOk result
        (λ loose_slots. map slot_in loose_slots.items
        ≡ map pivot_slot (under_key low.now branch.now)) }
    ensures err { IfErr result (λ e. e ≡ Memory) }
{
    let loose_slots = loose_slots_between(alloc, branch, low, 0, branch.len())?;
    Ok(loose_slots)
}

// The cells of a leaf, out of their page.
pub(crate) fn loose_slots_of_leaf(alloc: Global, leaf: &Leaf) -> Result<Vec<LooseSlot>, TreeFault>
    ensures some { IfOk result (λ loose_slots. 0 < length loose_slots.items) }
    ensures sound { IsLeaf leaf.now }
    ensures ok { IfOk result (λ loose_slots. map slot_in loose_slots.items
        ≡ map item_slot leaf.now) }
    ensures err { IfErr result (λ e. e ≡ Memory) }
{
    let mut loose_slots = Vec::with_capacity(alloc, leaf.len())?;
    for i in 0..leaf.len() {
        let loose_slot = loose_slot_of_cell(alloc, leaf_cell(leaf, i))?;
        push_loose_slot(&mut loose_slots, loose_slot)?;
    }
    Ok(loose_slots)
}

pub(crate) fn concat(left: LooseNode, right: LooseNode) -> Result<LooseNode, TreeFault>
    ensures rank { IfOk result (λ both. both.rank ≡ left.rank) }
    ensures long { IfOk result (λ both. length both.loose_slots.items
        ≡ length left.loose_slots.items + length right.loose_slots.items) }
    ensures ok { IfOk result (λ both. map slot_in both.loose_slots.items
        ≡ map slot_in left.loose_slots.items ++ map slot_in right.loose_slots.items) }
    ensures err { IfErr result (λ e. e ≡ Memory) }
{
    let mut loose_slots = left.loose_slots;
    let mut others = right.loose_slots;
    match loose_slots.append(&mut others) {
        Ok(()) => Ok(LooseNode {
            rank: left.rank,
            loose_slots,
            fills: right.fills,
        }),
        Err(_) => Err(TreeFault::Memory),
    }
}

// Whether a leaf's pages are filled.
fn may_fill(node: &LooseNode) -> bool
    ensures { (d : ℕ) (body : Body d) → map slot_in node.now.loose_slots.items ≡ slots_of d body
        → MayFill d result }
{
    let Some(first) = node.loose_slots.first() else {
        return false;
    };
    if first.is_child() {
        return false;
    }
    node.fills
}

/// Writes cells or children to pages, and gives what stands for these one level up.
pub(crate) fn raise<P: Pages>(
    alloc: Global,
    pages: &mut P,
    node: LooseNode,
) -> Result<LooseNode, TreeFault>
    requires { node.rank < 4294967295 }
    ensures grows { Grows (P.store pages.old) (P.store pages.new) }
    ensures rank { IfOk result (λ above. above.rank ≡ node.rank + 1) }
    ensures some { 0 < length node.loose_slots.items
        → IfOk result (λ above. 0 < length above.loose_slots.items) }
    ensures few { KeepsWord (P.store pages.new) → Each IsSlot (map slot_in node.loose_slots.items)
        → MatchResult result (λ above. AreFewPages (P.store pages.old) (P.store pages.new)
        (slots_size (map slot_in node.loose_slots.items)) (map slot_in above.loose_slots.items))
        (λ e. WritesUpTo (P.store pages.old) (P.store pages.new)
        (slots_size (map slot_in node.loose_slots.items))) }
    ensures turns { (base : ℕ) (low : List ℕ) (high : Option (List ℕ)) (entries : List Entry)
        (reached : List ℕ)
        → IsHeld (P.store pages.old) base low high entries reached (model_in node)
        → IsReady base (model_in node)
        → Turns (P.store pages.old) (P.store pages.new) base low high entries reached result }
{
    let fills = may_fill(&node);
    let loose_slots = write_parts(alloc, pages, &node.loose_slots, fills)?;
    Ok(LooseNode {
        rank: node.rank + 1,
        loose_slots,
        fills: false,
    })
}

// What stands in a page of the tree, out of it, the first child under a key.
fn loose_slots_of(
    alloc: Global,
    content: &PageContent,
    low: &[u8],
) -> Result<Vec<LooseSlot>, TreeFault>
    ensures some { IfOk result (λ loose_slots. 0 < length loose_slots.items) }
    ensures few { 6 + length low.now ≤ 1360 → IfOk result (λ loose_slots.
        Each IsSlot (map slot_in loose_slots.items)
        × (slots_size (map slot_in loose_slots.items) ≤ 5440)) }
    ensures holds { (d : ℕ) (body : Body d) → content_in content.now ≡ content_of d body
        → MatchResult result (λ loose_slots.
        map slot_in loose_slots.items ≡ slots_of d (lowered d low.now body))
        (λ e. e ≡ Memory) }
{
    match content {
        PageContent::Leaf(leaf) => loose_slots_of_leaf(alloc, leaf),
        PageContent::Branch(branch) => loose_slots_of_branch(alloc, branch, low),
        _ => Err(TreeFault::Kind),
    }
}

// Takes a page apart, whose keys begin at the low bound, and retires it.
pub(crate) fn open_page<P: Pages>(
    alloc: Global,
    pages: &mut P,
    page: u32,
    rank: u32,
    low: &[u8],
) -> Result<LooseNode, TreeFault>
    ensures grows { Grows (P.store pages.old) (P.store pages.new) }
    ensures rank { IfOk result (λ node. node.rank ≡ rank) }
    ensures some { IfOk result (λ node. 0 < length node.loose_slots.items) }
    ensures few { 6 + length low.now ≤ 1360
        → GivesFew (P.store pages.old) (P.store pages.new) rank 5440 0 result }
    ensures opens { (base d : ℕ) (high : Option (List ℕ)) (body : Body d) → rank ≡ base + d
        → IsAt (P.store pages.old) page (content_of d body) → Shows (P.store pages.old) d body
        → IsWhole d body → IsSound d low.now high body → 6 + length low.now ≤ 1360
        → Opens (P.store pages.old) (P.store pages.new) base low.now high (entries_of d body)
        (page ∷ pages_of d body) result }
{
    let shared = pages.read(page)?;
    pages.retire(page)?;
    let loose_slots = loose_slots_of(alloc, &shared.image().content, low)?;
    Ok(LooseNode {
        rank,
        loose_slots,
        fills: false,
    })
}
