// A change of a whole tree, which gives a new root.
ghost use Rattle.std.specs.Prelude.{◌≡◌, ◌≤◌, ◌<◌, ◌+◌, ◌*◌, ◌-◌, ◌^◌, ◌∷◌, [], ℕ, List, Option, None, length, map, IfNone, IfOk, IfSome, IfErr};
ghost use Rattle.tree_model.specs.Calls.{IsPart, Yields};
ghost use Rattle.tree_model.specs.Keys.{edit_keys, put, removal};
ghost use Rattle.btree.specs.Change.{Changes};
ghost use Rattle.tree_model.specs.EditView.{HasRoom, edit_in};
ghost use Rattle.btree.specs.Few.{Costs, EndsTop, IsLittle, IsOneChild, GivesFew, chain_pages, edit_pages, levels_of};
ghost use Rattle.tree_model.specs.Keys.{Each, Entry, Rises, change, sum_of};
ghost use Rattle.btree.specs.Loose.{IsChild, Slot, child};
ghost use Rattle.btree.specs.LooseView.{slot_in};
ghost use Rattle.tree_model.specs.Reach.{HasMap};
ghost use Rattle.tree_model.specs.Reading.{IsNotFull};
ghost use Rattle.tree_model.specs.Store.{Grows, IsSame, KeepsWord, Store};
ghost use Rattle.tree_model.specs.Tree.{Body};
ghost use Rattle.btree.specs.Turn.{IsHeld, Turns, model_in};

use crate::changing::change_below;
use crate::editing::edit_cells;
use crate::node::{LooseNode, loose_slots_of_cells, page_below};
use crate::taking_apart::raise;
use page::PageContent;
use std::alloc::Global;
use tree_model::{Edit, Pages, TreeFault, branch_child};

/// The most levels of a tree.
const LEVELS: u32 = 32;

// How many levels stand below a page, by its first children.
fn levels_below<P: Pages>(pages: &mut P, page: u32, level: u32) -> Result<u32, TreeFault>
    ensures grows { Grows (P.store pages.old) (P.store pages.new) }
    ensures same { KeepsWord (P.store pages.new)
        → IsSame (P.store pages.old) (P.store pages.new) }
    ensures takes { (P.store pages.new).failed_allocations
        ≡ (P.store pages.old).failed_allocations }
    ensures full { IfErr result IsNotFull }
    ensures small { IfOk result (λ below. below ≤ 31) }
    ensures levels { (d : ℕ) (low : List ℕ) (high : Option (List ℕ)) (body : Body d)
        → IsPart (P.store pages.old) page level d low high body
        → Yields (P.store pages.old) (P.store pages.new) (λ below. below ≡ d) result }
{
    let shared = pages.read(page)?;
    let branch = match &shared.image().content {
        PageContent::Leaf(_) => return Ok(0),
        PageContent::Branch(branch) => branch,
        _ => return Err(TreeFault::Kind),
    };
    if level >= LEVELS - 1 {
        return Err(TreeFault::Order);
    }
    if branch.len() == 0 {
        return Err(TreeFault::Length);
    }
    let below = levels_below(pages, branch_child(branch, 0).page, level + 1)?;
    if below >= LEVELS - 1 {
        return Err(TreeFault::Order);
    }
    Ok(below + 1)
}

// The page of one child alone.
fn single_page(node: &LooseNode) -> Option<u32>
    ensures one { IfSome result (λ page. length node.now.loose_slots.items ≡ 1) }
    ensures page { IfSome result (λ page. (s : Slot) (rest : List Slot)
        → map slot_in node.now.loose_slots.items ≡ s ∷ rest → s.load ≡ child page) }
    ensures none { IfNone result ((s : Slot) → map slot_in node.now.loose_slots.items ≡ s ∷ []
        → IsChild s.load → ⊥) }
{
    if node.loose_slots.len() != 1 {
        return None;
    }
    page_below(&node.loose_slots[0])
}

// Writes cells or children up to one page, the root: 0 where there are none.
fn write_root<P: Pages>(alloc: Global, pages: &mut P, top: LooseNode) -> Result<u32, TreeFault>
    ensures grows { Grows (P.store pages.old) (P.store pages.new) }
    ensures few { (halvings : ℕ) → IsLittle (2720 * 2 ^ halvings) (model_in top)
        → Costs (P.store pages.old) (P.store pages.new) (2 * 2 ^ halvings - 1) }
    ensures alone { IsOneChild (map slot_in top.loose_slots.items)
        → Costs (P.store pages.old) (P.store pages.new) 0 }
    ensures roots { (entries : List Entry) (reached : List ℕ)
        → IsHeld (P.store pages.old) 0 [] None entries reached (model_in top)
        → Changes (P.store pages.old) (P.store pages.new) entries reached result }
{
    if top.loose_slots.is_empty() {
        return Ok(0);
    }
    if top.rank > LEVELS {
        return Err(TreeFault::Full);
    }
    if let Some(page) = single_page(&top) {
        return Ok(page);
    }
    if top.rank == LEVELS {
        return Err(TreeFault::Full);
    }
    let above = raise(alloc, pages, top)?;
    write_root(alloc, pages, above)
}

// The cells of an empty tree after edits.
fn first_cells<P: Pages>(
    alloc: Global,
    pages: &mut P,
    edits: &[Edit<'_>],
) -> Result<LooseNode, TreeFault>
    requires { Each HasRoom edits.now }
    ensures grows { Grows (P.store pages.old) (P.store pages.new) }
    ensures few { length edits.now ≡ 1 → GivesFew (P.store pages.old) (P.store pages.new) 0 5440
        (sum_of edit_pages (map edit_in edits.now)) result }
    ensures turns { Turns (P.store pages.old) (P.store pages.new) 0 [] None
        (change (map edit_in edits.now) []) [] result }
{
    let mut cells = Vec::new(alloc);
    edit_cells(alloc, pages, &mut cells, edits)?;
    let loose_slots = loose_slots_of_cells(alloc, &cells)?;
    Ok(LooseNode {
        rank: 0,
        loose_slots,
        fills: true,
    })
}

// What stands below a root after edits, taken out of its pages.
fn change_root<P: Pages>(
    alloc: Global,
    pages: &mut P,
    root: u32,
    edits: &[Edit<'_>],
) -> Result<LooseNode, TreeFault>
    requires { Each HasRoom edits.now }
    ensures grows { Grows (P.store pages.old) (P.store pages.new) }
    ensures few { (before : List ℕ) (entries : List Entry)
        (tree : HasMap (P.store pages.old) root before entries)
        → length edits.now ≡ 1 → KeepsWord (P.store pages.new)
        → EndsTop (P.store pages.old) (P.store pages.new)
        (4 * levels_of tree + 3 + sum_of edit_pages (map edit_in edits.now)) result }
    ensures turns { (before : List ℕ) (entries : List Entry)
        → HasMap (P.store pages.old) root before entries
        → Rises (edit_keys (map edit_in edits.now))
        → Turns (P.store pages.old) (P.store pages.new) 0 [] None
        (change (map edit_in edits.now) entries) before result }
{
    if root == 0 {
        return first_cells(alloc, pages, edits);
    }
    let below = levels_below(pages, root, 0)?;
    change_below(alloc, pages, root, below, &[], edits, true)
}

/// Makes edits of a tree, whose keys ascend, each once: the new root, 0 where no entry is left. The old root stays readable.
/// Full where no page is free, or the tree would have more than 32 levels.
pub fn change<P: Pages>(
    alloc: Global,
    pages: &mut P,
    root: u32,
    edits: &[Edit<'_>],
) -> Result<u32, TreeFault>
    requires { Each HasRoom edits.now }
    ensures grows { Grows (P.store pages.old) (P.store pages.new) }
    ensures few { (before : List ℕ) (entries : List Entry)
        (tree : HasMap (P.store pages.old) root before entries) → length edits.now ≡ 1
        → Costs (P.store pages.old) (P.store pages.new)
        (4 * levels_of tree + 3 + sum_of edit_pages (map edit_in edits.now)) }
    ensures changes { (before : List ℕ) (entries : List Entry)
        → HasMap (P.store pages.old) root before entries
        → Rises (edit_keys (map edit_in edits.now))
        → Changes (P.store pages.old) (P.store pages.new)
        (change (map edit_in edits.now) entries) before result }
{
    if edits.is_empty() {
        return Ok(root);
    }
    let top = change_root(alloc, pages, root, edits)?;
    write_root(alloc, pages, top)
}

/// Puts a value at a key, in place of the one that is there.
pub fn insert<P: Pages>(
    alloc: Global,
    pages: &mut P,
    root: u32,
    key: &[u8],
    value: &[u8],
) -> Result<u32, TreeFault>
    requires key { length key.now ≤ 1024 }
    requires value { length value.now < 2 ^ 32 }
    ensures grows { Grows (P.store pages.old) (P.store pages.new) }
    ensures few { (before : List ℕ) (entries : List Entry)
        (tree : HasMap (P.store pages.old) root before entries)
        → Costs (P.store pages.old) (P.store pages.new)
        (4 * levels_of tree + 3 + chain_pages value.now) }
    ensures changes { (before : List ℕ) (entries : List Entry)
        → HasMap (P.store pages.old) root before entries
        → Changes (P.store pages.old) (P.store pages.new)
        (change (put key.now value.now ∷ []) entries) before result }
{
    let value = Some(value);
    change(alloc, pages, root, &[Edit { key, value }])
}

/// Takes the value at a key away, if there is one.
pub fn remove<P: Pages>(
    alloc: Global,
    pages: &mut P,
    root: u32,
    key: &[u8],
) -> Result<u32, TreeFault>
    requires { length key.now ≤ 1024 }
    ensures grows { Grows (P.store pages.old) (P.store pages.new) }
    ensures few { (before : List ℕ) (entries : List Entry)
        (tree : HasMap (P.store pages.old) root before entries)
        → Costs (P.store pages.old) (P.store pages.new) (4 * levels_of tree + 3) }
    ensures changes { (before : List ℕ) (entries : List Entry)
        → HasMap (P.store pages.old) root before entries
        → Changes (P.store pages.old) (P.store pages.new)
        (change (removal key.now ∷ []) entries) before result }
{
    change(alloc, pages, root, &[Edit { key, value: None }])
}
