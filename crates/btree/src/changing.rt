// A change by a list of edits, from a page down.
ghost use Rattle.std.specs.Prelude.{◌≡◌, ◌<◌, ◌≤◌, ◌+◌, ◌-◌, ◌*◌, ◌++◌, ◌∷◌, [], ℕ, zero, min, List, Option, Some, None, Ok, drop, length, map, slice_index_or, IfErr, IfOk};
ghost use Rattle.page.specs.Content.{IsBranch};
ghost use Rattle.tree_model.specs.Keys.{edit_keys};
ghost use Rattle.btree.specs.Change.{BeginsAt};
ghost use Rattle.tree_model.specs.EditView.{HasRoom, edit_in};
ghost use Rattle.btree.specs.Few.{IsFew, IsFewOrOne, IsLittle, GivesFew, GivesFewOrOne, edit_pages};
ghost use Rattle.tree_model.specs.Keys.{Each, Entry, IsBetween, IsNotUnder, IsUnder, Pair, Rises, change, entry_of, sum_of};
ghost use Rattle.btree.specs.Loose.{Slot, pivot_slot, first_or, slots_size, under_key};
ghost use Rattle.btree.specs.LooseView.{slot_in};
ghost use Rattle.btree.specs.OneChild.{AreAt, IsAmid, IsAround, slots_between};
ghost use Rattle.tree_model.specs.Store.{Grows, IsAt, Store};
ghost use Rattle.tree_model.specs.Tree.{Body, IsSound, IsWhole, Shows, content_of, entries_of, item_of, pages_of};
ghost use Rattle.btree.specs.Turn.{IsHeld, IsUpTo, Turns, model_in};
ghost use Rattle.tree_model.specs.declared.pages.TreeFault.TheVariants.{Memory};

use crate::editing::edit_cells;
use crate::in_page::{edit_page, has_room, write_leaf};
use crate::joining::QUARTER;
use crate::node::{LooseNode, LooseSlot, loose_slots_of_cells, page_below};
use crate::one_child::{
    child_of_all, go_between, page_of_one, place_behind, write_between, write_branch,
};
use crate::settling::settle;
use crate::taking_apart::{children_between, leaf_cells, loose_slots_of_branch};
use key_order::compare_keys;
use page::{Branch, Leaf, PageContent};
use std::alloc::Global;
use std::cmp::Ordering;
use tree_model::{Edit, Pages, TreeFault, branch_child, leaf_key, low_bound};

// The first edit whose key isn't below this one.
fn edits_from(edits: &[Edit<'_>], key: &[u8]) -> usize
    ensures within { result ≤ length edits.now }
    ensures before { (k : ℕ) (d : Edit) → k + 1 ≡ result
        → IsUnder (slice_index_or edits.now k d).key.now key.now }
    ensures behind { Each (λ e. IsNotUnder e.key key.now)
        (drop result (map edit_in edits.now)) }
{
    let mut from = edits.len();
    while from > 0 {
        if let Ordering::Less = compare_keys(edits[from - 1].key, key) {
            return from;
        }
        from -= 1;
    }
    0
}

// The edits below a key, and the others.
fn edits_at<'s, 'a>(edits: &'s [Edit<'a>], key: &[u8]) -> (&'s [Edit<'a>], &'s [Edit<'a>])
    requires { Each HasRoom edits.now }
    ensures room { Each HasRoom result.0.now × Each HasRoom result.1.now }
    ensures parts { map edit_in edits.now
        ≡ map edit_in result.0.now ++ map edit_in result.1.now }
    ensures before { Rises (edit_keys (map edit_in edits.now))
        → Each (λ e. IsUnder e.key key.now) (map edit_in result.0.now) }
    ensures behind { Each (λ e. IsNotUnder e.key key.now) (map edit_in result.1.now) }
{
    edits.split_at(edits_from(edits, key))
}

// The last child whose key isn't above this one, or the first child.
fn child_place(loose_slots: &[LooseSlot], key: &[u8]) -> usize
    requires { 0 < length loose_slots.now }
    ensures within { result < length loose_slots.now }
    ensures next { (s : Slot) → result + 1 < length loose_slots.now
        → IsUnder key.now (slice_index_or (map slot_in loose_slots.now) (result + 1) s).key }
    ensures here { (s : Slot) → 0 < result
        → IsNotUnder key.now (slice_index_or (map slot_in loose_slots.now) result s).key }
{
    let mut at = loose_slots.len() - 1;
    while at > 0 {
        match compare_keys(key, loose_slots[at].key.as_slice()) {
            Ordering::Less => at -= 1,
            _ => return at,
        }
    }
    0
}

/// What stands before a child, the child, and what stands behind it.
struct Parted {
    left: LooseNode,
    loose_slot: LooseSlot,
    right: LooseNode,
}

// Takes a child out from among its neighbours.
fn part_at(node: LooseNode, at: usize) -> Result<Parted, TreeFault>
    requires { at < length node.loose_slots.items }
    ensures left { IfOk result (λ p. length p.left.loose_slots.items ≡ at) }
    ensures left_rank { IfOk result (λ p. p.left.rank ≡ node.rank) }
    ensures right_rank { IfOk result (λ p. p.right.rank ≡ node.rank) }
    ensures parts { IfOk result (λ p. map slot_in node.loose_slots.items
        ≡ (map slot_in p.left.loose_slots.items ++ slot_in p.loose_slot ∷ [])
        ++ map slot_in p.right.loose_slots.items) }
    ensures err { IfErr result (λ e. e ≡ Memory) }
{
    let mut loose_slots = node.loose_slots;
    let Ok(behind) = loose_slots.split_off(at + 1) else {
        return Err(TreeFault::Memory);
    };
    let Some(loose_slot) = loose_slots.pop() else {
        return Err(TreeFault::Memory);
    };
    let left = LooseNode {
        rank: node.rank,
        loose_slots,
        fills: false,
    };
    let right = LooseNode {
        rank: node.rank,
        loose_slots: behind,
        fills: false,
    };
    Ok(Parted {
        left,
        loose_slot,
        right,
    })
}

// Whether all edits lie behind the last cell.
fn come_behind(leaf: &Leaf, edits: &[Edit<'_>]) -> bool {
    let len = leaf.len();
    if len == 0 {
        return false;
    }
    let Some(first) = edits.first() else {
        return false;
    };
    matches!(
        compare_keys(leaf_key(leaf, len - 1), first.key),
        Ordering::Less
    )
}

// The cells of a leaf after edits, out of their page.
fn change_cells<P: Pages>(
    alloc: Global,
    pages: &mut P,
    leaf: &Leaf,
    rank: u32,
    edits: &[Edit<'_>],
) -> Result<LooseNode, TreeFault>
    requires { Each HasRoom edits.now }
    ensures grows { Grows (P.store pages.old) (P.store pages.new) }
    ensures few { length edits.now ≤ 1 → GivesFew (P.store pages.old) (P.store pages.new) rank 5440
        (sum_of edit_pages (map edit_in edits.now)) result }
    ensures turns { (base : ℕ) (low : List ℕ) (high : Option (List ℕ)) (pairs : List Pair)
        → rank ≡ base → leaf.now ≡ map item_of pairs → IsSound zero low high pairs
        → Shows (P.store pages.old) zero pairs
        → Each (λ e. IsBetween low high e.key) (map edit_in edits.now)
        → Turns (P.store pages.old) (P.store pages.new) base low high
        (change (map edit_in edits.now) (map entry_of pairs)) (pages_of zero pairs) result }
{
    let mut cells = leaf_cells(alloc, leaf)?;
    edit_cells(alloc, pages, &mut cells, edits)?;
    let loose_slots = loose_slots_of_cells(alloc, &cells)?;
    Ok(LooseNode {
        rank,
        loose_slots,
        fills: come_behind(leaf, edits),
    })
}

// What becomes of a leaf after edits.
fn change_leaf<P: Pages>(
    alloc: Global,
    pages: &mut P,
    leaf: &Leaf,
    rank: u32,
    edits: &[Edit<'_>],
) -> Result<LooseNode, TreeFault>
    requires { Each HasRoom edits.now }
    ensures grows { Grows (P.store pages.old) (P.store pages.new) }
    ensures few { length edits.now ≤ 1 → GivesFewOrOne (P.store pages.old) (P.store pages.new) rank
        5440 (sum_of edit_pages (map edit_in edits.now)) result }
    ensures turns { (base : ℕ) (low : List ℕ) (high : Option (List ℕ)) (pairs : List Pair)
        → rank ≡ base → leaf.now ≡ map item_of pairs → IsSound zero low high pairs
        → Shows (P.store pages.old) zero pairs
        → Each (λ e. IsBetween low high e.key) (map edit_in edits.now)
        → Turns (P.store pages.old) (P.store pages.new) base low high
        (change (map edit_in edits.now) (map entry_of pairs)) (pages_of zero pairs) result }
{
    if !has_room(leaf, edits) {
        return change_cells(alloc, pages, leaf, rank, edits);
    }
    let edited = edit_page(alloc, pages, leaf, edits)?;
    write_leaf(alloc, pages, edited, rank, come_behind(leaf, edits))
}

// What was put among the children beside one, among the others. Where that is one page, the branch is copied with them
// in it; else its children are taken out of their page.
fn put_between<P: Pages>(
    alloc: Global,
    pages: &mut P,
    branch: &Branch,
    at: usize,
    rank: u32,
    low: &[u8],
    amid: LooseNode,
) -> Result<LooseNode, TreeFault>
    requires sound { IsBranch branch.now }
    requires place { at < length branch.now }
    ensures grows { Grows (P.store pages.old) (P.store pages.new) }
    ensures few { (first : Store) (count : ℕ) → 6 + length low.now ≤ 1360
        → IsFew first (P.store pages.old) rank (slots_size (slots_between (at - 1)
        (min (at + 2) (length branch.now)) (map pivot_slot (under_key low.now branch.now))) + 5440)
        count (model_in amid)
        → GivesFewOrOne first (P.store pages.new) rank 10880 count result }
    ensures turns { (base : ℕ) (high : Option (List ℕ)) (entries : List Entry) (reached : List ℕ)
        → IsAround (P.store pages.old) base low.now high
        (map pivot_slot (under_key low.now branch.now)) (at - 1) (min (at + 2) (length branch.now))
        rank entries reached (model_in amid)
        → base < rank → 6 + length low.now ≤ 1360
        → Turns (P.store pages.old) (P.store pages.new) base low.now high entries reached result }
{
    if go_between(branch, at, rank, low, &amid) {
        return write_between(alloc, pages, branch, at, &amid.loose_slots, rank, low);
    }
    let from = at.saturating_sub(1);
    let to = place_behind(branch, at);
    let front = children_between(alloc, branch, low, rank, 0, from)?;
    let back = children_between(alloc, branch, low, rank, to, branch.len())?;
    settle(alloc, pages, front, amid, back)
}

// A branch with what is below one of its children in that one's place, not written where it may be joined: first among
// the children beside it, and then among the others.
fn put_apart<P: Pages>(
    alloc: Global,
    pages: &mut P,
    branch: &Branch,
    at: usize,
    rank: u32,
    low: &[u8],
    below: LooseNode,
) -> Result<LooseNode, TreeFault>
    requires sound { IsBranch branch.now }
    requires place { at < length branch.now }
    requires rank { 0 < rank }
    ensures grows { Grows (P.store pages.old) (P.store pages.new) }
    ensures few { (first : Store) (count : ℕ) → 6 + length low.now ≤ 1360
        → IsFewOrOne first (P.store pages.old) (rank - 1) 10880 (4 * (rank - 1) + count)
        (model_in below)
        → GivesFewOrOne first (P.store pages.new) rank 10880 (4 * rank + count) result }
    ensures turns { (base : ℕ) (high : Option (List ℕ)) (entries : List Entry) (reached : List ℕ)
        → IsAmid (P.store pages.old) base low.now high branch.now at rank entries reached
        (model_in below)
        → base < rank → 6 + length low.now ≤ 1360
        → Turns (P.store pages.old) (P.store pages.new) base low.now high entries reached result }
{
    let from = at.saturating_sub(1);
    let to = place_behind(branch, at);
    let left = children_between(alloc, branch, low, rank, from, at)?;
    let right = children_between(alloc, branch, low, rank, at + 1, to)?;
    let amid = settle(alloc, pages, left, below, right)?;
    put_between(alloc, pages, branch, at, rank, low, amid)
}

// A branch with what is below one of its children in that one's place. Where it is one page again, the branch is
// copied with that page in it. A branch that has next to nothing is taken apart, to be joined with the one beside it, but for
// the root, which has none beside it.
fn put_child<P: Pages>(
    alloc: Global,
    pages: &mut P,
    branch: &Branch,
    at: usize,
    rank: u32,
    low: &[u8],
    below: LooseNode,
    is_root: bool,
) -> Result<LooseNode, TreeFault>
    requires sound { IsBranch branch.now }
    requires place { at < length branch.now }
    requires rank { 0 < rank }
    ensures grows { Grows (P.store pages.old) (P.store pages.new) }
    ensures few { (first : Store) (count : ℕ) → 6 + length low.now ≤ 1360
        → IsFewOrOne first (P.store pages.old) (rank - 1) 10880 (4 * (rank - 1) + count)
        (model_in below)
        → GivesFewOrOne first (P.store pages.new) rank 10880 (4 * rank + count) result }
    ensures turns { (base : ℕ) (high : Option (List ℕ)) (entries : List Entry) (reached : List ℕ)
        → IsAmid (P.store pages.old) base low.now high branch.now at rank entries reached
        (model_in below)
        → base < rank → 6 + length low.now ≤ 1360
        → Turns (P.store pages.old) (P.store pages.new) base low.now high entries reached result }
{
    if rank == u32::MAX || !is_root && branch.size() <= QUARTER {
        return put_apart(alloc, pages, branch, at, rank, low, below);
    }
    match page_of_one(&below, rank) {
        Some(page) => write_branch(alloc, pages, branch, at, page, rank, low),
        None => put_apart(alloc, pages, branch, at, rank, low, below),
    }
}

/// What is below a page after edits. The keys there begin at `low`, and `rank` says how many levels may be below. Where it is
/// the root no page stands beside it, so it isn't taken apart to be joined.
#[cycle(change)]
pub(crate) fn change_below<P: Pages>(
    alloc: Global,
    pages: &mut P,
    page: u32,
    rank: u32,
    low: &[u8],
    edits: &[Edit<'_>],
    is_root: bool,
) -> Result<LooseNode, TreeFault>
    requires { Each HasRoom edits.now }
    ensures grows { Grows (P.store pages.old) (P.store pages.new) }
    ensures few { length edits.now ≤ 1 → 6 + length low.now ≤ 1360
        → GivesFewOrOne (P.store pages.old) (P.store pages.new) rank 10880
        (4 * rank + sum_of edit_pages (map edit_in edits.now)) result }
    ensures turns { (base d : ℕ) (high : Option (List ℕ)) (body : Body d) → rank ≡ base + d
        → IsAt (P.store pages.old) page (content_of d body) → Shows (P.store pages.old) d body
        → IsWhole d body → IsSound d low.now high body → 6 + length low.now ≤ 1360
        → Rises (edit_keys (map edit_in edits.now))
        → Each (λ e. IsBetween low.now high e.key) (map edit_in edits.now)
        → Turns (P.store pages.old) (P.store pages.new) base low.now high
        (change (map edit_in edits.now) (entries_of d body)) (page ∷ pages_of d body) result }
{
    let shared = pages.read(page)?;
    pages.retire(page)?;
    let branch = match &shared.image().content {
        PageContent::Leaf(leaf) => return change_leaf(alloc, pages, leaf, rank, edits),
        PageContent::Branch(branch) => branch,
        _ => return Err(TreeFault::Kind),
    };
    if rank == 0 {
        return Err(TreeFault::Order);
    }
    if let Some(at) = child_of_all(branch, edits) {
        return change_child(alloc, pages, branch, at, rank, low, edits, is_root);
    }
    let loose_slots = loose_slots_of_branch(alloc, branch, low)?;
    let node = LooseNode {
        rank,
        loose_slots,
        fills: false,
    };
    change_children(alloc, pages, node, edits)
}

// A branch of which one child changes.
#[cycle(change)]
fn change_child<P: Pages>(
    alloc: Global,
    pages: &mut P,
    branch: &Branch,
    at: usize,
    rank: u32,
    low: &[u8],
    edits: &[Edit<'_>],
    is_root: bool,
) -> Result<LooseNode, TreeFault>
    requires room { Each HasRoom edits.now }
    requires sound { IsBranch branch.now }
    requires place { at < length branch.now }
    requires rank { 0 < rank }
    ensures grows { Grows (P.store pages.old) (P.store pages.new) }
    ensures few { length edits.now ≤ 1 → 6 + length low.now ≤ 1360
        → GivesFewOrOne (P.store pages.old) (P.store pages.new) rank 10880
        (4 * rank + sum_of edit_pages (map edit_in edits.now)) result }
    ensures turns { (base : ℕ) (high : Option (List ℕ)) (entries : List Entry) (reached : List ℕ)
        → IsHeld (P.store pages.old) base low.now high entries reached
        (record { rank = rank; slots = map pivot_slot (under_key low.now branch.now) })
        → base < rank → AreAt branch.now (map edit_in edits.now) at
        → Rises (edit_keys (map edit_in edits.now))
        → Each (λ e. IsBetween low.now high e.key) (map edit_in edits.now)
        → 6 + length low.now ≤ 1360
        → Turns (P.store pages.old) (P.store pages.new) base low.now high
        (change (map edit_in edits.now) entries) reached result }
{
    let key = low_bound(branch, at, low);
    let page = branch_child(branch, at).page;
    let below = change_below(alloc, pages, page, rank - 1, key, edits, false)?;
    put_child(alloc, pages, branch, at, rank, low, below, is_root)
}

// Children after edits, from the last one to the first.
#[cycle(change)]
fn change_children<P: Pages>(
    alloc: Global,
    pages: &mut P,
    node: LooseNode,
    edits: &[Edit<'_>],
) -> Result<LooseNode, TreeFault>
    requires room { Each HasRoom edits.now }
    requires rank { 0 < node.rank }
    ensures grows { Grows (P.store pages.old) (P.store pages.new) }
    ensures none { length edits.now ≡ 0
        → (result ≡ Ok node) × (P.store pages.new ≡ P.store pages.old) }
    ensures some { 0 < length edits.now → IfOk result (λ done. 0 < length node.loose_slots.items) }
    ensures empty { length node.loose_slots.items ≡ 0 → P.store pages.new ≡ P.store pages.old }
    ensures few { length edits.now ≤ 1 → IsLittle 5440 (model_in node)
        → 2 ≤ length node.loose_slots.items
        → GivesFew (P.store pages.old) (P.store pages.new) node.rank 10880
        (4 * node.rank + sum_of edit_pages (map edit_in edits.now)) result }
    ensures turns { (base : ℕ) (low : List ℕ) (high : Option (List ℕ)) (entries : List Entry)
        (reached : List ℕ)
        → IsHeld (P.store pages.old) base low high entries reached (model_in node)
        → base < node.rank
        → BeginsAt low (map edit_in edits.now) (map slot_in node.loose_slots.items)
        → Rises (edit_keys (map edit_in edits.now))
        → Each (λ e. IsBetween low high e.key) (map edit_in edits.now)
        → Turns (P.store pages.old) (P.store pages.new) base low high
        (change (map edit_in edits.now) entries) reached result }
{
    let len = edits.len();
    if len == 0 {
        return Ok(node);
    }
    if node.loose_slots.is_empty() {
        return Err(TreeFault::Order);
    }
    let at = child_place(&node.loose_slots, edits[len - 1].key);
    let Parted {
        left,
        loose_slot,
        right,
    } = part_at(node, at)?;
    let Some(page) = page_below(&loose_slot) else {
        return Err(TreeFault::Kind);
    };
    let key = loose_slot.key.as_slice();
    let (theirs, mine) = edits_at(edits, key);
    let below = change_below(alloc, pages, page, left.rank - 1, key, mine, false)?;
    let front = change_children(alloc, pages, left, theirs)?;
    settle(alloc, pages, front, below, right)
}
