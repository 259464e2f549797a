// A branch of which one child changes: it is copied, with another page or other children in it.
ghost use Rattle.std.specs.Prelude.{◌≡◌, ◌<◌, ◌≤◌, ◌+◌, ◌-◌, ◌∷◌, ◌++◌, [], ⊤, ℕ, true, min, List, Option, length, map, slice_index_or, MatchOption};
ghost use Rattle.page.specs.ChildPage.{exchanged};
ghost use Rattle.page.specs.Content.{Pivot, IsBranch};
ghost use Rattle.tree_model.specs.Keys.{edit_keys};
ghost use Rattle.tree_model.specs.EditView.{edit_in};
ghost use Rattle.btree.specs.Few.{GivesFew};
ghost use Rattle.tree_model.specs.Keys.{Entry, IsUnder, Rises};
ghost use Rattle.btree.specs.Loose.{Slot, pivot_slot, under_key};
ghost use Rattle.btree.specs.LooseView.{slot_in};
ghost use Rattle.btree.specs.OneChild.{AreAt, IsAmid, IsAround, IsPageOf};
ghost use Rattle.tree_model.specs.Store.{Grows, Store};
ghost use Rattle.btree.specs.Turn.{IsHeld, NodeModel, Turns, model_in};

use crate::cutting::{ROOM, THIRD, go_into_page, is_over, loose_slots_within};
use crate::joining::QUARTER;
use crate::node::{LooseNode, LooseSlot, page_below, push_loose_slot};
use crate::parts::{child_loose_slot, children_of};
use key_order::compare_keys;
use page::{Branch, PageContent};
use std::alloc::Global;
use std::cmp::Ordering;
use tree_model::{Edit, Pages, TreeFault, branch_key, child_of_key, high_bound, is_within};

/// The child that all edits belong to, if there is one.
pub(crate) fn child_of_all(branch: &Branch, edits: &[Edit<'_>]) -> Option<usize>
    ensures sound { IsBranch branch.now }
    ensures within { MatchOption result ⊤ (λ at. at < length branch.now) }
    ensures all { Rises (edit_keys (map edit_in edits.now))
        → MatchOption result ⊤ (λ at. AreAt branch.now (map edit_in edits.now) at) }
{
    let last = branch.len() - 1;
    let len = edits.len();
    if len == 0 {
        return None;
    }
    let at = child_of_key(branch, edits[0].key);
    if at >= last {
        return Some(at);
    }
    match compare_keys(edits[len - 1].key, branch_key(branch, at + 1)) {
        Ordering::Less => Some(at),
        _ => None,
    }
}

/// The page of one child that stands at this height, and of nothing else.
pub(crate) fn page_of_one(below: &LooseNode, rank: u32) -> Option<u32>
    ensures { MatchOption result ⊤ (λ page. IsPageOf rank page (model_in below.now)) }
{
    if below.rank != rank {
        return None;
    }
    if below.loose_slots.len() != 1 {
        return None;
    }
    match page_below(&below.loose_slots[0]) {
        Some(page) => Some(page),
        None => None,
    }
}

/// A branch that was made, written to a page of its own, as a child.
fn write_made<P: Pages>(
    alloc: Global,
    pages: &mut P,
    made: Branch,
    rank: u32,
    low: &[u8],
) -> Result<LooseNode, TreeFault>
    requires range { rank < 4294967295 }
    ensures grows { Grows (P.store pages.old) (P.store pages.new) }
    ensures few { 6 + length low.now ≤ 1360
        → GivesFew (P.store pages.old) (P.store pages.new) (rank + 1) 1360 1 result }
    ensures turns { (base : ℕ) (high : Option (List ℕ)) (entries : List Entry) (reached : List ℕ)
        → IsHeld (P.store pages.old) base low.now high entries reached
        (record { rank = rank; slots = map pivot_slot (under_key low.now made) })
        → base < rank → IsBranch made → 6 + length low.now ≤ 1360
        → Turns (P.store pages.old) (P.store pages.new) base low.now high entries reached result }
{
    let key = Vec::from_slice(alloc, low)?;
    let written = pages.allocate(PageContent::Branch(made))?;
    let mut loose_slots = Vec::new(alloc);
    push_loose_slot(&mut loose_slots, child_loose_slot(key, written))?;
    Ok(LooseNode {
        rank: rank + 1,
        loose_slots,
        fills: false,
    })
}

/// A branch with another page for a child, written to a page of its own.
pub(crate) fn write_branch<P: Pages>(
    alloc: Global,
    pages: &mut P,
    branch: &Branch,
    at: usize,
    page: u32,
    rank: u32,
    low: &[u8],
) -> Result<LooseNode, TreeFault>
    requires sound { IsBranch branch.now }
    requires place { at < length branch.now }
    requires range { rank < 4294967295 }
    ensures grows { Grows (P.store pages.old) (P.store pages.new) }
    ensures few { 6 + length low.now ≤ 1360
        → GivesFew (P.store pages.old) (P.store pages.new) (rank + 1) 1360 1 result }
    ensures turns { (base : ℕ) (high : Option (List ℕ)) (entries : List Entry) (reached : List ℕ)
        (below : NodeModel) → IsPageOf rank page below
        → IsAmid (P.store pages.old) base low.now high branch.now at rank entries reached below
        → base < rank → 6 + length low.now ≤ 1360
        → Turns (P.store pages.old) (P.store pages.new) base low.now high entries reached result }
{
    let made = branch.with_page(alloc, at, page)?;
    write_made(alloc, pages, made, rank, low)
}

/// The place behind the child that is behind this one, or behind this one where it is the last.
pub(crate) fn place_behind(branch: &Branch, at: usize) -> usize
    requires { at < length branch.now }
    ensures sound { IsBranch branch.now }
    ensures place { result ≡ min (at + 2) (length branch.now) }
{
    let len = branch.len();
    if len - at <= 2 { len } else { at + 2 }
}

// The key of a cell or child, by its place.
fn loose_slot_key(loose_slots: &[LooseSlot], i: usize) -> &[u8]
    requires { i < length loose_slots.now }
    ensures { (s : Slot) → result.now ≡ (slice_index_or (map slot_in loose_slots.now) i s).key }
{
    loose_slots[i].key.as_slice()
}

// Whether the first key is above that of the child before a place, and the last one below that of the child at another.
fn are_between(branch: &Branch, from: usize, to: usize, loose_slots: &[LooseSlot]) -> bool
    requires some { 0 < from }
    requires order { from ≤ to }
    requires within { to ≤ length branch.now }
    ensures some { result ≡ true → 0 < length loose_slots.now }
    ensures first { (s : Slot) (d : Pivot) → result ≡ true → IsUnder
        (slice_index_or branch.now (from - 1) d).key
        (slice_index_or (map slot_in loose_slots.now) 0 s).key }
    ensures last { (s : Slot) (d : Pivot) → result ≡ true → to < length branch.now → IsUnder
        (slice_index_or (map slot_in loose_slots.now) (length loose_slots.now - 1) s).key
        (slice_index_or branch.now to d).key }
{
    let len = loose_slots.len();
    if len == 0 {
        return false;
    }
    if !is_over(
        loose_slot_key(loose_slots, 0),
        Some(branch_key(branch, from - 1)),
    ) {
        return false;
    }
    is_within(
        loose_slot_key(loose_slots, len - 1),
        high_bound(branch, to - 1, None),
    )
}

// Whether these go into a branch between what stands before one place and what stands at another and behind it, under a
// key, and are enough for a page with that.
fn find_room(branch: &Branch, from: usize, to: usize, low: &[u8], loose_slots: &[LooseSlot]) -> bool
    requires sound { IsBranch branch.now }
    requires some { 0 < from }
    requires order { from ≤ to }
    requires within { to ≤ length branch.now }
    ensures { (pivots : List Pivot) → map slot_in loose_slots.now ≡ map pivot_slot pivots
        → result ≡ true
        → IsBranch (exchanged from to pivots branch.now) }
{
    if !are_between(branch, from, to, loose_slots) {
        return false;
    }
    let behind = branch.size() - branch.start(to);
    let others = branch.start(from) + behind;
    if others <= QUARTER {
        return false;
    }
    if low.len() > THIRD {
        return false;
    }
    let beside = others + low.len() + 2;
    if beside > ROOM {
        return false;
    }
    if loose_slots_within(loose_slots, ROOM - beside) < loose_slots.len() {
        return false;
    }
    go_into_page(loose_slots)
}

/// Whether a branch has room, in one page, for what stands in place of a child and those beside it.
pub(crate) fn go_between(
    branch: &Branch,
    at: usize,
    rank: u32,
    low: &[u8],
    amid: &LooseNode,
) -> bool
    requires sound { IsBranch branch.now }
    requires place { at < length branch.now }
    ensures rank { result ≡ true → (amid.now.rank ≡ rank) × (rank < 4294967295) }
    ensures behind { result ≡ true → 1 < at }
    ensures sound { (pivots : List Pivot) → map slot_in amid.now.loose_slots.items
        ≡ map pivot_slot pivots
        → result ≡ true
        → IsBranch (exchanged (at - 1) (min (at + 2) (length branch.now)) pivots branch.now) }
{
    if amid.rank != rank || rank == u32::MAX || at < 2 {
        return false;
    }
    find_room(
        branch,
        at.saturating_sub(1),
        place_behind(branch, at),
        low,
        &amid.loose_slots,
    )
}

/// A branch with these children in place of a child and those beside it, written to a page of its own.
pub(crate) fn write_between<P: Pages>(
    alloc: Global,
    pages: &mut P,
    branch: &Branch,
    at: usize,
    loose_slots: &[LooseSlot],
    rank: u32,
    low: &[u8],
) -> Result<LooseNode, TreeFault>
    requires place { at < length branch.now }
    requires behind { 1 < at }
    requires range { rank < 4294967295 }
    requires sound { (pivots : List Pivot) → map slot_in loose_slots.now ≡ map pivot_slot pivots
        → IsBranch (exchanged (at - 1) (min (at + 2) (length branch.now)) pivots branch.now) }
    ensures grows { Grows (P.store pages.old) (P.store pages.new) }
    ensures few { 6 + length low.now ≤ 1360
        → GivesFew (P.store pages.old) (P.store pages.new) (rank + 1) 1360 1 result }
    ensures turns { (base : ℕ) (high : Option (List ℕ)) (entries : List Entry) (reached : List ℕ)
        → IsAround (P.store pages.old) base low.now high
        (map pivot_slot (under_key low.now branch.now)) (at - 1) (min (at + 2) (length branch.now))
        rank entries reached (record { rank = rank; slots = map slot_in loose_slots.now })
        → base < rank → 6 + length low.now ≤ 1360
        → Turns (P.store pages.old) (P.store pages.new) base low.now high entries reached result }
{
    let children = children_of(alloc, loose_slots)?;
    let made = branch.with_children(
        alloc,
        at.saturating_sub(1),
        place_behind(branch, at),
        &children,
    )?;
    write_made(alloc, pages, made, rank, low)
}
