// Joining what was taken out of neighbouring pages.
ghost use Rattle.std.specs.Prelude.{◌≡◌, ◌<◌, ◌≤◌, ◌+◌, ◌++◌, ◌∷◌, ℕ, List, Option, Some, false, true, length, map, IfErr, IfOk, MatchResult};
ghost use Rattle.btree.specs.Change.{IsBehind};
ghost use Rattle.btree.specs.Few.{AreFewOff, IsLittle, GivesFew, JoinsFew, MakesUpTo};
ghost use Rattle.tree_model.specs.Keys.{Each, Entry, IsNotUnder};
ghost use Rattle.btree.specs.Loose.{IsSlot, slots_size};
ghost use Rattle.btree.specs.LooseView.{slot_in};
ghost use Rattle.tree_model.specs.Store.{Grows, KeepsWord, Store};
ghost use Rattle.btree.specs.Turn.{GoesBefore, IsHeld, IsJoined, IsReady, IsUpTo, PartsFirst, PartsLast, Turns, model_in};

use crate::cutting::{ROOM, THIRD, loose_slots_within};
use crate::node::{LooseNode, LooseSlot, page_below};
use crate::taking_apart::{concat, open_page, raise};
use std::alloc::Global;
use tree_model::{Pages, TreeFault};

/// A quarter of a page, in bytes: children that have less are joined with what is beside them.
pub(crate) const QUARTER: usize = 1020;
/// Nine twentieths of a page, in bytes: cells that have less are joined with what is beside them.
pub(crate) const LITTLE: usize = 1836;

// Whether they are enough for pages of their own. Cells that are just more than a page aren't: a page beside them may
// have room for some.
fn fill_pages(loose_slots: &[LooseSlot]) -> bool
    requires { 0 < length loose_slots.now }
    ensures { result ≡ false → Each IsSlot (map slot_in loose_slots.now)
        → slots_size (map slot_in loose_slots.now) ≤ 5440 }
{
    if loose_slots[0].is_child() {
        return loose_slots_within(loose_slots, QUARTER) < loose_slots.len();
    }
    if loose_slots_within(loose_slots, LITTLE) >= loose_slots.len() {
        return false;
    }
    let whole = loose_slots_within(loose_slots, ROOM);
    if whole >= loose_slots.len() {
        return true;
    }
    let behind = loose_slots_within(&loose_slots[whole..], THIRD);
    if whole + behind < loose_slots.len() {
        return true;
    }
    false
}

/// Whether it may stand in pages of its own. Cells that came behind all others may, however few: more may come there.
pub(crate) fn is_full(node: &LooseNode) -> bool
    ensures two { result ≡ true → 2 ≤ length node.now.loose_slots.items }
    ensures few { result ≡ false → Each IsSlot (map slot_in node.now.loose_slots.items)
        → slots_size (map slot_in node.now.loose_slots.items) ≤ 5440 }
{
    if node.loose_slots.len() < 2 {
        return false;
    }
    if node.fills {
        return true;
    }
    fill_pages(&node.loose_slots)
}

// Takes the last child off and takes its page apart.
fn take_last<P: Pages>(
    alloc: Global,
    pages: &mut P,
    node: LooseNode,
) -> Result<(LooseNode, LooseNode), TreeFault>
    requires { 0 < node.rank }
    ensures grows { Grows (P.store pages.old) (P.store pages.new) }
    ensures front_rank { IfOk result (λ parts. parts.0.rank ≡ node.rank) }
    ensures front { IfOk result
        (λ parts. length parts.0.loose_slots.items + 1 ≡ length node.loose_slots.items) }
    ensures back_rank { IfOk result (λ parts. parts.1.rank + 1 ≡ node.rank) }
    ensures back { IfOk result (λ parts. 0 < length parts.1.loose_slots.items) }
    ensures few { KeepsWord (P.store pages.new) → Each IsSlot (map slot_in node.loose_slots.items)
        → MatchResult result (λ parts. AreFewOff (P.store pages.old) (P.store pages.new)
        (map slot_in node.loose_slots.items) (model_in parts.0) (model_in parts.1))
        (λ e. MakesUpTo (P.store pages.old) (P.store pages.new) 0) }
    ensures parts { (base : ℕ) (low : List ℕ) (high : Option (List ℕ)) (entries : List Entry)
        (reached : List ℕ)
        → IsHeld (P.store pages.old) base low high entries reached (model_in node)
        → base < node.rank → 0 < length node.loose_slots.items
        → PartsLast (P.store pages.old) (P.store pages.new) base low high entries reached result }
{
    let mut loose_slots = node.loose_slots;
    let Some(loose_slot) = loose_slots.pop() else {
        return Err(TreeFault::Length);
    };
    let Some(page) = page_below(&loose_slot) else {
        return Err(TreeFault::Kind);
    };
    let opened = open_page(alloc, pages, page, node.rank - 1, &loose_slot.key)?;
    let front = LooseNode {
        rank: node.rank,
        loose_slots,
        fills: false,
    };
    Ok((front, opened))
}

// Takes the first child off and takes its page apart.
fn take_first<P: Pages>(
    alloc: Global,
    pages: &mut P,
    node: LooseNode,
) -> Result<(LooseNode, LooseNode), TreeFault>
    requires { 0 < node.rank }
    ensures grows { Grows (P.store pages.old) (P.store pages.new) }
    ensures front_rank { IfOk result (λ parts. parts.0.rank + 1 ≡ node.rank) }
    ensures front { IfOk result (λ parts. 0 < length parts.0.loose_slots.items) }
    ensures back_rank { IfOk result (λ parts. parts.1.rank ≡ node.rank) }
    ensures back { IfOk result
        (λ parts. length parts.1.loose_slots.items + 1 ≡ length node.loose_slots.items) }
    ensures few { KeepsWord (P.store pages.new) → Each IsSlot (map slot_in node.loose_slots.items)
        → MatchResult result (λ parts. AreFewOff (P.store pages.old) (P.store pages.new)
        (map slot_in node.loose_slots.items) (model_in parts.1) (model_in parts.0))
        (λ e. MakesUpTo (P.store pages.old) (P.store pages.new) 0) }
    ensures parts { (base : ℕ) (low : List ℕ) (high : Option (List ℕ)) (entries : List Entry)
        (reached : List ℕ)
        → IsHeld (P.store pages.old) base low high entries reached (model_in node)
        → base < node.rank → 0 < length node.loose_slots.items → IsUpTo low high
        → PartsFirst (P.store pages.old) (P.store pages.new) base low high entries reached result }
{
    let mut loose_slots = node.loose_slots;
    if loose_slots.is_empty() {
        return Err(TreeFault::Length);
    }
    let loose_slot = loose_slots.remove(0);
    let Some(page) = page_below(&loose_slot) else {
        return Err(TreeFault::Kind);
    };
    let opened = open_page(alloc, pages, page, node.rank - 1, &loose_slot.key)?;
    let back = LooseNode {
        rank: node.rank,
        loose_slots,
        fills: node.fills,
    };
    Ok((opened, back))
}

// Writes what is below, and puts what stands for it behind what is in front.
fn raise_behind<P: Pages>(
    alloc: Global,
    pages: &mut P,
    front: LooseNode,
    below: LooseNode,
) -> Result<LooseNode, TreeFault>
    requires next { below.rank + 1 ≡ front.rank }
    requires range { below.rank < 4294967295 }
    ensures grows { Grows (P.store pages.old) (P.store pages.new) }
    ensures rank { IfOk result (λ both. both.rank ≡ front.rank) }
    ensures long { 0 < length below.loose_slots.items
        → IfOk result (λ both. length front.loose_slots.items + 1 ≤ length both.loose_slots.items) }
    ensures few { IsLittle 10880 (model_in below)
        → Each IsSlot (map slot_in front.loose_slots.items)
        → GivesFew (P.store pages.old) (P.store pages.new) front.rank
        (slots_size (map slot_in front.loose_slots.items) + 5440) 4 result }
    ensures turns { (base : ℕ) (low mid : List ℕ) (high : Option (List ℕ)) (first last : List Entry)
        (front_pages pages_below : List ℕ)
        → IsHeld (P.store pages.old) base low (Some mid) first front_pages (model_in front)
        → IsHeld (P.store pages.old) base mid high last pages_below (model_in below)
        → IsReady base (model_in below) → IsNotUnder mid low → IsUpTo mid high
        → Turns (P.store pages.old) (P.store pages.new) base low high (first ++ last)
        (front_pages ++ pages_below) result }
{
    let above = raise(alloc, pages, below)?;
    concat(front, above)
}

// Writes what is below, and puts what stands for it before what is behind.
fn raise_before<P: Pages>(
    alloc: Global,
    pages: &mut P,
    below: LooseNode,
    back: LooseNode,
) -> Result<LooseNode, TreeFault>
    requires next { below.rank + 1 ≡ back.rank }
    requires range { below.rank < 4294967295 }
    ensures grows { Grows (P.store pages.old) (P.store pages.new) }
    ensures rank { IfOk result (λ both. both.rank ≡ back.rank) }
    ensures long { 0 < length below.loose_slots.items
        → IfOk result (λ both. length back.loose_slots.items + 1 ≤ length both.loose_slots.items) }
    ensures few { IsLittle 10880 (model_in below) → Each IsSlot (map slot_in back.loose_slots.items)
        → GivesFew (P.store pages.old) (P.store pages.new) back.rank
        (slots_size (map slot_in back.loose_slots.items) + 5440) 4 result }
    ensures turns { (base : ℕ) (low : List ℕ) (between high : Option (List ℕ))
        (first last : List Entry) (pages_below back_pages : List ℕ)
        → IsHeld (P.store pages.old) base low between first pages_below (model_in below)
        → IsReady base (model_in below)
        → GoesBefore (P.store pages.old) base low between high last back_pages (model_in back)
        → Turns (P.store pages.old) (P.store pages.new) base low high (first ++ last)
        (pages_below ++ back_pages) result }
{
    let above = raise(alloc, pages, below)?;
    concat(above, back)
}

/// Puts what was taken out of pages behind what was taken out of the pages before them. Where they stand at
/// different heights, pages at the edge between them are taken apart.
pub(crate) fn join<P: Pages>(
    alloc: Global,
    pages: &mut P,
    left: LooseNode,
    right: LooseNode,
) -> Result<LooseNode, TreeFault>
    ensures grows { Grows (P.store pages.old) (P.store pages.new) }
    ensures joined { IfOk result
        (λ both. IsJoined (model_in left) (model_in right) (model_in both)) }
    ensures few { JoinsFew 5440 (P.store pages.old) (P.store pages.new) (model_in left)
        (model_in right) result }
    ensures turns { (base : ℕ) (low mid : List ℕ) (high : Option (List ℕ)) (first last : List Entry)
        (left_pages right_pages : List ℕ)
        → IsHeld (P.store pages.old) base low (Some mid) first left_pages (model_in left)
        → IsHeld (P.store pages.old) base mid high last right_pages (model_in right)
        → IsNotUnder mid low → IsUpTo mid high
        → Turns (P.store pages.old) (P.store pages.new) base low high (first ++ last)
        (left_pages ++ right_pages) result }
{
    if left.loose_slots.is_empty() {
        return Ok(right);
    }
    if right.loose_slots.is_empty() {
        return Ok(left);
    }
    if left.rank == right.rank {
        return concat(left, right);
    }
    if left.rank > right.rank {
        let (front, last) = take_last(alloc, pages, left)?;
        let below = join(alloc, pages, last, right)?;
        return raise_behind(alloc, pages, front, below);
    }
    let (first, back) = take_first(alloc, pages, right)?;
    let below = join(alloc, pages, left, first)?;
    raise_before(alloc, pages, below, back)
}

/// Puts what was taken out of pages behind what was taken out of the pages before them. What stands below the
/// other is written, if it is enough, and joined with the page beside it, if it isn't.
pub(crate) fn meet<P: Pages>(
    alloc: Global,
    pages: &mut P,
    left: LooseNode,
    right: LooseNode,
) -> Result<LooseNode, TreeFault>
    ensures grows { Grows (P.store pages.old) (P.store pages.new) }
    ensures few { JoinsFew 10880 (P.store pages.old) (P.store pages.new) (model_in left)
        (model_in right) result }
    ensures turns { (base : ℕ) (low mid : List ℕ) (high : Option (List ℕ)) (first last : List Entry)
        (left_pages right_pages : List ℕ)
        → IsHeld (P.store pages.old) base low (Some mid) first left_pages (model_in left)
        → IsHeld (P.store pages.old) base mid high last right_pages (model_in right)
        → IsNotUnder mid low → IsUpTo mid high
        → Turns (P.store pages.old) (P.store pages.new) base low high (first ++ last)
        (left_pages ++ right_pages) result }
{
    if left.rank > right.rank {
        if left.rank - right.rank > 1 {
            return join(alloc, pages, left, right);
        }
        if is_full(&right) {
            return raise_behind(alloc, pages, left, right);
        }
        return join(alloc, pages, left, right);
    }
    if right.rank - left.rank != 1 {
        return join(alloc, pages, left, right);
    }
    if is_full(&left) {
        return raise_before(alloc, pages, left, right);
    }
    join(alloc, pages, left, right)
}

/// The same, where there may be nothing behind.
pub(crate) fn meet_behind<P: Pages>(
    alloc: Global,
    pages: &mut P,
    left: LooseNode,
    right: LooseNode,
) -> Result<LooseNode, TreeFault>
    ensures grows { Grows (P.store pages.old) (P.store pages.new) }
    ensures few { 0 < length right.loose_slots.items
        → JoinsFew 10880 (P.store pages.old) (P.store pages.new) (model_in left)
        (model_in right) result }
    ensures none { length right.loose_slots.items ≡ 0 → KeepsWord (P.store pages.new)
        → MatchResult result
        (λ both. (both ≡ left) × MakesUpTo (P.store pages.old) (P.store pages.new) 0)
        (λ e. MakesUpTo (P.store pages.old) (P.store pages.new) 0) }
    ensures turns { (base : ℕ) (low : List ℕ) (between high : Option (List ℕ))
        (first last : List Entry) (left_pages right_pages : List ℕ)
        → IsHeld (P.store pages.old) base low between first left_pages (model_in left)
        → IsBehind (P.store pages.old) base between high last right_pages (model_in right)
        → IsUpTo low between
        → Turns (P.store pages.old) (P.store pages.new) base low high (first ++ last)
        (left_pages ++ right_pages) result }
{
    if right.loose_slots.is_empty() {
        return Ok(left);
    }
    meet(alloc, pages, left, right)
}
