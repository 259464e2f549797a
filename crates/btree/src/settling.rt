// What was below one child of a branch, back among its neighbours.
ghost use Rattle.std.specs.Prelude.{◌≡◌, ◌<◌, ◌++◌, ⊤, ℕ, List, Option, Some, true, length, IfErr, IfOk};
ghost use Rattle.page.specs.Content.{Content};
ghost use Rattle.tree_model.specs.Calls.{Yields};
ghost use Rattle.btree.specs.Change.{IsBehind};
ghost use Rattle.btree.specs.Few.{SettlesFew};
ghost use Rattle.tree_model.specs.Keys.{Entry, IsNotUnder};
ghost use Rattle.btree.specs.Loose.{child};
ghost use Rattle.btree.specs.LooseView.{slot_in};
ghost use Rattle.tree_model.specs.Store.{Grows, HasCause, IsAt, IsSame, KeepsWord};
ghost use Rattle.btree.specs.Turn.{IsHeld, IsUpTo, Turns, model_in};

use crate::joining::{is_full, meet, meet_behind};
use crate::node::{LooseNode, LooseSlot, page_below};
use page::PageContent;
use std::alloc::Global;
use tree_model::{Pages, TreeFault};

// The bytes that the page of a child has.
fn bytes_below<P: Pages>(pages: &mut P, loose_slot: &LooseSlot) -> Result<usize, TreeFault>
    ensures grows { Grows (P.store pages.old) (P.store pages.new) }
    ensures same { KeepsWord (P.store pages.new)
        → IsSame (P.store pages.old) (P.store pages.new) }
    ensures cause { KeepsWord (P.store pages.new)
        → ((page : ℕ) → (slot_in loose_slot.now).load ≡ child page
        → (content : Content) × IsAt (P.store pages.old) page content)
        → IfErr result (HasCause (P.store pages.old) (P.store pages.new)) }
{
    let Some(page) = page_below(loose_slot) else {
        return Ok(0);
    };
    let shared = pages.read(page)?;
    match &shared.image().content {
        PageContent::Leaf(leaf) => Ok(leaf.size()),
        PageContent::Branch(branch) => Ok(branch.size()),
        _ => Ok(0),
    }
}

// Whether something is to be joined with what stands before it, since that has less than what stands behind it. What
// stands at their height goes between them as it is.
fn goes_to_the_left<P: Pages>(
    pages: &mut P,
    left: &LooseNode,
    below: &LooseNode,
    right: &LooseNode,
) -> Result<bool, TreeFault>
    ensures grows { Grows (P.store pages.old) (P.store pages.new) }
    ensures same { KeepsWord (P.store pages.new)
        → IsSame (P.store pages.old) (P.store pages.new) }
    ensures some { IfOk result (λ goes. goes ≡ true → 0 < length left.now.loose_slots.items) }
    ensures cause { (base : ℕ) (low mid : List ℕ) (between high : Option (List ℕ))
        (first last : List Entry) (left_pages right_pages : List ℕ)
        → IsHeld (P.store pages.old) base low (Some mid) first left_pages (model_in left.now)
        → IsBehind (P.store pages.old) base between high last right_pages (model_in right.now)
        → Yields (P.store pages.old) (P.store pages.new) (λ goes. ⊤) result }
{
    if left.loose_slots.is_empty() || right.loose_slots.is_empty() {
        return Ok(false);
    }
    if below.rank == left.rank && below.rank == right.rank {
        return Ok(false);
    }
    if is_full(below) {
        return Ok(false);
    }
    let before = bytes_below(pages, &left.loose_slots[left.loose_slots.len() - 1])?;
    let behind = bytes_below(pages, &right.loose_slots[0])?;
    Ok(before < behind)
}

/// Puts what is below one child between what stands before it and what stands behind it. What is not enough for pages
/// of its own, or just too much for one, is joined with the page beside it that has less.
pub(crate) fn settle<P: Pages>(
    alloc: Global,
    pages: &mut P,
    left: LooseNode,
    below: LooseNode,
    right: LooseNode,
) -> Result<LooseNode, TreeFault>
    ensures grows { Grows (P.store pages.old) (P.store pages.new) }
    ensures few { SettlesFew (P.store pages.old) (P.store pages.new) (model_in left)
        (model_in below) (model_in right) result }
    ensures turns { (base : ℕ) (low mid : List ℕ) (between high : Option (List ℕ))
        (first amid last : List Entry) (left_pages mid_pages right_pages : List ℕ)
        → IsHeld (P.store pages.old) base low (Some mid) first left_pages (model_in left)
        → IsHeld (P.store pages.old) base mid between amid mid_pages (model_in below)
        → IsBehind (P.store pages.old) base between high last right_pages (model_in right)
        → IsNotUnder mid low → IsUpTo mid between → IsUpTo mid high
        → Turns (P.store pages.old) (P.store pages.new) base low high (first ++ (amid ++ last))
        (left_pages ++ (mid_pages ++ right_pages)) result }
{
    let to_the_left = goes_to_the_left(pages, &left, &below, &right)?;
    if to_the_left {
        let front = meet(alloc, pages, left, below)?;
        return meet_behind(alloc, pages, front, right);
    }
    let back = meet_behind(alloc, pages, below, right)?;
    meet(alloc, pages, left, back)
}
