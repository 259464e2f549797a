// Edits of a leaf that stays one page: the cells that stay are copied as runs of bytes.
ghost use Rattle.std.specs.Prelude.{◌≡◌, ◌∷◌, [], ◌+◌, ◌≤◌, ◌<◌, ◌^◌, ℕ, List, Option, Some, zero, length, map, true, IfOk};
ghost use Rattle.std.specs.Option.{option_map, unwrap_or};
ghost use Rattle.page.specs.Content.{IsLeaf, item_size, total};
ghost use Rattle.tree_model.specs.Calls.{IsEdited, IsPutIn, IsTakenOut, Yields};
ghost use Rattle.tree_model.specs.EditView.{HasRoom, edit_in};
ghost use Rattle.btree.specs.Few.{Costs, GivesFewOrOne, chain_pages, edit_pages, edit_room, put_room};
ghost use Rattle.tree_model.specs.Keys.{Each, Pair, Rises, entry_of, sum_of};
ghost use Rattle.tree_model.specs.Search.{IsGap};
ghost use Rattle.tree_model.specs.Store.{Grows, Store};
ghost use Rattle.tree_model.specs.Tree.{IsSound, Shows, item_of, pages_of, pair_keys};
ghost use Rattle.btree.specs.Turn.{Turns};

use crate::cutting::ROOM;
use crate::editing::{INLINE, retire_value, stored_value};
use crate::joining::LITTLE;
use crate::node::{LooseNode, push_loose_slot};
use crate::parts::child_loose_slot;
use crate::taking_apart::loose_slots_of_leaf;
use key_order::compare_keys;
use page::{Cell, Leaf, PageContent};
use std::alloc::{AllocError, Global};
use tree_model::{Edit, Pages, TreeFault, leaf_cell, leaf_key, place_of_key};

// The bytes of a cell of this key and value; none where there is no value.
fn cell_bytes(key: &[u8], value: Option<&[u8]>) -> usize
    requires { length key.now ≤ 1024 }
    ensures { result ≡ put_room key.now (option_map (λ b. b.now) value.entry) }
{
    match value {
        None => 0,
        Some(value) => {
            let stored = if value.len() <= INLINE {
                value.len()
            } else {
                4
            };
            6 + key.len() + stored
        }
    }
}

/// Whether the leaf surely has room for the cells that are put, and one is left of those that it has.
pub(crate) fn has_room(leaf: &Leaf, edits: &[Edit<'_>]) -> bool
    requires { Each HasRoom edits.now }
    ensures cells { result ≡ true → length edits.now < length leaf.now }
    ensures room { result ≡ true → total item_size leaf.now
        + sum_of edit_room (map edit_in edits.now) ≤ 4080 }
{
    if edits.len() >= leaf.len() {
        return false;
    }
    let mut used = leaf.size();
    for edit in edits {
        let more = cell_bytes(edit.key, edit.value);
        if more > ROOM - used {
            return false;
        }
        used += more;
    }
    true
}

// The leaf without the cell of a key, whose value is retired; None where no cell has it. Gives the place where the key
// belongs.
fn cut_key<P: Pages>(
    alloc: Global,
    pages: &mut P,
    leaf: &Leaf,
    key: &[u8],
) -> Result<(Option<Leaf>, usize), TreeFault>
    requires { 2 ≤ length leaf.now }
    ensures grows { Grows (P.store pages.old) (P.store pages.new) }
    ensures few { Costs (P.store pages.old) (P.store pages.new) 0 }
    ensures len { IfOk result (λ cut. length leaf.now ≤ length (unwrap_or cut.0 leaf.now) + 1) }
    ensures size { IfOk result (λ cut.
        total item_size (unwrap_or cut.0 leaf.now) ≤ total item_size leaf.now) }
    ensures sound { IfOk result (λ cut. IsLeaf (unwrap_or cut.0 leaf.now)) }
    ensures gap { IfOk result (λ cut. IsGap (unwrap_or cut.0 leaf.now) key.now cut.1) }
    ensures takes { (pairs : List Pair) → leaf.now ≡ map item_of pairs → Rises (pair_keys pairs)
        → Shows (P.store pages.old) zero pairs
        → Yields (P.store pages.old) (P.store pages.new) (λ cut.
        IsTakenOut (P.store pages.old) (P.store pages.new) key.now pairs
        (unwrap_or cut.0 leaf.now) cut.1) result }
{
    let at = place_of_key(leaf, key);
    if at >= leaf.len() {
        return Ok((None, at));
    }
    let cell = leaf_cell(leaf, at);
    if !compare_keys(cell.key, key).is_eq() {
        return Ok((None, at));
    }
    retire_value(pages, cell.stored)?;
    let left = leaf.without(alloc, at)?;
    Ok((Some(left), at))
}

// What was made of a leaf, or the leaf as it was.
fn made_of<'a>(made: &'a Option<Leaf>, leaf: &'a Leaf) -> &'a Leaf
    ensures { result.now ≡ unwrap_or made.now leaf.now }
{
    match made {
        Some(made) => made,
        None => leaf,
    }
}

// The same, as a leaf of its own.
fn made_or_copy(alloc: Global, made: Option<Leaf>, leaf: &Leaf) -> Result<Leaf, AllocError>
    ensures { IfOk result (λ own. own ≡ unwrap_or made leaf.now) }
{
    match made {
        Some(made) => Ok(made),
        None => leaf.copy(alloc),
    }
}

// Puts a cell with this key and value in.
fn put_cell<P: Pages>(
    alloc: Global,
    pages: &mut P,
    leaf: &Leaf,
    at: usize,
    key: &[u8],
    value: &[u8],
) -> Result<Leaf, TreeFault>
    requires sound { IsLeaf leaf.now }
    requires gap { IsGap leaf.now key.now at }
    requires key { length key.now ≤ 1024 }
    requires value { length value.now < 2 ^ 32 }
    requires room { total item_size leaf.now + put_room key.now (Some value.now) ≤ 4080 }
    ensures grows { Grows (P.store pages.old) (P.store pages.new) }
    ensures few { Costs (P.store pages.old) (P.store pages.new) (chain_pages value.now) }
    ensures len { IfOk result (λ made. length leaf.now ≤ length made) }
    ensures size { IfOk result (λ made. total item_size made
        ≤ total item_size leaf.now + put_room key.now (Some value.now)) }
    ensures puts { Yields (P.store pages.old) (P.store pages.new) (λ made.
        IsPutIn (P.store pages.old) (P.store pages.new) key.now value.now at leaf.now made) result }
{
    let stored = stored_value(alloc, pages, value)?;
    let made = leaf.with(alloc, at, &Cell { key, stored })?;
    Ok(made)
}

// A leaf after an edit.
fn edit_leaf<P: Pages>(
    alloc: Global,
    pages: &mut P,
    leaf: &Leaf,
    edit: Edit<'_>,
) -> Result<Leaf, TreeFault>
    requires has { HasRoom edit }
    requires two { 2 ≤ length leaf.now }
    requires room { total item_size leaf.now + edit_room (edit_in edit) ≤ 4080 }
    ensures grows { Grows (P.store pages.old) (P.store pages.new) }
    ensures few { Costs (P.store pages.old) (P.store pages.new) (edit_pages (edit_in edit.entry)) }
    ensures len { IfOk result (λ made. length leaf.now ≤ length made + 1) }
    ensures size { IfOk result (λ made. total item_size made
        ≤ total item_size leaf.now + edit_room (edit_in edit.entry)) }
    ensures edits { (pairs : List Pair) → leaf.now ≡ map item_of pairs → Rises (pair_keys pairs)
        → Shows (P.store pages.old) zero pairs
        → Yields (P.store pages.old) (P.store pages.new) (λ made. IsEdited (P.store pages.old)
        (P.store pages.new) (edit_in edit.entry ∷ []) pairs made) result }
{
    let (left, at) = cut_key(alloc, pages, leaf, edit.key)?;
    match edit.value {
        None => {
            let made = made_or_copy(alloc, left, leaf)?;
            Ok(made)
        }
        Some(value) => put_cell(alloc, pages, made_of(&left, leaf), at, edit.key, value),
    }
}

/// A leaf after edits, one after the other.
pub(crate) fn edit_page<P: Pages>(
    alloc: Global,
    pages: &mut P,
    leaf: &Leaf,
    edits: &[Edit<'_>],
) -> Result<Leaf, TreeFault>
    requires has { Each HasRoom edits.now }
    requires cells { length edits.now < length leaf.now }
    requires room { total item_size leaf.now + sum_of edit_room (map edit_in edits.now) ≤ 4080 }
    ensures grows { Grows (P.store pages.old) (P.store pages.new) }
    ensures few { Costs (P.store pages.old) (P.store pages.new)
        (sum_of edit_pages (map edit_in edits.now)) }
    ensures edits { (pairs : List Pair) → leaf.now ≡ map item_of pairs → Rises (pair_keys pairs)
        → Shows (P.store pages.old) zero pairs
        → Yields (P.store pages.old) (P.store pages.new) (λ made. IsEdited (P.store pages.old)
        (P.store pages.new) (map edit_in edits.now) pairs made) result }
{
    let mut edited = None;
    for edit in edits {
        let next = edit_leaf(alloc, pages, made_of(&edited, leaf), *edit)?;
        edited = Some(next);
    }
    let made = made_or_copy(alloc, edited, leaf)?;
    Ok(made)
}

/// A leaf as a child of the page above it, written to a page of its own, or, where it has little and no more is to
/// come behind it, its cells.
pub(crate) fn write_leaf<P: Pages>(
    alloc: Global,
    pages: &mut P,
    leaf: Leaf,
    rank: u32,
    fills: bool,
) -> Result<LooseNode, TreeFault>
    ensures grows { Grows (P.store pages.old) (P.store pages.new) }
    ensures few { GivesFewOrOne (P.store pages.old) (P.store pages.new) rank 5440 0 result }
    ensures turns { (base : ℕ) (low : List ℕ) (high : Option (List ℕ)) (pairs : List Pair)
        → rank ≡ base → leaf ≡ map item_of pairs → IsSound zero low high pairs
        → Shows (P.store pages.old) zero pairs
        → Turns (P.store pages.old) (P.store pages.new) base low high (map entry_of pairs)
        (pages_of zero pairs) result }
{
    if leaf.len() < 2 || (leaf.size() <= LITTLE && !fills) || rank == u32::MAX {
        let loose_slots = loose_slots_of_leaf(alloc, &leaf)?;
        return Ok(LooseNode {
            rank,
            loose_slots,
            fills: false,
        });
    }
    let key = Vec::from_slice(alloc, leaf_key(&leaf, 0))?;
    let page = pages.allocate(PageContent::Leaf(leaf))?;
    let mut loose_slots = Vec::new(alloc);
    push_loose_slot(&mut loose_slots, child_loose_slot(key, page))?;
    Ok(LooseNode {
        rank: rank + 1,
        loose_slots,
        fills: false,
    })
}
