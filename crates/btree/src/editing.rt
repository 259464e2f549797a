// Edits of the cells of a leaf.
ghost use Rattle.std.specs.Prelude.{◌≡◌, ◌∷◌, [], ◌+◌, ◌*◌, ◌≤◌, ◌<◌, ◌^◌, List, length, map, IfOk, zero};
ghost use Rattle.page.specs.Content.{IsItem, item_size, place_size, spilled, total};
ghost use Rattle.tree_model.specs.Calls.{IsSmallPlace};
ghost use Rattle.btree.specs.Few.{Costs, chain_pages, edit_pages, value_room};
ghost use Rattle.tree_model.specs.Keys.{Each, Pair, Rises, sum_of};
ghost use Rattle.tree_model.specs.Store.{Store, Grows};
ghost use Rattle.tree_model.specs.Tree.{HasChain, Shows, item_of, pair_keys, place_of};
ghost use Rattle.tree_model.specs.View.{item_in, place_in};
ghost use Rattle.tree_model.specs.Search.{IsPlace};
ghost use Rattle.tree_model.specs.EditView.{HasRoom, edit_in};
ghost use Rattle.tree_model.specs.Calls.{Edits, PutsIn, Retires, StoresValue, TakesOut};

use crate::chain::{retire_chain, write_chain};
use key_order::compare_keys;
use page::{Cell, Stored};
use std::alloc::Global;
use std::cmp::Ordering;
use tree_model::{Edit, Pages, TreeFault};

// The first cell whose key isn't below this one.
fn place_among(cells: &[Cell<'_>], key: &[u8]) -> usize
    ensures { IsPlace (map item_in cells.now) key.now result }
{
    let mut low = 0;
    let mut high = cells.len();
    while low < high {
        let middle = low + (high - low) / 2;
        match compare_keys(cells[middle].key, key) {
            Ordering::Less => low = middle + 1,
            _ => high = middle,
        }
    }
    low
}

/// Retires the pages of a value.
pub(crate) fn retire_value<P: Pages>(pages: &mut P, stored: Stored<'_>) -> Result<(), TreeFault>
    ensures grows { Grows (P.store pages.old) (P.store pages.new) }
    ensures few { Costs (P.store pages.old) (P.store pages.new) 0 }
    ensures retires { (x : Pair) → place_in stored.entry ≡ place_of x.links x.value
        → HasChain (P.store pages.old) x
        → Retires (P.store pages.old) (P.store pages.new) x.links result }
{
    match stored {
        Stored::Inline(_) => Ok(()),
        Stored::Chained { len, first } => retire_chain(pages, first, len),
    }
}

// Takes the cell of a key out, if there is one, and retires its value. Gives the place where the key
// belongs.
fn take_out<P: Pages>(
    pages: &mut P,
    cells: &mut Vec<Cell<'_>>,
    key: &[u8],
) -> Result<usize, TreeFault>
    ensures grows { Grows (P.store pages.old) (P.store pages.new) }
    ensures within { IfOk result (λ at. at ≤ length cells.new.items) }
    ensures small { Each IsItem (map item_in cells.old.items)
        → Each IsItem (map item_in cells.new.items) }
    ensures few { Costs (P.store pages.old) (P.store pages.new) 0 }
    ensures size { total item_size (map item_in cells.new.items)
        ≤ total item_size (map item_in cells.old.items) }
    ensures takes { (pairs : List Pair) → map item_in cells.old.items ≡ map item_of pairs
        → Rises (pair_keys pairs)
        → Shows (P.store pages.old) zero pairs
        → TakesOut (P.store pages.old) (P.store pages.new) key.now pairs
        (map item_in cells.new.items) result }
{
    let at = place_among(cells, key);
    if at >= cells.len() {
        return Ok(at);
    }
    let cell = cells[at];
    if !compare_keys(cell.key, key).is_eq() {
        return Ok(at);
    }
    retire_value(pages, cell.stored)?;
    cells.remove(at);
    Ok(at)
}

/// The longest value that lies in its cell, in bytes.
pub(crate) const INLINE: usize = 330;

fn chained<'a>(len: u32, first: u32) -> Stored<'a>
    ensures place { place_in result ≡ spilled len first }
    ensures range { (len < 2 ^ 32) × (first < 2 ^ 32) }
{
    Stored::Chained { len, first }
}

/// Where a value lies in a new cell: in it, or in a chain that is written.
pub(crate) fn stored_value<'a, P: Pages>(
    alloc: Global,
    pages: &mut P,
    value: &'a [u8],
) -> Result<Stored<'a>, TreeFault>
    requires { length value.now < 2 ^ 32 }
    ensures grows { Grows (P.store pages.old) (P.store pages.new) }
    ensures small { IfOk result (λ stored. IsSmallPlace (place_in stored)) }
    ensures size { IfOk result (λ stored. place_size (place_in stored) ≡ value_room value.now) }
    ensures few { Costs (P.store pages.old) (P.store pages.new) (chain_pages value.now) }
    ensures stores { StoresValue (P.store pages.old) (P.store pages.new) value.now result }
{
    if value.len() <= INLINE {
        return Ok(Stored::Inline(value));
    }
    let first = write_chain(alloc, pages, value)?;
    Ok(chained(value.len() as u32, first))
}

// Puts a cell with this key and value at a place.
fn put_in<'a, P: Pages>(
    alloc: Global,
    pages: &mut P,
    cells: &mut Vec<Cell<'a>>,
    at: usize,
    key: &'a [u8],
    value: &'a [u8],
) -> Result<(), TreeFault>
    requires place { at ≤ length cells.old.items }
    requires key { length key.now ≤ 1024 }
    requires value { length value.now < 2 ^ 32 }
    ensures small { Each IsItem (map item_in cells.old.items)
        → IfOk result (λ done. Each IsItem (map item_in cells.new.items)) }
    ensures grows { Grows (P.store pages.old) (P.store pages.new) }
    ensures few { Costs (P.store pages.old) (P.store pages.new) (chain_pages value.now) }
    ensures size { IfOk result (λ done. total item_size (map item_in cells.new.items)
        ≤ total item_size (map item_in cells.old.items) + 1360) }
    ensures puts { PutsIn (P.store pages.old) (P.store pages.new) key.now value.now at
        (map item_in cells.old.items) (map item_in cells.new.items) result }
{
    let stored = stored_value(alloc, pages, value)?;
    match cells.insert(at, Cell { key, stored }) {
        Ok(()) => Ok(()),
        Err(_) => Err(TreeFault::Memory),
    }
}

// Makes an edit of the cells of a leaf.
fn edit_cell<'a, P: Pages>(
    alloc: Global,
    pages: &mut P,
    cells: &mut Vec<Cell<'a>>,
    edit: Edit<'a>,
) -> Result<(), TreeFault>
    requires { HasRoom edit }
    ensures grows { Grows (P.store pages.old) (P.store pages.new) }
    ensures small { Each IsItem (map item_in cells.old.items)
        → IfOk result (λ done. Each IsItem (map item_in cells.new.items)) }
    ensures few { Costs (P.store pages.old) (P.store pages.new) (edit_pages (edit_in edit.entry)) }
    ensures size { IfOk result (λ done. total item_size (map item_in cells.new.items)
        ≤ total item_size (map item_in cells.old.items) + 1360) }
    ensures edits { (pairs : List Pair) → map item_in cells.old.items ≡ map item_of pairs
        → Rises (pair_keys pairs)
        → Shows (P.store pages.old) zero pairs
        → Edits (P.store pages.old) (P.store pages.new) (edit_in edit.entry ∷ []) pairs
        (map item_in cells.new.items) result }
{
    let at = take_out(pages, cells, edit.key)?;
    match edit.value {
        None => Ok(()),
        Some(value) => put_in(alloc, pages, cells, at, edit.key, value),
    }
}

/// Makes edits of the cells of a leaf, one after the other.
pub(crate) fn edit_cells<'a, P: Pages>(
    alloc: Global,
    pages: &mut P,
    cells: &mut Vec<Cell<'a>>,
    edits: &[Edit<'a>],
) -> Result<(), TreeFault>
    requires { Each HasRoom edits.now }
    ensures grows { Grows (P.store pages.old) (P.store pages.new) }
    ensures small { Each IsItem (map item_in cells.old.items)
        → IfOk result (λ done. Each IsItem (map item_in cells.new.items)) }
    ensures few { Costs (P.store pages.old) (P.store pages.new)
        (sum_of edit_pages (map edit_in edits.now)) }
    ensures size { IfOk result (λ done. total item_size (map item_in cells.new.items)
        ≤ total item_size (map item_in cells.old.items) + 1360 * length edits.now) }
    ensures edits { (pairs : List Pair) → map item_in cells.old.items ≡ map item_of pairs
        → Rises (pair_keys pairs)
        → Shows (P.store pages.old) zero pairs
        → Edits (P.store pages.old) (P.store pages.new) (map edit_in edits.now) pairs
        (map item_in cells.new.items) result }
{
    for edit in edits {
        edit_cell(alloc, pages, cells, *edit)?;
    }
    Ok(())
}
