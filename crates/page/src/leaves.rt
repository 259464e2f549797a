//! Leaves: the cells of a page of the tree.

ghost use Rattle.std.specs.Prelude.{◌≡◌, ◌<◌, ◌≤◌, ℕ, length, map, take, slice_get, Some, IfOk};
ghost use Rattle.std.specs.List.{AllByRecursion, flat_map, insert, remove};
ghost use Rattle.outcome.specs.Outcome.{Gives};
ghost use Rattle.page.specs.Content.{Content, leaf, IsLeaf, Item, item_keys, item_size, rise, total};
ghost use Rattle.page.specs.Format.{leaf_in, leaf_cell_size, items_at, item_bytes, body_and_zeros};
ghost use Rattle.page.specs.Kept.{IsWhole};
ghost use Rattle.page.specs.CellView.{item_of};

use crate::cells::{CellForm, keys_rise, leaf_cell, note_place, places_of};
use crate::splicing::{bytes_with, bytes_without, places_with, places_without};
use crate::{BODY_BYTES, Cell, PageFault};
use std::alloc::{AllocError, Global};
use std::marker::Model;

/// The cells of a leaf, in ascending order of their keys: the 4,080 bytes behind a page's header, and where in them each
/// cell begins. So looking at a cell copies nothing.
#[derive(Debug, Drop)]
pub struct Leaf {
    bytes: Vec<u8>,
    places: Vec<u16>,
}

impl Model for Leaf {
    ghost use Rattle.std.specs.Prelude.{List};
    ghost use Rattle.page.specs.Content.{Item};
    ghost use Rattle.page.specs.Format.{items_at};
    ghost use Rattle.page.specs.Kept.{KeepsLeaf};

    ghost Value = { List Item };

    ghost view = { λ a. items_at a.bytes.items a.places.items };

    ghost invariant = { λ a. KeepsLeaf a.bytes.items a.places.items };
}

/// Whether the keys of the cells at these places ascend.
fn cells_rise(bytes: &[u8], places: &[u16]) -> bool
    requires len { length bytes.now ≡ 4080 }
    requires whole { AllByRecursion (IsWhole leaf_cell_size bytes.now) places.now }
    ensures { result ≡ rise (item_keys (items_at bytes.now places.now)) }
{
    let Some((first, rest)) = places.split_first() else {
        return true;
    };
    let above = leaf_cell(&bytes[*first as usize..]).key;
    keys_rise(CellForm::Leaf, bytes, above, rest)
}

impl Leaf {
    /// A leaf of these cells: at least one, in ascending order of their keys, each of at most 1,360 bytes, and all
    /// together of at most 4,080.
    pub fn of(alloc: Global, cells: &[Cell<'_>]) -> Result<Leaf, AllocError>
        requires { IsLeaf (map item_of cells.now) }
        ensures { IfOk result (λ made. made ≡ map item_of cells.now) }
    {
        let mut bytes = Vec::with_capacity(alloc, BODY_BYTES)?;
        let mut places = Vec::with_capacity(alloc, cells.len())?;
        for cell in cells {
            note_place(&mut places, bytes.len())?;
            cell.append_to(&mut bytes)?;
        }
        bytes.resize(BODY_BYTES, 0)?;
        Ok(Leaf { bytes, places })
    }

    /// The leaf whose page has this count and these bytes behind its header.
    pub(crate) fn read(alloc: Global, count: usize, bytes: &[u8]) -> Result<Leaf, PageFault>
        requires { length bytes.now ≡ 4080 }
        ensures { Gives PageFault.Memory (λ found. leaf found) result (leaf_in count bytes.now) }
    {
        if count == 0 {
            return Err(PageFault::Length);
        }
        let places = places_of(alloc, CellForm::Leaf, count, 0, bytes)?;
        if !cells_rise(bytes, &places) {
            return Err(PageFault::Order);
        }
        let bytes = Vec::from_slice(alloc, bytes)?;
        Ok(Leaf { bytes, places })
    }

    /// How many cells there are: at least one.
    pub fn len(&self) -> usize
        ensures count { result ≡ length self.now }
        ensures sound { IsLeaf self.now }
    {
        self.places.len()
    }

    /// A cell, by its place among the cells.
    pub fn cell(&self, i: usize) -> Cell<'_>
        requires { i < length self.now }
        ensures { slice_get self.now i ≡ Some (item_of result) }
    {
        leaf_cell(&self.bytes[self.places[i] as usize..])
    }

    /// The key of a cell, by its place among the cells.
    pub fn key(&self, i: usize) -> &[u8]
        requires { i < length self.now }
        ensures { slice_get (item_keys self.now) i ≡ Some result.now }
    {
        self.cell(i).key
    }

    /// Where a cell begins, by its place among the cells, or where the last one ends.
    fn start(&self, i: usize) -> usize
        requires { i ≤ length self.now }
        ensures { result ≡ total item_size (take i self.now) }
    {
        if i < self.places.len() {
            return self.places[i] as usize;
        }
        let last = self.places.len() - 1;
        self.places[last] as usize + self.cell(last).size()
    }

    /// The bytes of all cells.
    pub fn size(&self) -> usize
        ensures { result ≡ total item_size self.now }
    {
        self.start(self.places.len())
    }

    /// The same leaf once more.
    pub fn copy(&self, alloc: Global) -> Result<Leaf, AllocError>
        ensures { IfOk result (λ made. made ≡ self.now) }
    {
        let bytes = Vec::from_slice(alloc, &self.bytes)?;
        let places = Vec::from_slice(alloc, &self.places)?;
        Ok(Leaf { bytes, places })
    }

    /// The leaf with a cell more, at a place among the cells. What stands before it and behind it is copied as a whole.
    pub fn with(&self, alloc: Global, at: usize, cell: &Cell<'_>) -> Result<Leaf, AllocError>
        requires place { at ≤ length self.now }
        requires sound { IsLeaf (insert self.now at (item_of cell.now)) }
        ensures { IfOk result (λ made. made ≡ insert self.now at (item_of cell.now)) }
    {
        let from = self.start(at);
        let bytes = bytes_with(alloc, &self.bytes, from, cell)?;
        let places = places_with(alloc, &self.places, at, from, cell.size())?;
        Ok(Leaf { bytes, places })
    }

    /// The leaf without a cell, by its place among the cells.
    pub fn without(&self, alloc: Global, at: usize) -> Result<Leaf, AllocError>
        requires place { at < length self.now }
        requires sound { IsLeaf (remove self.now at) }
        ensures { IfOk result (λ made. made ≡ remove self.now at) }
    {
        let from = self.start(at);
        let to = self.start(at + 1);
        let bytes = bytes_without(alloc, &self.bytes, from, to)?;
        let places = places_without(alloc, &self.places, at, to - from)?;
        Ok(Leaf { bytes, places })
    }

    /// What stands behind the page's header.
    pub(crate) fn bytes(&self) -> &[u8]
        ensures { result.now ≡ body_and_zeros (flat_map item_bytes self.now) }
    {
        &self.bytes
    }
}
