//! The cells of the tree's pages, as views of a page's bytes.

ghost use Rattle.std.specs.Prelude.{◌≡◌, ◌≤◌, ◌<◌, ◌+◌, ◌^◌, ◌++◌, ◌∷◌, [], ◌||◌, ℕ, nat_lt, List, length, map, drop, vec_len, Ok, OnOk};
ghost use Rattle.std.specs.List.{AllByRecursion, flat_map};
ghost use Rattle.outcome.specs.Outcome.{Gives, GivesExactly, unless};
ghost use Rattle.byteorder.specs.Endian.{little_bytes};
ghost use Rattle.page.specs.Content.{IsItem, IsPivot, rise_above, item_size, pivot_size, total};
ghost use Rattle.page.specs.Format.{item_bytes, pivot_bytes, value_length, stored_size, leaf_cell_size, branch_cell_size, place_in, item_in, pivot_in, places_in};
ghost use Rattle.page.specs.Kept.{IsWhole, starts};
ghost use Rattle.page.specs.CellView.{place_of, item_of, pivot_of, size_by, key_by};

use crate::{PageFault, is_all_zero};
use byteorder::{ByteOrder, LittleEndian};
use key_order::compare_keys;
use std::alloc::{AllocError, Global};
use std::cmp::Ordering;

/// The longest value that lies in its cell, in bytes.
pub const INLINE_BYTES: u32 = 330;
/// The most bytes of a cell.
pub const CELL_BYTES: usize = 1360;
/// The most cells of a page: none has fewer than 6 bytes.
const MOST_CELLS: usize = 680;

/// Where a value lies.
#[derive(Clone, Copy, Debug)]
pub enum Stored<'a> {
    /// In its cell: at most 330 bytes.
    Inline(&'a [u8]),
    /// In a chain: its length in bytes, above 330, and the chain's first page.
    Chained { len: u32, first: u32 },
}

/// A cell of a leaf: a key and its value.
#[derive(Clone, Copy, Debug)]
pub struct Cell<'a> {
    pub key: &'a [u8],
    pub stored: Stored<'a>,
}

/// A child of a branch. Its keys are not below `key`, which is empty at the first child.
#[derive(Clone, Copy, Debug)]
pub struct Child<'a> {
    pub key: &'a [u8],
    pub page: u32,
}

/// What the cells of a page look like.
#[derive(Clone, Copy, Debug)]
pub(crate) enum CellForm {
    /// The lengths of key and value, the key, and the value or its first chain page.
    Leaf,
    /// The length of the key, the key, and a child's page.
    Branch,
}

/// The cell at the front of a leaf's bytes.
pub(crate) fn leaf_cell(bytes: &[u8]) -> Cell<'_>
    requires { leaf_cell_size bytes.now ≤ length bytes.now }
    ensures { item_of result ≡ item_in bytes.now }
{
    let key_len = LittleEndian::read_u16(bytes) as usize;
    let len = LittleEndian::read_u32(&bytes[2..]);
    let (key, behind) = bytes[6..].split_at(key_len);
    let stored = stored_at(len, behind);
    Cell { key, stored }
}

/// A value of so many bytes, in front of bytes.
fn stored_at(len: u32, bytes: &[u8]) -> Stored<'_>
    requires { stored_size len ≤ length bytes.now }
    ensures { place_of result ≡ place_in len bytes.now }
{
    if len > INLINE_BYTES {
        let first = LittleEndian::read_u32(bytes);
        return Stored::Chained { len, first };
    }
    Stored::Inline(&bytes[..len as usize])
}

/// The child at the front of a branch's bytes.
pub(crate) fn branch_child(bytes: &[u8]) -> Child<'_>
    requires { branch_cell_size bytes.now ≤ length bytes.now }
    ensures { pivot_of result ≡ pivot_in bytes.now }
{
    let key_len = LittleEndian::read_u16(bytes) as usize;
    let (key, behind) = bytes[2..].split_at(key_len);
    let page = LittleEndian::read_u32(behind);
    Child { key, page }
}

impl Cell<'_> {
    /// The size of the cell in bytes.
    pub fn size(&self) -> usize
        requires { IsItem (item_of self.now) }
        ensures { result ≡ item_size (item_of self.now) }
    {
        let stored = match self.stored {
            Stored::Inline(value) => value.len(),
            Stored::Chained { .. } => 4,
        };
        6 + self.key.len() + stored
    }

    /// The length of the value in bytes.
    fn value_len(&self) -> u32
        requires { IsItem (item_of self.now) }
        ensures { result ≡ value_length (item_of self.now).place }
    {
        match self.stored {
            Stored::Inline(value) => value.len() as u32,
            Stored::Chained { len, .. } => len,
        }
    }

    /// Appends the cell's bytes.
    pub(crate) fn append_to(&self, bytes: &mut Vec<u8>) -> Result<(), AllocError>
        requires { IsItem (item_of self.now) }
        ensures { OnOk result (bytes.new.items ≡ bytes.old.items ++ item_bytes (item_of self.now)) }
    {
        let mut lengths = [0; 6];
        LittleEndian::write_u16(&mut lengths[..2], self.key.len() as u16);
        LittleEndian::write_u32(&mut lengths[2..], self.value_len());
        bytes.extend_from_slice(&lengths)?;
        bytes.extend_from_slice(self.key)?;
        match self.stored {
            Stored::Inline(value) => bytes.extend_from_slice(value)?,
            Stored::Chained { first, .. } => append_number(bytes, first)?,
        }
        Ok(())
    }
}

/// Appends a page's number.
pub(crate) fn append_number(bytes: &mut Vec<u8>, number: u32) -> Result<(), AllocError>
    ensures { OnOk result (bytes.new.items ≡ bytes.old.items ++ little_bytes 4 number) }
{
    let mut four = [0; 4];
    LittleEndian::write_u32(&mut four, number);
    bytes.extend_from_slice(&four)?;
    Ok(())
}

impl Child<'_> {
    /// Appends the bytes of a child behind the first.
    pub(crate) fn append_to(&self, bytes: &mut Vec<u8>) -> Result<(), AllocError>
        requires { IsPivot (pivot_of self.now) }
        ensures { OnOk result (bytes.new.items ≡ bytes.old.items
            ++ pivot_bytes (pivot_of self.now)) }
    {
        let mut len = [0; 2];
        LittleEndian::write_u16(&mut len, self.key.len() as u16);
        bytes.extend_from_slice(&len)?;
        bytes.extend_from_slice(self.key)?;
        append_number(bytes, self.page)?;
        Ok(())
    }
}

impl CellForm {
    /// The size of the cell at the front of bytes, which is whole and not too large.
    fn size_at(self, bytes: &[u8]) -> Result<usize, PageFault>
        ensures { GivesExactly (λ n. n) result (unless (nat_lt 1360 (size_by self bytes.now)
            || nat_lt (length bytes.now) (size_by self bytes.now))
            PageFault.Length (Ok (size_by self bytes.now))) }
    {
        if bytes.len() < 6 {
            return Err(PageFault::Length);
        }
        let key = LittleEndian::read_u16(bytes) as usize;
        let stored = match self {
            CellForm::Leaf => stored_len(LittleEndian::read_u32(&bytes[2..])),
            CellForm::Branch => 0,
        };
        let size = 6 + key + stored;
        if size > CELL_BYTES || size > bytes.len() {
            return Err(PageFault::Length);
        }
        Ok(size)
    }

    /// The key of the cell at the front of bytes.
    fn key(self, bytes: &[u8]) -> &[u8]
        requires { size_by self bytes.now ≤ length bytes.now }
        ensures { result.now ≡ key_by self bytes.now }
    {
        let len = LittleEndian::read_u16(bytes) as usize;
        match self {
            CellForm::Leaf => &bytes[6..6 + len],
            CellForm::Branch => &bytes[2..2 + len],
        }
    }
}

/// How many bytes of a cell a value of this length takes.
fn stored_len(len: u32) -> usize
    ensures { result ≡ stored_size len }
{
    if len > INLINE_BYTES { 4 } else { len as usize }
}

/// Notes where a cell begins.
pub(crate) fn note_place(places: &mut Vec<u16>, at: usize) -> Result<(), AllocError>
    requires { at < 2 ^ 16 }
    ensures { OnOk result (places.new.items ≡ places.old.items ++ at ∷ []) }
{
    places.push(at as u16)?;
    Ok(())
}

/// Appends the bytes of children behind the first, and where each begins.
pub(crate) fn append_children(
    children: &[Child<'_>],
    bytes: &mut Vec<u8>,
    places: &mut Vec<u16>,
) -> Result<(), AllocError>
    requires each { AllByRecursion IsPivot (map pivot_of children.now) }
    requires room { length bytes.old.items + total pivot_size (map pivot_of children.now) ≤ 4080 }
    ensures bytes { OnOk result
        (bytes.new.items ≡ bytes.old.items ++ flat_map pivot_bytes (map pivot_of children.now)) }
    ensures places { OnOk result (places.new.items
        ≡ places.old.items
        ++ starts pivot_size (length bytes.old.items) (map pivot_of children.now)) }
{
    for child in children {
        note_place(places, bytes.len())?;
        child.append_to(bytes)?;
    }
    Ok(())
}

/// Where so many cells begin, one behind the other from a place on, with zeros behind the last.
pub(crate) fn places_of(
    alloc: Global,
    form: CellForm,
    count: usize,
    start: usize,
    bytes: &[u8],
) -> Result<Vec<u16>, PageFault>
    requires start { start ≤ 4 }
    requires len { length bytes.now ≡ 4080 }
    ensures { Gives PageFault.Memory (λ v. v.items) result
        (places_in (size_by form) count start bytes.now) }
{
    let mut places = Vec::with_capacity(alloc, count.min(MOST_CELLS))?;
    let mut at = start;
    for _ in 0..count {
        let size = form.size_at(&bytes[at..])?;
        note_place(&mut places, at)?;
        at += size;
    }
    if !is_all_zero(&bytes[at..]) {
        return Err(PageFault::Length);
    }
    Ok(places)
}

/// Whether the keys of the cells at these places are above this one and ascend.
pub(crate) fn keys_rise(form: CellForm, bytes: &[u8], above: &[u8], places: &[u16]) -> bool
    requires len { length bytes.now ≡ 4080 }
    requires whole { AllByRecursion (IsWhole (size_by form) bytes.now) places.now }
    ensures { result ≡ rise_above above.now
        (map (λ at. key_by form (drop at bytes.now)) places.now) }
{
    let mut last = above;
    for at in places {
        let key = form.key(&bytes[*at as usize..]);
        match compare_keys(last, key) {
            Ordering::Less => last = key,
            _ => return false,
        }
    }
    true
}
