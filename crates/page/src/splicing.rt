//! Bytes and places of a leaf with one cell more, or one fewer, and of a branch with another page or other children: what
//! stays is copied as runs.

ghost use Rattle.std.specs.Prelude.{◌≡◌, ◌≤◌, ◌+◌, ◌-◌, ◌++◌, ◌∷◌, [], ℕ, length, map, take, drop, replicate, IfOk, OnOk};
ghost use Rattle.std.specs.List.{AllByRecursion};
ghost use Rattle.byteorder.specs.Endian.{little_bytes};
ghost use Rattle.page.specs.Content.{IsItem, item_size};
ghost use Rattle.page.specs.Format.{item_bytes};
ghost use Rattle.page.specs.CellView.{item_of};

use crate::cells::{append_number, note_place};
use crate::{BODY_BYTES, Cell};
use std::alloc::{AllocError, Global};

/// The bytes with a cell put in. Behind them as many zeros are left out.
pub(crate) fn bytes_with(
    alloc: Global,
    bytes: &[u8],
    from: usize,
    cell: &Cell<'_>,
) -> Result<Vec<u8>, AllocError>
    requires len { length bytes.now ≡ 4080 }
    requires item { IsItem (item_of cell.now) }
    requires room { from + item_size (item_of cell.now) ≤ 4080 }
    ensures { IfOk result (λ made. made.items
        ≡ (take from bytes.now ++ item_bytes (item_of cell.now))
        ++ take (4080 - item_size (item_of cell.now) - from) (drop from bytes.now)) }
{
    let to = BODY_BYTES - cell.size();
    let mut made = Vec::with_capacity(alloc, BODY_BYTES)?;
    made.extend_from_slice(&bytes[..from])?;
    cell.append_to(&mut made)?;
    made.extend_from_slice(&bytes[from..to])?;
    Ok(made)
}

/// The bytes without those of a cell. Behind them as many zeros are put.
pub(crate) fn bytes_without(
    alloc: Global,
    bytes: &[u8],
    from: usize,
    to: usize,
) -> Result<Vec<u8>, AllocError>
    requires len { length bytes.now ≡ 4080 }
    requires order { from ≤ to }
    requires room { to ≤ 4080 }
    ensures { IfOk result (λ made. made.items
        ≡ (take from bytes.now ++ drop to bytes.now) ++ replicate (to - from) 0) }
{
    let mut made = Vec::with_capacity(alloc, BODY_BYTES)?;
    made.extend_from_slice(&bytes[..from])?;
    made.extend_from_slice(&bytes[to..])?;
    made.resize(BODY_BYTES, 0)?;
    Ok(made)
}

/// The places with one put in. Those behind it are so much later.
pub(crate) fn places_with(
    alloc: Global,
    places: &[u16],
    at: usize,
    from: usize,
    size: usize,
) -> Result<Vec<u16>, AllocError>
    requires within { at ≤ length places.now }
    requires from { from ≤ 4080 }
    requires size { size ≤ 1360 }
    requires small { AllByRecursion (λ (p : ℕ). p ≤ 4080) places.now }
    ensures { IfOk result (λ made. made.items
        ≡ (take at places.now ++ from ∷ []) ++ map (λ p. p + size) (drop at places.now)) }
{
    let (front, behind) = places.split_at(at);
    let mut made = Vec::with_capacity(alloc, places.len() + 1)?;
    made.extend_from_slice(front)?;
    note_place(&mut made, from)?;
    for place in behind {
        note_place(&mut made, *place as usize + size)?;
    }
    Ok(made)
}

/// The places without one. Those behind it are so much earlier.
pub(crate) fn places_without(
    alloc: Global,
    places: &[u16],
    at: usize,
    size: usize,
) -> Result<Vec<u16>, AllocError>
    requires within { at + 1 ≤ length places.now }
    requires small { AllByRecursion (λ (p : ℕ). p ≤ 4080) places.now }
    ensures { IfOk result (λ made. made.items
        ≡ take at places.now ++ map (λ p. p - size) (drop (at + 1) places.now)) }
{
    let mut made = Vec::with_capacity(alloc, places.len())?;
    made.extend_from_slice(&places[..at])?;
    for place in &places[at + 1..] {
        note_place(&mut made, (*place as usize).saturating_sub(size))?;
    }
    Ok(made)
}

/// The bytes with another number at a place, which takes four of them.
pub(crate) fn bytes_with_number(
    alloc: Global,
    bytes: &[u8],
    at: usize,
    number: u32,
) -> Result<Vec<u8>, AllocError>
    requires { at + 4 ≤ length bytes.now }
    ensures { IfOk result (λ made. made.items
        ≡ take at bytes.now ++ (little_bytes 4 number ++ drop (at + 4) bytes.now)) }
{
    let mut made = Vec::with_capacity(alloc, bytes.len())?;
    made.extend_from_slice(&bytes[..at])?;
    append_number(&mut made, number)?;
    made.extend_from_slice(&bytes[at + 4..])?;
    Ok(made)
}

/// Appends places of cells that stood behind one place, and stand behind another now.
pub(crate) fn append_places(
    places: &[u16],
    from: usize,
    to: usize,
    made: &mut Vec<u16>,
) -> Result<(), AllocError>
    requires to { to ≤ 4080 }
    requires small { AllByRecursion (λ (p : ℕ). p ≤ 4080) places.now }
    ensures { OnOk result
        (made.new.items ≡ made.old.items ++ map (λ p. p - from + to) places.now) }
{
    for place in places {
        note_place(made, (*place as usize).saturating_sub(from) + to)?;
    }
    Ok(())
}
