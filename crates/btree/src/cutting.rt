// Cutting cells and children into pages, by bytes.
ghost use Rattle.std.specs.Prelude.{◌≡◌, ◌<◌, ◌≤◌, ◌+◌, ◌-◌, ◌^◌, ◌⊎◌, ℕ, false, true, List, length, map, take, drop, None, slice_index_or};
ghost use Rattle.btree.specs.Few.{IsFullPart};
ghost use Rattle.tree_model.specs.Keys.{Each};
ghost use Rattle.btree.specs.Loose.{GoBehind, IsOver, IsPart, IsSlot, Slot, slot_size, slots_size};
ghost use Rattle.btree.specs.LooseView.{slot_in};
ghost use Rattle.std.specs.Option.{option_map};

use crate::node::{LooseSlot, Payload};
use key_order::compare_keys;
use std::cmp::Ordering;

/// The bytes behind a page's header.
pub(crate) const ROOM: usize = 4080;
/// The most bytes of a cell, a third of a page.
pub(crate) const THIRD: usize = 1360;
/// The most bytes of the first of two pages, where they can't get about as much.
const TWO_THIRDS: usize = 2720;
/// The longest value that lies in its cell, in bytes.
const INLINE: usize = 330;

// The bytes of a cell or child, where they are no more than a cell may have.
fn loose_slot_size(loose_slot: &LooseSlot) -> usize
    ensures small { slot_size (slot_in loose_slot.now) ≤ 4080
        → result ≡ slot_size (slot_in loose_slot.now) }
    ensures large { result ≤ 4080 → result ≡ slot_size (slot_in loose_slot.now) }
{
    let value = match &loose_slot.payload {
        Payload::Inline(bytes) => bytes.len(),
        Payload::Chained { .. } => 4,
        Payload::Page(_) => 0,
    };
    loose_slot.key.len().saturating_add(value).saturating_add(6)
}

// Any number can be a page's.
fn is_number(_page: u32) -> bool
    ensures range { _page < 2 ^ 32 }
    ensures always { result ≡ true }
{
    true
}

// Whether a chain may have so many bytes.
fn is_chain(len: u32, first: u32) -> bool
    ensures yes { 330 < len → result ≡ true }
    ensures no { result ≡ true → (330 < len) × (len < 2 ^ 32) × (first < 2 ^ 32) }
{
    if !is_number(first) {
        return false;
    }
    len as usize > INLINE
}

// Whether the cell or child may stand in a page.
fn is_loose_slot(loose_slot: &LooseSlot) -> bool
    ensures yes { IsSlot (slot_in loose_slot.now) → result ≡ true }
    ensures no { result ≡ true → IsSlot (slot_in loose_slot.now) }
{
    if loose_slot_size(loose_slot) > THIRD {
        return false;
    }
    match &loose_slot.payload {
        Payload::Inline(bytes) => bytes.len() <= INLINE,
        Payload::Chained { len, first } => is_chain(*len, *first),
        Payload::Page(page) => is_number(*page),
    }
}

/// Whether the key is above the last one, if there is one.
pub(crate) fn is_over(key: &[u8], last: Option<&[u8]>) -> bool
    ensures yes { IsOver (option_map (λ b. b.now) last.entry) key.now → result ≡ true }
    ensures no { result ≡ true → IsOver (option_map (λ b. b.now) last.entry) key.now }
{
    match last {
        None => true,
        Some(last) => matches!(compare_keys(last, key), Ordering::Less),
    }
}

/// Whether cells or children ascend, each no larger than it may be, and find room in a page.
pub(crate) fn go_into_page(loose_slots: &[LooseSlot]) -> bool
    ensures yes { GoBehind None 0 (map slot_in loose_slots.now) → result ≡ true }
    ensures no { result ≡ true → GoBehind None 0 (map slot_in loose_slots.now) }
{
    let mut used = 0;
    let mut last = None;
    for loose_slot in loose_slots {
        if !is_loose_slot(loose_slot) {
            return false;
        }
        let key = loose_slot.key.as_slice();
        if !is_over(key, last) {
            return false;
        }
        let size = loose_slot_size(loose_slot);
        if size > ROOM - used {
            return false;
        }
        used += size;
        last = Some(key);
    }
    true
}

/// How many of the first cells or children find room in so many bytes.
pub(crate) fn loose_slots_within(loose_slots: &[LooseSlot], limit: usize) -> usize
    requires { limit ≤ 4080 }
    ensures within { result ≤ length loose_slots.now }
    ensures room { slots_size (take result (map slot_in loose_slots.now)) ≤ limit }
    ensures next { (s : Slot) → result < length loose_slots.now
        → limit < slots_size (take result (map slot_in loose_slots.now))
        + slot_size (slice_index_or (map slot_in loose_slots.now) result s) }
{
    let mut used = 0;
    for (i, loose_slot) in loose_slots.iter().enumerate() {
        let size = loose_slot_size(loose_slot);
        if size > limit - used {
            return i;
        }
        used += size;
    }
    loose_slots.len()
}

// The bytes of cells or children.
fn bytes_of(loose_slots: &[LooseSlot]) -> usize {
    let mut bytes: usize = 0;
    for loose_slot in loose_slots {
        bytes = bytes.saturating_add(loose_slot_size(loose_slot));
    }
    bytes
}

// The bytes of the first of two or three pages that get about as much. Of more than three the first is filled.
fn share_of(loose_slots: &[LooseSlot], whole: usize) -> usize
    requires { whole ≤ length loose_slots.now }
    ensures { result ≤ 4080 }
{
    let behind = &loose_slots[whole..];
    let second = loose_slots_within(behind, ROOM);
    let third = loose_slots_within(&behind[second..], ROOM);
    if second + third < behind.len() {
        return ROOM;
    }
    let bytes = bytes_of(loose_slots);
    let clone_ref = if second < behind.len() {
        bytes / 3
    } else {
        bytes / 2
    };
    if clone_ref > ROOM {
        return ROOM;
    }
    clone_ref
}

// Whether so many of the first cells or children leave two or more for the next page, and have two thirds of a
// page, or a third where the next page has room for all the others.
fn is_enough(loose_slots: &[LooseSlot], whole: usize, at: usize) -> bool
    requires inside { whole ≤ length loose_slots.now }
    requires room { slots_size (take whole (map slot_in loose_slots.now)) ≤ 4080 }
    requires over { 4080 < slots_size (map slot_in loose_slots.now) }
    ensures within { result ≡ true → at ≤ length loose_slots.now }
    ensures enough { result ≡ true → Each IsSlot (map slot_in loose_slots.now)
        → IsPart false (map slot_in loose_slots.now) at
        × IsFullPart (map slot_in loose_slots.now) at }
{
    if at > whole || loose_slots.len() - at < 2 {
        return false;
    }
    let large = loose_slots_within(loose_slots, TWO_THIRDS);
    if large < at {
        return true;
    }
    let little = loose_slots_within(loose_slots, THIRD);
    if little >= at {
        return false;
    }
    let behind = loose_slots_within(&loose_slots[whole..], THIRD);
    if whole + behind < loose_slots.len() {
        return false;
    }
    true
}

/// How many cells or children go into the next page: as many as find room, where the pages are filled, else about as
/// many bytes as into the pages behind it.
pub(crate) fn part_len(loose_slots: &[LooseSlot], fills: bool) -> usize
    requires { 0 < length loose_slots.now }
    ensures some { 0 < result }
    ensures within { result ≤ length loose_slots.now }
    ensures part { Each IsSlot (map slot_in loose_slots.now)
        → IsPart fills (map slot_in loose_slots.now) result }
    ensures full { Each IsSlot (map slot_in loose_slots.now)
        → IsFullPart (map slot_in loose_slots.now) result }
{
    let whole = loose_slots_within(loose_slots, ROOM);
    if whole >= loose_slots.len() {
        return whole;
    }
    if whole == 0 {
        return 1;
    }
    if fills {
        return whole;
    }
    let clone_ref = loose_slots_within(loose_slots, share_of(loose_slots, whole));
    let even = clone_ref + 1;
    if is_enough(loose_slots, whole, even) {
        return even;
    }
    let behind = loose_slots_within(&loose_slots[whole..], THIRD);
    if whole + behind < loose_slots.len() {
        return whole;
    }
    let half = loose_slots_within(loose_slots, TWO_THIRDS);
    if half == 0 {
        return 1;
    }
    half
}
