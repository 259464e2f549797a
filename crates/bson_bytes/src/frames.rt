//! Counts, texts, names and frames at the front of bytes.

ghost use Rattle.std.specs.Prelude.{◌≡◌, ℕ, ◌<◌, ◌≤◌, ◌-◌, ◌^◌, List, length, take, IfOk, Ok, MatchOption, Some, None, false, true, position, ◌+◌, ◌==◌, ◌||◌, nat_le, slice_index};
ghost use Rattle.std.specs.Str.{is_utf8};
ghost use Rattle.std.specs.Int.{w32, w64};
ghost use Rattle.outcome.specs.Outcome.{GivesExactly};
ghost use Rattle.bson_bytes.specs.Marks.{mixed, mark, name_mark};
ghost use Rattle.bson_bytes.specs.Decoding.{fixed_at, count_at, ended_at, text_at, content_at, name_at};

use crate::fault::BsonFault;
use bson::first_zero;
use std::simd::prelude::*;

/// The first bytes, this many, and those after them.
#[tactic(auto, unfolding(crate::specs::Decoding::fixed_at))]
pub(crate) fn read_fixed(len: usize, bytes: &[u8]) -> Result<(&[u8], &[u8]), BsonFault>
    ensures { GivesExactly (λ x. (x.0.now, x.1.now)) result (fixed_at len bytes.now) }
{
    if bytes.len() < len {
        return Err(BsonFault::Length);
    }
    Ok(bytes.split_at(len))
}

/// The first four bytes as a number.
#[tactic(auto, unfolding(crate::specs::Decoding::fixed_at))]
pub(crate) fn read_four(bytes: &[u8]) -> Result<([u8; 4], &[u8]), BsonFault>
    ensures { GivesExactly (λ x. (x.0, x.1.now)) result (fixed_at 4 bytes.now) }
{
    match bytes.split_first_chunk::<4>() {
        Some((front, rest)) => Ok((*front, rest)),
        None => Err(BsonFault::Length),
    }
}

/// The first eight bytes.
#[tactic(auto, unfolding(crate::specs::Decoding::fixed_at))]
pub(crate) fn read_eight(bytes: &[u8]) -> Result<([u8; 8], &[u8]), BsonFault>
    ensures { GivesExactly (λ x. (x.0, x.1.now)) result (fixed_at 8 bytes.now) }
{
    match bytes.split_first_chunk::<8>() {
        Some((front, rest)) => Ok((*front, rest)),
        None => Err(BsonFault::Length),
    }
}

/// A count, which is an int32, of at least this many.
#[tactic(auto, unfolding(crate::specs::Decoding::count_at))]
pub(crate) fn read_count(least: u32, bytes: &[u8]) -> Result<(usize, &[u8]), BsonFault>
    ensures gives { GivesExactly (λ x. (x.0, x.1.now)) result (count_at least bytes.now) }
    ensures within { IfOk result (λ x. (least ≤ x.0) × (x.0 < 2 ^ 31)) }
{
    let (four, rest) = read_four(bytes)?;
    let count = u32::from_le_bytes(four);
    if count < least || 0x8000_0000 <= count {
        return Err(BsonFault::Length);
    }
    Ok((count as usize, rest))
}

/// This many bytes and the zero behind them, or the fault where no zero stands there.
#[tactic(auto, unfolding(crate::specs::Decoding::ended_at))]
pub(crate) fn read_ended(
    fault: BsonFault,
    len: usize,
    bytes: &[u8],
) -> Result<(&[u8], &[u8]), BsonFault>
    requires { len < 2 ^ 32 }
    ensures len { IfOk result (λ x. length x.0.now ≡ len) }
    ensures gives { GivesExactly (λ x. (x.0.now, x.1.now)) result (ended_at fault len bytes.now) }
{
    if bytes.len() <= len {
        return Err(BsonFault::Length);
    }
    if bytes[len] != 0 {
        return Err(fault);
    }
    Ok((&bytes[..len], &bytes[len + 1..]))
}

/// A text, whose count includes the zero that ends it.
#[tactic(auto, unfolding(crate::specs::Decoding::text_at))]
pub(crate) fn read_text(bytes: &[u8]) -> Result<(&str, &[u8]), BsonFault>
    ensures { GivesExactly (λ x. (x.0.now, x.1.now)) result (text_at bytes.now) }
{
    let (count, rest) = read_count(1, bytes)?;
    let (front, rest) = read_ended(BsonFault::Text, count - 1, rest)?;
    let Some(text) = text_in(front) else {
        return Err(BsonFault::Text);
    };
    Ok((text, rest))
}

/// A text as `read_text` gives it, by its bytes. One of ASCII is quickly judged.
#[tactic(auto, unfolding(crate::specs::Decoding::text_at))]
pub(crate) fn read_text_bytes(bytes: &[u8]) -> Result<(&[u8], &[u8]), BsonFault>
    ensures { GivesExactly (λ x. (x.0.now, x.1.now)) result (text_at bytes.now) }
{
    let (count, rest) = read_count(1, bytes)?;
    let (front, rest) = read_ended(BsonFault::Text, count - 1, rest)?;
    if !is_plain(front) && text_in(front).is_none() {
        return Err(BsonFault::Text);
    }
    Ok((front, rest))
}

/// What a document or an array holds between its length and the zero that ends it.
#[tactic(auto, unfolding(crate::specs::Decoding::content_at))]
pub(crate) fn read_content(bytes: &[u8]) -> Result<(&[u8], &[u8]), BsonFault>
    ensures short { IfOk result (λ x. length x.0.now < 2 ^ 31) }
    ensures gives { GivesExactly (λ x. (x.0.now, x.1.now)) result (content_at bytes.now) }
{
    let (count, rest) = read_count(5, bytes)?;
    let (content, rest) = read_ended(BsonFault::Length, count - 5, rest)?;
    Ok((content, rest))
}

/// The bytes as text, where they are UTF-8.
pub(crate) fn text_in(bytes: &[u8]) -> Option<&str>
    ensures { MatchOption result (is_utf8 bytes.now ≡ false)
        (λ s. (s.now ≡ bytes.now) × (is_utf8 bytes.now ≡ true)) }
{
    match str::from_utf8(bytes) {
        Ok(text) => Some(text),
        Err(_) => None,
    }
}

/// Whether bytes are surely UTF-8, since they are ASCII. It says nothing of few bytes, and nothing of many, of which the
/// standard test looks at more at a time.
#[inline(always)]
fn is_plain(bytes: &[u8]) -> bool
    ensures { result ≡ true → is_utf8 bytes.now ≡ true }
{
    if bytes.len() < 16 || 800 < bytes.len() {
        return false;
    }
    let last = bytes.len() - 16;
    let mut at = 0usize;
    'bytes: while at < last {
        if !are_plain(bytes, at) {
            return false;
        }
        at += 16;
    }
    are_plain(bytes, last)
}

/// Whether the 16 bytes from here on are ASCII.
#[inline(always)]
fn are_plain(bytes: &[u8], at: usize) -> bool
    requires { at + 16 ≤ length bytes.now }
    ensures { result ≡ true → (k : ℕ) → at ≤ k → k < at + 16 → slice_index bytes.now k < 128 }
{
    let bytes = u8x16::from_slice(&bytes[at..]);
    bytes.simd_ge(u8x16::splat(128)).to_bitmask() == 0
}

/// Where the first byte is that is zero or no ASCII, with what those before it are mixed to.
fn plain_front(bytes: &[u8]) -> Option<(usize, u64)>
    ensures { MatchOption result (position (λ b. b == 0 || nat_le 128 b) bytes.now ≡ None)
        (λ x. (position (λ b. b == 0 || nat_le 128 b) bytes.now ≡ Some x.0)
        × (x.1 ≡ mixed 0 (take x.0 bytes.now))) }
{
    let mut mixed = 0u64;
    'bytes: for at in 0..bytes.len() {
        let byte = bytes[at];
        if byte == 0 || 128 <= byte {
            return Some((at, mixed));
        }
        mixed = mixed.wrapping_mul(9).wrapping_add(u64::from(byte));
    }
    None
}

/// What the bytes of a name are mixed to.
fn mixed_in(name: &[u8]) -> u64
    ensures { result ≡ mixed 0 name.now }
{
    let mut mixed = 0u64;
    'bytes: for byte in name {
        mixed = mixed.wrapping_mul(9).wrapping_add(u64::from(*byte));
    }
    mixed
}

/// The mark of a name that is mixed to this number.
#[tactic(auto, unfolding(crate::specs::Marks::mark))]
fn mark_of(mixed: u64) -> usize
    ensures { result ≡ mark mixed }
{
    (mixed.wrapping_mul(0x9e37_79b9_7f4a_7c15) >> 56) as usize % 256
}

/// A name as `read_name` gives it, by its bytes, with its mark. One of ASCII is looked at once.
#[inline(always)]
pub(crate) fn read_marked_name(bytes: &[u8]) -> Result<((&[u8], usize), &[u8]), BsonFault>
    ensures gives { GivesExactly (λ x. (x.0.0.now, x.1.now)) result (name_at bytes.now) }
    ensures mark { IfOk result (λ x. x.0.1 ≡ name_mark x.0.0.now) }
{
    let Some((end, mixed)) = plain_front(bytes) else {
        return Err(BsonFault::Name);
    };
    if bytes[end] != 0 {
        return read_wide_name(bytes);
    }
    let (name, _) = bytes.split_at(end);
    let (_, rest) = bytes.split_at(end + 1);
    Ok(((name, mark_of(mixed)), rest))
}

/// The same of a name with other characters.
#[inline(never)]
#[tactic(auto, unfolding(crate::specs::Decoding::name_at))]
fn read_wide_name(bytes: &[u8]) -> Result<((&[u8], usize), &[u8]), BsonFault>
    ensures gives { GivesExactly (λ x. (x.0.0.now, x.1.now)) result (name_at bytes.now) }
    ensures mark { IfOk result (λ x. x.0.1 ≡ name_mark x.0.0.now) }
{
    let Some(end) = first_zero(bytes) else {
        return Err(BsonFault::Name);
    };
    let (name, _) = bytes.split_at(end);
    let (_, rest) = bytes.split_at(end + 1);
    if text_in(name).is_none() {
        return Err(BsonFault::Name);
    }
    Ok(((name, mark_of(mixed_in(name))), rest))
}

/// A name as `read_name` gives it, by its bytes.
#[inline(always)]
pub(crate) fn read_name_bytes(bytes: &[u8]) -> Result<(&[u8], &[u8]), BsonFault>
    ensures { GivesExactly (λ x. (x.0.now, x.1.now)) result (name_at bytes.now) }
{
    let ((name, _), rest) = read_marked_name(bytes)?;
    Ok((name, rest))
}

/// A name, which the first zero ends.
pub fn read_name(bytes: &[u8]) -> Result<(&str, &[u8]), BsonFault>
    ensures { GivesExactly (λ x. (x.0.now, x.1.now)) result (name_at bytes.now) }
{
    let (name, rest) = read_name_bytes(bytes)?;
    // what `read_name_bytes` gives is text
    Ok((unsafe { str::from_utf8_unchecked(name) }, rest))
}
