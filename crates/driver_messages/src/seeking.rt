//! The first value of a type that the database doesn't have.

ghost use Rattle.std.specs.Prelude.{◌≡◌, ◌<◌, ◌^◌, drop, IfOk, option_map};
ghost use Rattle.bson_bytes.specs.Raw.{number_at, len_at};
ghost use Rattle.bson_bytes.specs.Decoding.{name_at, kind_of};
ghost use Rattle.driver_messages.specs.ForeignTypes.{foreign_of};
ghost use Rattle.driver_messages.specs.Seeking.{past, past_known, past_value, step, seek, foreign_in};
ghost use Rattle.driver_messages.specs.SeekingView.{seek_of, kind_or_none};

use crate::foreign::{Foreign, ForeignType, foreign_of};
use crate::place::Place;
use bson::{Kind, NoMemory};
use bson_bytes::read_name;
use std::alloc::Global;

/// One step of a search.
#[derive(Clone, Copy)]
enum Sought<'a> {
    /// These bytes follow.
    On(&'a [u8]),
    /// A value of such a type stands at the place.
    Found(ForeignType),
    /// There is none.
    Ended,
}

/// The number in the first four bytes; 0 where there are fewer.
pub(crate) fn number_at(bytes: &[u8]) -> usize
    ensures value { result ≡ number_at bytes.now }
    ensures fits { result < 2 ^ 32 }
{
    match bytes.first_chunk::<4>() {
        Some(four) => u32::from_le_bytes(*four) as usize,
        None => 0,
    }
}

/// How many bytes a value of this kind has that begins so.
#[tactic(auto, unfolding(bson_bytes::specs::Raw::len_at))]
pub(crate) fn value_len(kind: Kind, bytes: &[u8]) -> usize
    ensures value { result ≡ len_at kind bytes.now }
    ensures fits { result < 2 ^ 33 }
{
    match kind {
        Kind::String => number_at(bytes) + 4,
        Kind::Document | Kind::Array => number_at(bytes),
        Kind::Binary => number_at(bytes) + 5,
        Kind::ObjectId => 12,
        Kind::Bool => 1,
        Kind::Int32 => 4,
        Kind::Date | Kind::Timestamp | Kind::Int64 => 8,
        Kind::Null | Kind::MinKey | Kind::MaxKey => 0,
    }
}

/// The kind that a type byte stands for.
#[tactic(auto, unfolding(bson_bytes::specs::Decoding::kind_of))]
pub(crate) fn kind_of(byte: u8) -> Option<Kind>
    ensures { result ≡ kind_or_none (kind_of byte) }
{
    match byte {
        0x02 => Some(Kind::String),
        0x03 => Some(Kind::Document),
        0x04 => Some(Kind::Array),
        0x05 => Some(Kind::Binary),
        0x07 => Some(Kind::ObjectId),
        0x08 => Some(Kind::Bool),
        0x09 => Some(Kind::Date),
        0x0a => Some(Kind::Null),
        0x10 => Some(Kind::Int32),
        0x11 => Some(Kind::Timestamp),
        0x12 => Some(Kind::Int64),
        0xff => Some(Kind::MinKey),
        0x7f => Some(Kind::MaxKey),
        _ => None,
    }
}

/// What follows the first so many bytes; nothing where there are fewer.
pub(crate) fn behind(bytes: &[u8], count: usize) -> &[u8]
    ensures { result.now ≡ drop count bytes.now }
{
    let (_, rest) = bytes.split_at(count.min(bytes.len()));
    rest
}

/// Into a document or an array, or over any other value of this kind.
fn past<'a>(
    place: &mut Place<'a>,
    kind: Kind,
    name: &'a str,
    bytes: &'a [u8],
) -> Result<Sought<'a>, NoMemory>
    ensures { IfOk result (λ s. seek_of s place.new ≡ past kind place.old name.now bytes.now) }
{
    if kind == Kind::Document || kind == Kind::Array {
        place.enter(name)?;
        return Ok(Sought::On(behind(bytes, 4)));
    }
    Ok(Sought::On(behind(bytes, value_len(kind, bytes))))
}

/// Into a value under this type byte, or over it, unless it is what is sought.
fn past_value<'a>(
    place: &mut Place<'a>,
    type_byte: u8,
    name: &'a str,
    bytes: &'a [u8],
) -> Result<Sought<'a>, NoMemory>
    ensures { IfOk result (λ s. seek_of s place.new
        ≡ past_value (foreign_of type_byte) type_byte place.old name.now bytes.now) }
{
    if let Some(found) = foreign_of(type_byte) {
        place.enter(name)?;
        return Ok(Sought::Found(found));
    }
    match kind_of(type_byte) {
        Some(kind) => past(place, kind, name, bytes),
        None => Ok(Sought::Ended),
    }
}

/// One step to the right.
#[tactic(auto, unfolding(crate::specs::Seeking::step))]
fn step<'a>(place: &mut Place<'a>, bytes: &'a [u8]) -> Result<Sought<'a>, NoMemory>
    ensures { IfOk result (λ s. seek_of s place.new ≡ step place.old bytes.now) }
{
    let Some((type_byte, after)) = bytes.split_first() else {
        return Ok(Sought::Ended);
    };
    if *type_byte == 0 {
        place.leave();
        return Ok(Sought::On(after));
    }
    match read_name(after) {
        Ok((name, value)) => past_value(place, *type_byte, name, value),
        Err(_) => Ok(Sought::Ended),
    }
}

/// The type of the first such value, and its place, which is then where one has gone to.
fn seek<'a>(
    place: &mut Place<'a>,
    bytes: &'a [u8],
    most: usize,
) -> Result<Option<ForeignType>, NoMemory>
    ensures { IfOk result (λ x. option_map (λ t. (t, place.new)) x ≡ seek most place.old bytes.now) }
{
    let mut rest = bytes;
    'steps: for _step in 0..most {
        match step(place, rest)? {
            Sought::On(after) => rest = after,
            Sought::Found(found) => return Ok(Some(found)),
            Sought::Ended => return Ok(None),
        }
    }
    Ok(None)
}

/// The first such value in a document at a place, whose length stands in front.
pub(crate) fn foreign_in<'a>(
    alloc: Global,
    mut place: Place<'a>,
    bytes: &'a [u8],
) -> Result<Option<Foreign>, NoMemory>
    ensures { IfOk result (λ x. x ≡ foreign_in place.entry bytes.now) }
{
    let Some(kind) = seek(&mut place, behind(bytes, 4), bytes.len())? else {
        return Ok(None);
    };
    let path = place.text(alloc)?;
    Ok(Some(Foreign { kind, path }))
}
