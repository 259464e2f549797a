//! Documents from bytes.

ghost use Rattle.std.specs.Prelude.{◌≡◌, ℕ, ◌<◌, ◌≤◌, ◌+◌, ◌-◌, ◌≢◌, ◌++◌, ◌||◌, List, length, take, IfOk, IfErr, Ok};
ghost use Rattle.std.specs.Str.{bytes_eq};
ghost use Rattle.std.specs.Fmt.{decimal};
ghost use Rattle.bson.specs.View.{tree};
ghost use Rattle.outcome.specs.Outcome.{Gives, GivesExactly};
ghost use Rattle.bson.specs.Lookup.{stands_in};
ghost use Rattle.bson_bytes.specs.Decoding.{value_at, element_by, item_by, pairs_in, items_in, length_at, document_at};
ghost use Rattle.bson_bytes.specs.FirstFault.{FirstFault};
ghost use Rattle.bson.specs.Lawful.{levels};
ghost use Rattle.bson.specs.Limits.{message_limit};
ghost use Rattle.bson.specs.Spelling.{Spells, HasNoDocument};
ghost use Rattle.bson.specs.Tree.{Pairs};
ghost use Rattle.bson_bytes.specs.declared.fault.BsonFault.TheVariants as faults;

use crate::fault::BsonFault;
use crate::frames::{read_content, read_ended, read_name, read_name_bytes};
use crate::read_scalars::{read_kind, read_scalar};
use bson::{Array, Document, Kind, MESSAGE_LIMIT, MOST_LEVELS, Names, Pair, Text, Value};
use itoa::Buffer;
use std::alloc::Global;

/// A value where this many more levels are allowed.
#[cycle(decoding)]
#[tactic(auto, unfolding(crate::specs::Decoding::value_at))]
pub(crate) fn read_value(
    alloc: Global,
    more: u32,
    kind: Kind,
    bytes: &[u8],
) -> Result<(Value, &[u8]), BsonFault>
    requires { more ≤ 99 }
    ensures { Gives faults.Memory (λ x. (tree x.0, x.1.now)) result (value_at more kind bytes.now) }
{
    match kind {
        Kind::Document => {
            if more == 0 {
                return Err(BsonFault::Deep);
            }
            let (content, rest) = read_content(bytes)?;
            let document = read_pairs(alloc, more - 1, content)?;
            Ok((Value::Document(document), rest))
        }
        Kind::Array => {
            if more == 0 {
                return Err(BsonFault::Deep);
            }
            let (content, rest) = read_content(bytes)?;
            let array = read_items(alloc, more - 1, content)?;
            Ok((Value::Array(array), rest))
        }
        _ => read_scalar(alloc, kind, bytes),
    }
}

/// Whether the name is that of the item at this place: the number in decimal digits.
pub(crate) fn is_index(name: &[u8], i: usize) -> bool
    ensures { result ≡ bytes_eq name.now (decimal i) }
{
    let mut buffer = Buffer::new();
    name == buffer.format(i).as_bytes()
}

/// An element of a document, after its type byte: its name, which is taken in, and its value.
#[cycle(decoding)]
#[tactic(auto, unfolding(crate::specs::Decoding::element_by))]
fn read_pair<'a>(
    alloc: Global,
    more: u32,
    earlier: &mut Names<'a>,
    type_byte: u8,
    bytes: &'a [u8],
) -> Result<((&'a str, Value), &'a [u8]), BsonFault>
    requires { more ≤ 99 }
    ensures gives { Gives faults.Memory (λ x. ((x.0.0.now, tree x.0.1), x.1.now)) result
        (element_by (value_at more) (stands_in earlier.old) faults.Repeated type_byte bytes.now) }
    ensures names { IfOk result (λ x. (other : List ℕ) → stands_in earlier.new other
        ≡ (bytes_eq other x.0.0.now || stands_in earlier.old other)) }
{
    let kind = read_kind(type_byte)?;
    let (name, rest) = read_name(bytes)?;
    if !earlier.insert(name)? {
        return Err(BsonFault::Repeated);
    }
    let (value, rest) = read_value(alloc, more, kind, rest)?;
    Ok(((name, value), rest))
}

/// An element of an array, after its type byte.
#[cycle(decoding)]
#[tactic(auto, unfolding(crate::specs::Decoding::element_by, crate::specs::Decoding::item_by))]
fn read_item(
    alloc: Global,
    more: u32,
    i: usize,
    type_byte: u8,
    bytes: &[u8],
) -> Result<(Value, &[u8]), BsonFault>
    requires { more ≤ 99 }
    ensures { Gives faults.Memory (λ x. (tree x.0, x.1.now)) result
        (item_by (value_at more) i type_byte bytes.now) }
{
    let kind = read_kind(type_byte)?;
    let (name, rest) = read_name_bytes(bytes)?;
    if !is_index(name, i) {
        return Err(BsonFault::ArrayName);
    }
    read_value(alloc, more, kind, rest)
}

#[cycle(decoding)]
fn read_pairs(alloc: Global, more: u32, content: &[u8]) -> Result<Document, BsonFault>
    requires { more ≤ 99 }
    ensures { Gives faults.Memory (λ d. d) result (pairs_in (value_at more) content.now) }
{
    let mut pairs = Vec::new(alloc);
    let mut names = Names::new(alloc);
    let mut levels = 0u32;
    let mut rest = content;
    'pairs: while let Some((type_byte, after)) = rest.split_first() {
        let ((name, value), after) = read_pair(alloc, more, &mut names, *type_byte, after)?;
        levels = levels.max(value.levels());
        let name = Text::from_str(alloc, name)?;
        pairs.push(Pair { name, value })?;
        rest = after;
    }
    Ok(Document::from_counted(pairs, levels))
}

#[cycle(decoding)]
fn read_items(alloc: Global, more: u32, content: &[u8]) -> Result<Array, BsonFault>
    requires { more ≤ 98 }
    ensures { Gives faults.Memory (λ a. a) result (items_in (value_at more) content.now) }
{
    let mut items = Vec::new(alloc);
    let mut levels = 0u32;
    let mut rest = content;
    'items: while let Some((type_byte, after)) = rest.split_first() {
        let (item, after) = read_item(alloc, more, items.len(), *type_byte, after)?;
        levels = levels.max(item.levels());
        items.push(item)?;
        rest = after;
    }
    Ok(Array::from_counted(items, levels))
}

#[tactic(auto, unfolding(crate::specs::Decoding::length_at))]
/// The length of the document at the front of the input.
pub(crate) fn read_length(bytes: &[u8]) -> Result<usize, BsonFault>
    ensures gives { GivesExactly (λ n. n) result (length_at bytes.now) }
    ensures within { IfOk result
        (λ n. (5 ≤ n) × (n ≤ message_limit) × (4 ≤ length bytes.now)) }
{
    if bytes.len() < 4 {
        return Err(BsonFault::Truncated);
    }
    let (front, _) = bytes.split_at(4);
    let len = u32::from_le_bytes([front[0], front[1], front[2], front[3]]);
    if len < 5 || 0x8000_0000 <= len {
        return Err(BsonFault::Length);
    }
    let len = len as usize;
    if MESSAGE_LIMIT < len {
        return Err(BsonFault::TooLarge);
    }
    if bytes.len() < len {
        return Err(BsonFault::Truncated);
    }
    Ok(len)
}

#[tactic(auto, unfolding(crate::specs::Decoding::document_at))]
fn read_document(alloc: Global, bytes: &[u8]) -> Result<(Document, usize), BsonFault>
    ensures { Gives faults.Memory (λ x. x) result (document_at bytes.now) }
{
    let len = read_length(bytes)?;
    let (_, rest) = bytes.split_at(4);
    let (content, _) = read_ended(BsonFault::Length, len - 5, rest)?;
    let document = read_pairs(alloc, MOST_LEVELS - 1, content)?;
    Ok((document, len))
}

/// The document at the front of the input, and its length.
pub fn decode(alloc: Global, bytes: &[u8]) -> Result<(Document, usize), BsonFault>
    // What is read is spelled so.
    ensures found { IfOk result
        (λ x. (x.1 ≤ length bytes.now) × Spells (take x.1 bytes.now) x.0) }
    // What is spelled so is read, whatever follows it, unless memory runs out.
    ensures only { (front rest : List ℕ) (ps : Pairs) → Spells front ps → bytes.now ≡ front ++ rest
        → Gives faults.Memory (λ x. x) result (Ok (ps, length front)) }
    // What the reading definition gives.
    ensures gives { Gives faults.Memory (λ x. x) result (document_at bytes.now) }
    // A fault is the first from the left, and no front of the input is a document.
    ensures fault { IfErr result
        (λ e. e ≢ faults.Memory → FirstFault bytes.now e × HasNoDocument bytes.now) }
{
    read_document(alloc, bytes)
}

/// The document at the front of the input, as a value that stands inside so many others, and what follows it. It may
/// nest so many levels fewer than a document that stands alone.
pub fn decode_inner(
    alloc: Global,
    outer_levels: u32,
    bytes: &[u8],
) -> Result<(Value, &[u8]), BsonFault>
    requires { (1 ≤ outer_levels) × (outer_levels ≤ 100) }
    ensures gives { Gives faults.Memory (λ x. (tree x.0, x.1.now)) result
        (value_at (100 - outer_levels) Kind.Document bytes.now) }
    ensures levels { IfOk result (λ x. levels (tree x.0) + outer_levels ≤ 100) }
{
    read_value(alloc, MOST_LEVELS - outer_levels, Kind::Document, bytes)
}
