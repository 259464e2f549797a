//! Whether bytes spell a document, found out without memory. Each function accepts what its namesake in
//! `reading` accepts, with the same faults.

ghost use Rattle.std.specs.Prelude.{true, false, ℕ, List, Ok, IfOk, ◌≡◌, ◌^◌, ◌<◌, ◌≤◌, length};
ghost use Rattle.outcome.specs.Outcome.{GivesExactly};
ghost use Rattle.bson.specs.Lookup.{stands_in};
ghost use Rattle.bson_bytes.specs.Decoding.{leaf, scalar_at, value_at, element_by, item_by, kind_of, name_at, pairs_in, items_in, document_at};
ghost use Rattle.bson.specs.declared.kind.Kind.{Kind};
ghost use Rattle.bson_bytes.specs.Raw.{tree_names, pairs_spelled, Elements, name_and_rest, rest_of, outcome_of, only_length};
ghost use Rattle.bson_bytes.specs.Checked.{CountedPairs};
ghost use Rattle.bson_bytes.specs.Marks.{name_mark, AreMarked};
ghost use Rattle.bson_bytes.specs.declared.fault.BsonFault.TheVariants as faults;

use crate::decoding::{is_index, read_length};
use crate::distinct::count_of_many;
use crate::elements::{ElementNames, has_element};
use crate::fault::BsonFault;
use crate::frames::{
    read_content, read_ended, read_fixed, read_marked_name, read_name_bytes, read_text_bytes,
};
use crate::read_scalars::{read_body, read_bool, read_kind};
use bson::{Kind, MOST_LEVELS};

/// How many names are told apart by their marks: of a document with more, the names are counted.
const MARKED: usize = 48;

/// What is left behind a value of a kind other than documents and arrays.
#[inline(always)]
#[tactic(auto, unfolding(crate::specs::Decoding::scalar_at, crate::specs::Decoding::string_at, crate::specs::Decoding::object_id_at, crate::specs::Decoding::date_at, crate::specs::Decoding::int32_at, crate::specs::Decoding::timestamp_at, crate::specs::Decoding::int64_at))]
fn check_scalar(kind: Kind, bytes: &[u8]) -> Result<&[u8], BsonFault>
    ensures { GivesExactly (λ r. r.now) result (rest_of (leaf (scalar_at kind bytes.now))) }
{
    match kind {
        Kind::Document | Kind::Array => Err(BsonFault::TypeByte),
        Kind::String => Ok(read_text_bytes(bytes)?.1),
        Kind::Binary => match read_body(bytes) {
            Ok((_, rest)) => Ok(rest),
            Err(fault) => Err(fault),
        },
        Kind::ObjectId => Ok(read_fixed(12, bytes)?.1),
        Kind::Bool => Ok(read_bool(bytes)?.1),
        Kind::Int32 => Ok(read_fixed(4, bytes)?.1),
        Kind::Date | Kind::Timestamp | Kind::Int64 => Ok(read_fixed(8, bytes)?.1),
        Kind::Null | Kind::MinKey | Kind::MaxKey => Ok(bytes),
    }
}

/// What is left behind a value where this many more levels are allowed.
#[cycle(checking)]
#[inline(always)]
#[tactic(auto, unfolding(crate::specs::Decoding::value_at))]
fn check_value(more: u32, kind: Kind, bytes: &[u8]) -> Result<&[u8], BsonFault>
    requires { more ≤ 99 }
    ensures { GivesExactly (λ r. r.now) result (rest_of (value_at more kind bytes.now)) }
{
    match kind {
        Kind::Document => {
            if more == 0 {
                return Err(BsonFault::Deep);
            }
            let (content, rest) = read_content(bytes)?;
            check_pairs(more - 1, content)?;
            Ok(rest)
        }
        Kind::Array => {
            if more == 0 {
                return Err(BsonFault::Deep);
            }
            let (content, rest) = read_content(bytes)?;
            check_items(more - 1, content)?;
            Ok(rest)
        }
        _ => check_scalar(kind, bytes),
    }
}

/// Whether a name stands among the elements before it, which are looked at where it isn't known to be new.
#[inline(always)]
fn is_repeated(is_new: bool, earlier: &[u8], name: &[u8]) -> bool
    requires earlier { Elements earlier.now (pairs_spelled earlier.now) }
    requires new { is_new ≡ true
        → stands_in (tree_names (pairs_spelled earlier.now)) name.now ≡ false }
    ensures { result ≡ stands_in (tree_names (pairs_spelled earlier.now)) name.now }
{
    if is_new {
        return false;
    }
    has_element(earlier, name)
}

/// The name of an element of a document, after its type byte, with its mark, and what is left behind it. A name whose mark
/// no name before it has is new. The type byte is looked at where the value is read, so once.
#[cycle(checking)]
#[inline(always)]
#[tactic(auto, unfolding(crate::specs::Decoding::element_by))]
fn check_pair<'a>(
    more: u32,
    marks: &[bool; 256],
    earlier: &[u8],
    type_byte: u8,
    bytes: &'a [u8],
) -> Result<((&'a [u8], usize), &'a [u8]), BsonFault>
    requires more { more ≤ 99 }
    requires earlier { Elements earlier.now (pairs_spelled earlier.now) }
    requires marks { AreMarked (tree_names (pairs_spelled earlier.now)) marks.now }
    ensures gives { GivesExactly (λ x. (x.0.0.now, x.1.now)) result
        (name_and_rest (element_by (value_at more) (stands_in (tree_names (pairs_spelled earlier.now)))
        faults.Repeated type_byte bytes.now)) }
    ensures mark { IfOk result (λ x. x.0.1 ≡ name_mark x.0.0.now) }
{
    let ((name, mark), rest) = match read_marked_name(bytes) {
        Ok(found) => found,
        Err(fault) => {
            read_kind(type_byte)?;
            return Err(fault);
        }
    };
    if is_repeated(!marks[mark], earlier, name) {
        read_kind(type_byte)?;
        return Err(BsonFault::Repeated);
    }
    let kind = read_kind(type_byte)?;
    match check_value(more, kind, rest) {
        Ok(rest) => Ok(((name, mark), rest)),
        Err(fault) => Err(fault),
    }
}

/// What is left behind an element of a document, after its type byte.
#[cycle(checking)]
#[tactic(auto, unfolding(crate::specs::Decoding::element_by))]
fn check_later<'a>(
    more: u32,
    is_new: bool,
    earlier: &[u8],
    type_byte: u8,
    bytes: &'a [u8],
) -> Result<&'a [u8], BsonFault>
    requires more { more ≤ 99 }
    requires earlier { Elements earlier.now (pairs_spelled earlier.now) }
    requires new { is_new ≡ true → (k : Kind) (x : List ℕ × List ℕ) → kind_of type_byte ≡ Ok k
        → name_at bytes.now ≡ Ok x
        → stands_in (tree_names (pairs_spelled earlier.now)) x.0 ≡ false }
    ensures { GivesExactly (λ r. r.now) result
        (rest_of (element_by (value_at more) (stands_in (tree_names (pairs_spelled earlier.now)))
        faults.Repeated type_byte bytes.now)) }
{
    let kind = read_kind(type_byte)?;
    let (name, rest) = read_name_bytes(bytes)?;
    if is_repeated(is_new, earlier, name) {
        return Err(BsonFault::Repeated);
    }
    check_value(more, kind, rest)
}

/// What is left behind an element of an array, after its type byte.
#[cycle(checking)]
#[tactic(auto, unfolding(crate::specs::Decoding::element_by, crate::specs::Decoding::item_by))]
fn check_item(more: u32, i: usize, type_byte: u8, bytes: &[u8]) -> Result<&[u8], BsonFault>
    requires { more ≤ 99 }
    ensures { GivesExactly (λ r. r.now) result
        (rest_of (item_by (value_at more) i type_byte bytes.now)) }
{
    let kind = read_kind(type_byte)?;
    let (name, rest) = read_name_bytes(bytes)?;
    if !is_index(name, i) {
        return Err(BsonFault::ArrayName);
    }
    check_value(more, kind, rest)
}

/// The elements of a document. The marks of the names of the first few are set in a table, which tells most names that are
/// new.
#[cycle(checking)]
fn check_pairs(more: u32, content: &[u8]) -> Result<(), BsonFault>
    requires more { more ≤ 99 }
    requires short { length content.now < 2 ^ 31 }
    ensures { GivesExactly (λ u. u) result (outcome_of (pairs_in (value_at more) content.now)) }
{
    let mut marks = [false; 256];
    let mut count = 0usize;
    let mut rest = content;
    'pairs: while let Some((type_byte, after)) = rest.split_first() {
        if count == MARKED {
            return check_further(more, content, rest);
        }
        let (earlier, _) = content.split_at(content.len() - rest.len());
        let ((_, mark), after) = check_pair(more, &marks, earlier, *type_byte, after)?;
        marks[mark] = true;
        count += 1;
        rest = after;
    }
    Ok(())
}

/// The elements of a document that are left, of which the first few are checked. A name that isn't known to be new is
/// looked for among the elements before it: one of a few dozen, or the first that stands twice.
#[cycle(checking)]
#[inline(never)]
fn check_further(more: u32, content: &[u8], left: &[u8]) -> Result<(), BsonFault>
    requires more { more ≤ 99 }
    requires short { length content.now < 2 ^ 31 }
    requires checked { CountedPairs more content.now left.now 48 }
    ensures { GivesExactly (λ u. u) result (outcome_of (pairs_in (value_at more) content.now)) }
{
    let distinct = count_of_many::<ElementNames>(content);
    let mut count = MARKED;
    let mut rest = left;
    'pairs: while let Some((type_byte, after)) = rest.split_first() {
        let (earlier, _) = content.split_at(content.len() - rest.len());
        rest = check_later(more, count < distinct, earlier, *type_byte, after)?;
        count += 1;
    }
    Ok(())
}

#[cycle(checking)]
fn check_items(more: u32, content: &[u8]) -> Result<(), BsonFault>
    requires { more ≤ 98 }
    ensures { GivesExactly (λ u. u) result (outcome_of (items_in (value_at more) content.now)) }
{
    let mut i = 0usize;
    let mut rest = content;
    'items: while let Some((type_byte, after)) = rest.split_first() {
        rest = check_item(more, i, *type_byte, after)?;
        i += 1;
    }
    Ok(())
}

/// The length of the document at the front of the input.
#[tactic(auto, unfolding(crate::specs::Decoding::document_at))]
pub(crate) fn check_document(bytes: &[u8]) -> Result<usize, BsonFault>
    ensures { GivesExactly (λ n. n) result (only_length (document_at bytes.now)) }
{
    let len = read_length(bytes)?;
    let (_, rest) = bytes.split_at(4);
    let (content, _) = read_ended(BsonFault::Length, len - 5, rest)?;
    check_pairs(MOST_LEVELS - 1, content)?;
    Ok(len)
}
