//! Elements of bytes that are known to spell a document.

ghost use Rattle.std.specs.Prelude.{◌≡◌, ◌^◌, ◌<◌, ◌≤◌, length, MatchOption, option_map};
ghost use Rattle.bson_bytes.specs.RawNames.{next_name, names_in};
ghost use Rattle.bson.specs.Tree.{no_pairs};
ghost use Rattle.bson.specs.Lookup.{stands_in};
ghost use Rattle.bson_bytes.specs.Raw.{tree_names, pairs_spelled, Elements, IsFirst, number_at, len_at};

use crate::distinct::NamedParts;
use crate::frames::read_name_bytes;
use crate::read_scalars::read_kind;
use bson::{Kind, first_zero};

/// An element, with the elements behind it.
#[derive(Clone, Copy)]
pub(crate) struct Element<'a> {
    pub(crate) kind: Kind,
    pub(crate) name: &'a [u8],
    pub(crate) value: &'a [u8],
    pub(crate) rest: &'a [u8],
}

fn first_number(bytes: &[u8]) -> usize
    ensures value { result ≡ number_at bytes.now }
    ensures fits { result < 2 ^ 32 }
{
    match bytes.first_chunk::<4>() {
        Some(four) => u32::from_le_bytes(*four) as usize,
        None => 0,
    }
}

#[tactic(auto, unfolding(crate::specs::Raw::len_at))]
fn value_len(kind: Kind, bytes: &[u8]) -> usize
    ensures { result ≡ len_at kind bytes.now }
{
    match kind {
        Kind::String => first_number(bytes) + 4,
        Kind::Document | Kind::Array => first_number(bytes),
        Kind::Binary => first_number(bytes) + 5,
        Kind::ObjectId => 12,
        Kind::Bool => 1,
        Kind::Int32 => 4,
        Kind::Date | Kind::Timestamp | Kind::Int64 => 8,
        Kind::Null | Kind::MinKey | Kind::MaxKey => 0,
    }
}

/// The name of the first of some elements and the elements behind it, where one stands there. The name is not
/// judged as text, and no value is looked into.
fn next_name(elements: &[u8]) -> Option<(&[u8], &[u8])>
    ensures { option_map (λ x. (x.0.now, x.1.now)) result ≡ next_name elements.now }
{
    let Some((type_byte, after)) = elements.split_first() else {
        return None;
    };
    let Ok(kind) = read_kind(*type_byte) else {
        return None;
    };
    let Some(end) = first_zero(after) else {
        return None;
    };
    let (name, _) = after.split_at(end);
    let (_, value) = after.split_at(end + 1);
    let len = value_len(kind, value).min(value.len());
    let (_, rest) = value.split_at(len);
    Some((name, rest))
}

/// The names of elements, as they stand.
pub(crate) struct ElementNames;

impl NamedParts for ElementNames {
    ghost use Rattle.bson_bytes.specs.RawNames.{names_in};

    ghost names = { names_in };

    fn split_name(bytes: &[u8]) -> Option<(&[u8], &[u8])> {
        next_name(bytes)
    }
}

/// The first element, where there is one. It steps over the element's value without a look into it.
pub(crate) fn split_element(elements: &[u8]) -> Option<Element<'_>>
    requires { Elements elements.now (pairs_spelled elements.now) }
    ensures { MatchOption result (pairs_spelled elements.now ≡ no_pairs)
        (λ e. IsFirst (pairs_spelled elements.now) e.kind e.name.now e.value.now e.rest.now) }
{
    let Some((type_byte, after)) = elements.split_first() else {
        return None;
    };
    let Ok(kind) = read_kind(*type_byte) else {
        unreachable!();
    };
    let Ok((name, after)) = read_name_bytes(after) else {
        unreachable!();
    };
    let (value, rest) = after.split_at(value_len(kind, after));
    Some(Element {
        kind,
        name,
        value,
        rest,
    })
}

/// Whether one of these elements has this name.
pub(crate) fn has_element(elements: &[u8], name: &[u8]) -> bool
    requires { Elements elements.now (pairs_spelled elements.now) }
    ensures { result ≡ stands_in (tree_names (pairs_spelled elements.now)) name.now }
{
    has_name_in(elements, name)
}

/// Whether this name stands in these elements, whatever they are.
fn has_name_in(elements: &[u8], name: &[u8]) -> bool
    ensures { result ≡ stands_in (names_in elements.now) name.now }
{
    let mut rest = elements;
    'elements: while let Some((other, after)) = next_name(rest) {
        if name == other {
            return true;
        }
        rest = after;
    }
    false
}
