//! Which indexes are to be made.

ghost use Rattle.std.specs.Prelude.{◌≡◌, ◌==◌, ◌+◌, ◌≤◌, length};
ghost use Rattle.std.specs.List.{list_any};
ghost use Rattle.database_model.specs.CreateIndexes.{are_same_fields, has_definition, has_name, is_alike, is_ascending, is_id_index, is_id_key, is_in_conflict, is_like_id_index, is_same, is_same_field, is_there, unused_index};

use commands::NewIndex;
use index::{IndexField, IndexSpec};
use stored_documents::ID;
use value_order::Direction;

/// The name of the index on `_id`.
pub const ID_INDEX: &str = "_id_";

fn is_ascending(direction: Direction) -> bool
    ensures { result ≡ is_ascending direction }
{
    match direction {
        Direction::Ascending => true,
        Direction::Descending => false,
    }
}

/// Whether the fields are the key of the index on `_id`.
fn is_id_key(fields: &[IndexField]) -> bool
    ensures { result ≡ is_id_key fields.now }
{
    match fields {
        [field] => field.text() == ID && is_ascending(field.direction()),
        _ => false,
    }
}

/// Whether two fields have the same path and the same direction.
fn is_same_field(a: &IndexField, b: &IndexField) -> bool
    ensures { result ≡ is_same_field a.now b.now }
{
    a.text() == b.text() && is_ascending(a.direction()) == is_ascending(b.direction())
}

/// Whether the fields have the same paths in the same directions, in order.
fn are_same_fields(a: &[IndexField], b: &[IndexField]) -> bool
    ensures { result ≡ are_same_fields a.now b.now }
{
    if a.len() != b.len() {
        return false;
    }
    'fields: for (at, field) in a.iter().enumerate() {
        if !is_same_field(field, &b[at]) {
            return false;
        }
    }
    true
}

/// Whether an index has the name of a new one.
fn has_name(index: &IndexSpec, new: &NewIndex) -> bool
    ensures { result ≡ has_name new.now index.now }
{
    index.name() == new.name()
}

/// Whether it has the new one's fields, and is unique where that is.
fn has_definition(index: &IndexSpec, new: &NewIndex) -> bool
    ensures { result ≡ has_definition new.now index.now }
{
    are_same_fields(index.fields(), new.fields()) && index.is_unique() == new.is_unique()
}

/// Whether it has the new one's name and definition.
fn is_same(index: &IndexSpec, new: &NewIndex) -> bool
    ensures { result ≡ is_same new.now index.now }
{
    has_name(index, new) && has_definition(index, new)
}

/// Whether it has the new one's name or definition.
fn is_alike(index: &IndexSpec, new: &NewIndex) -> bool
    ensures { result ≡ is_alike new.now index.now }
{
    has_name(index, new) || has_definition(index, new)
}

/// Whether one of these indexes has the new one's name and definition.
fn has_same(indexes: &[IndexSpec], new: &NewIndex) -> bool
    ensures { result ≡ list_any (is_same new.now) indexes.now }
{
    indexes.iter().any(|index| is_same(index, new))
}

/// Whether one of these indexes has the new one's name or definition.
fn has_alike(indexes: &[IndexSpec], new: &NewIndex) -> bool
    ensures { result ≡ list_any (is_alike new.now) indexes.now }
{
    indexes.iter().any(|index| is_alike(index, new))
}

/// Whether a new index is that on `_id`.
fn is_id_index(new: &NewIndex) -> bool
    ensures { result ≡ is_id_index new.now }
{
    new.name() == ID_INDEX && is_id_key(new.fields())
}

/// Whether it has the name or the key of that on `_id`.
fn is_like_id_index(new: &NewIndex) -> bool
    ensures { result ≡ is_like_id_index new.now }
{
    new.name() == ID_INDEX || is_id_key(new.fields())
}

/// Whether the index is there already: it is that on `_id`, or one of these has its name and its definition.
pub fn is_there(indexes: &[IndexSpec], new: &NewIndex) -> bool
    ensures { result ≡ is_there indexes.now new.now }
{
    is_id_index(new) || has_same(indexes, new)
}

/// Whether one that is there has its name or its definition, that on `_id` among them.
pub fn is_in_conflict(indexes: &[IndexSpec], new: &NewIndex) -> bool
    ensures { result ≡ is_in_conflict indexes.now new.now }
{
    is_like_id_index(new) || has_alike(indexes, new)
}

/// Whether one of these indexes has this number.
fn has_number(indexes: &[IndexSpec], number: u32) -> bool
    ensures { result ≡ list_any (λ i. i.number == number) indexes.now }
{
    indexes.iter().any(|index| index.number() == number)
}

/// The least number from 1 on that none of these indexes has.
pub fn unused_number(indexes: &[IndexSpec]) -> u32
    requires { length indexes.now ≤ 16 }
    ensures number { result ≡ unused_index indexes.now }
    ensures within { (1 ≤ result) × (result ≤ length indexes.now + 1) }
{
    let mut number: u32 = 1;
    'numbers: for _ in 0..indexes.len() {
        if !has_number(indexes, number) {
            return number;
        }
        number += 1;
    }
    number
}
