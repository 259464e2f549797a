//! Between which bytes the keys of a range lie.

ghost use Rattle.std.specs.Prelude.{◌≡◌, ◌+◌, ◌≤◌, ◌++◌, ◌∷◌, length, drop, IfOk, OnOk, List, option_map};
ghost use Rattle.bson.specs.Tree.{Tree};
ghost use Rattle.bson.specs.View.{tree};
ghost use Rattle.value_order.specs.KeyText.{complement, directed_text};
ghost use Rattle.value_order.specs.Order.{value as key_value};
ghost use Rattle.planner.specs.KeyRange.{front_text};
ghost use Rattle.planner.specs.KeySpan.{end_text, least_text, first_key, last_key};
ghost use Rattle.plan_model.specs.Plan.{fields_of};
ghost use Rattle.planner.specs.View.{bound_of, index_of, values_of, range_of};

use crate::field::field_at;
use crate::range::IndexRange;
use crate::usable::Bound;
use bson::{NoMemory, Value};
use index::IndexSpec;
use std::alloc::Global;
use value_order::{Direction, group_text};

/// The bytes of an index with which a walk over a range begins, and those with which it ends, and all that goes on from
/// these.
#[derive(Debug, Drop)]
pub struct KeySpan {
    pub first: Vec<u8>,
    pub last: Vec<u8>,
}

/// Complements every byte.
fn invert(text: &mut [u8])
    ensures { text.new ≡ complement text.old }
{
    'bytes: for byte in text.iter_mut() {
        *byte = 0xff - *byte;
    }
}

/// The text of a value in a direction, however long it is.
fn directed_text(alloc: Global, value: &Value, direction: Direction) -> Result<Vec<u8>, NoMemory>
    ensures { IfOk result (λ v. v.items ≡ directed_text direction (key_value (tree value.now))) }
{
    let mut text = group_text(alloc, value)?;
    match direction {
        Direction::Ascending => Ok(text),
        Direction::Descending => {
            invert(&mut text);
            Ok(text)
        }
    }
}

/// Puts the text of a value of the field at this place behind the bytes.
fn put_value(
    out: &mut Vec<u8>,
    index: Option<&IndexSpec>,
    place: usize,
    value: &Value,
) -> Result<(), NoMemory>
    ensures { OnOk result ((ts : List Tree) → out.new.items
        ++ front_text (drop (place + 1) (fields_of (index_of index.entry))) ts
        ≡ out.old.items
        ++ front_text (drop place (fields_of (index_of index.entry))) (tree value.now ∷ ts)) }
{
    let alloc = *out.allocator();
    let Some(field) = field_at(index, place) else {
        return Ok(());
    };
    let text = directed_text(alloc, value, field.direction())?;
    out.extend_from_slice(&text)?;
    Ok(())
}

/// Puts the text at one end of a range behind the bytes; where only the other end has one, the byte of its class.
fn put_end(
    out: &mut Vec<u8>,
    direction: Direction,
    own: Option<Bound<'_>>,
    other: Option<Bound<'_>>,
) -> Result<(), NoMemory>
    ensures { OnOk result (out.new.items ≡ out.old.items
        ++ end_text direction (option_map bound_of own.entry) (option_map bound_of other.entry)) }
{
    let alloc = *out.allocator();
    if let Some(bound) = own {
        let text = directed_text(alloc, bound.operand, direction)?;
        out.extend_from_slice(&text)?;
        return Ok(());
    }
    let Some(bound) = other else {
        return Ok(());
    };
    let mut text = directed_text(alloc, bound.operand, direction)?;
    text.truncate(1);
    out.extend_from_slice(&text)?;
    Ok(())
}

/// Puts the text at the end that comes first in the direction of the field at this place.
fn put_least(
    out: &mut Vec<u8>,
    index: Option<&IndexSpec>,
    place: usize,
    low: Option<Bound<'_>>,
    high: Option<Bound<'_>>,
) -> Result<(), NoMemory>
    ensures { OnOk result (out.new.items ≡ out.old.items
        ++ least_text (option_map bound_of low.entry) (option_map bound_of high.entry)
        (drop place (fields_of (index_of index.entry)))) }
{
    let Some(field) = field_at(index, place) else {
        return Ok(());
    };
    match field.direction() {
        Direction::Ascending => put_end(out, Direction::Ascending, low, high),
        Direction::Descending => put_end(out, Direction::Descending, high, low),
    }
}

/// Puts the texts of the values of the leading fields behind the bytes.
fn put_front(
    out: &mut Vec<u8>,
    index: Option<&IndexSpec>,
    values: &[Option<&Value>],
) -> Result<(), NoMemory>
    requires { length values.now ≤ 4 }
    ensures { OnOk result (out.new.items ≡ out.old.items
        ++ front_text (fields_of (index_of index.entry)) (values_of values.now)) }
{
    let mut place = 0usize;
    'values: for value in values {
        let Some(value) = value else {
            continue;
        };
        put_value(out, index, place, value)?;
        place += 1;
    }
    Ok(())
}

impl IndexRange<'_> {
    /// Between which bytes its keys lie.
    pub fn span(&self, alloc: Global) -> Result<KeySpan, NoMemory>
        ensures first { IfOk result (λ s. s.first.items
            ≡ first_key (fields_of (range_of self.now).index) (range_of self.now)) }
        ensures last { IfOk result (λ s. s.last.items
            ≡ last_key (fields_of (range_of self.now).index) (range_of self.now)) }
    {
        let equal = &self.equal;
        let values = [equal.first, equal.second, equal.third, equal.fourth];
        let place = equal.count();
        let mut first = Vec::new(alloc);
        put_front(&mut first, self.index, &values)?;
        let mut last = first.as_slice().to_vec(alloc)?;
        put_least(&mut first, self.index, place, self.low, self.high)?;
        put_least(&mut last, self.index, place, self.high, self.low)?;
        Ok(KeySpan { first, last })
    }
}
