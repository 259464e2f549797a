//! Whether the values of a range are such as keys have.

ghost use Rattle.std.specs.Prelude.{◌≡◌, true, IfOk, IfSome, option_map};
ghost use Rattle.std.specs.List.{AllByRecursion};
ghost use Rattle.bson.specs.View.{tree};
ghost use Rattle.value_order.specs.KeyText.{tree_text};
ghost use Rattle.value_order.specs.Laws.{IsKey};
ghost use Rattle.value_order.specs.Order.{value as key_value};
ghost use Rattle.planner.specs.KeyRange.{IsSpellable};
ghost use Rattle.planner.specs.View.{range_of};

use crate::range::IndexRange;
use crate::usable::Bound;
use bson::{MESSAGE_LIMIT, NoMemory, Value};
use std::alloc::{AllocError, Global};
use value_order::{Direction, KeyFault, KeyPart, key_text};

/// The key text of a value; none where it is longer than that of a key or of a stored document's `_id` may be.
pub fn short_text(alloc: Global, value: &Value) -> Result<Option<Vec<u8>>, NoMemory>
    ensures { IfOk result (λ found. IfSome found (λ text.
        (text.items ≡ tree_text (tree value.now)) × IsKey (key_value (tree value.now)))) }
{
    let _levels = value.levels();
    match key_text(alloc, &KeyPart::Value(value), Direction::Ascending) {
        Ok(text) => Ok(Some(text)),
        Err(KeyFault::TooLong) => Ok(None),
        Err(KeyFault::Memory) => Err(AllocError),
    }
}

/// Whether a value that is there is one that a message can have, by its length. Its text isn't made for that.
fn is_key(value: Option<&Value>) -> bool
    ensures { result ≡ true → IfSome value.entry (λ v. IsKey (key_value (tree v.now))) }
{
    let Some(value) = value else {
        return true;
    };
    let _levels = value.levels();
    value.encoded_len() <= MESSAGE_LIMIT
}

/// Whether each of them is.
fn are_keys(values: &[Option<&Value>]) -> bool
    ensures { result ≡ true
        → AllByRecursion (λ o. IfSome o (λ v. IsKey (key_value (tree v.now)))) values.now }
{
    'values: for value in values {
        if !is_key(*value) {
            return false;
        }
    }
    true
}

/// The value at an end of a range.
fn operand<'a>(bound: Option<Bound<'a>>) -> Option<&'a Value>
    ensures { result ≡ option_map (λ b. b.operand) bound.entry }
{
    match bound {
        Some(bound) => Some(bound.operand),
        None => None,
    }
}

impl IndexRange<'_> {
    /// Whether each of its values is one that BSON can spell in a message, as those of a command's filter are.
    pub fn is_spellable(&self) -> bool
        ensures { result ≡ true → IsSpellable (range_of self.now) }
    {
        let equal = &self.equal;
        are_keys(&[
            equal.first,
            equal.second,
            equal.third,
            equal.fourth,
            operand(self.low),
            operand(self.high),
        ])
    }
}
