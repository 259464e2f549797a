//! The texts of a document's keys, field by field.

ghost use Rattle.std.specs.Prelude.{◌≡◌, [], ◌∷◌, map};
ghost use Rattle.outcome.specs.Outcome.{Does, Gives};
ghost use Rattle.path.specs.View.{reached};
ghost use Rattle.value_order.specs.View.{key_of};
ghost use Rattle.index.specs.IndexKeys.{array_keys, keys_of};
ghost use Rattle.index.specs.View.{texts_of};
ghost use Rattle.index.specs.Steps.{with_texts, longest, texts_at, texts_within};

use crate::KEY_LIMIT;
use crate::definition::IndexField;
use bson::{Array, Document, Value};
use path::{Reached, Refusal, reach};
use std::alloc::Global;
use value_order::{Direction, KeyFault, KeyPart, key_text};

/// Puts the text of one key more behind others.
fn push_text(
    texts: &mut Vec<Vec<u8>>,
    key: &KeyPart<'_>,
    direction: Direction,
) -> Result<(), Refusal>
    ensures { Does Refusal.OutOfMemory result (texts_of texts.new.items)
        (with_texts direction (texts_of texts.old.items) (key_of key.now ∷ [])) }
{
    match key_text(*texts.allocator(), key, direction) {
        Ok(text) => {
            texts.push(text)?;
            Ok(())
        }
        Err(KeyFault::TooLong) => Err(Refusal::KeyTooLong),
        Err(KeyFault::Memory) => Err(Refusal::OutOfMemory),
    }
}

/// Puts the texts of an array's keys behind others.
fn push_array(texts: &mut Vec<Vec<u8>>, array: &Array, direction: Direction) -> Result<(), Refusal>
    ensures { Does Refusal.OutOfMemory result (texts_of texts.new.items)
        (with_texts direction (texts_of texts.old.items) (array_keys array.now)) }
{
    if array.is_empty() {
        return push_text(texts, &KeyPart::EmptyArray, direction);
    }
    'items: for item in array.items() {
        push_text(texts, &KeyPart::Value(item), direction)?;
    }
    Ok(())
}

/// Puts the texts of what a path reached behind others.
fn push_reached(
    texts: &mut Vec<Vec<u8>>,
    end: Reached<'_>,
    direction: Direction,
) -> Result<(), Refusal>
    ensures { Does Refusal.OutOfMemory result (texts_of texts.new.items)
        (with_texts direction (texts_of texts.old.items) (keys_of (reached end.entry))) }
{
    match end {
        Reached::Missing => push_text(texts, &KeyPart::Nothing, direction),
        Reached::Value(Value::Array(array)) => push_array(texts, array, direction),
        Reached::Value(value) => push_text(texts, &KeyPart::Value(value), direction),
    }
}

/// The texts of a document's keys at a field.
fn texts_at(alloc: Global, field: &IndexField, source: &Document) -> Result<Vec<Vec<u8>>, Refusal>
    ensures { Gives Refusal.OutOfMemory (λ v. texts_of v.items) result
        (texts_at field.now source.now) }
{
    let all = reach(alloc, source, field.path())?;
    let mut texts = Vec::new(alloc);
    if all.is_empty() {
        push_text(&mut texts, &KeyPart::Nothing, field.direction())?;
        return Ok(texts);
    }
    'all: for reached in &all {
        push_reached(&mut texts, *reached, field.direction())?;
    }
    Ok(texts)
}

/// The bytes of the longest of these texts.
fn longest(texts: &[Vec<u8>]) -> usize
    ensures { result ≡ longest (texts_of texts.now) }
{
    let mut most = 0;
    'texts: for text in texts {
        most = most.max(text.len());
    }
    most
}

/// The texts of a document's keys at each field, where those of no key have more than 500 bytes together.
pub(crate) fn texts_within(
    alloc: Global,
    fields: &[IndexField],
    source: &Document,
) -> Result<Vec<Vec<Vec<u8>>>, Refusal>
    ensures { Gives Refusal.OutOfMemory (λ v. map (λ texts. texts_of texts.items) v.items) result
        (texts_within 500 [] fields.now source.now) }
{
    let mut all = Vec::with_capacity(alloc, fields.len())?;
    let mut room = KEY_LIMIT;
    'fields: for field in fields {
        let texts = texts_at(alloc, field, source)?;
        let Some(left) = room.checked_sub(longest(&texts)) else {
            return Err(Refusal::KeyTooLong);
        };
        room = left;
        all.push(texts)?;
    }
    Ok(all)
}
