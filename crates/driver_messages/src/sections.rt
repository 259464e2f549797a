//! The first value of a type that the database doesn't have, in the sections of a message.

ghost use Rattle.std.specs.Prelude.{◌≡◌, [], ◌∷◌, take, drop, length, IfOk};
ghost use Rattle.bson_bytes.specs.Raw.{number_at};
ghost use Rattle.bson_bytes.specs.Decoding.{name_at};
ghost use Rattle.std.specs.Fmt.{decimal};
ghost use Rattle.driver_messages.specs.Seeking.{foreign_in, in_documents, in_sequence, in_section, in_sections, foreign_in_sections};

use crate::foreign::Foreign;
use crate::place::Place;
use crate::seeking::{foreign_in, number_at};
use bson::NoMemory;
use bson_bytes::read_name;
use itoa::Buffer;
use std::alloc::Global;

/// Bytes that begin with their own length, and what follows them.
pub(crate) fn split_part(bytes: &[u8]) -> (&[u8], &[u8])
    ensures part { result.0.now ≡ take (number_at bytes.now) bytes.now }
    ensures rest { result.1.now ≡ drop (number_at bytes.now) bytes.now }
{
    bytes.split_at(number_at(bytes).min(bytes.len()))
}

/// In a document that is an item of an array of this name.
fn foreign_in_item(
    alloc: Global,
    name: &str,
    i: usize,
    document: &[u8],
) -> Result<Option<Foreign>, NoMemory>
    ensures { IfOk result (λ x. x ≡ foreign_in (name.now ∷ decimal i ∷ []) document.now) }
{
    let mut buffer = Buffer::new();
    let mut place = Place::new(alloc);
    place.enter(name)?;
    place.enter(buffer.format(i))?;
    foreign_in(alloc, place, document)
}

/// In documents one behind the other, which are items of an array of this name.
fn in_documents(alloc: Global, name: &str, bytes: &[u8]) -> Result<Option<Foreign>, NoMemory>
    ensures { IfOk result (λ x. x ≡ in_documents (length bytes.now) 0 name.now bytes.now) }
{
    let mut rest = bytes;
    'documents: for i in 0..bytes.len() {
        if rest.is_empty() {
            return Ok(None);
        }
        let (document, after) = split_part(rest);
        let found = foreign_in_item(alloc, name, i, document)?;
        if found.is_some() {
            return Ok(found);
        }
        rest = after;
    }
    Ok(None)
}

/// In a section of this kind.
fn in_section(alloc: Global, kind: u8, bytes: &[u8]) -> Result<Option<Foreign>, NoMemory>
    ensures { IfOk result (λ x. x ≡ in_section kind bytes.now) }
{
    if kind == 0 {
        return foreign_in(alloc, Place::new(alloc), bytes);
    }
    let (_, inside) = bytes.split_at(bytes.len().min(4));
    match read_name(inside) {
        Ok((name, documents)) => in_documents(alloc, name, documents),
        Err(_) => Ok(None),
    }
}

/// The first such value in the sections of a message.
pub(crate) fn foreign_in_sections(alloc: Global, bytes: &[u8]) -> Result<Option<Foreign>, NoMemory>
    ensures { IfOk result (λ x. x ≡ foreign_in_sections bytes.now) }
{
    let mut rest = bytes;
    'sections: for _step in 0..bytes.len() {
        let Some((kind, after)) = rest.split_first() else {
            return Ok(None);
        };
        let (part, after) = split_part(after);
        let found = in_section(alloc, *kind, part)?;
        if found.is_some() {
            return Ok(found);
        }
        rest = after;
    }
    Ok(None)
}
