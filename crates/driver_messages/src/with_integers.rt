//! A message with the whole doubles that are numbers of the command itself put as integers.

ghost use Rattle.std.specs.Prelude.{◌≡◌, ◌++◌, ◌∷◌, [], take, drop, IfOk, OnOk};
ghost use Rattle.std.specs.Fmt.{decimal};
ghost use Rattle.driver_messages.specs.WithIntegers.{int64_element, elements_with, document_with, documents_with, sequence_with, section_with, sections_with, with_integers};
ghost use Rattle.bson_bytes.specs.Decoding.{name_at};

use crate::passing::{Passed, pass};
use crate::place::Place;
use crate::sections::split_part;
use crate::seeking::behind;
use bson::{Kind, NoMemory, put_head};
use bson_bytes::read_name;
use itoa::Buffer;
use std::alloc::Global;

/// Puts an int64 with its name at the end of bytes.
fn put_int64(out: &mut Vec<u8>, name: &str, number: i64) -> Result<(), NoMemory>
    ensures { OnOk result (out.new.items ≡ out.old.items ++ int64_element name.now number) }
{
    put_head(out, Kind::Int64, name)?;
    out.extend_from_slice(&number.cast_unsigned().to_le_bytes())?;
    Ok(())
}

/// Puts the first so many bytes at the end of others, all where there are fewer, and gives those behind them.
fn put_front<'a>(out: &mut Vec<u8>, bytes: &'a [u8], count: usize) -> Result<&'a [u8], NoMemory>
    ensures put { OnOk result (out.new.items ≡ out.old.items ++ take count bytes.now) }
    ensures rest { IfOk result (λ rest. rest.now ≡ drop count bytes.now) }
{
    let (front, rest) = bytes.split_at(count.min(bytes.len()));
    out.extend_from_slice(front)?;
    Ok(rest)
}

/// Puts what is left of the document at a place at the end of bytes.
fn put_elements<'a>(
    out: &mut Vec<u8>,
    mut place: Place<'a>,
    bytes: &'a [u8],
    most: usize,
) -> Result<(), NoMemory>
    ensures { OnOk result
        (out.new.items ≡ out.old.items ++ elements_with most place.entry bytes.now) }
{
    let mut rest = bytes;
    'steps: for _step in 0..most {
        match pass(&mut place, rest)? {
            Passed::Kept(count) => rest = put_front(out, rest, count)?,
            Passed::Integer(name, number) => {
                put_int64(out, name, number)?;
                rest = behind(rest, name.len() + 10);
            }
            Passed::Ended => {
                out.extend_from_slice(rest)?;
                return Ok(());
            }
        }
    }
    out.extend_from_slice(rest)?;
    Ok(())
}

/// Puts the document at a place, whose length stands in front, at the end of bytes.
fn put_document<'a>(out: &mut Vec<u8>, place: Place<'a>, bytes: &'a [u8]) -> Result<(), NoMemory>
    ensures { OnOk result (out.new.items ≡ out.old.items ++ document_with place.entry bytes.now) }
{
    let elements = put_front(out, bytes, 4)?;
    put_elements(out, place, elements, bytes.len())
}

/// Puts a document that is an item of an array of this name at the end of bytes.
fn put_item(out: &mut Vec<u8>, name: &str, i: usize, document: &[u8]) -> Result<(), NoMemory>
    ensures { OnOk result (out.new.items
        ≡ out.old.items ++ document_with (name.now ∷ decimal i ∷ []) document.now) }
{
    let mut buffer = Buffer::new();
    let mut place = Place::new(*out.allocator());
    place.enter(name)?;
    place.enter(buffer.format(i))?;
    put_document(out, place, document)
}

/// Puts documents one behind the other, which are items of an array of this name, at the end of bytes.
fn put_documents(out: &mut Vec<u8>, name: &str, bytes: &[u8], most: usize) -> Result<(), NoMemory>
    ensures { OnOk result
        (out.new.items ≡ out.old.items ++ documents_with most 0 name.now bytes.now) }
{
    let mut rest = bytes;
    'documents: for i in 0..most {
        if rest.is_empty() {
            return Ok(());
        }
        let (document, after) = split_part(rest);
        put_item(out, name, i, document)?;
        rest = after;
    }
    out.extend_from_slice(rest)?;
    Ok(())
}

/// Puts a section of documents at the end of bytes.
fn put_sequence(out: &mut Vec<u8>, bytes: &[u8]) -> Result<(), NoMemory>
    ensures { OnOk result
        (out.new.items ≡ out.old.items ++ sequence_with bytes.now (name_at (drop 4 bytes.now))) }
{
    match read_name(behind(bytes, 4)) {
        Ok((name, documents)) => {
            put_front(out, bytes, name.len() + 5)?;
            put_documents(out, name, documents, bytes.len())
        }
        Err(_) => {
            out.extend_from_slice(bytes)?;
            Ok(())
        }
    }
}

/// Puts a section of this kind at the end of bytes.
fn put_section(out: &mut Vec<u8>, kind: u8, bytes: &[u8]) -> Result<(), NoMemory>
    ensures { OnOk result (out.new.items ≡ out.old.items ++ section_with kind bytes.now) }
{
    if kind == 0 {
        let place = Place::new(*out.allocator());
        return put_document(out, place, bytes);
    }
    put_sequence(out, bytes)
}

/// Puts the sections of a message at the end of bytes.
fn put_sections(out: &mut Vec<u8>, bytes: &[u8], most: usize) -> Result<(), NoMemory>
    ensures { OnOk result (out.new.items ≡ out.old.items ++ sections_with most bytes.now) }
{
    let mut rest = bytes;
    'sections: for _step in 0..most {
        let Some((kind, after)) = rest.split_first() else {
            return Ok(());
        };
        let (part, after) = split_part(after);
        out.push(*kind)?;
        put_section(out, *kind, part)?;
        rest = after;
    }
    out.extend_from_slice(rest)?;
    Ok(())
}

/// The bytes of a command in which these doubles stand as integers.
pub(crate) fn command_with_integers(alloc: Global, bytes: &[u8]) -> Result<Vec<u8>, NoMemory>
    ensures { IfOk result (λ v. v.items ≡ document_with [] bytes.now) }
{
    let mut out = Vec::new(alloc);
    put_document(&mut out, Place::new(alloc), bytes)?;
    Ok(out)
}

/// The bytes of an OP_MSG in which these doubles stand as integers.
pub(crate) fn with_integers(alloc: Global, whole: &[u8]) -> Result<Vec<u8>, NoMemory>
    ensures { IfOk result (λ v. v.items ≡ with_integers whole.now) }
{
    let mut out = Vec::new(alloc);
    let sections = put_front(&mut out, whole, 20)?;
    put_sections(&mut out, sections, whole.len())?;
    Ok(out)
}
