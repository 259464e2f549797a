//! Documents as bytes.

ghost use Rattle.std.specs.Prelude.{◌≡◌, ℕ, ◌+◌, ◌-◌, ◌<◌, ◌≤◌, ◌++◌, ◌∷◌, [], List, length, take, drop, OnOk, OnErr, IfOk, IsErrOf};
ghost use Rattle.std.specs.Int.{w32, to_le_bytes};
ghost use Rattle.bson.specs.View.{tree};
ghost use Rattle.bson.specs.Limits.{message_limit};
ghost use Rattle.bson.specs.Spelling.{Spells, tree_bytes, pairs_bytes, items_bytes, frame_of};
ghost use Rattle.bson.specs.Writing.{Puts, Fills, IsFront};

use crate::MESSAGE_LIMIT;
use crate::fault::EncodeFault;
use crate::scalars::put_scalar;
use crate::value::{Array, Document, Value};
use byteorder::{ByteOrder, LittleEndian};
use itoa::Buffer;
use std::alloc::{AllocError, Global};

fn write_number(bytes: &mut [u8], start: usize, number: u32)
    requires { start + 4 ≤ length bytes.old }
    ensures { bytes.new
        ≡ take start bytes.old ++ (to_le_bytes w32 number ++ drop (start + 4) bytes.old) }
{
    LittleEndian::write_u32(&mut bytes[start..], number);
}

/// Writes the length of what stands from here on into its first four bytes.
pub(crate) fn fill_length(out: &mut Vec<u8>, start: usize) -> Result<(), EncodeFault>
    requires { start + 4 ≤ length out.old.items }
    ensures fills { Fills start out.old.items out.new.items result }
    ensures err { OnErr result (out.new.items ≡ out.old.items) }
{
    let len = out.len() - start;
    if MESSAGE_LIMIT < len {
        return Err(EncodeFault::TooLarge);
    }
    write_number(out, start, len as u32);
    Ok(())
}

/// Puts the bytes of a value behind what stands in `out`.
#[cycle(writing)]
#[tactic(auto, unfolding(crate::specs::Spelling::tree_bytes))]
pub fn put_value(out: &mut Vec<u8>, value: &Value) -> Result<(), EncodeFault>
    ensures puts { Puts (tree_bytes (tree value.now)) out.old.items out.new.items result }
    ensures front { IsFront out.old.items out.new.items }
{
    match value {
        Value::Document(document) => put_document(out, document),
        Value::Array(array) => put_array(out, array),
        _ => put_scalar(out, value),
    }
}

pub(crate) fn put_name(out: &mut Vec<u8>, type_byte: u8, name: &str) -> Result<(), AllocError>
    ensures ok { OnOk result
        (out.new.items ≡ out.old.items ++ (type_byte ∷ (name.now ++ 0 ∷ []))) }
    ensures front { IsFront out.old.items out.new.items }
{
    out.push(type_byte)?;
    out.extend_from_slice(name.as_bytes())?;
    out.push(0)?;
    Ok(())
}

#[cycle(writing)]
fn put_document(out: &mut Vec<u8>, document: &Document) -> Result<(), EncodeFault>
    ensures puts { Puts (frame_of (pairs_bytes document.now)) out.old.items out.new.items result }
    ensures front { IsFront out.old.items out.new.items }
{
    let start = out.len();
    out.extend_from_slice(&[0; 4])?;
    'pairs: for pair in &document.pairs {
        put_name(out, pair.value.kind().type_byte(), pair.name.as_str())?;
        put_value(out, &pair.value)?;
    }
    out.push(0)?;
    fill_length(out, start)
}

#[cycle(writing)]
fn put_array(out: &mut Vec<u8>, array: &Array) -> Result<(), EncodeFault>
    ensures puts { Puts (frame_of (items_bytes 0 array.now)) out.old.items out.new.items result }
    ensures front { IsFront out.old.items out.new.items }
{
    let start = out.len();
    out.extend_from_slice(&[0; 4])?;
    'items: for (i, item) in array.items.iter().enumerate() {
        let mut buffer = Buffer::new();
        put_name(out, item.kind().type_byte(), buffer.format(i))?;
        put_value(out, item)?;
    }
    out.push(0)?;
    fill_length(out, start)
}

/// Puts the bytes of a document behind what stands in `out`, where a message may hold them. So a frame and its
/// body are written into one vector.
pub fn encode_onto(out: &mut Vec<u8>, document: &Document) -> Result<(), EncodeFault>
    ensures ok { OnOk result
        (out.new.items ≡ out.old.items ++ frame_of (pairs_bytes document.now)) }
    ensures spells { OnOk result (Spells (frame_of (pairs_bytes document.now)) document.now) }
    ensures large { IsErrOf result EncodeFault.TooLarge
        → message_limit < length (frame_of (pairs_bytes document.now)) }
    ensures err { OnErr result (out.new.items ≡ out.old.items) }
{
    let _ = &document.pairs;
    let start = out.len();
    match put_document(out, document) {
        Ok(()) => Ok(()),
        Err(fault) => {
            out.truncate(start);
            Err(fault)
        }
    }
}

/// The bytes of a document, where a message may hold them.
pub fn encode(alloc: Global, document: &Document) -> Result<Vec<u8>, EncodeFault>
    ensures ok { IfOk result (λ v. Spells v.items document.now) }
    ensures large { IsErrOf result EncodeFault.TooLarge
        → message_limit < length (frame_of (pairs_bytes document.now)) }
{
    let mut out = Vec::with_capacity(alloc, document.encoded_len().min(MESSAGE_LIMIT))?;
    encode_onto(&mut out, document)?;
    Ok(out)
}
