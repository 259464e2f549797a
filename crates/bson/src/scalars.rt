//! Values that hold no others, written.

ghost use Rattle.bson.specs.View.{tree};
ghost use Rattle.bson.specs.Lawful.{IsLeaf};
ghost use Rattle.bson.specs.Tree.{text, binary};
ghost use Rattle.bson.specs.Spelling.{scalar_bytes, tree_bytes};
ghost use Rattle.bson.specs.Writing.{Puts, IsFront};

use crate::MESSAGE_LIMIT;
use crate::binary::Subtype;
use crate::fault::EncodeFault;
use crate::numbers::{put_u32, put_u64};
use crate::value::Value;

/// Puts the bytes of a string behind what stands in `out`, as the value of an element.
pub fn put_string(out: &mut Vec<u8>, string: &str) -> Result<(), EncodeFault>
    ensures puts { Puts (scalar_bytes (text string.now)) out.old.items out.new.items result }
    ensures front { IsFront out.old.items out.new.items }
{
    if MESSAGE_LIMIT - 5 < string.len() {
        return Err(EncodeFault::TooLarge);
    }
    put_u32(out, string.len() as u32 + 1)?;
    out.extend_from_slice(string.as_bytes())?;
    out.push(0)?;
    Ok(())
}

fn put_binary(out: &mut Vec<u8>, subtype: Subtype, content: &[u8]) -> Result<(), EncodeFault>
    ensures puts { Puts (scalar_bytes (binary subtype content.now))
        out.old.items out.new.items result }
    ensures front { IsFront out.old.items out.new.items }
{
    if MESSAGE_LIMIT - 5 < content.len() {
        return Err(EncodeFault::TooLarge);
    }
    put_u32(out, content.len() as u32)?;
    out.push(subtype.byte())?;
    out.extend_from_slice(content)?;
    Ok(())
}

/// Puts a value at the end that is no document and no array.
#[tactic(auto, unfolding(crate::specs::Spelling::tree_bytes))]
pub(crate) fn put_scalar(out: &mut Vec<u8>, value: &Value) -> Result<(), EncodeFault>
    requires { IsLeaf (tree value.now) }
    ensures puts { Puts (tree_bytes (tree value.now)) out.old.items out.new.items result }
    ensures front { IsFront out.old.items out.new.items }
{
    match value {
        Value::Document(_) | Value::Array(_) => unreachable!(),
        Value::String(text) => put_string(out, text.as_str()),
        Value::Binary(binary) => put_binary(out, binary.subtype, binary.bytes.as_slice()),
        Value::ObjectId(id) => Ok(out.extend_from_slice(id.bytes())?),
        Value::Bool(truth) => Ok(out.push(u8::from(*truth))?),
        Value::Int32(number) => Ok(put_u32(out, number.cast_unsigned())?),
        Value::Date(number) | Value::Int64(number) => Ok(put_u64(out, number.cast_unsigned())?),
        Value::Timestamp(number) => Ok(put_u64(out, *number)?),
        Value::Null | Value::MinKey | Value::MaxKey => Ok(()),
    }
}
