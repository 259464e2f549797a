//! Values that hold no others, read.

ghost use Rattle.std.specs.Prelude.{◌≡◌, ℕ, ◌∷◌, [], List};
ghost use Rattle.bson.specs.Tree.{binary};
ghost use Rattle.bson.specs.View.{tree};
ghost use Rattle.outcome.specs.Outcome.{Gives, GivesExactly};
ghost use Rattle.bson_bytes.specs.declared.fault.BsonFault.TheVariants as faults;
ghost use Rattle.bson_bytes.specs.Decoding.{leaf, scalar_at, string_at, binary_at, object_id_at, boolean_at, date_at, int32_at, timestamp_at, int64_at, kind_of};

use crate::fault::BsonFault;
use crate::frames::{read_count, read_eight, read_fixed, read_four, read_text};
use bson::{Binary, Bytes, Kind, ObjectId, Subtype, Text, Value};
use std::alloc::Global;

/// The kind that a type byte of BSON 1.1 stands for, of those that this crate takes.
#[inline(always)]
#[tactic(auto, unfolding(crate::specs::Decoding::kind_of))]
pub(crate) fn read_kind(byte: u8) -> Result<Kind, BsonFault>
    ensures { GivesExactly (λ k. k) result (kind_of byte) }
{
    match byte {
        0x02 => Ok(Kind::String),
        0x03 => Ok(Kind::Document),
        0x04 => Ok(Kind::Array),
        0x05 => Ok(Kind::Binary),
        0x07 => Ok(Kind::ObjectId),
        0x08 => Ok(Kind::Bool),
        0x09 => Ok(Kind::Date),
        0x0a => Ok(Kind::Null),
        0x10 => Ok(Kind::Int32),
        0x11 => Ok(Kind::Timestamp),
        0x12 => Ok(Kind::Int64),
        0xff => Ok(Kind::MinKey),
        0x7f => Ok(Kind::MaxKey),
        _ => Err(BsonFault::TypeByte),
    }
}

#[tactic(auto, unfolding(crate::specs::Decoding::string_at))]
fn read_string(alloc: Global, bytes: &[u8]) -> Result<(Value, &[u8]), BsonFault>
    ensures { Gives faults.Memory (λ x. (tree x.0, x.1.now)) result (leaf (string_at bytes.now)) }
{
    let (text, rest) = read_text(bytes)?;
    Ok((Value::String(Text::from_str(alloc, text)?), rest))
}

/// A binary's subtype with its bytes.
#[tactic(auto, unfolding(crate::specs::Decoding::binary_at))]
pub(crate) fn read_body(bytes: &[u8]) -> Result<((Subtype, &[u8]), &[u8]), BsonFault>
    ensures { GivesExactly (λ x. (binary x.0.0 x.0.1.now, x.1.now)) result (binary_at bytes.now) }
{
    let (count, rest) = read_count(0, bytes)?;
    let (body, rest) = read_fixed(count + 1, rest)?;
    let Some((subtype, content)) = body.split_first() else {
        return Err(BsonFault::Length);
    };
    match Subtype::new(*subtype) {
        Some(subtype) => Ok(((subtype, content), rest)),
        None => Err(BsonFault::Subtype),
    }
}

fn read_binary(alloc: Global, bytes: &[u8]) -> Result<(Value, &[u8]), BsonFault>
    ensures { Gives faults.Memory (λ x. (tree x.0, x.1.now)) result (leaf (binary_at bytes.now)) }
{
    match read_body(bytes) {
        Ok(((subtype, content), rest)) => {
            let bytes = Bytes::from_slice(alloc, content)?;
            Ok((Value::Binary(Binary { subtype, bytes }), rest))
        }
        Err(fault) => Err(fault),
    }
}

#[tactic(auto, unfolding(crate::specs::Decoding::object_id_at, crate::specs::Decoding::fixed_at))]
fn read_object_id(bytes: &[u8]) -> Result<(Value, &[u8]), BsonFault>
    ensures { GivesExactly (λ x. (tree x.0, x.1.now)) result (leaf (object_id_at bytes.now)) }
{
    match bytes.split_first_chunk::<12>() {
        Some((id, rest)) => Ok((Value::ObjectId(ObjectId::new(*id)), rest)),
        None => Err(BsonFault::Length),
    }
}

#[tactic(auto, unfolding(crate::specs::Decoding::boolean_at))]
pub(crate) fn read_bool(bytes: &[u8]) -> Result<(Value, &[u8]), BsonFault>
    ensures { GivesExactly (λ x. (tree x.0, x.1.now)) result (leaf (boolean_at bytes.now)) }
{
    match bytes {
        [] => Err(BsonFault::Length),
        [0, rest @ ..] => Ok((Value::Bool(false), rest)),
        [1, rest @ ..] => Ok((Value::Bool(true), rest)),
        [_, ..] => Err(BsonFault::Bool),
    }
}

#[tactic(auto, unfolding(crate::specs::Decoding::date_at))]
fn read_date(bytes: &[u8]) -> Result<(Value, &[u8]), BsonFault>
    ensures { GivesExactly (λ x. (tree x.0, x.1.now)) result (leaf (date_at bytes.now)) }
{
    let (eight, rest) = read_eight(bytes)?;
    Ok((Value::Date(i64::from_le_bytes(eight)), rest))
}

#[tactic(auto, unfolding(crate::specs::Decoding::int32_at))]
fn read_int32(bytes: &[u8]) -> Result<(Value, &[u8]), BsonFault>
    ensures { GivesExactly (λ x. (tree x.0, x.1.now)) result (leaf (int32_at bytes.now)) }
{
    let (four, rest) = read_four(bytes)?;
    Ok((Value::Int32(i32::from_le_bytes(four)), rest))
}

#[tactic(auto, unfolding(crate::specs::Decoding::timestamp_at))]
fn read_timestamp(bytes: &[u8]) -> Result<(Value, &[u8]), BsonFault>
    ensures { GivesExactly (λ x. (tree x.0, x.1.now)) result (leaf (timestamp_at bytes.now)) }
{
    let (eight, rest) = read_eight(bytes)?;
    Ok((Value::Timestamp(u64::from_le_bytes(eight)), rest))
}

#[tactic(auto, unfolding(crate::specs::Decoding::int64_at))]
fn read_int64(bytes: &[u8]) -> Result<(Value, &[u8]), BsonFault>
    ensures { GivesExactly (λ x. (tree x.0, x.1.now)) result (leaf (int64_at bytes.now)) }
{
    let (eight, rest) = read_eight(bytes)?;
    Ok((Value::Int64(i64::from_le_bytes(eight)), rest))
}

/// A value of a kind other than documents and arrays.
#[tactic(auto, unfolding(crate::specs::Decoding::scalar_at))]
pub(crate) fn read_scalar(
    alloc: Global,
    kind: Kind,
    bytes: &[u8],
) -> Result<(Value, &[u8]), BsonFault>
    ensures { Gives faults.Memory (λ x. (tree x.0, x.1.now)) result
        (leaf (scalar_at kind bytes.now)) }
{
    match kind {
        Kind::Document | Kind::Array => Err(BsonFault::TypeByte),
        Kind::String => read_string(alloc, bytes),
        Kind::Binary => read_binary(alloc, bytes),
        Kind::ObjectId => read_object_id(bytes),
        Kind::Bool => read_bool(bytes),
        Kind::Date => read_date(bytes),
        Kind::Null => Ok((Value::Null, bytes)),
        Kind::Int32 => read_int32(bytes),
        Kind::Timestamp => read_timestamp(bytes),
        Kind::Int64 => read_int64(bytes),
        Kind::MinKey => Ok((Value::MinKey, bytes)),
        Kind::MaxKey => Ok((Value::MaxKey, bytes)),
    }
}
