//! Bytes as texts of digits: object ids, UUIDs, binaries.

ghost use Rattle.std.specs.Prelude.{◌≡◌};
ghost use Rattle.outcome.specs.Outcome.{Gives, GivesExactly};
ghost use Rattle.ext_json.specs.Encoded.{object_id_in, uuid_in, uuid_binary, byte_in, subtype_in, base64_in, binary_in};
ghost use Rattle.ext_json.specs.declared.fault.ExtJsonFault.TheVariants as faults;

use crate::fault::ExtJsonFault;
use base64::DecodeAllocError;
use base64::engine::general_purpose::STANDARD;
use bson::{Binary, Bytes, ObjectId, Subtype};
use std::alloc::Global;
use uuid::Uuid;

/// The object id of 24 hex digits.
#[tactic(auto, unfolding(crate::specs::Encoded::object_id_in))]
pub(crate) fn read_object_id(text: &str) -> Result<ObjectId, ExtJsonFault>
    ensures { GivesExactly (λ id. id) result (object_id_in text.now) }
{
    let mut bytes = [0; 12];
    match hex::decode_to_slice(text, &mut bytes) {
        Ok(()) => Ok(ObjectId::new(bytes)),
        Err(_) => Err(ExtJsonFault::Wrapper),
    }
}

/// The bytes of a UUID with hyphens.
#[tactic(auto, unfolding(crate::specs::Encoded::uuid_in))]
fn read_uuid_bytes(text: &str) -> Result<[u8; 16], ExtJsonFault>
    ensures { GivesExactly (λ bytes. bytes) result (uuid_in text.now) }
{
    if text.len() != 36 {
        return Err(ExtJsonFault::Wrapper);
    }
    match Uuid::parse_str(text) {
        Ok(id) => Ok(id.into_bytes()),
        Err(_) => Err(ExtJsonFault::Wrapper),
    }
}

/// The binary of subtype 4 that a UUID with hyphens is.
pub(crate) fn read_uuid(alloc: Global, text: &str) -> Result<Binary, ExtJsonFault>
    ensures { Gives faults.Memory (λ b. (b.subtype, b.bytes)) result (uuid_binary text.now) }
{
    let bytes = read_uuid_bytes(text)?;
    let Some(subtype) = Subtype::new(4) else {
        unreachable!();
    };
    Ok(Binary {
        subtype,
        bytes: Bytes::from_slice(alloc, &bytes)?,
    })
}

/// The byte of two hex digits, or of one.
#[tactic(auto, unfolding(crate::specs::Encoded::byte_in))]
fn read_byte(text: &str) -> Result<u8, ExtJsonFault>
    ensures { GivesExactly (λ byte. byte) result (byte_in text.now) }
{
    let digits = match text.as_bytes() {
        [low] => [b'0', *low],
        [high, low] => [*high, *low],
        _ => return Err(ExtJsonFault::Wrapper),
    };
    let mut byte = [0];
    match hex::decode_to_slice(&digits, &mut byte) {
        Ok(()) => Ok(byte[0]),
        Err(_) => Err(ExtJsonFault::Wrapper),
    }
}

/// The subtype that hex digits stand for.
#[tactic(auto, unfolding(crate::specs::Encoded::subtype_in))]
fn read_subtype(text: &str) -> Result<Subtype, ExtJsonFault>
    ensures { GivesExactly (λ subtype. subtype) result (subtype_in text.now) }
{
    let byte = read_byte(text)?;
    match Subtype::new(byte) {
        Some(subtype) => Ok(subtype),
        None => Err(ExtJsonFault::Unsupported),
    }
}

/// The bytes that a text in base 64 stands for.
#[tactic(auto, unfolding(crate::specs::Encoded::base64_in))]
fn read_base64(alloc: Global, text: &str) -> Result<Bytes, ExtJsonFault>
    ensures { Gives faults.Memory (λ bytes. bytes) result (base64_in text.now) }
{
    match STANDARD.decode(alloc, text.as_bytes()) {
        Ok(bytes) => Ok(Bytes::from_vec(bytes)),
        Err(DecodeAllocError::OutOfMemory) => Err(ExtJsonFault::Memory),
        Err(DecodeAllocError::DecodeError(_)) => Err(ExtJsonFault::Wrapper),
    }
}

/// The binary of a text in base 64 and a subtype in hex digits.
pub(crate) fn read_binary(alloc: Global, bytes: &str, subtype: &str) -> Result<Binary, ExtJsonFault>
    ensures { Gives faults.Memory (λ b. (b.subtype, b.bytes)) result
        (binary_in bytes.now subtype.now) }
{
    let subtype = read_subtype(subtype)?;
    let bytes = read_base64(alloc, bytes)?;
    Ok(Binary { subtype, bytes })
}
