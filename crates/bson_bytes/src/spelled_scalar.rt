//! A value that holds no other, lent out of the bytes that spell it.

ghost use Rattle.std.specs.Prelude.{◌≡◌, length, option_map};
ghost use Rattle.std.specs.Int.{w32, w64, from_le_bytes};
ghost use Rattle.bson_bytes.specs.Raw.{SpellsValue, value_spelled};
ghost use Rattle.bson.specs.Lent.{scalar_in, scalar_of};

use bson::{Kind, RawScalar, Subtype};

/// Four bytes as a number, the lowest first.
fn number_of_four(bytes: &[u8]) -> u32
    requires { length bytes.now ≡ 4 }
    ensures { result ≡ from_le_bytes w32 bytes.now }
{
    match bytes.first_chunk::<4>() {
        Some(four) => u32::from_le_bytes(*four),
        None => unreachable!(),
    }
}

/// Eight bytes as a number, the lowest first.
fn number_of_eight(bytes: &[u8]) -> u64
    requires { length bytes.now ≡ 8 }
    ensures { result ≡ from_le_bytes w64 bytes.now }
{
    match bytes.first_chunk::<8>() {
        Some(eight) => u64::from_le_bytes(*eight),
        None => unreachable!(),
    }
}

/// The value that bytes spell, all of them, where it is no document and no array. What was checked before isn't
/// checked again.
pub(crate) fn scalar_spelled(kind: Kind, bytes: &[u8]) -> Option<RawScalar<'_>>
    requires { SpellsValue kind bytes.now (value_spelled kind bytes.now) }
    ensures { option_map scalar_of result ≡ scalar_in (value_spelled kind bytes.now) }
{
    match kind {
        Kind::Document | Kind::Array => None,
        Kind::String => {
            let (_, counted) = bytes.split_at(4);
            let (text, _) = counted.split_at(counted.len() - 1);
            Some(RawScalar::String(text))
        }
        Kind::Binary => {
            let (_, content) = bytes.split_at(5);
            match Subtype::new(bytes[4]) {
                Some(subtype) => Some(RawScalar::Binary(subtype, content)),
                None => unreachable!(),
            }
        }
        Kind::ObjectId => Some(RawScalar::ObjectId(bytes)),
        Kind::Bool => Some(RawScalar::Bool(bytes[0] == 1)),
        Kind::Date => Some(RawScalar::Date(number_of_eight(bytes).cast_signed())),
        Kind::Null => Some(RawScalar::Null),
        Kind::Int32 => Some(RawScalar::Int32(number_of_four(bytes).cast_signed())),
        Kind::Timestamp => Some(RawScalar::Timestamp(number_of_eight(bytes))),
        Kind::Int64 => Some(RawScalar::Int64(number_of_eight(bytes).cast_signed())),
        Kind::MinKey => Some(RawScalar::MinKey),
        Kind::MaxKey => Some(RawScalar::MaxKey),
    }
}
