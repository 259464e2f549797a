//! Values that hold no others, lent: their parts where they stand, in a `Value` or in bytes that spell one.

ghost use Rattle.std.specs.Prelude.{◌≡◌, option_map};
ghost use Rattle.bson.specs.Kinds.{scalar_kind};
ghost use Rattle.bson.specs.View.{tree};
ghost use Rattle.bson.specs.Lent.{scalar_in, scalar_of};

use crate::binary::Subtype;
use crate::kind::Kind;
use crate::value::Value;

/// A value that holds no other, whose parts are lent.
#[derive(Clone, Copy, Debug)]
pub enum RawScalar<'a> {
    /// A text, by its bytes.
    String(&'a [u8]),
    /// Bytes with a subtype.
    Binary(Subtype, &'a [u8]),
    /// An object id, by its bytes.
    ObjectId(&'a [u8]),
    Bool(bool),
    Date(i64),
    Null,
    Int32(i32),
    Timestamp(u64),
    Int64(i64),
    MinKey,
    MaxKey,
}

impl RawScalar<'_> {
    /// Which kind of value it is.
    pub fn kind(&self) -> Kind
        ensures { result ≡ scalar_kind (scalar_of self.now) }
    {
        match self {
            RawScalar::String(_) => Kind::String,
            RawScalar::Binary(_, _) => Kind::Binary,
            RawScalar::ObjectId(_) => Kind::ObjectId,
            RawScalar::Bool(_) => Kind::Bool,
            RawScalar::Date(_) => Kind::Date,
            RawScalar::Null => Kind::Null,
            RawScalar::Int32(_) => Kind::Int32,
            RawScalar::Timestamp(_) => Kind::Timestamp,
            RawScalar::Int64(_) => Kind::Int64,
            RawScalar::MinKey => Kind::MinKey,
            RawScalar::MaxKey => Kind::MaxKey,
        }
    }
}

impl Value {
    /// What it is, lent; `None` for a document and an array.
    pub fn scalar(&self) -> Option<RawScalar<'_>>
        ensures { option_map scalar_of result ≡ scalar_in (tree self.now) }
    {
        match self {
            Value::Document(_) | Value::Array(_) => None,
            Value::String(text) => Some(RawScalar::String(text.as_str().as_bytes())),
            Value::Binary(binary) => {
                Some(RawScalar::Binary(binary.subtype, binary.bytes.as_slice()))
            }
            Value::ObjectId(id) => Some(RawScalar::ObjectId(id.bytes())),
            Value::Bool(truth) => Some(RawScalar::Bool(*truth)),
            Value::Date(number) => Some(RawScalar::Date(*number)),
            Value::Null => Some(RawScalar::Null),
            Value::Int32(number) => Some(RawScalar::Int32(*number)),
            Value::Timestamp(number) => Some(RawScalar::Timestamp(*number)),
            Value::Int64(number) => Some(RawScalar::Int64(*number)),
            Value::MinKey => Some(RawScalar::MinKey),
            Value::MaxKey => Some(RawScalar::MaxKey),
        }
    }
}
