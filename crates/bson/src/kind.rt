//! The kinds of values, each with its byte in BSON 1.1.

ghost use Rattle.std.specs.Prelude.{◌≡◌};
ghost use Rattle.bson.specs.Kinds.{kind_byte};

/// The kind of a value, by which its type byte is chosen.
#[derive(Clone, Copy, Debug, PartialEq, Eq)]
pub enum Kind {
    String,
    Document,
    Array,
    Binary,
    ObjectId,
    Bool,
    Date,
    Null,
    Int32,
    Timestamp,
    Int64,
    MinKey,
    MaxKey,
}

impl Kind {
    /// The byte that begins an element whose value is of this kind, by BSON 1.1.
    pub fn type_byte(self) -> u8
        ensures { result ≡ kind_byte self }
    {
        match self {
            Kind::String => 0x02,
            Kind::Document => 0x03,
            Kind::Array => 0x04,
            Kind::Binary => 0x05,
            Kind::ObjectId => 0x07,
            Kind::Bool => 0x08,
            Kind::Date => 0x09,
            Kind::Null => 0x0a,
            Kind::Int32 => 0x10,
            Kind::Timestamp => 0x11,
            Kind::Int64 => 0x12,
            Kind::MinKey => 0xff,
            Kind::MaxKey => 0x7f,
        }
    }
}
