//! Values of types that the database doesn't have.

ghost use Rattle.std.specs.Prelude.{◌≡◌};
ghost use Rattle.driver_messages.specs.ForeignTypes.{foreign_of, text_before};

use bson::Text;

/// A type of BSON 1.1 that the database doesn't have.
#[derive(Clone, Copy, Debug, PartialEq, Eq)]
pub enum ForeignType {
    Double,
    Undefined,
    RegularExpression,
    DbPointer,
    JavaScript,
    Symbol,
    JavaScriptWithScope,
    Decimal,
}

impl ForeignType {
    /// What a refusal says before the place of such a value.
    pub fn text(self) -> &'static str
        ensures { result.now ≡ text_before self }
    {
        match self {
            ForeignType::Double => "docpage has no BSON type double (at '",
            ForeignType::Undefined => "docpage has no BSON type undefined (at '",
            ForeignType::RegularExpression => "docpage has no BSON type regex (at '",
            ForeignType::DbPointer => "docpage has no BSON type dbPointer (at '",
            ForeignType::JavaScript => "docpage has no BSON type javascript (at '",
            ForeignType::Symbol => "docpage has no BSON type symbol (at '",
            ForeignType::JavaScriptWithScope => {
                "docpage has no BSON type javascriptWithScope (at '"
            }
            ForeignType::Decimal => "docpage has no BSON type decimal (at '",
        }
    }
}

/// The type that a type byte of BSON 1.1 stands for, where it is one of these.
#[tactic(auto, unfolding(crate::specs::ForeignTypes::foreign_of))]
pub(crate) fn foreign_of(byte: u8) -> Option<ForeignType>
    ensures { result ≡ foreign_of byte }
{
    match byte {
        0x01 => Some(ForeignType::Double),
        0x06 => Some(ForeignType::Undefined),
        0x0b => Some(ForeignType::RegularExpression),
        0x0c => Some(ForeignType::DbPointer),
        0x0d => Some(ForeignType::JavaScript),
        0x0e => Some(ForeignType::Symbol),
        0x0f => Some(ForeignType::JavaScriptWithScope),
        0x13 => Some(ForeignType::Decimal),
        _ => None,
    }
}

/// Such a value: its type, and where it stands, as names with dots between them.
#[derive(Drop)]
pub struct Foreign {
    pub kind: ForeignType,
    pub path: Text,
}
