//! Why bytes are no document.

ghost use Rattle.std.specs.Prelude.{◌≡◌};
ghost use Rattle.bson_bytes.specs.Faults.{bson_fault_name};
ghost use Rattle.bson_bytes.specs.declared.fault.BsonFault.TheVariants.{Memory};

use std::alloc::{AllocError, AllocFailed};

/// The first fault from the left, or that memory ran out.
#[derive(Clone, Copy, Debug, PartialEq, Eq)]
pub enum BsonFault {
    /// The input ends before the document does.
    Truncated = 1,
    /// A length or a count is impossible or does not fit, or a document does not end with a zero.
    Length,
    /// A type byte that is not known.
    TypeByte,
    /// A string that is not UTF-8, or has no zero behind it.
    Text,
    /// A name that is not UTF-8, or has no zero behind it.
    Name,
    /// A name that stood before in its document.
    Repeated,
    /// A name in an array that is not the next index.
    ArrayName,
    /// A truth value that is neither 0 nor 1.
    Bool,
    /// A binary of subtype 2.
    Subtype,
    /// A document or an array at level 101.
    Deep,
    /// A document above the limit of a message.
    TooLarge,
    /// Memory ran out.
    Memory,
}

impl BsonFault {
    /// The fault's word.
    pub fn name(self) -> &'static str
        ensures { result.now ≡ bson_fault_name self }
    {
        match self {
            BsonFault::Truncated => "Truncated",
            BsonFault::Length => "Length",
            BsonFault::TypeByte => "TypeByte",
            BsonFault::Text => "Text",
            BsonFault::Name => "Name",
            BsonFault::Repeated => "Repeated",
            BsonFault::ArrayName => "ArrayName",
            BsonFault::Bool => "Bool",
            BsonFault::Subtype => "Subtype",
            BsonFault::Deep => "Deep",
            BsonFault::TooLarge => "TooLarge",
            BsonFault::Memory => "Memory",
        }
    }
}

impl From<AllocError> for BsonFault {
    ghost from_gives = { λ _ e. e ≡ Memory };

    fn from(_e: AllocError) -> BsonFault {
        BsonFault::Memory
    }
}

impl<T: Drop> From<AllocFailed<T>> for BsonFault {
    ghost from_gives = { λ _ e. e ≡ Memory };

    fn from(_e: AllocFailed<T>) -> BsonFault {
        BsonFault::Memory
    }
}
