//! Why a text is no document, and where.

ghost use Rattle.std.specs.Prelude.{◌≡◌};
ghost use Rattle.ext_json.specs.Faults.{ext_json_fault_name};
ghost use Rattle.ext_json.specs.declared.fault.ExtJsonFault.TheVariants.{Memory};

use std::alloc::{AllocError, AllocFailed};

/// The first fault from the left, or that memory ran out.
#[derive(Clone, Copy, Debug, PartialEq, Eq)]
pub enum ExtJsonFault {
    /// The text is no JSON, or something stands behind its end.
    Syntax,
    /// The text is JSON of something else than an object.
    NotDocument,
    /// A number with a fraction or an exponent.
    Fraction,
    /// A whole number that its type doesn't hold.
    Range,
    /// A wrapper of a type that is not known here, as `$numberDouble`, or a binary of subtype 2.
    Unsupported,
    /// What stands in a wrapper, as `$oid`, is not of its form.
    Wrapper,
    /// A name with a zero byte.
    Name,
    /// A name that stood before in its document.
    Repeated,
    /// A document or an array at level 101.
    Deep,
    /// Memory ran out.
    Memory,
}

impl ExtJsonFault {
    /// The fault's word.
    pub fn name(self) -> &'static str
        ensures { result.now ≡ ext_json_fault_name self }
    {
        match self {
            ExtJsonFault::Syntax => "Syntax",
            ExtJsonFault::NotDocument => "NotDocument",
            ExtJsonFault::Fraction => "Fraction",
            ExtJsonFault::Range => "Range",
            ExtJsonFault::Unsupported => "Unsupported",
            ExtJsonFault::Wrapper => "Wrapper",
            ExtJsonFault::Name => "Name",
            ExtJsonFault::Repeated => "Repeated",
            ExtJsonFault::Deep => "Deep",
            ExtJsonFault::Memory => "Memory",
        }
    }
}

impl From<AllocError> for ExtJsonFault {
    ghost from_gives = { λ _ e. e ≡ Memory };

    fn from(_e: AllocError) -> ExtJsonFault {
        ExtJsonFault::Memory
    }
}

impl<T: Drop> From<AllocFailed<T>> for ExtJsonFault {
    ghost from_gives = { λ _ e. e ≡ Memory };

    fn from(_e: AllocFailed<T>) -> ExtJsonFault {
        ExtJsonFault::Memory
    }
}

/// A fault with the place of the token that was read last: its line and its column, in characters, both from 1.
#[derive(Clone, Copy, Debug, PartialEq, Eq)]
pub struct FaultAt {
    pub fault: ExtJsonFault,
    pub line: usize,
    pub column: usize,
}
