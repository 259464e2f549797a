//! Why a text is no path.

ghost use Rattle.std.specs.Prelude.{◌≡◌};
ghost use Rattle.path.specs.FaultNames.{path_fault_number, path_fault_name, fault_refusal};
ghost use Rattle.path.specs.declared.fault.PathFault.TheVariants.{Memory};

use crate::refusal::Refusal;
use std::alloc::{AllocError, AllocFailed};

/// The first of these that holds of the text, or that memory ran out.
#[derive(Clone, Copy, Debug, PartialEq, Eq)]
pub enum PathFault {
    /// The text is empty.
    Empty = 1,
    /// A part is empty.
    EmptyPart,
    /// A part begins with `$`.
    Dollar,
    /// The text has more than 255 bytes.
    TooLong,
    /// A part has a zero byte.
    Zero,
    /// Memory ran out.
    Memory,
}

impl PathFault {
    /// The fault's number.
    pub fn number(self) -> u8
        ensures { result ≡ path_fault_number self }
    {
        self as u8
    }

    /// The fault's word.
    pub fn name(self) -> &'static str
        ensures { result.now ≡ path_fault_name self }
    {
        match self {
            PathFault::Empty => "Empty",
            PathFault::EmptyPart => "EmptyPart",
            PathFault::Dollar => "Dollar",
            PathFault::TooLong => "TooLong",
            PathFault::Zero => "Zero",
            PathFault::Memory => "Memory",
        }
    }

    /// What a command with such a path is refused with.
    pub fn refusal(self) -> Refusal
        ensures { result ≡ fault_refusal self }
    {
        match self {
            PathFault::Empty | PathFault::EmptyPart => Refusal::EmptyFieldName,
            PathFault::Dollar => Refusal::DollarPrefixedFieldName,
            PathFault::TooLong | PathFault::Zero => Refusal::BadValue,
            PathFault::Memory => Refusal::OutOfMemory,
        }
    }
}

impl From<AllocError> for PathFault {
    ghost from_gives = { λ _ e. e ≡ Memory };

    fn from(_error: AllocError) -> PathFault {
        PathFault::Memory
    }
}

impl<T: Drop> From<AllocFailed<T>> for PathFault {
    ghost from_gives = { λ _ e. e ≡ Memory };

    fn from(_error: AllocFailed<T>) -> PathFault {
        PathFault::Memory
    }
}
