//! Why a document was not built or written.

ghost use Rattle.std.specs.Prelude.{◌≡◌};
ghost use Rattle.bson.specs.Faults.{build_fault_name, encode_fault_name};
ghost use Rattle.bson.specs.declared.fault.BuildFault.TheVariants as build;
ghost use Rattle.bson.specs.declared.fault.EncodeFault.TheVariants as encode;

use std::alloc::{AllocError, AllocFailed};

/// What a call answers that needs memory and nothing else.
pub type NoMemory = AllocError;

/// Why a pair or an item was not added.
#[derive(Clone, Copy, Debug, PartialEq, Eq)]
pub enum BuildFault {
    /// The name has a zero byte.
    Name = 1,
    /// The name stands in the document.
    Repeated,
    /// There would be more than 100 levels.
    Deep,
    /// Memory ran out.
    Memory,
}

impl BuildFault {
    /// The fault's word.
    pub fn name(self) -> &'static str
        ensures { result.now ≡ build_fault_name self }
    {
        match self {
            BuildFault::Name => "Name",
            BuildFault::Repeated => "Repeated",
            BuildFault::Deep => "Deep",
            BuildFault::Memory => "Memory",
        }
    }
}

impl From<AllocError> for BuildFault {
    ghost from_gives = { λ _ e. e ≡ build.Memory };

    fn from(_e: AllocError) -> BuildFault {
        BuildFault::Memory
    }
}

impl<T: Drop> From<AllocFailed<T>> for BuildFault {
    ghost from_gives = { λ _ e. e ≡ build.Memory };

    fn from(_e: AllocFailed<T>) -> BuildFault {
        BuildFault::Memory
    }
}

/// Why a document was not written.
#[derive(Clone, Copy, Debug, PartialEq, Eq)]
pub enum EncodeFault {
    /// It has more bytes than a message may hold.
    TooLarge = 1,
    /// Memory ran out.
    Memory,
}

impl EncodeFault {
    /// The fault's word.
    pub fn name(self) -> &'static str
        ensures { result.now ≡ encode_fault_name self }
    {
        match self {
            EncodeFault::TooLarge => "TooLarge",
            EncodeFault::Memory => "Memory",
        }
    }
}

impl From<AllocError> for EncodeFault {
    ghost from_gives = { λ _ e. e ≡ encode.Memory };

    fn from(_e: AllocError) -> EncodeFault {
        EncodeFault::Memory
    }
}

impl<T: Drop> From<AllocFailed<T>> for EncodeFault {
    ghost from_gives = { λ _ e. e ≡ encode.Memory };

    fn from(_e: AllocFailed<T>) -> EncodeFault {
        EncodeFault::Memory
    }
}
