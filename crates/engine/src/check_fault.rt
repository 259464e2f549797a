//! Why a file is not looked through.

ghost use Rattle.std.specs.Prelude.{◌≡◌};
ghost use Rattle.engine.specs.CheckFaults.{check_fault, check_fault_name, reading_fault};
ghost use Rattle.engine.specs.declared.check_fault.CheckFault.TheVariants as faults;

use path::Refusal;
use roots::OpenFault;
use std::alloc::AllocError;

/// Why the file is not looked through to its end.
#[derive(Clone, Copy, Debug, PartialEq, Eq)]
pub enum CheckFault {
    /// The device failed, or had failed before.
    Device = 1,
    /// Memory ran out.
    Memory,
    /// A page is not sound, or what the pages hold is no database.
    Damaged,
    /// A collection that is not there.
    NamespaceNotFound,
}

impl CheckFault {
    /// The name of the fault, as programs print it.
    pub fn name(self) -> &'static str
        ensures { result.now ≡ check_fault_name self }
    {
        match self {
            CheckFault::Device => "Device",
            CheckFault::Memory => "Memory",
            CheckFault::Damaged => "Damaged",
            CheckFault::NamespaceNotFound => "NamespaceNotFound",
        }
    }
}

/// The fault that a refusal to read is. Reading asks for no free page, so it is never full.
impl From<Refusal> for CheckFault {
    ghost from_gives = { λ refusal fault. fault ≡ check_fault refusal };

    fn from(refusal: Refusal) -> CheckFault {
        match refusal {
            Refusal::OutOfMemory => CheckFault::Memory,
            Refusal::Full => CheckFault::Memory,
            _ => CheckFault::Device,
        }
    }
}

/// The fault that a refusal to read the file's pages or its entries is.
impl From<OpenFault> for CheckFault {
    ghost from_gives = { λ refusal fault. fault ≡ reading_fault refusal };

    fn from(refusal: OpenFault) -> CheckFault {
        match refusal {
            OpenFault::Device => CheckFault::Device,
            OpenFault::Memory => CheckFault::Memory,
            _ => CheckFault::Damaged,
        }
    }
}

impl From<AllocError> for CheckFault {
    ghost from_gives = { λ _ fault. fault ≡ faults.Memory };

    fn from(_error: AllocError) -> CheckFault {
        CheckFault::Memory
    }
}
