//! Why a list was not read.
ghost use Rattle.std.specs.Prelude.{◌≡◌};

use std::alloc::AllocError;

/// Why a list of free pages was not read.
#[derive(Clone, Copy, Debug, PartialEq, Eq)]
pub enum ListFault {
    /// The device failed.
    Device,
    /// A growth was refused.
    Memory,
    /// The pages are no such list: one of them is no page of a list, a number is none of a page of the file or stands
    /// there twice, or another number of pages is named than was said.
    Damaged,
}

impl From<AllocError> for ListFault {
    ghost use Rattle.freelist.specs.declared.list_fault.ListFault.TheVariants.{Memory};

    ghost from_gives = { λ _ e. e ≡ Memory };

    fn from(_error: AllocError) -> ListFault {
        ListFault::Memory
    }
}
