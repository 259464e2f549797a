//! Why bytes are no page.

use std::alloc::AllocError;

/// Why bytes are no page that may stand there: the first of these that applies, but Length before Order.
#[derive(Clone, Copy, Debug, PartialEq, Eq)]
pub enum PageFault {
    /// The kind byte is that of no page, or the byte behind it isn't zero.
    Kind = 1,
    /// The page's own number is another, or its generation is 0 or above the root's.
    Number,
    /// Keys aren't ascending, or a page number is impossible.
    Order,
    /// A count or a length goes past the end, or the tail isn't zero.
    Length,
    /// The device failed.
    Device,
    /// Out of memory.
    Memory,
}

impl From<AllocError> for PageFault {
    ghost use Rattle.std.specs.Prelude.{◌≡◌};
    ghost use Rattle.page.specs.declared.page_fault.PageFault.TheVariants.{Memory};

    ghost from_gives = { λ _ e. e ≡ Memory };

    fn from(_error: AllocError) -> PageFault {
        PageFault::Memory
    }
}

impl PageFault {
    ghost use Rattle.std.specs.Prelude.{◌≡◌};
    ghost use Rattle.page.specs.FaultNames.{page_fault_name};

    /// The fault's name, as it is printed.
    pub fn name(self) -> &'static str
        ensures { result.now ≡ page_fault_name self }
    {
        match self {
            PageFault::Kind => "Kind",
            PageFault::Number => "Number",
            PageFault::Order => "Order",
            PageFault::Length => "Length",
            PageFault::Device => "Device",
            PageFault::Memory => "Memory",
        }
    }
}
