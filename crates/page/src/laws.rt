//! Laws of the definitions, and the numbers that this crate fixes.
ghost use Rattle.std.specs.Prelude.{◌≡◌};
ghost use Rattle.page.specs.Numbers.{file_fault_number, page_fault_number};
ghost use Rattle.page.specs.PageLaws.{ReadsBack};

use crate::{CHAIN_BYTES, FileFault, PAGE_BYTES, PageFault};

/// A page has 4,096 bytes, and one of a chain holds 4,076.
pub fn constants()
    ensures { (PAGE_BYTES ≡ 4096) × (CHAIN_BYTES ≡ 4076) }
{}

/// The number of a fault of a page, from 1 in the order in which they are looked for, but Length before Order.
pub fn page_fault_number(fault: PageFault) -> u8
    ensures { result ≡ page_fault_number fault }
{
    fault as u8
}

/// The number of a fault of opening a file.
pub fn file_fault_number(fault: FileFault) -> u8
    ensures { result ≡ file_fault_number fault }
{
    fault as u8
}

/// A page that is written is read back, under any root from its own generation on.
pub fn reads_back()
    ensures { ReadsBack }
{}
