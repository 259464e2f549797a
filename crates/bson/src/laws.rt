//! The numbers of faults and limits, as contracts.

ghost use Rattle.std.specs.Prelude.{◌≡◌};
ghost use Rattle.bson.specs.Faults.{build_fault_number, encode_fault_number};

use crate::fault::{BuildFault, EncodeFault};
use crate::{MESSAGE_LIMIT, MOST_LEVELS};

/// The limits, as numbers.
pub fn limits()
    ensures message { MESSAGE_LIMIT ≡ 1048576 }
    ensures levels { MOST_LEVELS ≡ 100 }
{}

/// The number of a fault of building.
pub fn build_fault_number(fault: BuildFault) -> u8
    ensures { result ≡ build_fault_number fault }
{
    fault as u8
}

/// The number of a fault of writing.
pub fn encode_fault_number(fault: EncodeFault) -> u8
    ensures { result ≡ encode_fault_number fault }
{
    fault as u8
}
