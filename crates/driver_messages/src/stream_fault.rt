//! Why a socket has no message.

ghost use Rattle.std.specs.Prelude.{◌≡◌};
ghost use Rattle.driver_messages.specs.declared.stream_fault.StreamFault.TheVariants as faults;

use op_msg::FrameFault;
use std::alloc::AllocError;

/// Why a socket has no message.
#[derive(Clone, Copy, Debug, PartialEq, Eq)]
pub enum StreamFault {
    /// A length that no message has.
    Length,
    /// An opcode other than those of OP_MSG and OP_QUERY.
    Opcode,
    /// Something else that no OP_MSG has.
    Frame(FrameFault),
    /// Something else that no OP_QUERY has.
    Query,
    /// Memory ran out. It is no fault of the stream, and it changes nothing.
    Memory,
}

impl From<AllocError> for StreamFault {
    ghost from_gives = { λ _ e. e ≡ faults.Memory };

    fn from(_e: AllocError) -> StreamFault {
        StreamFault::Memory
    }
}
