//! Why a stream has no message.

ghost use Rattle.std.specs.Prelude.{◌≡◌};
ghost use Rattle.op_msg.specs.Faults.{name_of};
ghost use Rattle.op_msg.specs.declared.fault.FrameFault.TheVariants.{Memory};

use std::alloc::AllocError;

/// The first fault at the front of a stream, by the rules of the MongoDB wire protocol for OP_MSG and this project's
/// limits. A wrong length shows as soon as its four bytes are there, any other fault with the whole message, and of
/// several faults of one message the one that stands first here comes. Section comes before TwoBodies and NoBody
/// wherever it stands in the message.
#[derive(Clone, Copy, Debug, PartialEq, Eq)]
pub enum FrameFault {
    /// A length under 26, or above the limit of a message.
    Length = 1,
    /// An opcode other than 2013, which is OP_MSG.
    Opcode,
    /// A flag among the low sixteen bits that is not known. (A reader has to refuse these, and reads over the high
    /// sixteen.)
    Flags,
    /// A checksum behind the sections, which is not supported.
    Checksum,
    /// A section of an unknown kind, a size or a length of a document that is under 5 or does not fit, or a name of a
    /// section without its zero, not in UTF-8, or standing twice.
    Section,
    /// No section that is a body.
    NoBody,
    /// More than one body.
    TwoBodies,
    /// Memory ran out. It is no fault of the stream, and it changes nothing.
    Memory,
}

impl FrameFault {
    /// The name of the fault, as programs print it.
    pub fn name(self) -> &'static str
        ensures { result.now ≡ name_of self }
    {
        match self {
            FrameFault::Length => "Length",
            FrameFault::Opcode => "Opcode",
            FrameFault::Flags => "Flags",
            FrameFault::Checksum => "Checksum",
            FrameFault::Section => "Section",
            FrameFault::NoBody => "NoBody",
            FrameFault::TwoBodies => "TwoBodies",
            FrameFault::Memory => "Memory",
        }
    }
}

impl From<AllocError> for FrameFault {
    ghost from_gives = { λ _ e. e ≡ Memory };

    fn from(_e: AllocError) -> FrameFault {
        FrameFault::Memory
    }
}
