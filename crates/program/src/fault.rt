//! Why the program ends early, and with which status.

use op_msg::FrameFault;
use program_words::WordsFault;
use roots::OpenFault;
use server::CheckFault;
use shell::ShellFault;
use sockets::ServeFault;
use thiserror::Error;

/// Why the program ended before its input did.
#[derive(Debug, Drop, Error)]
pub enum ProgramFault {
    /// The words ask for no program that there is, or for help.
    #[error("Usage")]
    Usage,
    /// The file can't be opened as a database.
    #[error("{}", .0.name())]
    Open(OpenFault),
    /// Another process has the file open.
    #[error("Locked")]
    Locked,
    /// Memory ran out.
    #[error("Memory")]
    Memory,
    /// Reading the input or writing the output failed.
    #[error("Device")]
    Device,
    /// A write or a sync of the file failed.
    #[error("Stopped")]
    Stopped,
    /// The port can't be listened on, or no connection can be taken from it.
    #[error("Accept")]
    Accept,
    /// The input has a fault of a frame.
    #[error("{}", .0.name())]
    Frame(FrameFault),
    /// The file was not looked through to its end.
    #[error("{}", .0.name())]
    Check(CheckFault),
    /// A command was refused, or a line is no document.
    #[error("{}", .0)]
    Shell(ShellFault),
}

impl ProgramFault {
    /// The status with which the program ends.
    pub fn status(&self) -> u8 {
        match self {
            ProgramFault::Usage => 2,
            ProgramFault::Open(_)
            | ProgramFault::Locked
            | ProgramFault::Memory
            | ProgramFault::Device
            | ProgramFault::Stopped
            | ProgramFault::Accept
            | ProgramFault::Frame(_)
            | ProgramFault::Check(_)
            | ProgramFault::Shell(_) => 1,
        }
    }
}

impl From<WordsFault> for ProgramFault {
    fn from(fault: WordsFault) -> ProgramFault {
        match fault {
            WordsFault::Usage => ProgramFault::Usage,
            WordsFault::Memory => ProgramFault::Memory,
        }
    }
}

impl From<ServeFault> for ProgramFault {
    fn from(fault: ServeFault) -> ProgramFault {
        match fault {
            ServeFault::Accept => ProgramFault::Accept,
            ServeFault::Stopped => ProgramFault::Stopped,
        }
    }
}

impl From<CheckFault> for ProgramFault {
    fn from(fault: CheckFault) -> ProgramFault {
        ProgramFault::Check(fault)
    }
}

impl From<ShellFault> for ProgramFault {
    fn from(fault: ShellFault) -> ProgramFault {
        match fault {
            ShellFault::Memory => ProgramFault::Memory,
            ShellFault::Device => ProgramFault::Device,
            ShellFault::Stopped => ProgramFault::Stopped,
            other => ProgramFault::Shell(other),
        }
    }
}
