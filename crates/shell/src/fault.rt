//! Why work at a terminal ended.

use crate::database::DatabaseFault;
use ext_json::ExtJsonFault;
use std::alloc::{AllocError, AllocFailed};
use std::fmt;
use std::fmt::{Display, Formatter};

/// A line of the input, or a command among the words, is no document.
#[derive(Clone, Copy, Debug, PartialEq, Eq)]
pub struct LineFault {
    /// Its number, from 1.
    pub line: u64,
    /// The column, from 1, where it is wrong.
    pub column: u64,
    /// What is wrong there.
    pub fault: ExtJsonFault,
}

/// Why work ended before its input did.
#[derive(Debug, Drop)]
pub enum ShellFault {
    /// Out of memory.
    Memory,
    /// Reading the input or writing the output failed.
    Device,
    /// A write or a sync of the file failed.
    Stopped,
    /// A command has more bytes than a message may have.
    TooLarge,
    /// A line is no document.
    Line(LineFault),
    /// A command was refused, with this name.
    Refused(String),
    /// A reply has not the form that its command wants.
    Reply,
}

impl Display for ShellFault {
    fn fmt<W: fmt::Write>(&self, f: &mut Formatter<W>) -> fmt::Result {
        match self {
            ShellFault::Memory => f.write_str("Memory"),
            ShellFault::Device => f.write_str("Device"),
            ShellFault::Stopped => f.write_str("Stopped"),
            ShellFault::TooLarge => f.write_str("TooLarge"),
            ShellFault::Line(at) => write!(
                f,
                "{} at line {}, column {}",
                at.fault.name(),
                at.line,
                at.column
            ),
            ShellFault::Refused(name) => f.write_str(name),
            ShellFault::Reply => f.write_str("Reply"),
        }
    }
}

impl From<DatabaseFault> for ShellFault {
    fn from(fault: DatabaseFault) -> ShellFault {
        match fault {
            DatabaseFault::TooLarge => ShellFault::TooLarge,
            DatabaseFault::Memory => ShellFault::Memory,
            DatabaseFault::Stopped => ShellFault::Stopped,
        }
    }
}

impl From<AllocError> for ShellFault {
    fn from(_error: AllocError) -> ShellFault {
        ShellFault::Memory
    }
}

impl<T: Drop> From<AllocFailed<T>> for ShellFault {
    fn from(_error: AllocFailed<T>) -> ShellFault {
        ShellFault::Memory
    }
}
