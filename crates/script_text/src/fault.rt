//! Why a test of a script ends.

use bson::{BuildFault, EncodeFault};
use bson_bytes::BsonFault;
use ext_json::{ExtJsonFault, FaultAt};
use std::alloc::{AllocError, AllocFailed, Global};

/// Why a line of a script is not what happens.
#[derive(Debug, Drop)]
pub enum Fault {
    /// Memory ran out here, and not in the server.
    Memory,
    /// The line is not of the form that scripts have.
    Form(&'static str),
    /// What came is not what the line says.
    Other(String),
    /// The server has stopped, since its device failed.
    Stopped,
    /// The server answered that the device failed, or that no page was free.
    Refused,
    /// The file isn't opened, or a check of it ends, for the fault of this name.
    File(&'static str),
}

impl From<AllocError> for Fault {
    fn from(_: AllocError) -> Fault {
        Fault::Memory
    }
}

impl<T: Drop> From<AllocFailed<T>> for Fault {
    fn from(_: AllocFailed<T>) -> Fault {
        Fault::Memory
    }
}

impl From<BuildFault> for Fault {
    fn from(fault: BuildFault) -> Fault {
        match fault {
            BuildFault::Memory => Fault::Memory,
            _ => Fault::Form("a document that can't be built"),
        }
    }
}

impl From<EncodeFault> for Fault {
    fn from(fault: EncodeFault) -> Fault {
        match fault {
            EncodeFault::Memory => Fault::Memory,
            EncodeFault::TooLarge => Fault::Form("a document longer than a message"),
        }
    }
}

impl From<BsonFault> for Fault {
    fn from(fault: BsonFault) -> Fault {
        match fault {
            BsonFault::Memory => Fault::Memory,
            _ => Fault::Form("bytes that are no document"),
        }
    }
}

impl From<FaultAt> for Fault {
    fn from(at: FaultAt) -> Fault {
        match at.fault {
            ExtJsonFault::Memory => Fault::Memory,
            _ => Fault::Form("a text that is no document"),
        }
    }
}

/// What was wanted, and what came.
pub fn differs(alloc: Global, wanted: &str, came: &str) -> Result<Fault, AllocError> {
    Ok(Fault::Other(format!(in alloc; "wanted {wanted}\n    came {came}")?))
}
