//! A server over a new disk in memory: all that is said of a run holds there with no premise on the disk.

ghost use Rattle.std.specs.Prelude.{IfOk};
ghost use Rattle.server.specs.Anew.{RunsAnew};

use crate::drive::DriveOut;
use crate::step::Step;
use crate::turn::Core;
use page::MemDisk;
use roots::{Config, OpenFault};
use std::alloc::Global;

/// Opens a new disk in memory, and drives these steps over it. An `Err` hands the disk back: its opening found no memory.
pub fn run_anew(
    alloc: Global,
    config: Config,
    steps: &[Step],
) -> Result<(Core<MemDisk>, DriveOut), (MemDisk, OpenFault)>
    ensures { IfOk result (λ r. RunsAnew steps.now r.1 r.0) }
{
    match Core::open(alloc, MemDisk::new(alloc), config) {
        Ok(mut core) => {
            let out = core.drive(alloc, steps);
            Ok((core, out))
        }
        Err(refused) => Err(refused),
    }
}
