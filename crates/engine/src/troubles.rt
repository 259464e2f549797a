//! What else went wrong in a command for which memory ran out.

ghost use Rattle.std.specs.Prelude.{◌≡◌};
ghost use Rattle.collections.specs.View.{pages_of};
ghost use Rattle.engine.specs.Troubles.{Tells, TellsFault};

use crate::check_fault::CheckFault;
use collections::Collections;
use page::Disk;
use path::Refusal;

/// How often a read of a file's device had failed, and a page was asked for and none was free.
#[derive(Clone, Copy)]
pub(crate) struct Troubles {
    failed_reads: u64,
    failed_allocations: u64,
}

/// Those of a file so far.
pub(crate) fn troubles_of<D: Disk>(file: &Collections<D>) -> Troubles
    ensures { let pages = pages_of D.history file.now in
        result ≡ record {
          failed_reads = pages.failed_reads;
          failed_allocations = pages.failed_allocations;
        } }
{
    Troubles {
        failed_reads: file.failed_reads(),
        failed_allocations: file.failed_allocations(),
    }
}

/// What a command is refused with between these moments of its file. Want of memory hides nothing: where the
/// device failed meanwhile, or no page was free, that is told.
pub(crate) fn told(refusal: Refusal, before: Troubles, now: Troubles) -> Refusal
    ensures { Tells refusal before now result }
{
    if refusal != Refusal::OutOfMemory {
        return refusal;
    }
    if before.failed_reads < now.failed_reads {
        return Refusal::StorageFailed;
    }
    if before.failed_allocations < now.failed_allocations {
        return Refusal::Full;
    }
    refusal
}

/// Why a look through a file ended between these moments of it, likewise.
pub(crate) fn told_fault(fault: CheckFault, before: Troubles, now: Troubles) -> CheckFault
    ensures { TellsFault fault before now result }
{
    if fault == CheckFault::Memory && before.failed_reads < now.failed_reads {
        CheckFault::Device
    } else {
        fault
    }
}
