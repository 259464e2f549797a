//! What the file holds, counted beside all turns.

ghost use Rattle.std.specs.Prelude.{◌≡◌, Err};
ghost use Rattle.engine.specs.Checking.{ChecksFile};
ghost use Rattle.engine.specs.Durable.{disk_history};
ghost use Rattle.engine.specs.Troubles.{MetNoFailure};
ghost use Rattle.engine.specs.declared.check_fault.CheckFault.TheVariants as faults;
ghost use Rattle.page.specs.History.{KeepsWord};
ghost use Rattle.server.specs.Durable.{IsSound};
ghost use Rattle.server.specs.View.{state};
ghost use Rattle.trusted_disk.specs.Trusting.{trusted_history};

use crate::turn::Core;
use engine::{CheckFault, Counts};
use page::Disk;

impl<D: Disk> Core<D> {
    /// Looks through the whole file and counts what it holds: each page of the committed tree and each entry is read and judged, a
    /// batch at a time. `Damaged` where a page is none of such a file, or where documents and entries of indexes don't agree,
    /// `Memory` where memory ran out and no read failed. The file is only read.
    pub fn check(&mut self) -> Result<Counts, CheckFault>
        requires sound { IsSound D.history self.old }
        ensures sound { IsSound D.history self.new }
        ensures same { state self.new ≡ state self.old }
        ensures checks { ChecksFile (trusted_history D.history) result
            self.old.engine self.new.engine }
        ensures memory { KeepsWord (disk_history (trusted_history D.history) self.new.engine)
            → result ≡ Err faults.Memory
            → MetNoFailure (trusted_history D.history) self.old.engine self.new.engine }
    {
        self.engine.check()
    }
}
