//! What a dump reads: the documents of a collection as their bytes, a few at a time.

ghost use Rattle.engine.specs.Dump.{BeginsDump, GoesOnDumping};
ghost use Rattle.std.specs.Prelude.{◌≡◌, Err};
ghost use Rattle.engine.specs.Durable.{IsSound, disk_history};
ghost use Rattle.engine.specs.Troubles.{MetNoFailure};
ghost use Rattle.engine.specs.declared.check_fault.CheckFault.TheVariants as faults;
ghost use Rattle.page.specs.History.{KeepsWord};

use crate::check_fault::CheckFault;
use crate::engine::Engine;
use crate::troubles::{told_fault, troubles_of};
use bson_bytes::SpelledDocument;
use collections::Walk;
use page::Disk;
use walks::BATCH;

impl<D: Disk> Engine<D> {
    /// A walk through the documents of the collection of a name, in ascending order of `_id`. `NamespaceNotFound` where there
    /// is none of this name, `Memory` where memory ran out and no read failed. The file is only read.
    pub fn dump(&mut self, namespace: &str) -> Result<Walk, CheckFault>
        requires sound { IsSound D.history self.old }
        ensures begins { BeginsDump D.history namespace.now result self.old self.new }
        ensures memory { KeepsWord (disk_history D.history self.new) → result ≡ Err faults.Memory
            → MetNoFailure D.history self.old self.new }
    {
        let before = troubles_of(&self.file);
        match self.walk_through(namespace) {
            Ok(walk) => Ok(walk),
            Err(fault) => Err(told_fault(fault, before, troubles_of(&self.file))),
        }
    }

    /// The same, but for what is told where memory ran out.
    fn walk_through(&mut self, namespace: &str) -> Result<Walk, CheckFault>
        requires sound { IsSound D.history self.old }
        ensures { BeginsDump D.history namespace.now result self.old self.new }
    {
        let Some(number) = self.number_of(namespace)? else {
            return Err(CheckFault::NamespaceNotFound);
        };
        if self.file.is_stopped() {
            return Err(CheckFault::Device);
        }
        Ok(self.file.walk(number)?)
    }

    /// The next documents of a walk, and none at its end. `Memory` where memory ran out and no read failed. The file is
    /// only read.
    pub fn next_dumped(&mut self, walk: &mut Walk) -> Result<Vec<SpelledDocument>, CheckFault>
        requires sound { IsSound D.history self.old }
        ensures goes_on { GoesOnDumping D.history walk.old walk.new result self.old self.new }
        ensures memory { KeepsWord (disk_history D.history self.new) → result ≡ Err faults.Memory
            → MetNoFailure D.history self.old self.new }
    {
        let before = troubles_of(&self.file);
        match self.walk_on(walk) {
            Ok(documents) => Ok(documents),
            Err(fault) => Err(told_fault(fault, before, troubles_of(&self.file))),
        }
    }

    /// The same, but for what is told where memory ran out.
    fn walk_on(&mut self, walk: &mut Walk) -> Result<Vec<SpelledDocument>, CheckFault>
        requires sound { IsSound D.history self.old }
        ensures { GoesOnDumping D.history walk.old walk.new result self.old self.new }
    {
        Ok(self.file.next_spelled(walk, BATCH)?)
    }
}
