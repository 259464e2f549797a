//! What a file holds, as a check of it tells.

ghost use Rattle.std.specs.Prelude.{◌≡◌, ◌+◌, Err, IfSome, map};
ghost use Rattle.engine.specs.Checking.{ChecksFile};
ghost use Rattle.opening.specs.Totals.{total_indexes};
ghost use Rattle.engine.specs.Durable.{IsSound, disk_history};
ghost use Rattle.engine.specs.Troubles.{MetNoFailure};
ghost use Rattle.engine.specs.declared.check_fault.CheckFault.TheVariants as faults;
ghost use Rattle.page.specs.History.{KeepsWord};
ghost use Rattle.opening.specs.Loading.{named_as};

use crate::check_fault::CheckFault;
use crate::engine::Engine;
use crate::troubles::{told_fault, troubles_of};
use opening::{GhostState, Named, load_file};
use page::Disk;

/// How much a file holds.
#[derive(Clone, Copy, Debug, PartialEq, Eq)]
pub struct Counts {
    /// The number of the last commit.
    pub generation: u64,
    /// How many collections there are.
    pub collections: usize,
    /// How many documents they have.
    pub documents: u64,
    /// How many indexes they have, with the one on `_id` of each.
    pub indexes: u64,
    /// How many pages the file has, with the one of its roots.
    pub pages: u32,
    /// How many of them nothing reaches.
    pub free: u32,
}

/// How many indexes these collections have, with the one on `_id` of each, as far as a u64 counts.
fn count_indexes(names: &[Named]) -> Option<u64>
    ensures { IfSome result (λ n. n ≡ total_indexes (map named_as names.now)) }
{
    let mut count: u64 = 0;
    'names: for name in names {
        let more = count.checked_add(1)?;
        count = more.checked_add(name.indexes.len() as u64)?;
    }
    Some(count)
}

impl<D: Disk> Engine<D> {
    /// Looks through the whole file and counts what it holds: each page of the committed tree is read from the disk and judged,
    /// then each entry, and no more than a batch of them is held. Documents and entries of indexes agree. `Damaged` where
    /// something of it is wrong, `Memory` where memory ran out and no read failed. The file is only read.
    pub fn check(&mut self) -> Result<Counts, CheckFault>
        requires sound { IsSound D.history self.old }
        ensures checks { ChecksFile D.history result self.old self.new }
        ensures memory { KeepsWord (disk_history D.history self.new) → result ≡ Err faults.Memory
            → MetNoFailure D.history self.old self.new }
    {
        let before = troubles_of(&self.file);
        match self.look_through() {
            Ok(counts) => Ok(counts),
            Err(fault) => Err(told_fault(fault, before, troubles_of(&self.file))),
        }
    }

    /// The same, but for what is told where memory ran out.
    fn look_through(&mut self) -> Result<Counts, CheckFault>
        requires sound { IsSound D.history self.old }
        ensures { ChecksFile D.history result self.old self.new }
    {
        if self.file.is_stopped() {
            return Err(CheckFault::Device);
        }
        let generation = self.file.generation();
        let pages = self.file.count_pages()?;
        let mut told = GhostState::of(&());
        let loading = load_file(self.alloc, &mut self.file, &mut told)?;
        let Some(indexes) = count_indexes(&loading.names) else {
            return Err(CheckFault::Memory);
        };
        Ok(Counts {
            generation,
            collections: loading.names.len(),
            documents: loading.documents,
            indexes,
            pages: pages.pages,
            free: pages.free,
        })
    }
}
