//! The documents of a collection, read beside all turns.

ghost use Rattle.std.specs.Prelude.{◌≡◌, ◌++◌, Err, map, string_bytes, IfOk, OnOk};
ghost use Rattle.engine.specs.Dump.{BeginsDump, GoesOnDumping};
ghost use Rattle.engine.specs.Durable.{disk_history};
ghost use Rattle.engine.specs.Troubles.{MetNoFailure};
ghost use Rattle.engine.specs.declared.check_fault.CheckFault.TheVariants as faults;
ghost use Rattle.page.specs.History.{KeepsWord};
ghost use Rattle.server.specs.Dump.{Dumps, ListsRest, dump_line, lines_in};
ghost use Rattle.server.specs.Durable.{IsSound};
ghost use Rattle.server.specs.View.{state};
ghost use Rattle.trusted_disk.specs.Trusting.{trusted_history};

use crate::turn::Core;
use bson_bytes::SpelledDocument;
use collections::Walk;
use engine::CheckFault;
use page::Disk;
use std::alloc::{AllocError, Global};

impl<D: Disk> Core<D> {
    /// The lines of a dump: each document of the collection of a name in lower case hexadecimal, in ascending order of `_id`.
    /// `NamespaceNotFound` where there is none of this name. The file is only read. The lines are more than twice as long
    /// as the documents; whoever can't hold them all asks for a walk.
    pub fn dump(&mut self, namespace: &str) -> Result<Vec<String>, CheckFault>
        requires sound { IsSound D.history self.old }
        ensures sound { IsSound D.history self.new }
        ensures same { state self.new ≡ state self.old }
        ensures dumps { Dumps (trusted_history D.history) namespace.now result
            self.old.engine self.new.engine }
    {
        let walk = self.begin_dump(namespace)?;
        self.list_rest(walk)
    }

    /// The lines of the documents that a walk has still to give.
    fn list_rest(&mut self, mut walk: Walk) -> Result<Vec<String>, CheckFault>
        requires sound { IsSound D.history self.old }
        ensures sound { IsSound D.history self.new }
        ensures same { state self.new ≡ state self.old }
        ensures lists { ListsRest (trusted_history D.history) walk result
            self.old.engine self.new.engine }
    {
        let alloc = self.allocator();
        let mut lines = Vec::new(alloc);
        'batches: for _ in 0..u64::MAX {
            let documents = self.next_dumped(&mut walk)?;
            if documents.is_empty() {
                return Ok(lines);
            }
            put_lines(alloc, &documents, &mut lines)?;
        }
        // No collection has so many documents.
        Err(CheckFault::Memory)
    }

    /// A walk through the documents of the collection of a name, in ascending order of `_id`. `NamespaceNotFound` where there
    /// is none of this name. The file is only read.
    pub fn begin_dump(&mut self, namespace: &str) -> Result<Walk, CheckFault>
        requires sound { IsSound D.history self.old }
        ensures sound { IsSound D.history self.new }
        ensures same { state self.new ≡ state self.old }
        ensures begins { BeginsDump (trusted_history D.history) namespace.now result
            self.old.engine self.new.engine }
        ensures memory { KeepsWord (disk_history (trusted_history D.history) self.new.engine)
            → result ≡ Err faults.Memory
            → MetNoFailure (trusted_history D.history) self.old.engine self.new.engine }
    {
        self.engine.dump(namespace)
    }

    /// The next documents of a walk, at most 64, and none at its end. The file is only read.
    pub fn next_dumped(&mut self, walk: &mut Walk) -> Result<Vec<SpelledDocument>, CheckFault>
        requires sound { IsSound D.history self.old }
        ensures sound { IsSound D.history self.new }
        ensures same { state self.new ≡ state self.old }
        ensures goes_on { GoesOnDumping (trusted_history D.history) walk.old walk.new result
            self.old.engine self.new.engine }
        ensures memory { KeepsWord (disk_history (trusted_history D.history) self.new.engine)
            → result ≡ Err faults.Memory
            → MetNoFailure (trusted_history D.history) self.old.engine self.new.engine }
    {
        self.engine.next_dumped(walk)
    }
}

/// The line of a document in a dump: its bytes in lower case hexadecimal.
pub fn dump_line(alloc: Global, document: &SpelledDocument) -> Result<String, AllocError>
    ensures { IfOk result (λ line. string_bytes line ≡ dump_line document.now) }
{
    hex::encode(alloc, document.bytes())
}

/// Puts the lines of documents behind others.
fn put_lines(
    alloc: Global,
    documents: &[SpelledDocument],
    lines: &mut Vec<String>,
) -> Result<(), AllocError>
    ensures { OnOk result (lines_in lines.new ≡ lines_in lines.old ++ map dump_line documents.now) }
{
    'documents: for document in documents {
        lines.push(dump_line(alloc, document)?)?;
    }
    Ok(())
}
