//! What a file holds, a line for each count.

ghost use Rattle.server.specs.Durable.{IsSound};

use crate::fault::ProgramFault;
use page::Disk;
use server::{Core, Counts};
use std::io::{self, Write};

/// Looks through the file and writes what it holds: the number of its last commit, its collections, documents, indexes with those
/// on `_id`, its pages, and those of them that are free.
pub(crate) fn check<D: Disk>(
    core: &mut Core<D>,
    output: &mut impl Write,
) -> Result<(), ProgramFault>
    requires sound { IsSound D.history core.old }
    ensures sound { IsSound D.history core.new }
{
    let counts = core.check()?;
    match write_counts(&counts, output) {
        Ok(()) => Ok(()),
        Err(_) => Err(ProgramFault::Device),
    }
}

/// Writes the counts, each on a line.
fn write_counts(counts: &Counts, output: &mut impl Write) -> io::Result<()> {
    let lines = [
        ("generation", counts.generation),
        ("collections", counts.collections as u64),
        ("documents", counts.documents),
        ("indexes", counts.indexes),
        ("pages", u64::from(counts.pages)),
        ("free", u64::from(counts.free)),
    ];
    for (name, count) in lines {
        writeln!(output, "{name} {count}")?;
    }
    output.flush()
}
