//! Documents as the bytes that the file has.

ghost use Rattle.server.specs.Durable.{IsSound};

use crate::fault::ProgramFault;
use bson_bytes::SpelledDocument;
use page::Disk;
use server::{Core, Walk, dump_line};
use std::alloc::Global;
use std::io::Write;

/// Writes each document of a collection in lower case hexadecimal on a line of its own, in ascending order of `_id`.
pub(crate) fn dump<D: Disk>(
    alloc: Global,
    core: &mut Core<D>,
    namespace: &str,
    output: &mut impl Write,
) -> Result<(), ProgramFault>
    requires sound { IsSound D.history core.old }
    ensures sound { IsSound D.history core.new }
{
    let mut walk = core.begin_dump(namespace)?;
    for _ in 0..u64::MAX {
        if !dump_some(alloc, core, &mut walk, output)? {
            break;
        }
    }
    match output.flush() {
        Ok(()) => Ok(()),
        Err(_) => Err(ProgramFault::Device),
    }
}

/// Writes the next documents of a walk. Whether there were any.
fn dump_some<D: Disk>(
    alloc: Global,
    core: &mut Core<D>,
    walk: &mut Walk,
    output: &mut impl Write,
) -> Result<bool, ProgramFault>
    requires sound { IsSound D.history core.old }
    ensures sound { IsSound D.history core.new }
{
    let documents = core.next_dumped(walk)?;
    write_lines(alloc, &documents, output)?;
    Ok(!documents.is_empty())
}

/// Writes documents, each on a line.
fn write_lines(
    alloc: Global,
    documents: &[SpelledDocument],
    output: &mut impl Write,
) -> Result<(), ProgramFault> {
    for document in documents {
        let Ok(line) = dump_line(alloc, document) else {
            return Err(ProgramFault::Memory);
        };
        if output.write_all(line.as_bytes()).is_err() || output.write_all(b"\n").is_err() {
            return Err(ProgramFault::Device);
        }
    }
    Ok(())
}
