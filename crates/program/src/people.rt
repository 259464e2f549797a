//! The programs for people: documents and commands as Extended JSON.

ghost use Rattle.server.specs.Durable.{IsSound};

use crate::fault::ProgramFault;
use crate::in_process::Server;
use crate::terminal::{Progress, Terminal};
use page::Disk;
use program_words::{AskWords, ExportWords, ImportWords};
use shell::{Asked, ShellFault, ask, export, import};
use std::alloc::Global;
use std::io::{BufRead, BufReader, Read, Write};
use std::rt::Clock;

/// Asks the commands that the words have, or those in the lines of the input.
pub(crate) fn ask_all<D: Disk>(
    alloc: Global,
    server: &mut Server<D>,
    words: &AskWords,
    input: &mut impl Read,
    output: &mut impl Write,
) -> Result<(), ProgramFault>
    requires sound { IsSound D.history server.old.core }
    ensures sound { IsSound D.history server.new.core }
{
    let asked = Asked {
        database: &words.database,
        all: words.all,
        pretty: words.pretty,
    };
    let Ok(mut lines) = BufReader::new(alloc, input) else {
        return Err(ProgramFault::Memory);
    };
    Ok(ask(alloc, server, &asked, &words.commands, &mut lines, output)?)
}

/// Brings the documents of the input's lines in.
pub(crate) fn import_all<R: Clock, D: Disk>(
    rt: &R,
    alloc: Global,
    server: &mut Server<D>,
    words: &ImportWords,
    terminal: &Terminal,
    input: &mut impl Read,
    output: &mut impl Write,
    errors: &mut impl Write,
) -> Result<(), ProgramFault>
    requires sound { IsSound D.history server.old.core }
    ensures sound { IsSound D.history server.new.core }
{
    let Ok(mut lines) = BufReader::new(alloc, input) else {
        return Err(ProgramFault::Memory);
    };
    let imported = import_lines(rt, alloc, server, words, terminal, &mut lines, errors);
    drop(lines);
    let count = imported?;
    match writeln!(output, "{count} documents").and(output.flush()) {
        Ok(()) => Ok(()),
        Err(_) => Err(ProgramFault::Device),
    }
}

/// Brings the documents of lines in, and says how far it is. It gives how many they are.
fn import_lines<R: Clock, D: Disk>(
    rt: &R,
    alloc: Global,
    server: &mut Server<D>,
    words: &ImportWords,
    terminal: &Terminal,
    lines: &mut impl BufRead,
    errors: &mut impl Write,
) -> Result<u64, ShellFault>
    requires sound { IsSound D.history server.old.core }
    ensures sound { IsSound D.history server.new.core }
{
    let mut progress = Progress::new(rt, terminal, errors);
    let imported = import(alloc, server, &words.namespace, lines, &mut progress);
    progress.end();
    drop(progress);
    imported
}

/// Writes the documents of a collection as lines.
pub(crate) fn export_all<R: Clock, D: Disk>(
    rt: &R,
    alloc: Global,
    server: &mut Server<D>,
    words: &ExportWords,
    terminal: &Terminal,
    output: &mut impl Write,
    errors: &mut impl Write,
) -> Result<(), ProgramFault>
    requires sound { IsSound D.history server.old.core }
    ensures sound { IsSound D.history server.new.core }
{
    let mut progress = Progress::new(rt, terminal, errors);
    let exported = export(
        alloc,
        server,
        &words.namespace,
        words.canonical,
        output,
        &mut progress,
    );
    progress.end();
    exported?;
    match output.flush() {
        Ok(()) => Ok(()),
        Err(_) => Err(ProgramFault::Device),
    }
}
