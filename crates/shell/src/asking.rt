//! Commands in Extended JSON, and their replies.

use crate::commands::{Namespace, get_more, run_in};
use crate::database::Database;
use crate::fault::{LineFault, ShellFault};
use crate::layout::laid_out;
use crate::lines::{Line, Lines};
use crate::replies::{batch_in, is_done, refusal};
use bson::Document;
use ext_json::{ExtJsonFault, FaultAt, read, write_relaxed};
use std::alloc::Global;
use std::io::{BufRead, Write};

/// How commands are asked.
#[derive(Clone, Copy, Debug)]
pub struct Asked<'a> {
    /// The database of a command that names none.
    pub database: &'a str,
    /// Whether a cursor is followed to its end.
    pub all: bool,
    /// Whether replies are laid out for people, on more than one line.
    pub pretty: bool,
}

/// Asks each command in turn and writes each reply, on a line of its own: the commands that are given, or, where none is, each
/// line of the input. Refused commands don't keep others from being asked; the fault at the end is then the first refusal. A
/// command that is no document ends it.
pub fn ask<D: Database>(
    alloc: Global,
    database: &mut D,
    asked: &Asked<'_>,
    commands: &[String],
    input: &mut impl BufRead,
    output: &mut impl Write,
) -> Result<(), ShellFault>
    requires sound { D.is_sound database.old }
    ensures sound { D.is_sound database.new }
{
    let mut session = Session {
        alloc,
        asked,
        refused: None,
    };
    if commands.is_empty() {
        session.ask_lines(database, input, output)?;
    } else {
        session.ask_words(database, commands, output)?;
    }
    match session.refused {
        Some(fault) => Err(fault),
        None => Ok(()),
    }
}

/// Commands that are asked one after the other.
#[derive(Drop)]
struct Session<'a> {
    alloc: Global,
    asked: &'a Asked<'a>,
    /// The first refusal.
    refused: Option<ShellFault>,
}

impl Session<'_> {
    /// Asks the commands that are given.
    fn ask_words<D: Database>(
        &mut self,
        database: &mut D,
        commands: &[String],
        output: &mut impl Write,
    ) -> Result<(), ShellFault>
        requires sound { D.is_sound database.old }
        ensures sound { D.is_sound database.new }
    {
        'commands: for command in commands {
            let line = Line {
                number: 1,
                text: command.as_bytes(),
            };
            self.ask_line(database, &line, output)?;
        }
        Ok(())
    }

    /// Asks each line of the input.
    fn ask_lines<D: Database>(
        &mut self,
        database: &mut D,
        input: &mut impl BufRead,
        output: &mut impl Write,
    ) -> Result<(), ShellFault>
        requires sound { D.is_sound database.old }
        ensures sound { D.is_sound database.new }
    {
        let mut lines = Lines::new(self.alloc, input);
        'lines: for _ in 0..u64::MAX {
            let Some(line) = lines.next()? else {
                break;
            };
            self.ask_line(database, &line, output)?;
        }
        Ok(())
    }

    /// Asks what a line says, if it says anything.
    fn ask_line<D: Database>(
        &mut self,
        database: &mut D,
        line: &Line<'_>,
        output: &mut impl Write,
    ) -> Result<(), ShellFault>
        requires sound { D.is_sound database.old }
        ensures sound { D.is_sound database.new }
    {
        if line.is_blank() {
            return Ok(());
        }
        let mut command = document_of(self.alloc, line)?;
        run_in(self.alloc, &mut command, self.asked.database)?;
        self.ask_command(database, command, output)
    }

    /// Asks a command, and follows its cursor where that is wanted.
    fn ask_command<D: Database>(
        &mut self,
        database: &mut D,
        mut command: Document,
        output: &mut impl Write,
    ) -> Result<(), ShellFault>
        requires sound { D.is_sound database.old }
        ensures sound { D.is_sound database.new }
    {
        'batches: for _ in 0..u64::MAX {
            let reply = database.reply(&command)?;
            self.print(&reply, output)?;
            match self.next_command(&reply)? {
                Some(next) => command = next,
                None => break,
            }
        }
        Ok(())
    }

    /// What is asked after a reply: the next batch of its cursor, where all are wanted.
    fn next_command(&mut self, reply: &Document) -> Result<Option<Document>, ShellFault> {
        if !is_done(reply) {
            if self.refused.is_none() {
                self.refused = Some(refusal(self.alloc, reply));
            }
            return Ok(None);
        }
        match batch_in(reply) {
            Some(batch) if self.asked.all && batch.cursor != 0 => {
                let from = Namespace::of(batch.namespace);
                Ok(Some(get_more(self.alloc, &from, batch.cursor)?))
            }
            _ => Ok(None),
        }
    }

    /// Writes a reply.
    fn print(&self, reply: &Document, output: &mut impl Write) -> Result<(), ShellFault> {
        let mut text = Vec::new(self.alloc);
        write_relaxed(&mut text, reply)?;
        if self.asked.pretty {
            let Ok(line) = str::from_utf8(&text) else {
                return Err(ShellFault::Reply);
            };
            text = laid_out(self.alloc, line)?;
        }
        text.push(b'\n')?;
        write_out(output, &text)
    }
}

/// The document that a line writes.
fn document_of(alloc: Global, line: &Line<'_>) -> Result<Document, ShellFault> {
    match read(alloc, line.as_str()?) {
        Ok(document) => Ok(document),
        Err(at) => Err(fault_at(line.number, at)),
    }
}

/// What ends the work where a line is no document.
pub(crate) fn fault_at(line: u64, at: FaultAt) -> ShellFault {
    match at.fault {
        ExtJsonFault::Memory => ShellFault::Memory,
        fault => ShellFault::Line(LineFault {
            line: line.saturating_add(at.line.saturating_sub(1) as u64),
            column: at.column as u64,
            fault,
        }),
    }
}

/// Writes bytes, so that who reads the output sees them now.
pub(crate) fn write_out(output: &mut impl Write, bytes: &[u8]) -> Result<(), ShellFault> {
    match output.write_all(bytes).and(output.flush()) {
        Ok(()) => Ok(()),
        Err(_) => Err(ShellFault::Device),
    }
}
