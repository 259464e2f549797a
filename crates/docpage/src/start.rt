//! The program `docpage`, over any reader and writers.

use crate::driver_ports::listen_to_drivers;
use program::{ProgramFault, Terminal, open_server, run_task};
use program_words::{Task, Words, help_for, read_words};
use std::fs::File;
use std::io::{Read, Write};
use std::net::{Net, TcpListener, TcpStream};
use std::rt::{Clock, Files};

/// Runs the program that the words ask for (the first word is the name under which it was started), and returns the
/// status with which it ends: 0, 1 for a fault, or 2 for `Usage`. A fault is printed on `errors` as `docpage: ` and its
/// name. Faults are looked for in the words, then in the file, then in the rest.
///
/// `serve FILE --port P --connections N --turns T` is `serve_on` over a port of 127.0.0.1. `listen FILE --port P
/// [--idle-seconds S]` answers every connection of the port that comes, 64 at a time, and ends where the server has stopped.
/// Both print `listening on 127.0.0.1:P` once the port can be connected to; for `listen`, port 0 is any that is free.
///
/// The others are those of `run_task` (crate `program`). Where the file is missing it is made, but for `export`, `check` and `dump`, which only read. Words that ask for
/// help get it on `output`, and are no program.
pub(crate) fn run_at<
    R: AllocGlobal + Clock + Files<File = File> + Net<Listener = TcpListener, Stream = TcpStream>,
>(
    rt: &R,
    terminal: &Terminal,
    words: &[String],
    input: &mut impl Read,
    output: &mut impl Write,
    errors: &mut impl Write,
) -> u8 {
    let Err(fault) = run_words(rt, terminal, words, input, output, errors) else {
        return 0;
    };
    // Where this fails too, the status alone tells of the fault.
    let _ = writeln!(errors, "docpage: {fault}");
    fault.status()
}

/// Gives the help that is asked for, reads the words, and runs the program.
fn run_words<
    R: AllocGlobal + Clock + Files<File = File> + Net<Listener = TcpListener, Stream = TcpStream>,
>(
    rt: &R,
    terminal: &Terminal,
    words: &[String],
    input: &mut impl Read,
    output: &mut impl Write,
    errors: &mut impl Write,
) -> Result<(), ProgramFault> {
    if let Some(help) = help_for(words) {
        // Where this fails, the fault below is told all the same.
        let _ = output.write_all(help.as_bytes()).and(output.flush());
    }
    let words = read_words(rt.alloc(), words)?;
    let ended = run_over(rt, &words, terminal, input, output, errors);
    drop(words);
    ended
}

/// Opens the file, and runs the program over it.
fn run_over<
    R: AllocGlobal + Clock + Files<File = File> + Net<Listener = TcpListener, Stream = TcpStream>,
>(
    rt: &R,
    words: &Words,
    terminal: &Terminal,
    input: &mut impl Read,
    output: &mut impl Write,
    errors: &mut impl Write,
) -> Result<(), ProgramFault> {
    let mut server = open_server(rt, words)?;
    let task = &words.task;
    if let Task::Listen(listened) = task {
        if listened.drivers {
            return listen_to_drivers(rt, server.core, listened, output);
        }
    }
    let ended = run_task(rt, &mut server, task, terminal, input, output, errors);
    drop(server);
    ended
}
