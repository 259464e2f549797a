//! The program `docpage`: a document database that answers frames of MongoDB-style commands.
#![tactic(auto)]

mod driver_ports;
mod start;

use program::Terminal;
use start::run_at;
use std::fs::File;
use std::io::{BufWriter, ErrorKind, IsTerminal};
use std::process::ExitCode;
use std::{env, fs, io};

/// The words that the program was started with.
fn words(rt: &HostRuntime) -> io::Result<Vec<String>> {
    Ok(env::args(rt)?.collect(rt.alloc())?)
}

/// The bytes of the standard input, where it is a file.
fn input_bytes(rt: &HostRuntime) -> Option<u64> {
    let about = fs::metadata(rt, "/dev/stdin").ok()?;
    if about.is_file() {
        Some(about.len())
    } else {
        None
    }
}

/// What somebody at the terminal sees of long work.
fn terminal(rt: &HostRuntime) -> Terminal {
    Terminal {
        shows_progress: rt.stderr().is_terminal(),
        input_bytes: input_bytes(rt),
    }
}

/// A folder in the place of a standard stream that was closed before the program began. The system gives a file that is opened the least
/// number that is free, so the database would be read or written as that stream. Of a folder both fail.
fn in_place_of(rt: &HostRuntime, stream: &str) -> Option<File> {
    if fs::metadata(rt, stream).is_ok() {
        return None;
    }
    File::open(rt, "/").ok()
}

/// The same for each of them, in the order of their numbers.
fn closed_streams(rt: &HostRuntime) -> [Option<File>; 3] {
    [
        in_place_of(rt, "/dev/stdin"),
        in_place_of(rt, "/dev/stdout"),
        in_place_of(rt, "/dev/stderr"),
    ]
}

/// Hands the words to the program, which answers on the standard streams, and gives its status.
fn run(rt: &HostRuntime) -> io::Result<u8> {
    let words = words(rt)?;
    let held = closed_streams(rt);
    let mut output = BufWriter::new(rt.alloc(), rt.stdout())?;
    let terminal = terminal(rt);
    let status = run_at(
        rt,
        &terminal,
        &words,
        &mut rt.stdin(),
        &mut output,
        &mut rt.stderr(),
    );
    drop(held);
    Ok(status)
}

fn main(rt: HostRuntime) -> ExitCode {
    match run(&rt) {
        Ok(status) => ExitCode::from(status),
        Err(error) if error.kind() == ErrorKind::OutOfMemory => {
            let _ = eprintln!(rt; "docpage: Memory");
            ExitCode::from(1)
        }
        // a word that is no text
        Err(_) => {
            let _ = eprintln!(rt; "docpage: Usage");
            ExitCode::from(2)
        }
    }
}
