//! Plays scripts: tests of commands and replies as text (README.md has their form). Its words are the files of scripts. It prints
//! what differs, and how many tests passed.
#![tactic(auto)]

mod everywhere;
mod one_run;
mod player;
mod playing;
mod script;
mod session;
mod test;

use everywhere::play_test;
use script::tests_of;
use script_text::{Fault, lines_of};
use std::alloc::Global;
use std::process::ExitCode;
use std::{env, fs, io};
use test::Failure;

/// How many tests passed, and how many failed.
#[derive(Clone, Copy)]
struct Counts {
    passed: u32,
    failed: u32,
    // a test ended since memory ran out in this program
    is_starved: bool,
}

/// Prints why a test failed.
fn print_failure(rt: &HostRuntime, file: &str, failure: &Failure) -> io::Result<()> {
    let line = failure.line;
    match &failure.fault {
        Fault::Memory => println!(rt; "{file}:{line}: out of memory"),
        Fault::Form(what) => println!(rt; "{file}:{line}: {what}"),
        Fault::Other(what) => println!(rt; "{file}:{line}: {what}"),
        Fault::Stopped => println!(rt; "{file}:{line}: the server has stopped"),
        Fault::Refused => println!(rt; "{file}:{line}: the server answers that its device failed"),
        Fault::File(name) => println!(rt; "{file}:{line}: the file is refused: {name}"),
    }
}

impl Counts {
    /// Counts a test.
    fn count(
        &mut self,
        rt: &HostRuntime,
        file: &str,
        played: Result<(), Failure>,
    ) -> io::Result<()> {
        match played {
            Ok(()) => {
                self.passed = self.passed.saturating_add(1);
                Ok(())
            }
            Err(failure) => {
                self.failed = self.failed.saturating_add(1);
                self.is_starved |= matches!(failure.fault, Fault::Memory);
                print_failure(rt, file, &failure)
            }
        }
    }
}

/// Plays the tests of a script.
fn play_script(rt: &HostRuntime, file: &str, counts: &mut Counts) -> io::Result<()> {
    let alloc = rt.alloc();
    let text = fs::read_to_string(rt, file)?;
    let lines = lines_of(alloc, text.as_str())?;
    let tests = match tests_of(alloc, &lines) {
        Ok(tests) => tests,
        Err(failure) => return counts.count(rt, file, Err(failure)),
    };
    for test in tests.iter() {
        counts.count(rt, file, play_test(alloc, *test))?;
    }
    Ok(())
}

/// Plays all scripts.
fn play_all(rt: &HostRuntime) -> io::Result<Counts> {
    let mut counts = Counts {
        passed: 0,
        failed: 0,
        is_starved: false,
    };
    let words: Vec<String> = env::args(rt)?.collect(rt.alloc())?;
    for file in words.iter().skip(1) {
        play_script(rt, file.as_str(), &mut counts)?;
    }
    println!(rt; "{} passed, {} failed", counts.passed, counts.failed)?;
    Ok(counts)
}

/// The status: 0 where all passed, 1 where one failed, 3 where memory ran out in this program.
fn main(rt: HostRuntime) -> ExitCode {
    match play_all(&rt) {
        Ok(counts) if counts.is_starved => ExitCode::from(3),
        Ok(counts) if counts.failed > 0 => ExitCode::from(1),
        Ok(_) => ExitCode::from(0),
        Err(error) if error.kind() == io::ErrorKind::OutOfMemory => ExitCode::from(3),
        Err(error) => {
            let _ = eprintln!(rt; "scripts: {error:?}");
            ExitCode::from(1)
        }
    }
}
