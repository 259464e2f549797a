//! The words that the program is started with.

ghost use Rattle.std.specs.Prelude.{◌≤◌};

use crate::fault::WordsFault;
use clap::error::ErrorKind;
use clap::{Arg, ArgAction, ArgMatches, Command};
use std::alloc::{AllocError, Global};
use std::time::Duration;

/// The most connections that a program serves.
const MOST_CONNECTIONS: usize = 64;

/// One of the programs.
#[derive(Clone, Copy, Debug, PartialEq, Eq)]
enum Program {
    Exec,
    Serve,
    Listen,
    Ask,
    Import,
    Export,
    Check,
    Dump,
}

/// All programs.
const PROGRAMS: [Program; 8] = [
    Program::Exec,
    Program::Serve,
    Program::Listen,
    Program::Ask,
    Program::Import,
    Program::Export,
    Program::Check,
    Program::Dump,
];

impl Program {
    /// The word that it is asked for by.
    fn name<'a>(self) -> &'a str {
        match self {
            Program::Exec => "exec",
            Program::Serve => "serve",
            Program::Listen => "listen",
            Program::Ask => "ask",
            Program::Import => "import",
            Program::Export => "export",
            Program::Check => "check",
            Program::Dump => "dump",
        }
    }
}

/// What the program is to do, over which file.
pub struct Words {
    pub file: String,
    pub task: Task,
}

// (written out, so that no crate above proves again that the parts are let go)
impl Drop for Words {
    fn drop(self) {
        let Words { file: _, task: _ } = self;
    }
}

/// What the program is to do.
#[derive(Drop)]
pub enum Task {
    /// To answer so many connections of a port for so many turns.
    Serve(Served),
    /// To answer all connections of a port that come.
    Listen(Listened),
    /// What needs no port.
    Local(LocalTask),
}

/// What the program does by itself, over its own streams.
#[derive(Drop)]
pub enum LocalTask {
    /// To answer one connection, on standard input and output.
    Exec,
    /// To ask commands in Extended JSON.
    Ask(AskWords),
    /// To bring documents in.
    Import(ImportWords),
    /// To write documents out.
    Export(ExportWords),
    /// To look through the file and count what it holds.
    Check,
    /// To write the bytes of documents out.
    Dump(DumpWords),
}

/// The commands that are asked; none stands for the lines of the input.
#[derive(Drop)]
pub struct AskWords {
    pub database: String,
    pub all: bool,
    pub pretty: bool,
    pub commands: Vec<String>,
}

/// Into which collection documents go.
#[derive(Drop)]
pub struct ImportWords {
    pub namespace: String,
}

/// Of which collection documents are written, and whether in canonical form.
#[derive(Drop)]
pub struct ExportWords {
    pub namespace: String,
    pub canonical: bool,
}

/// Of which collection the bytes of documents are written.
#[derive(Drop)]
pub struct DumpWords {
    pub namespace: String,
}

/// A port, and which connections are served on it for how long.
#[derive(Drop)]
pub struct Served {
    pub port: u16,
    pub connections: usize,
    pub turns: u64,
    ghost few: { connections ≤ 64 },
}

/// A port (0 for any that is free), how long a connection may be silent, and whether MongoDB drivers are served.
#[derive(Drop)]
pub struct Listened {
    pub port: u16,
    pub idle: Option<Duration>,
    pub drivers: bool,
}

/// Reads the words that the program is started with; the first is the name under which it was. `Usage` says that they ask for no program, or for
/// help, or that a number is out of range, and `Memory` that memory ran out.
pub fn read_words(alloc: Global, words: &[String]) -> Result<Words, WordsFault> {
    match parse(alloc, words) {
        Ok(Some(words)) => Ok(words),
        Ok(None) => Err(WordsFault::Usage),
        Err(error) => match error.kind() {
            ErrorKind::OutOfMemory => Err(WordsFault::Memory),
            _ => Err(WordsFault::Usage),
        },
    }
}

/// Parses the words. None is said where they match but a number is out of range.
fn parse(alloc: Global, words: &[String]) -> Result<Option<Words>, clap::Error> {
    let matches = command(alloc)?.try_get_matches_from(words)?;
    Ok(words_in(alloc, &matches)?)
}

/// What the words that match ask for, if their numbers are in range.
fn words_in(alloc: Global, matches: &ArgMatches<'_>) -> Result<Option<Words>, AllocError> {
    for program in PROGRAMS {
        if let Some(words) = matches.subcommand_matches(program.name()) {
            return words_of(alloc, words, task_of(alloc, program, words)?);
        }
    }
    Ok(None)
}

/// What a program is to do by its words, if their numbers are in range.
fn task_of(
    alloc: Global,
    program: Program,
    words: &ArgMatches<'_>,
) -> Result<Option<Task>, AllocError> {
    match program {
        Program::Exec => Ok(Some(Task::Local(LocalTask::Exec))),
        Program::Serve => Ok(served_of(words)),
        Program::Listen => Ok(listened_of(words)),
        Program::Ask => ask_of(alloc, words),
        Program::Import => import_of(alloc, words),
        Program::Export => export_of(alloc, words),
        Program::Check => Ok(Some(Task::Local(LocalTask::Check))),
        Program::Dump => dump_of(alloc, words),
    }
}

/// The programs and their words.
fn command<'a>(alloc: Global) -> Result<Command<'a>, AllocError> {
    let mut all = Command::new(alloc, "docpage").subcommand_required(true);
    for program in PROGRAMS {
        all = with_program(alloc, all, program)?;
    }
    Ok(all)
}

/// The programs before, and one more.
fn with_program<'a>(
    alloc: Global,
    all: Command<'a>,
    program: Program,
) -> Result<Command<'a>, AllocError> {
    match words_for(alloc, program) {
        Ok(words) => all.subcommand(words),
        Err(error) => {
            drop(all);
            Err(error)
        }
    }
}

/// The words of a program.
fn words_for<'a>(alloc: Global, program: Program) -> Result<Command<'a>, AllocError> {
    let words = Command::new(alloc, program.name()).arg(file(alloc))?;
    match program {
        Program::Exec | Program::Check => Ok(words),
        Program::Serve => with_serve(alloc, words),
        Program::Listen => with_listen(alloc, words),
        Program::Ask => with_ask(alloc, words),
        Program::Import | Program::Dump => words.arg(namespace(alloc)),
        Program::Export => words.arg(namespace(alloc))?.arg(flag(alloc, "canonical")),
    }
}

fn with_serve<'a>(alloc: Global, words: Command<'a>) -> Result<Command<'a>, AllocError> {
    words
        .arg(option(alloc, "port").required(true))?
        .arg(option(alloc, "connections").required(true))?
        .arg(option(alloc, "turns").required(true))
}

fn with_listen<'a>(alloc: Global, words: Command<'a>) -> Result<Command<'a>, AllocError> {
    words
        .arg(option(alloc, "port").required(true))?
        .arg(option(alloc, "idle-seconds"))?
        .arg(flag(alloc, "drivers"))
}

fn with_ask<'a>(alloc: Global, words: Command<'a>) -> Result<Command<'a>, AllocError> {
    words
        .arg(option(alloc, "db"))?
        .arg(flag(alloc, "all"))?
        .arg(flag(alloc, "pretty"))?
        .arg(
            Arg::new(alloc, "COMMAND")
                .action(ArgAction::Append)
                .num_args(0..),
        )
}

/// The file of a program.
fn file<'a>(alloc: Global) -> Arg<'a> {
    Arg::new(alloc, "FILE")
        .required(true)
        .action(ArgAction::Set)
}

/// The collection of a program.
fn namespace<'a>(alloc: Global) -> Arg<'a> {
    Arg::new(alloc, "NAMESPACE")
        .required(true)
        .action(ArgAction::Set)
}

/// An option without a value.
fn flag<'a>(alloc: Global, name: &'a str) -> Arg<'a> {
    Arg::new(alloc, name).long(name).action(ArgAction::SetTrue)
}

/// An option with a value.
fn option<'a>(alloc: Global, name: &'a str) -> Arg<'a> {
    Arg::new(alloc, name).long(name).action(ArgAction::Set)
}

/// The words that name a file and this task.
fn words_of(
    alloc: Global,
    matches: &ArgMatches<'_>,
    task: Option<Task>,
) -> Result<Option<Words>, AllocError> {
    match (matches.get_str("FILE"), task) {
        (Some(file), Some(task)) => Ok(Some(Words {
            file: String::from_str(alloc, file)?,
            task,
        })),
        _ => Ok(None),
    }
}

/// What `serve` is to do. A port is 1 to 65,535, and connections are 1 to 64.
fn served_of(matches: &ArgMatches<'_>) -> Option<Task> {
    let port = port(matches)?;
    let connections = usize::try_from(number(matches.get_str("connections")?)?).ok()?;
    let turns = number(matches.get_str("turns")?)?;
    if port == 0 || connections == 0 || connections > MOST_CONNECTIONS {
        return None;
    }
    Some(Task::Serve(Served {
        port,
        connections,
        turns,
    }))
}

/// What `listen` is to do. A port is 0 to 65,535, and the seconds are at least 1.
fn listened_of(matches: &ArgMatches<'_>) -> Option<Task> {
    let port = port(matches)?;
    let idle = match matches.get_str("idle-seconds") {
        Some(text) => Some(seconds(text)?),
        None => None,
    };
    let drivers = matches.get_flag("drivers");
    Some(Task::Listen(Listened {
        port,
        idle,
        drivers,
    }))
}

/// What `ask` is to do. A command that names no database is asked in `test`.
fn ask_of(alloc: Global, matches: &ArgMatches<'_>) -> Result<Option<Task>, AllocError> {
    let mut commands = Vec::new(alloc);
    for command in matches.get_strs("COMMAND").unwrap_or(&[]) {
        commands.push(String::from_str(alloc, command)?)?;
    }
    Ok(Some(Task::Local(LocalTask::Ask(AskWords {
        database: String::from_str(alloc, matches.get_str("db").unwrap_or("test"))?,
        all: matches.get_flag("all"),
        pretty: matches.get_flag("pretty"),
        commands,
    }))))
}

/// What `import` is to do.
fn import_of(alloc: Global, matches: &ArgMatches<'_>) -> Result<Option<Task>, AllocError> {
    let Some(namespace) = matches.get_str("NAMESPACE") else {
        return Ok(None);
    };
    let namespace = String::from_str(alloc, namespace)?;
    Ok(Some(Task::Local(LocalTask::Import(ImportWords { namespace }))))
}

/// What `export` is to do.
fn export_of(alloc: Global, matches: &ArgMatches<'_>) -> Result<Option<Task>, AllocError> {
    let Some(namespace) = matches.get_str("NAMESPACE") else {
        return Ok(None);
    };
    Ok(Some(Task::Local(LocalTask::Export(ExportWords {
        namespace: String::from_str(alloc, namespace)?,
        canonical: matches.get_flag("canonical"),
    }))))
}

/// What `dump` is to do.
fn dump_of(alloc: Global, matches: &ArgMatches<'_>) -> Result<Option<Task>, AllocError> {
    let Some(namespace) = matches.get_str("NAMESPACE") else {
        return Ok(None);
    };
    let namespace = String::from_str(alloc, namespace)?;
    Ok(Some(Task::Local(LocalTask::Dump(DumpWords { namespace }))))
}

/// The port that the words name.
fn port(matches: &ArgMatches<'_>) -> Option<u16> {
    u16::try_from(number(matches.get_str("port")?)?).ok()
}

/// So many seconds, and at least one.
fn seconds(text: &str) -> Option<Duration> {
    match number(text)? {
        0 => None,
        count => Some(Duration::from_secs(count)),
    }
}

/// The number that a text of decimal digits alone spells.
fn number(text: &str) -> Option<u64> {
    if text.bytes().all(|byte| byte.is_ascii_digit()) {
        text.parse::<u64>().ok()
    } else {
        None
    }
}
