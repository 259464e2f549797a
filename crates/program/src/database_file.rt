//! The file that the words name, opened as a database.

ghost use Rattle.std.specs.Prelude.{◌≡◌, [], IfOk};
ghost use Rattle.page.specs.Unknown.{unknown_history};
ghost use Rattle.server.specs.Durable.{IsSound};
ghost use Rattle.server.specs.View.{state};

use crate::fault::ProgramFault;
use crate::in_process::Server;
use page::{FileDisk, FileFault};
use program_words::{LocalTask, Task, Words};
use roots::OpenFault;
use server::{Config, Core};
use std::fs::File;
use std::rt::Files;

/// A file has at most the pages that the format allows.
const CONFIG: Config = Config {
    max_pages: 1_048_576,
};

/// Opens the file as a database. It is made where it is missing, but for a program that only reads.
pub fn open_server<R: AllocGlobal + Files<File = File>>(
    rt: &R,
    words: &Words,
) -> Result<Server<FileDisk>, ProgramFault>
    ensures sound { IfOk result (λ server. IsSound (λ _. unknown_history) server.core) }
    ensures fresh { IfOk result (λ server. (state server.core).connections ≡ []) }
{
    let opened = match &words.task {
        Task::Local(LocalTask::Export(_) | LocalTask::Check | LocalTask::Dump(_)) => {
            FileDisk::open_to_read(rt, &words.file)
        }
        _ => FileDisk::open(rt, &words.file, true),
    };
    let disk = match opened {
        Ok(disk) => disk,
        Err(FileFault::Locked) => return Err(ProgramFault::Locked),
        Err(FileFault::Device) => return Err(ProgramFault::Open(OpenFault::Device)),
    };
    match Core::open(rt.alloc(), disk, CONFIG) {
        Ok(core) => Ok(Server { core }),
        Err((_, fault)) => Err(ProgramFault::Open(fault)),
    }
}
