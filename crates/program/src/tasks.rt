//! What the program does for a task, over any reader and writers.

ghost use Rattle.server.specs.Durable.{IsSound};

use crate::check::check;
use crate::dump::dump;
use crate::exec::exec;
use crate::fault::ProgramFault;
use crate::in_process::Server;
use crate::people::{ask_all, export_all, import_all};
use crate::ports::{listen, serve};
use crate::terminal::Terminal;
use page::Disk;
use program_words::{LocalTask, Task};
use std::io::{Read, Write};
use std::net::{Net, TcpListener, TcpStream};
use std::rt::Clock;

/// Does a task over a server: reads what it needs from `input`, writes what it gives to `output`, and says on `errors` how far long work is, where
/// the terminal shows that. A fault ends it early; the server stays sound.
///
/// `exec` is one connection: it reads frames from `input` and writes the replies to `output`, until the input ends. `ask` asks commands in Extended
/// JSON, `import` brings documents in, and `export` writes them out, one a line. `check` prints what the file holds, and `dump` the bytes of
/// documents in hexadecimal, one document a line.
fn run_local<R: AllocGlobal + Clock, D: Disk>(
    rt: &R,
    server: &mut Server<D>,
    task: &LocalTask,
    terminal: &Terminal,
    input: &mut impl Read,
    output: &mut impl Write,
    errors: &mut impl Write,
) -> Result<(), ProgramFault>
    requires sound { IsSound D.history server.old.core }
    ensures sound { IsSound D.history server.new.core }
{
    let alloc = rt.alloc();
    match task {
        LocalTask::Exec => exec(alloc, &mut server.core, input, output),
        LocalTask::Ask(asked) => ask_all(alloc, server, asked, input, output),
        LocalTask::Import(imported) => {
            import_all(rt, alloc, server, imported, terminal, input, output, errors)
        }
        LocalTask::Export(exported) => {
            export_all(rt, alloc, server, exported, terminal, output, errors)
        }
        LocalTask::Check => check(&mut server.core, output),
        LocalTask::Dump(dumped) => dump(alloc, &mut server.core, &dumped.namespace, output),
    }
}

/// Does a task over a server: `serve_on` over a port for `serve`, every connection that comes for `listen`, and `run_local` for all others. The
/// server stays sound.
pub fn run_task<R: AllocGlobal + Clock + Net<Listener = TcpListener, Stream = TcpStream>, D: Disk>(
    rt: &R,
    server: &mut Server<D>,
    task: &Task,
    terminal: &Terminal,
    input: &mut impl Read,
    output: &mut impl Write,
    errors: &mut impl Write,
) -> Result<(), ProgramFault>
    requires sound { IsSound D.history server.old.core }
    ensures sound { IsSound D.history server.new.core }
{
    match task {
        Task::Serve(served) => serve(rt, &mut server.core, served, output),
        Task::Listen(listened) => listen(rt, &mut server.core, listened, output),
        Task::Local(local) => run_local(rt, server, local, terminal, input, output, errors),
    }
}
