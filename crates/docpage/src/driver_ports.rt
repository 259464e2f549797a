//! MongoDB's drivers on a port of this machine.

ghost use Rattle.std.specs.Prelude.{◌≡◌, []};
ghost use Rattle.server.specs.Durable.{IsSound};
ghost use Rattle.server.specs.View.{state};

use front::Front;
use page::Disk;
use program::{ProgramFault, bind};
use program_words::Listened;
use server::Core;
use std::io::Write;
use std::net::{Net, TcpListener, TcpStream};
use std::rt::Clock;

/// Serves MongoDB drivers on all connections of a port.
pub(crate) fn listen_to_drivers<
    R: AllocGlobal + Clock + Net<Listener = TcpListener, Stream = TcpStream>,
    D: Disk + Drop,
>(rt: &R, core: Core<D>, listened: &Listened, output: &mut impl Write) -> Result<(), ProgramFault>
    requires sound { IsSound D.history core }
    requires fresh { (state core).connections ≡ [] }
{
    let listener = bind(rt, listened.port, output)?;
    answer_drivers(rt, listener, listened, core)
}

/// Serves MongoDB drivers on all connections that come to a listener.
fn answer_drivers<
    R: AllocGlobal + Clock + Net<Listener = TcpListener, Stream = TcpStream>,
    D: Disk + Drop,
>(rt: &R, listener: TcpListener, listened: &Listened, core: Core<D>) -> Result<(), ProgramFault>
    requires sound { IsSound D.history core }
    requires fresh { (state core).connections ≡ [] }
{
    let mut front = Front::new(rt, core);
    Ok(sockets::listen(rt, listener, listened.idle, &mut front)?)
}
