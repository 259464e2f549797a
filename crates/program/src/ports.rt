//! A server over a port of this machine.

ghost use Rattle.server.specs.Durable.{IsSound};

use crate::fault::ProgramFault;
use page::Disk;
use program_words::{Listened, Served};
use server::{Core, serve_on};
use std::io::Write;
use std::net::{Ipv4Addr, Net, SocketAddr, TcpListener, TcpStream};
use std::rt::Clock;

/// Serves connections of a port for some turns.
pub(crate) fn serve<R: AllocGlobal + Net<Listener = TcpListener, Stream = TcpStream>, D: Disk>(
    rt: &R,
    core: &mut Core<D>,
    served: &Served,
    output: &mut impl Write,
) -> Result<(), ProgramFault>
    requires sound { IsSound D.history core.old }
    ensures sound { IsSound D.history core.new }
{
    let listener = bind(rt, served.port, output)?;
    Ok(serve_on(rt, &listener, served.connections, served.turns, core)?)
}

/// Serves all connections of a port.
pub(crate) fn listen<
    R: AllocGlobal + Clock + Net<Listener = TcpListener, Stream = TcpStream>,
    D: Disk,
>(
    rt: &R,
    core: &mut Core<D>,
    listened: &Listened,
    output: &mut impl Write,
) -> Result<(), ProgramFault>
    requires sound { IsSound D.history core.old }
    ensures sound { IsSound D.history core.new }
{
    let listener = bind(rt, listened.port, output)?;
    Ok(sockets::listen(rt, listener, listened.idle, core)?)
}

/// Listens on a port of this machine's own address, and says on which. `Accept` says that it can't be listened on, `Device` that this can't be said.
pub fn bind<R: Net<Listener = TcpListener, Stream = TcpStream>>(
    rt: &R,
    port: u16,
    output: &mut impl Write,
) -> Result<TcpListener, ProgramFault> {
    let Ok(listener) = TcpListener::bind(rt, SocketAddr::from((Ipv4Addr::LOCALHOST, port))) else {
        return Err(ProgramFault::Accept);
    };
    let Ok(address) = listener.local_addr() else {
        return Err(ProgramFault::Accept);
    };
    match writeln!(output, "listening on {address}").and(output.flush()) {
        Ok(()) => Ok(listener),
        Err(_) => Err(ProgramFault::Device),
    }
}
