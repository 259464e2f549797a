//! The loops that serve connections.

ghost use Rattle.std.specs.Prelude.{◌≡◌, ◌≤◌};

use crate::clients::{Backlog, Clients};
use crate::service::{ServeFault, Service};
use mio::net::TcpListener as Listener;
use std::io;
use std::net::{Net, TcpListener};
use std::rt::Clock;
use std::time::Duration;

/// For how long the system is not asked again for a connection that it did not give.
const PAUSE_SECONDS: u64 = 1;

/// Accepts so many connections, numbered from 0, and then serves them until so many turns were made or none is open. A
/// turn is made only where a message waits for one.
pub fn serve_on<R: AllocGlobal + Net, S: Service>(
    rt: &R,
    listener: &TcpListener,
    connections: usize,
    turns: u64,
    service: &mut S,
) -> Result<(), ServeFault>
    requires connections { connections ≤ S.PLACES }
    requires sound { S.is_sound service.old }
    ensures sound { S.is_sound service.new }
{
    let Ok(mut clients) = accept_all::<R, S>(rt, listener, connections) else {
        return Err(ServeFault::Accept);
    };
    let served = serve_turns(&mut clients, turns, service);
    clients.table.end_all();
    clients.table.settle(service);
    served
}

/// Accepts so many connections.
fn accept_all<R: AllocGlobal + Net, S: Service>(
    rt: &R,
    listener: &TcpListener,
    connections: usize,
) -> io::Result<Clients<S>>
    requires { connections ≤ S.PLACES }
{
    let mut clients = Clients::new(rt, rt.alloc(), connections)?;
    for _ in 0..connections {
        clients.accept_one(listener)?;
    }
    Ok(clients)
}

/// Serves the connections until so many turns were made or none is open.
fn serve_turns<S: Service>(
    clients: &mut Clients<S>,
    turns: u64,
    service: &mut S,
) -> Result<(), ServeFault>
    requires sound { S.is_sound service.old }
    ensures sound { S.is_sound service.new }
{
    let mut left = turns;
    for _ in 0..u64::MAX {
        if left == 0 || clients.table.is_empty() {
            break;
        }
        let limit = clients.table.is_busy().then_some(Duration::ZERO);
        if clients.wait(limit).is_err() {
            return Err(ServeFault::Accept);
        }
        if clients.round(service)? {
            left -= 1;
        }
    }
    Ok(())
}

/// Serves every connection that comes, as many at a time as the service has numbers for, for as long as the process runs. A new one has the least free
/// number, and where none is free it waits. One of which nothing has come for `idle` is ended.
pub fn listen<R: AllocGlobal + Net + Clock, S: Service>(
    rt: &R,
    listener: TcpListener,
    idle: Option<Duration>,
    service: &mut S,
) -> Result<(), ServeFault>
    requires sound { S.is_sound service.old }
    ensures sound { S.is_sound service.new }
{
    let Ok((mut clients, listener)) = watched::<R, S>(rt, listener) else {
        return Err(ServeFault::Accept);
    };
    let served = serve_all(rt, &mut clients, &listener, idle, service);
    drop(listener);
    drop(clients);
    served
}

/// Serves every connection that the listener gives.
fn serve_all<R: Clock, S: Service>(
    rt: &R,
    clients: &mut Clients<S>,
    listener: &Listener,
    idle: Option<Duration>,
    service: &mut S,
) -> Result<(), ServeFault>
    requires sound { S.is_sound service.old }
    ensures sound { S.is_sound service.new }
{
    let mut backlog = Backlog::Empty;
    for _ in 0..u64::MAX {
        let Ok(accepts) = wait(rt, clients, backlog, idle, service) else {
            return Err(ServeFault::Accept);
        };
        if accepts || backlog != Backlog::Empty {
            backlog = clients.accept(listener);
        }
        serve_round(clients, idle, service)?;
    }
    Ok(())
}

/// No connections yet, and a listener whose connections are accepted as they come.
fn watched<R: AllocGlobal + Net, S: Service>(
    rt: &R,
    listener: TcpListener,
) -> io::Result<(Clients<S>, Listener)> {
    let clients = Clients::new(rt, rt.alloc(), S::PLACES)?;
    let listener = clients.watch(listener)?;
    Ok((clients, listener))
}

/// Waits until something is ready. Whether a connection may be there to be accepted.
fn wait<R: Clock, S: Service>(
    rt: &R,
    clients: &mut Clients<S>,
    backlog: Backlog,
    idle: Option<Duration>,
    service: &S,
) -> io::Result<bool> {
    let limit = patience(clients, backlog, idle, service);
    let accepts = clients.wait(limit)?;
    if let Ok(now) = rt.monotonic() {
        clients.table.time = now;
    }
    Ok(accepts)
}

/// A round over what is ready. Then it ends the connections of which nothing has come for so long.
fn serve_round<S: Service>(
    clients: &mut Clients<S>,
    idle: Option<Duration>,
    service: &mut S,
) -> Result<(), ServeFault>
    requires sound { S.is_sound service.old }
    ensures sound { S.is_sound service.new }
{
    clients.round(service)?;
    if let Some(idle) = idle {
        clients.table.end_idle(idle);
        clients.table.settle(service);
    }
    Ok(())
}

/// How long to wait for something to be ready. None is as long as it takes.
fn patience<S: Service>(
    clients: &Clients<S>,
    backlog: Backlog,
    idle: Option<Duration>,
    service: &S,
) -> Option<Duration> {
    let may_accept = backlog == Backlog::More && clients.table.has_room();
    if may_accept || clients.table.is_busy() {
        return Some(Duration::ZERO);
    }
    let pause = (backlog == Backlog::Refused).then_some(Duration::from_secs(PAUSE_SECONDS));
    match (idle.map(|idle| clients.table.until_idle(idle)), pause) {
        (Some(left), Some(pause)) => Some(left.min(pause)),
        (left, pause) => left.or(pause),
    }
}
