//! Commands for the server, as frames.

ghost use Rattle.std.specs.Prelude.{◌≡◌, true, Err, OnOk, OnErr};
ghost use Rattle.server.specs.Durable.{is_stopped, IsSound};
ghost use Rattle.server.specs.View.{state};
ghost use Rattle.front.specs.Asking.{IsAskedOn};
ghost use Rattle.front.specs.OneSocket.{is_long};

use bson::{Document, MESSAGE_LIMIT};
use engine::ConnId;
use op_msg::{FRAME_BYTES, reply};
use page::Disk;
use server::Core;

/// The most bytes of a command.
const MOST_BYTES: usize = MESSAGE_LIMIT - FRAME_BYTES as usize;

/// Why the server was not asked.
#[derive(Clone, Copy, Debug, PartialEq, Eq)]
pub(crate) enum NotAsked {
    /// The command has no room in a message.
    Long,
    /// Memory ran out.
    Memory,
}

/// Asks the server a command on a connection: the next turn answers it.
pub(crate) fn ask<D: Disk>(
    core: &mut Core<D>,
    id: ConnId,
    command: &Document,
) -> Result<(), NotAsked>
    requires sound { IsSound D.history core.old }
    ensures sound { IsSound D.history core.new }
    ensures running { is_stopped core.new ≡ is_stopped core.old }
    ensures asked { OnOk result (IsAskedOn (state core.old) id command.now (state core.new)) }
    ensures nothing { OnErr result (state core.new ≡ state core.old) }
    ensures long { result ≡ Err NotAsked.Long → is_long command.now ≡ true }
{
    // so that its bytes are known to be read as this command again
    let _lawful = command.pairs();
    if command.encoded_len() > MOST_BYTES {
        return Err(NotAsked::Long);
    }
    let Ok(frame) = reply(core.allocator(), 1, 0, command) else {
        return Err(NotAsked::Memory);
    };
    match core.feed(id, &frame) {
        Ok(()) => Ok(()),
        Err(_) => Err(NotAsked::Memory),
    }
}
