//! The program over one connection: frames of its input, replies on its output.

ghost use Rattle.std.specs.Prelude.{◌≤◌, length, IfOk};
ghost use Rattle.server.specs.Durable.{IsSound};

use crate::fault::ProgramFault;
use crate::in_process::only_connection;
use engine::ConnId;
use page::Disk;
use server::{Core, TurnFault, TurnOut};
use std::alloc::Global;
use std::io;
use std::io::{Read, Write};

/// The most bytes of one read.
const READ_BYTES: usize = 65_536;

/// Answers the frames of the input until it ends.
pub(crate) fn exec<D: Disk>(
    alloc: Global,
    core: &mut Core<D>,
    input: &mut impl Read,
    output: &mut impl Write,
) -> Result<(), ProgramFault>
    requires sound { IsSound D.history core.old }
    ensures sound { IsSound D.history core.new }
{
    let Ok(mut buffer) = Vec::from_elem(alloc, 0u8, READ_BYTES) else {
        return Err(ProgramFault::Memory);
    };
    let ended = answer_input(core, &mut buffer, input, output);
    drop(buffer);
    ended
}

/// Answers what is read into the buffer, until the input ends.
fn answer_input<D: Disk>(
    core: &mut Core<D>,
    buffer: &mut [u8],
    input: &mut impl Read,
    output: &mut impl Write,
) -> Result<(), ProgramFault>
    requires sound { IsSound D.history core.old }
    ensures sound { IsSound D.history core.new }
{
    for _ in 0..u64::MAX {
        let count = read_chunk(input, buffer)?;
        if count == 0 {
            break;
        }
        answer_bytes(core, &buffer[..count], output)?;
    }
    Ok(())
}

/// Answers the messages that end in these bytes.
fn answer_bytes<D: Disk>(
    core: &mut Core<D>,
    bytes: &[u8],
    output: &mut impl Write,
) -> Result<(), ProgramFault>
    requires sound { IsSound D.history core.old }
    ensures sound { IsSound D.history core.new }
{
    let id = only_connection();
    // A fault of a frame ends the program, so the connection is open and only memory can be wanting.
    if core.feed(id, bytes).is_err() {
        return Err(ProgramFault::Memory);
    }
    let ended = answer_waiting(core, id, output);
    if output.flush().is_err() {
        drop(ended);
        return Err(ProgramFault::Device);
    }
    ended
}

/// Reads the next bytes of the input: none at its end.
fn read_chunk(input: &mut impl Read, buffer: &mut [u8]) -> Result<usize, ProgramFault>
    ensures { IfOk result (λ n. n ≤ length buffer.new) }
{
    for _ in 0..u64::MAX {
        match input.read(buffer) {
            Ok(count) => return Ok(count),
            Err(error) => {
                if error.kind() != io::ErrorKind::Interrupted {
                    return Err(ProgramFault::Device);
                }
            }
        }
    }
    Err(ProgramFault::Device)
}

/// Makes a turn for each message that waits, and writes the replies.
fn answer_waiting<D: Disk>(
    core: &mut Core<D>,
    id: ConnId,
    output: &mut impl Write,
) -> Result<(), ProgramFault>
    requires sound { IsSound D.history core.old }
    ensures sound { IsSound D.history core.new }
{
    for _ in 0..u64::MAX {
        if !core.waiting(id) {
            break;
        }
        match core.turn() {
            Ok(turn) => hand_out(turn, output)?,
            Err(TurnFault::Stopped) => return Err(ProgramFault::Stopped),
            Err(TurnFault::Memory) => return Err(ProgramFault::Memory),
        }
    }
    Ok(())
}

/// Writes the replies of a turn. A connection that it closed ends the program.
fn hand_out(turn: TurnOut, output: &mut impl Write) -> Result<(), ProgramFault> {
    for (_, frame) in &turn.replies {
        output.write_all(frame).map_err(|_| ProgramFault::Device)?;
    }
    match turn.closed.first() {
        Some((_, fault)) => Err(ProgramFault::Frame(*fault)),
        None => Ok(()),
    }
}
