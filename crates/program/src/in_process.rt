//! A server that answers in its own process.

ghost use Rattle.std.specs.Prelude.{◌≡◌, IfOk, IfErr};
ghost use Rattle.program.specs.InProcess.{Says};
ghost use Rattle.server.specs.View.{frames_in};

use bson::Document;
use bson_bytes::decode;
use engine::ConnId;
use op_msg::{FRAME_BYTES, reply};
use page::Disk;
use server::{Core, TurnFault, TurnOut};
use shell::{Database, DatabaseFault};
use std::alloc::Global;

/// The most bytes of a message's document.
const MOST_BYTES: usize = bson::MESSAGE_LIMIT - FRAME_BYTES as usize;

/// A server as the programs for people see it.
#[derive(Drop)]
pub struct Server<D: Disk> {
    pub core: Core<D>,
}

impl<D: Disk> Database for Server<D> {
    ghost use Rattle.server.specs.Durable.{IsSound};
    ghost use Rattle.program.specs.InProcess.{AnswersCommand};

    ghost is_sound = { λ server. IsSound D.history server.core };

    ghost answers = { λ old command result new.
        AnswersCommand D.history old.core command result new.core };

    fn reply(&mut self, command: &Document) -> Result<Document, DatabaseFault> {
        if self.core.is_stopped() {
            return Err(DatabaseFault::Stopped);
        }
        if command.encoded_len() > MOST_BYTES {
            return Err(DatabaseFault::TooLarge);
        }
        let alloc = self.core.allocator();
        let Ok(frame) = reply(alloc, 1, 0, command) else {
            return Err(DatabaseFault::Memory);
        };
        let id = only_connection();
        if self.core.feed(id, &frame).is_err() {
            return Err(DatabaseFault::Memory);
        }
        match self.core.turn() {
            Ok(turn) => document_of(alloc, &turn),
            Err(TurnFault::Stopped) => Err(DatabaseFault::Stopped),
            // The message still waits, so it is forgotten.
            Err(TurnFault::Memory) => {
                self.core.gone(id);
                Err(DatabaseFault::Memory)
            }
        }
    }
}

/// The connection of what has no other.
pub(crate) fn only_connection() -> ConnId
    ensures { result ≡ 0 }
{
    match ConnId::new(0) {
        Some(id) => id,
        None => unreachable!(),
    }
}

/// The document of the first reply of a turn.
fn document_of(alloc: Global, turn: &TurnOut) -> Result<Document, DatabaseFault>
    ensures says { IfOk result (λ reply. Says (frames_in turn.now.replies.items) reply) }
    ensures memory { IfErr result (λ fault. fault ≡ DatabaseFault.Memory) }
{
    let Some((_, frame)) = turn.replies.first() else {
        return Err(DatabaseFault::Memory);
    };
    let Some(body) = frame.get(FRAME_BYTES as usize..) else {
        return Err(DatabaseFault::Memory);
    };
    match decode(alloc, body) {
        Ok((document, _)) => Ok(document),
        Err(_) => Err(DatabaseFault::Memory),
    }
}
