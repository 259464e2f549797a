//! `hello`: what does a client have to know of the server?

ghost use Rattle.std.specs.Prelude.{◌≡◌, IfOk};
ghost use Rattle.database_model.specs.Hello.{hello_reply, run_hello};
ghost use Rattle.database_model.specs.Refusals.{ok_reply};
ghost use Rattle.replies.specs.View.{IsSendable, Runs};
ghost use Rattle.engine.specs.View.{world};

use crate::engine::Engine;
use bson::{Document, MESSAGE_LIMIT, NoMemory, Value};
use commands::MOST_STATEMENTS;
use page::Disk;
use path::Refusal;
use replies::{ConnId, done, put};
use std::alloc::Global;
use stored_documents::STORED_LIMIT;

/// The reply of a `hello` on a connection.
fn hello_reply(alloc: Global, connection: ConnId) -> Result<Document, NoMemory>
    ensures { IfOk result (λ d. d ≡ ok_reply (hello_reply connection)) }
{
    let mut reply = Document::new(alloc);
    put(&mut reply, "isWritablePrimary", Value::Bool(true))?;
    put(
        &mut reply,
        "maxBsonObjectSize",
        Value::Int32(STORED_LIMIT as i32),
    )?;
    put(
        &mut reply,
        "maxMessageSizeBytes",
        Value::Int32(MESSAGE_LIMIT as i32),
    )?;
    put(
        &mut reply,
        "maxWriteBatchSize",
        Value::Int32(MOST_STATEMENTS as i32),
    )?;
    put(
        &mut reply,
        "connectionId",
        Value::Int32(connection.number() as i32),
    )?;
    done(reply)
}

impl<D: Disk> Engine<D> {
    /// Tells a client the limits and the number of its connection.
    pub(crate) fn hello(&self, connection: ConnId) -> Result<Document, Refusal>
        ensures runs { Runs (world self.now) (run_hello (world self.now) connection)
            (world self.now) result }
        ensures sendable { IfOk result (λ d. IsSendable d) }
    {
        Ok(hello_reply(self.alloc, connection)?)
    }
}
