//! Replies that tell a driver what it has to know of the server.

ghost use Rattle.std.specs.Prelude.{◌≡◌, IfOk};
ghost use Rattle.driver_replies.specs.Fields.{ok};
ghost use Rattle.drivers.specs.Handshake.{role, handshake_reply, build_reply};

use crate::server_info::ServerInfo;
use bson::{Document, NoMemory};
use driver_replies::{Fact, document_of};
use std::alloc::Global;

/// The most statements of one command.
const MOST_STATEMENTS: i32 = 1000;
/// The last version of the wire protocol that the server speaks. (From 9 on drivers may ask for streams of replies.)
const LAST_WIRE_VERSION: i32 = 8;
/// After how many minutes without use a driver gives up a session.
const SESSION_MINUTES: i32 = 30;
/// The version that the server passes for.
const VERSION: &str = "4.2.0";

/// The name under which the handshake says that the server takes writes.
fn role(is_hello: bool) -> &'static str
    ensures { result.now ≡ role is_hello }
{
    if is_hello {
        "isWritablePrimary"
    } else {
        "ismaster"
    }
}

/// The reply of `hello`, and of `isMaster`, its older name.
pub(crate) fn handshake_reply(
    alloc: Global,
    is_hello: bool,
    info: &ServerInfo,
) -> Result<Document, NoMemory>
    ensures { IfOk result (λ d. d ≡ handshake_reply is_hello info.now) }
{
    document_of(
        alloc,
        &[
            ("helloOk", Fact::Bool(true)),
            (role(is_hello), Fact::Bool(true)),
            ("maxBsonObjectSize", Fact::Int32(info.most_document_bytes)),
            ("maxMessageSizeBytes", Fact::Int32(info.most_message_bytes)),
            ("maxWriteBatchSize", Fact::Int32(MOST_STATEMENTS)),
            ("localTime", Fact::Date(info.time)),
            ("connectionId", Fact::Int32(info.connection)),
            ("minWireVersion", Fact::Int32(0)),
            ("maxWireVersion", Fact::Int32(LAST_WIRE_VERSION)),
            ("logicalSessionTimeoutMinutes", Fact::Int32(SESSION_MINUTES)),
            ("readOnly", Fact::Bool(false)),
            ("ok", Fact::Int64(1)),
        ],
    )
}

/// The reply of `buildInfo`.
pub(crate) fn build_reply(alloc: Global) -> Result<Document, NoMemory>
    ensures { IfOk result (λ d. d ≡ build_reply) }
{
    document_of(
        alloc,
        &[("version", Fact::Text(VERSION)), ("ok", Fact::Int64(1))],
    )
}

/// The reply of a command that was done and says no more.
pub(crate) fn ok_reply(alloc: Global) -> Result<Document, NoMemory>
    ensures { IfOk result (λ d. d ≡ ok) }
{
    document_of(alloc, &[("ok", Fact::Int64(1))])
}
