//! What is to be known of the server.

use driver_replies::FreshIds;

/// What is to be known of the server for a message: the most bytes of a document and of a message, the number of the connection, and the
/// time in milliseconds since 1970, of which a handshake tells, and from where on object ids are fresh.
#[derive(Clone, Copy, Debug)]
pub struct ServerInfo {
    pub most_document_bytes: i32,
    pub most_message_bytes: i32,
    pub connection: i32,
    pub time: i64,
    pub ids: FreshIds,
}
