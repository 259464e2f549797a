//! What is done next with a message.

use bson::Document;

/// What is done next with a message of a driver.
#[derive(Drop)]
pub enum Step {
    /// The database is asked this, and its reply comes to `Plan::answer`.
    Ask(Document),
    /// The same, by the connection that opened the cursor of this number.
    AskOwner(i64, Document),
    /// The driver is answered so.
    Reply(Document),
    /// The driver is answered so, by an OP_REPLY that says that the query failed.
    Fail(Document),
    /// The driver gets no answer.
    Silent,
}
