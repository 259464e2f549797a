//! Messages of drivers.

use crate::foreign::Foreign;
use bson::Document;

/// The form in which a message came, and in which its reply goes (MongoDB wire protocol).
#[derive(Clone, Copy, Debug, PartialEq, Eq)]
pub enum Form {
    /// OP_MSG.
    Message,
    /// OP_QUERY to `admin.$cmd`, by which older drivers begin.
    Command,
    /// OP_QUERY to anything else.
    Query,
}

/// Why a message has no document.
#[derive(Drop)]
pub enum BodyFault {
    /// A value of a type that the database doesn't have.
    Foreign(Foreign),
    /// Bytes that are no document.
    Invalid,
}

/// A message: its number, its form, whether it wants no reply, and its document, or why it has none.
#[derive(Drop)]
pub struct Message {
    pub number: u32,
    pub form: Form,
    pub more_to_come: bool,
    pub body: Result<Document, BodyFault>,
}
