//! Why a message of a driver is refused before anything is asked of the database.

ghost use Rattle.std.specs.Prelude.{◌≡◌, IfOk, pos, option_map, string_bytes};
ghost use Rattle.driver_fields.specs.Reasons.{row_of, text_of, refusal_document, refusal_reply};

use bson::{Document, NoMemory};
use driver_messages::ForeignType;
use driver_replies::{Fact, document_of};
use std::alloc::Global;

/// Why a message is refused. Each has a number, a name and a text, which may say what it is about.
#[derive(Clone, Copy, Debug, PartialEq, Eq)]
pub enum Reason {
    /// More servers are to have a write than there are.
    TooManyServers,
    /// A field of another type than it takes.
    FieldType,
    /// Neither one thing nor the other is asked for, or both.
    NoChoice,
    /// A text that is no path.
    NoPath,
    /// A client wants to say who it is.
    NoAuthentication,
    /// A command of a transaction, or one that could be sent again.
    NoTransactions,
    /// A field, or a value of it, by which a command means something that the database doesn't do.
    UnsupportedField,
    /// A name for which servers are to have a write.
    UnknownWriteConcern,
    /// A command that the database doesn't have.
    UnknownCommand,
    /// A value of a type that the database doesn't have.
    ForeignType(ForeignType),
    /// Bytes that are no document.
    InvalidBson,
    /// A message of an older form than is taken.
    UnsupportedQuery,
}

/// What a reply says of a reason: a text, or where it is about something the text before that and the one behind it.
#[derive(Clone, Copy)]
struct Row {
    code: i32,
    name: &'static str,
    before: &'static str,
    behind: Option<&'static str>,
}

impl Reason {
    /// What is said of it, all in one table.
    fn row(self) -> Row
        ensures code { result.code ≡ pos (row_of self).code }
        ensures name { result.name.now ≡ (row_of self).name }
        ensures before { result.before.now ≡ (row_of self).before }
        ensures behind { option_map (λ s. s.now) result.behind ≡ (row_of self).behind }
    {
        let (code, name, before, behind) = match self {
            Reason::TooManyServers => (2, "BadValue", "docpage is one server: w is 0 or 1", None),
            Reason::NoPath => (2, "BadValue", "field '", Some("': no path")),
            Reason::FieldType => (14, "TypeMismatch", "field '", Some("': wrong type")),
            Reason::NoChoice => (
                9,
                "FailedToParse",
                "a 'findAndModify' has 'update', or 'remove' without 'new' and 'upsert'",
                None,
            ),
            Reason::NoAuthentication => (
                18,
                "AuthenticationFailed",
                "docpage has no authentication",
                None,
            ),
            Reason::NoTransactions => (
                20,
                "IllegalOperation",
                "docpage has no transactions over several commands and no retryable writes",
                None,
            ),
            Reason::InvalidBson => (22, "InvalidBSON", "invalid BSON", None),
            Reason::ForeignType(kind) => (22, "InvalidBSON", kind.text(), Some("')")),
            Reason::UnsupportedField => (
                72,
                "InvalidOptions",
                "field '",
                Some("': not supported by docpage"),
            ),
            Reason::UnknownWriteConcern => (
                79,
                "UnknownReplWriteConcern",
                "docpage has no write concern of that name",
                None,
            ),
            Reason::UnknownCommand => (
                59,
                "CommandNotFound",
                "docpage has no command '",
                Some("'"),
            ),
            Reason::UnsupportedQuery => (
                352,
                "UnsupportedOpQueryCommand",
                "docpage takes OP_QUERY for a handshake alone",
                None,
            ),
        };
        Row {
            code,
            name,
            before,
            behind,
        }
    }

    /// The text that a reply says, where the reason is about this.
    fn text(self, alloc: Global, about: &str) -> Result<String, NoMemory>
        ensures { IfOk result (λ s. string_bytes s ≡ text_of (row_of self) about.now) }
    {
        let row = self.row();
        let mut text = String::from_str(alloc, row.before)?;
        let Some(behind) = row.behind else {
            return Ok(text);
        };
        text.push_str(about)?;
        text.push_str(behind)?;
        Ok(text)
    }
}

/// The document that says a refusal.
fn refusal_document<'a>(
    alloc: Global,
    code: i32,
    name: &'a str,
    text: &'a str,
) -> Result<Document, NoMemory>
    ensures { IfOk result (λ d. d ≡ refusal_document code name.now text.now) }
{
    document_of(
        alloc,
        &[
            ("ok", Fact::Int64(0)),
            ("errmsg", Fact::Text(text)),
            ("code", Fact::Int32(code)),
            ("codeName", Fact::Text(name)),
        ],
    )
}

/// The reply to a message that is refused for a reason that is about this.
pub fn refusal_reply(alloc: Global, reason: Reason, about: &str) -> Result<Document, NoMemory>
    ensures { IfOk result (λ d. d ≡ refusal_reply reason about.now) }
{
    let text = reason.text(alloc, about)?;
    let row = reason.row();
    refusal_document(alloc, row.code, row.name, &text)
}
