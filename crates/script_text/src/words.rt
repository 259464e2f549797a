//! The words with which lines begin.

/// What a line says.
#[derive(Clone, Copy, Debug, PartialEq, Eq)]
pub enum Word {
    Command,
    WholeCommand,
    Look,
    Fill,
    Raw,
    Refusal,
    With,
    Flags,
    Bytes,
    Patch,
    Pieces,
    Answer,
    Documents,
    Ids,
    Frame,
    None,
    Closed,
    Stopped,
    Gone,
    Reopen,
    Last,
    Stop,
    Fail,
    Cut,
    Calls,
    Check,
    Put,
    Sector,
    Json,
    Text,
    Bson,
    Is,
    Canonical,
    Relaxed,
    Fault,
}

/// Each word as it is written.
const WORDS: [(&str, Word); 35] = [
    (">", Word::Command),
    (">>", Word::WholeCommand),
    ("look", Word::Look),
    ("fill", Word::Fill),
    ("raw", Word::Raw),
    ("!", Word::Refusal),
    ("with", Word::With),
    ("flags", Word::Flags),
    ("bytes", Word::Bytes),
    ("patch", Word::Patch),
    ("pieces", Word::Pieces),
    ("<", Word::Answer),
    ("docs", Word::Documents),
    ("ids", Word::Ids),
    ("reply", Word::Frame),
    ("none", Word::None),
    ("closed", Word::Closed),
    ("stopped", Word::Stopped),
    ("gone", Word::Gone),
    ("reopen", Word::Reopen),
    ("last", Word::Last),
    ("stop", Word::Stop),
    ("fail", Word::Fail),
    ("cut", Word::Cut),
    ("calls", Word::Calls),
    ("check", Word::Check),
    ("put", Word::Put),
    ("sector", Word::Sector),
    ("json", Word::Json),
    ("text", Word::Text),
    ("bson", Word::Bson),
    ("is", Word::Is),
    ("canonical", Word::Canonical),
    ("relaxed", Word::Relaxed),
    ("fault", Word::Fault),
];

/// What a line begins with: a word, the cursor that a batch leaves open (`docs+3`), and the rest.
#[derive(Clone, Copy)]
pub struct Head<'a> {
    pub word: Option<Word>,
    pub cursor: &'a str,
    pub rest: &'a str,
}

/// The word that is written so.
fn word_named(name: &str) -> Option<Word> {
    for (written, word) in WORDS {
        if written == name {
            return Some(word);
        }
    }
    None
}

/// Takes the front of a line apart.
pub fn head_of(line: &str) -> Head<'_> {
    let (front, rest) = line.split_once(' ').unwrap_or((line, ""));
    let (name, cursor) = front.split_once('+').unwrap_or((front, "0"));
    Head {
        word: word_named(name),
        cursor,
        rest: rest.trim(),
    }
}

/// What a line is: a message or a change of one, an answer, what happens between messages, a row of a table.
#[derive(Clone, Copy, Debug, PartialEq, Eq)]
pub enum Kind {
    Message,
    Change,
    Answer,
    Between,
    Row,
}

impl Word {
    /// What a line with this word is.
    pub fn kind(self) -> Kind {
        match self {
            Word::Command
            | Word::WholeCommand
            | Word::Look
            | Word::Fill
            | Word::Raw
            | Word::Refusal => Kind::Message,
            Word::With | Word::Flags | Word::Bytes | Word::Patch | Word::Pieces => Kind::Change,
            Word::Answer
            | Word::Documents
            | Word::Ids
            | Word::Frame
            | Word::None
            | Word::Closed
            | Word::Stopped => Kind::Answer,
            Word::Gone
            | Word::Reopen
            | Word::Last
            | Word::Stop
            | Word::Fail
            | Word::Cut
            | Word::Calls
            | Word::Check
            | Word::Put
            | Word::Sector => Kind::Between,
            Word::Json
            | Word::Text
            | Word::Bson
            | Word::Is
            | Word::Canonical
            | Word::Relaxed
            | Word::Fault => Kind::Row,
        }
    }

    /// Whether a line with this word belongs to the message above it: it changes that, or is its answer.
    pub fn goes_with_a_message(self) -> bool {
        matches!(self.kind(), Kind::Change | Kind::Answer)
    }
}
