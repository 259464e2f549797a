//! Why a command was refused.

ghost use Rattle.std.specs.Prelude.{◌≡◌, pos};
ghost use Rattle.path.specs.Refusals.{row_of};
ghost use Rattle.path.specs.declared.refusal.Refusal.TheVariants as refusals;

use std::alloc::{AllocError, AllocFailed};

/// Why a command was refused. Each has a number, a name and a text, which its reply says.
#[derive(Clone, Copy, Debug, PartialEq, Eq)]
pub enum Refusal {
    /// A value that is out of range or may not stand there.
    BadValue,
    /// A field that the command does not have, or one that it lacks.
    FailedToParse,
    /// A value of another type than its field takes.
    TypeMismatch,
    /// Bytes that are no document.
    InvalidBSON,
    /// A collection that is not there.
    NamespaceNotFound,
    /// An index that is not there.
    IndexNotFound,
    /// A path that leads through a value which can hold no such name.
    PathNotViable,
    /// Two paths of an update that are equal, or one of which leads to the other.
    ConflictingUpdateOperators,
    /// A cursor that is not the connection's, or has ended.
    CursorNotFound,
    /// A collection that is there already.
    NamespaceExists,
    /// A name that begins with `$`.
    DollarPrefixedFieldName,
    /// An empty name.
    EmptyFieldName,
    /// A name of a stored document that contains a dot.
    DottedFieldName,
    /// A command that is not known.
    CommandNotFound,
    /// An update that would change an `_id`.
    ImmutableField,
    /// A database or a collection that may not be called so.
    InvalidNamespace,
    /// An index that is there with another definition or under another name.
    IndexOptionsConflict,
    /// A document with arrays at two fields of one index.
    CannotIndexParallelArrays,
    /// A key text of more than 500 bytes.
    KeyTooLong,
    /// More documents, cursors, collections or indexes than there may be.
    TooMany,
    /// A file in which no page is free.
    Full,
    /// Memory ran out.
    OutOfMemory,
    /// A device that failed, or a page that is damaged.
    StorageFailed,
    /// A document above the limit.
    BSONObjectTooLarge,
    /// A key that is there already.
    DuplicateKey,
}

impl Refusal {
    /// The number that clients tell refusals apart by.
    pub fn code(self) -> i32
        ensures { result ≡ pos (row_of self).code }
    {
        match self {
            Refusal::BadValue => 2,
            Refusal::FailedToParse => 9,
            Refusal::TypeMismatch => 14,
            Refusal::InvalidBSON => 22,
            Refusal::NamespaceNotFound => 26,
            Refusal::IndexNotFound => 27,
            Refusal::PathNotViable => 28,
            Refusal::ConflictingUpdateOperators => 40,
            Refusal::CursorNotFound => 43,
            Refusal::NamespaceExists => 48,
            Refusal::DollarPrefixedFieldName => 52,
            Refusal::EmptyFieldName => 56,
            Refusal::DottedFieldName => 57,
            Refusal::CommandNotFound => 59,
            Refusal::ImmutableField => 66,
            Refusal::InvalidNamespace => 73,
            Refusal::IndexOptionsConflict => 85,
            Refusal::CannotIndexParallelArrays => 171,
            Refusal::KeyTooLong => 9001,
            Refusal::TooMany => 9002,
            Refusal::Full => 9003,
            Refusal::OutOfMemory => 9004,
            Refusal::StorageFailed => 9005,
            Refusal::BSONObjectTooLarge => 10334,
            Refusal::DuplicateKey => 11000,
        }
    }

    /// The name beside the number.
    pub fn name(self) -> &'static str
        ensures { result.now ≡ (row_of self).name }
    {
        match self {
            Refusal::BadValue => "BadValue",
            Refusal::FailedToParse => "FailedToParse",
            Refusal::TypeMismatch => "TypeMismatch",
            Refusal::InvalidBSON => "InvalidBSON",
            Refusal::NamespaceNotFound => "NamespaceNotFound",
            Refusal::IndexNotFound => "IndexNotFound",
            Refusal::PathNotViable => "PathNotViable",
            Refusal::ConflictingUpdateOperators => "ConflictingUpdateOperators",
            Refusal::CursorNotFound => "CursorNotFound",
            Refusal::NamespaceExists => "NamespaceExists",
            Refusal::DollarPrefixedFieldName => "DollarPrefixedFieldName",
            Refusal::EmptyFieldName => "EmptyFieldName",
            Refusal::DottedFieldName => "DottedFieldName",
            Refusal::CommandNotFound => "CommandNotFound",
            Refusal::ImmutableField => "ImmutableField",
            Refusal::InvalidNamespace => "InvalidNamespace",
            Refusal::IndexOptionsConflict => "IndexOptionsConflict",
            Refusal::CannotIndexParallelArrays => "CannotIndexParallelArrays",
            Refusal::KeyTooLong => "KeyTooLong",
            Refusal::TooMany => "TooMany",
            Refusal::Full => "Full",
            Refusal::OutOfMemory => "OutOfMemory",
            Refusal::StorageFailed => "StorageFailed",
            Refusal::BSONObjectTooLarge => "BSONObjectTooLarge",
            Refusal::DuplicateKey => "DuplicateKey",
        }
    }

    /// A few words for people.
    pub fn text(self) -> &'static str
        ensures { result.now ≡ (row_of self).text }
    {
        match self {
            Refusal::BadValue => "bad value",
            Refusal::FailedToParse => "command not understood",
            Refusal::TypeMismatch => "wrong type",
            Refusal::InvalidBSON => "invalid BSON",
            Refusal::NamespaceNotFound => "no such collection",
            Refusal::IndexNotFound => "no such index",
            Refusal::PathNotViable => "path not viable",
            Refusal::ConflictingUpdateOperators => "conflicting paths",
            Refusal::CursorNotFound => "no such cursor",
            Refusal::NamespaceExists => "collection exists",
            Refusal::DollarPrefixedFieldName => "name begins with $",
            Refusal::EmptyFieldName => "empty name",
            Refusal::DottedFieldName => "name contains .",
            Refusal::CommandNotFound => "no such command",
            Refusal::ImmutableField => "_id can not change",
            Refusal::InvalidNamespace => "bad collection name",
            Refusal::IndexOptionsConflict => "index differs",
            Refusal::CannotIndexParallelArrays => "two arrays in one index",
            Refusal::KeyTooLong => "key too long",
            Refusal::TooMany => "too many",
            Refusal::Full => "file is full",
            Refusal::OutOfMemory => "out of memory",
            Refusal::StorageFailed => "storage failed",
            Refusal::BSONObjectTooLarge => "document too large",
            Refusal::DuplicateKey => "duplicate key",
        }
    }
}

impl From<AllocError> for Refusal {
    ghost from_gives = { λ _ e. e ≡ refusals.OutOfMemory };

    fn from(_error: AllocError) -> Refusal {
        Refusal::OutOfMemory
    }
}

impl<T: Drop> From<AllocFailed<T>> for Refusal {
    ghost from_gives = { λ _ e. e ≡ refusals.OutOfMemory };

    fn from(_error: AllocFailed<T>) -> Refusal {
        Refusal::OutOfMemory
    }
}
