//! What a document that a stage gives may be.

ghost use Rattle.std.specs.Prelude.{◌≡◌};
ghost use Rattle.outcome.specs.Outcome.{Gives};
ghost use Rattle.aggregate_model.specs.Limits.{limit_fault, first_fault, within_limits};

use bson::Document;
use path::Refusal;

/// The most levels of a document that a stage gives, itself among them.
pub const RESULT_LEVELS: u32 = 90;

/// `BSONObjectTooLarge` over `limit` bytes, else `BadValue` over 90 levels.
fn limit_fault(document: &Document, limit: u32) -> Option<Refusal>
    ensures { result ≡ limit_fault limit document.now }
{
    if (limit as usize) < document.encoded_len() {
        return Some(Refusal::BSONObjectTooLarge);
    }
    if RESULT_LEVELS < document.levels() {
        return Some(Refusal::BadValue);
    }
    None
}

/// The fault of the first document that has one.
fn first_fault(documents: &[Document], limit: u32) -> Option<Refusal>
    ensures { result ≡ first_fault limit documents.now }
{
    'documents: for document in documents {
        if let Some(refusal) = limit_fault(document, limit) {
            return Some(refusal);
        }
    }
    None
}

/// The documents, where none of them is over a limit: the first one that is decides.
pub(crate) fn within_limits(documents: Vec<Document>, limit: u32) -> Result<Vec<Document>, Refusal>
    ensures { Gives Refusal.OutOfMemory (λ v. v.items) result (within_limits limit documents.items) }
{
    match first_fault(&documents, limit) {
        Some(refusal) => Err(refusal),
        None => Ok(documents),
    }
}
