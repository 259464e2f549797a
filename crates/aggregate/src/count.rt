//! `$count`.

ghost use Rattle.std.specs.Prelude.{◌≡◌};
ghost use Rattle.outcome.specs.Outcome.{Gives};
ghost use Rattle.aggregate_model.specs.Count.{number_document, counted};

use crate::fields::set_field;
use crate::numbers::total_value;
use bson::Document;
use path::Refusal;
use pipelines::FieldName;
use std::alloc::Global;

/// The document of one field that has this number.
fn number_document(alloc: Global, name: &FieldName, number: usize) -> Result<Document, Refusal>
    ensures { Gives Refusal.OutOfMemory (λ d. d) result (number_document name.now number) }
{
    let value = total_value(true, number as i128)?;
    set_field(Document::new(alloc), name.as_str(), value)
}

/// One document that says how many there are, or none where there is none.
pub(crate) fn counted(
    alloc: Global,
    name: &FieldName,
    documents: &[Document],
) -> Result<Vec<Document>, Refusal>
    ensures { Gives Refusal.OutOfMemory (λ v. v.items) result (counted name.now documents.now) }
{
    let mut given = Vec::new(alloc);
    if documents.is_empty() {
        return Ok(given);
    }
    given.push(number_document(alloc, name, documents.len())?)?;
    Ok(given)
}
