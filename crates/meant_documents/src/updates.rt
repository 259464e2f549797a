//! The documents that the statements of an update may mean.

ghost use Rattle.std.specs.Prelude.{◌≡◌, ◌++◌, true, IfErr, IfOk, OnOk, map};
ghost use Rattle.std.specs.Ordering.{is_eq};
ghost use Rattle.value_order.specs.Order.{compare};
ghost use Rattle.database_model.specs.Documents.{key_of};
ghost use Rattle.database_model.specs.Merging.{has_key_of, is_meant_by, is_updated, made_by, made_of};
ghost use Rattle.index.specs.View.{texts_of};
ghost use Rattle.asked_documents.specs.ById.{ArePut, TellIds};

use asked_documents::DocumentPredicate;
use bson::{Document, NoMemory};
use bson_bytes::RawDoc;
use candidate_ids::put_id;
use commands::UpdateStatement;
use filter::Filter;
use path::Refusal;
use statements::{unless_memory, upsert_document};
use std::alloc::Global;
use stored_documents::{ID, compare_id, read_id};

/// Adds the document that a statement makes where none matches.
fn add_made(
    alloc: Global,
    statement: &UpdateStatement,
    made: &mut Vec<Document>,
) -> Result<(), Refusal>
    ensures ok { OnOk result (made.new.items ≡ made.old.items ++ made_of statement.now) }
    ensures err { IfErr result (λ e. e ≡ Refusal.OutOfMemory) }
{
    if !statement.upsert {
        return Ok(());
    }
    let document = match upsert_document(alloc, statement) {
        Ok(document) => document,
        Err(refusal) => {
            let _refusal = unless_memory(refusal)?;
            return Ok(());
        }
    };
    made.push(document)?;
    Ok(())
}

/// The documents that statements make where none matches. An `Err` is for want of memory.
pub fn all_made(alloc: Global, statements: &[UpdateStatement]) -> Result<Vec<Document>, Refusal>
    ensures ok { IfOk result (λ made. made.items ≡ made_by statements.now) }
    ensures err { IfErr result (λ e. e ≡ Refusal.OutOfMemory) }
{
    let mut made = Vec::new(alloc);
    'statements: for statement in statements {
        add_made(alloc, statement, &mut made)?;
    }
    Ok(made)
}

/// Whether a statement matches a document that stays its bytes.
fn is_updated_raw(
    alloc: Global,
    statements: &[UpdateStatement],
    document: &RawDoc<'_>,
) -> Result<bool, NoMemory>
    ensures { IfOk result (λ answer. answer ≡ is_updated statements.now document.now) }
{
    'statements: for statement in statements {
        if statement.filter.matches_raw(alloc, document)? {
            return Ok(true);
        }
    }
    Ok(false)
}

/// Whether one of these documents has the `_id` of another, which stays its bytes.
fn has_id_of_raw(
    alloc: Global,
    documents: &[Document],
    other: &RawDoc<'_>,
) -> Result<bool, NoMemory>
    ensures { IfOk result (λ answer. answer ≡ has_key_of documents.now other.now) }
{
    if documents.is_empty() {
        return Ok(false);
    }
    let id = read_id(alloc, other)?;
    Ok(
        documents
            .iter()
            .any(|document| compare_id(document, &id).is_eq()),
    )
}

/// Puts the key text of a document's `_id` behind others; false where it has none, or a longer one than a
/// stored document's.
fn put_id_of(alloc: Global, ids: &mut Vec<Vec<u8>>, document: &Document) -> Result<bool, NoMemory>
    ensures put { OnOk result (ArePut (texts_of ids.old.items) (texts_of ids.new.items)) }
    ensures tells { IfOk result (λ told. told ≡ true
        → TellIds (λ d. is_eq (compare (key_of document.now) (key_of d)))
        (texts_of ids.new.items)) }
{
    match document.get(ID) {
        Some(id) => put_id(alloc, ids, id),
        None => Ok(false),
    }
}

/// Puts the key texts of the `_id`s of documents behind others.
fn put_ids_of(
    alloc: Global,
    ids: &mut Vec<Vec<u8>>,
    documents: &[Document],
) -> Result<bool, NoMemory>
    ensures put { OnOk result (ArePut (texts_of ids.old.items) (texts_of ids.new.items)) }
    ensures tells { IfOk result (λ told. told ≡ true
        → TellIds (has_key_of documents.now) (texts_of ids.new.items)) }
{
    'documents: for document in documents {
        if !put_id_of(alloc, ids, document)? {
            return Ok(false);
        }
    }
    Ok(true)
}

/// The documents that a statement of an update matches, and those that have the `_id` of one that is made.
#[derive(Drop)]
pub struct Meaning<'a> {
    pub statements: &'a [UpdateStatement],
    /// What the statements make where none matches (`all_made`).
    pub made: &'a [Document],
}

impl DocumentPredicate for Meaning<'_> {
    ghost selects = { λ a. is_meant_by a.statements.now a.made.now };

    ghost filters = { λ a. map (λ s. s.filter) a.statements.now };

    fn selects_raw(&self, alloc: Global, document: &RawDoc<'_>) -> Result<bool, NoMemory> {
        if is_updated_raw(alloc, self.statements, document)? {
            return Ok(true);
        }
        has_id_of_raw(alloc, self.made, document)
    }

    fn filter_count(&self) -> usize {
        self.statements.len()
    }

    fn filter_at(&self, at: usize) -> Option<&Filter> {
        match self.statements.get(at) {
            Some(statement) => Some(&statement.filter),
            None => None,
        }
    }

    fn put_ids(&self, alloc: Global, ids: &mut Vec<Vec<u8>>) -> Result<bool, NoMemory> {
        put_ids_of(alloc, ids, self.made)
    }

    fn asked_filter(&self) -> Option<&Filter> {
        let [only] = self.statements else {
            return None;
        };
        if self.made.is_empty() {
            Some(&only.filter)
        } else {
            None
        }
    }
}
