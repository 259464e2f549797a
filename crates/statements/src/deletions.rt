//! The statements of a delete, run over documents in memory.

ghost use Rattle.std.specs.Prelude.{◌≡◌, ◌++◌, IfOk, OnOk};
ghost use Rattle.std.specs.List.{filter as list_filter, position};
ghost use Rattle.filter.specs.Matches.{matches};
ghost use Rattle.database_model.specs.Delete.{without_first, after_deletion, after_deletions};
ghost use Rattle.database_model.specs.Merging.{is_deleted};
ghost use Rattle.statements.specs.Redoing.{first_taken, taken, all_taken};

use crate::matching::matches;
use bson::NoMemory;
use bson_bytes::RawDoc;
use commands::Deletion;
use filter::Filter;
use replies::SharedDocument;
use std::alloc::Global;

/// Where the first document stands that matches a filter.
fn first_match(filter: &Filter, documents: &[SharedDocument]) -> Option<usize>
    ensures { result ≡ position (matches filter.now) documents.now }
{
    documents
        .iter()
        .position(|document| matches(filter, document.document()))
}

/// The first document that matches a filter moves from the documents to those that are removed.
fn delete_first(
    filter: &Filter,
    documents: &mut Vec<SharedDocument>,
    removed: &mut Vec<SharedDocument>,
) -> Result<(), NoMemory>
    ensures left { OnOk result
        (documents.new.items ≡ without_first (matches filter.now) documents.old.items) }
    ensures removed { OnOk result (removed.new.items
        ≡ removed.old.items ++ first_taken (matches filter.now) documents.old.items) }
{
    if let Some(place) = first_match(filter, documents) {
        removed.push(documents.remove(place))?;
    }
    Ok(())
}

/// Shares the documents that match a filter with those that are removed.
fn share_matches(
    filter: &Filter,
    documents: &[SharedDocument],
    removed: &mut Vec<SharedDocument>,
) -> Result<(), NoMemory>
    ensures { OnOk result
        (removed.new.items ≡ removed.old.items ++ list_filter (matches filter.now) documents.now) }
{
    'documents: for document in documents {
        if matches(filter, document.document()) {
            removed.push(document.share()?)?;
        }
    }
    Ok(())
}

/// The documents that a statement means move to those that are removed.
fn run_deletion(
    deletion: &Deletion,
    documents: &mut Vec<SharedDocument>,
    removed: &mut Vec<SharedDocument>,
) -> Result<(), NoMemory>
    ensures left { OnOk result
        (documents.new.items ≡ after_deletion deletion.now documents.old.items) }
    ensures removed { OnOk result
        (removed.new.items ≡ removed.old.items ++ taken deletion.now documents.old.items) }
{
    if deletion.only_first {
        return delete_first(&deletion.filter, documents, removed);
    }
    share_matches(&deletion.filter, documents, removed)?;
    documents.retain(|document| !matches(&deletion.filter, document.document()));
    Ok(())
}

/// Runs one statement after the other.
fn run_deletions(
    deletions: &[Deletion],
    documents: &mut Vec<SharedDocument>,
    removed: &mut Vec<SharedDocument>,
) -> Result<(), NoMemory>
    ensures left { OnOk result
        (documents.new.items ≡ after_deletions deletions.now documents.old.items) }
    ensures removed { OnOk result
        (removed.new.items ≡ removed.old.items ++ all_taken deletions.now documents.old.items) }
{
    'deletions: for deletion in deletions {
        run_deletion(deletion, documents, removed)?;
    }
    Ok(())
}

/// What a delete leaves of documents, and those that it removes, in the order of its statements.
#[derive(Drop)]
pub struct Left {
    pub documents: Vec<SharedDocument>,
    pub removed: Vec<SharedDocument>,
}

/// The documents that statements leave, one statement after the other.
pub fn after_deletions(
    alloc: Global,
    documents: &[SharedDocument],
    deletions: &[Deletion],
) -> Result<Left, NoMemory>
    ensures left { IfOk result
        (λ l. l.documents.items ≡ after_deletions deletions.now documents.now) }
    ensures removed { IfOk result
        (λ l. l.removed.items ≡ all_taken deletions.now documents.now) }
{
    let mut rest = Vec::with_capacity(alloc, documents.len())?;
    'documents: for document in documents {
        rest.push(document.share()?)?;
    }
    let mut removed = Vec::new(alloc);
    run_deletions(deletions, &mut rest, &mut removed)?;
    Ok(Left {
        documents: rest,
        removed,
    })
}

/// Whether a statement matches a document that stays its bytes.
pub fn is_deleted(
    alloc: Global,
    deletions: &[Deletion],
    document: &RawDoc<'_>,
) -> Result<bool, NoMemory>
    ensures { IfOk result (λ answer. answer ≡ is_deleted deletions.now document.now) }
{
    'deletions: for deletion in deletions {
        if deletion.filter.matches_raw(alloc, document)? {
            return Ok(true);
        }
    }
    Ok(false)
}
