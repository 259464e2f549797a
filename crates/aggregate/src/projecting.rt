//! What `$project` makes of documents.

ghost use Rattle.std.specs.Prelude.{◌≡◌, map};
ghost use Rattle.bson.specs.Tree.{document as whole_tree};
ghost use Rattle.outcome.specs.Outcome.{Gives};
ghost use Rattle.aggregate_model.specs.PathValue.{path_value};
ghost use Rattle.aggregate_model.specs.Project.{put_last, with_all_computed, projected, all_projected};
ghost use Rattle.pipelines.specs.View.{computed_of, projecting_of};

use crate::path_value::path_value;
use bson::Document;
use path::{Refusal, remove_from, write_into};
use pipelines::{Computed, Projecting};
use std::alloc::Global;

/// Puts a field behind the others, in a document that was taken of the whole one.
fn put_last(
    alloc: Global,
    computed: &Computed,
    whole: &Document,
    document: Document,
) -> Result<Document, Refusal>
    ensures { let c = computed_of computed.now in Gives Refusal.OutOfMemory (λ d. d) result
        (put_last c.name (path_value c.source (whole_tree whole.now)) document) }
{
    let found = path_value(alloc, whole, &computed.source)?;
    let left = remove_from(document, &computed.name);
    match found.into_value()? {
        Some(value) => write_into(alloc, left, &computed.name, value),
        None => Ok(left),
    }
}

fn with_all_computed(
    alloc: Global,
    all: &[Computed],
    whole: &Document,
    document: Document,
) -> Result<Document, Refusal>
    ensures { Gives Refusal.OutOfMemory (λ d. d) result
        (with_all_computed (map computed_of all.now) whole.now document) }
{
    let mut document = document;
    'all: for computed in all {
        document = put_last(alloc, computed, whole, document)?;
    }
    Ok(document)
}

/// What a projection gives of a document.
fn projected(projecting: &Projecting, document: &Document) -> Result<Document, Refusal>
    ensures { Gives Refusal.OutOfMemory (λ d. d) result
        (projected (projecting_of projecting.now) document.now) }
{
    let taken = projecting.taken.of(document)?;
    with_all_computed(projecting.alloc, &projecting.computed, document, taken)
}

/// What a projection gives of each document.
pub(crate) fn all_projected(
    alloc: Global,
    projecting: &Projecting,
    documents: &[Document],
) -> Result<Vec<Document>, Refusal>
    ensures { Gives Refusal.OutOfMemory (λ v. v.items) result
        (all_projected (projecting_of projecting.now) documents.now) }
{
    let mut given = Vec::with_capacity(alloc, documents.len())?;
    'documents: for document in documents {
        given.push(projected(projecting, document)?)?;
    }
    Ok(given)
}
