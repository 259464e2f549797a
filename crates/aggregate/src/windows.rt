//! `$skip` and `$limit`.

ghost use Rattle.std.specs.Prelude.{◌≡◌, IfOk};
ghost use Rattle.aggregate_model.specs.Windows.{skipped, limited};

use bson::{Document, NoMemory};
use std::alloc::Global;

/// The documents without the first ones.
pub(crate) fn skipped(
    alloc: Global,
    count: usize,
    documents: Vec<Document>,
) -> Result<Vec<Document>, NoMemory>
    ensures { IfOk result (λ v. v.items ≡ skipped count documents.items) }
{
    documents.into_iter().skip(count).collect(alloc)
}

/// The first documents. It takes no memory.
pub(crate) fn limited(count: usize, documents: Vec<Document>) -> Vec<Document>
    ensures { result.items ≡ limited count documents.items }
{
    let mut documents = documents;
    documents.truncate(count);
    documents
}
