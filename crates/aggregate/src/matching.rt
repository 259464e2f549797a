//! `$match`.

ghost use Rattle.std.specs.Prelude.{◌≡◌};
ghost use Rattle.filter.specs.Matches.{matches};
ghost use Rattle.aggregate_model.specs.Match.{matching};

use bson::Document;
use filter::Filter;

/// Whether a document matches a filter. It takes no memory.
pub(crate) fn matches(filter: &Filter, document: &Document) -> bool
    ensures { result ≡ matches filter.now document.now }
{
    filter.matches(document).unwrap()
}

/// The documents that match, in their order. It takes no memory.
pub(crate) fn matching(filter: &Filter, documents: Vec<Document>) -> Vec<Document>
    ensures { result.items ≡ matching filter.now documents.items }
{
    let mut documents = documents;
    documents.retain(|document| matches(filter, document));
    documents
}
