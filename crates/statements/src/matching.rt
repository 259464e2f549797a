//! Which documents in memory a filter means.

ghost use Rattle.std.specs.Prelude.{◌≡◌};
ghost use Rattle.filter.specs.Matches.{matches};

use bson::Document;
use filter::Filter;

/// Whether a document matches a filter. It takes no memory.
pub(crate) fn matches(filter: &Filter, document: &Document) -> bool
    ensures { result ≡ matches filter.now document.now }
{
    filter.matches(document).unwrap()
}
