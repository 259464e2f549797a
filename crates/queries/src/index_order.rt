//! The order of an index in which the documents that a query asks for can be read.

ghost use Rattle.std.specs.Prelude.{IfOk, IfSome};
ghost use Rattle.queries.specs.IndexOrder.{IsOrderOf};

use bson::NoMemory;
use candidate_ids::range_asked;
use filter::Filter;
use index::IndexSpec;
use sort::Sort;
use std::alloc::Global;

/// An index that has one entry for each document, in the order of a sort, and between which texts the entries lie of all documents that
/// a filter matches.
#[derive(Drop)]
pub struct IndexOrder<'a> {
    pub index: &'a IndexSpec,
    /// The entries begin with the first one that has this text or one above it.
    pub first: Vec<u8>,
    /// They end with those of this text and of all that goes on from it.
    pub last: Vec<u8>,
}

/// The order of the index that serves a filter and a sort best, where it stands in the order of that sort.
pub fn order_asked<'a>(
    alloc: Global,
    filter: &'a Filter,
    sort: &Sort,
    indexes: &'a [IndexSpec],
) -> Result<Option<IndexOrder<'a>>, NoMemory>
    ensures { IfOk result (λ found. IfSome found (IsOrderOf filter.now sort.now indexes.now)) }
{
    let Some(range) = range_asked(filter, sort, indexes) else {
        return Ok(None);
    };
    let Some(index) = range.index else {
        return Ok(None);
    };
    if !range.is_sorted {
        return Ok(None);
    }
    let span = range.span(alloc)?;
    Ok(Some(IndexOrder {
        index,
        first: span.first,
        last: span.last,
    }))
}
