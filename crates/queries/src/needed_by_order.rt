//! The documents that a pipeline needs, where it keeps the first ones in the order of a `$sort`, and they can be read in that order.

ghost use Rattle.std.specs.Prelude.{◌≡◌, All, IfOk, IfSome, take};
ghost use Rattle.pipelines.specs.View.{pipeline_of};
ghost use Rattle.collections.specs.Lookups.{ReadsOf};
ghost use Rattle.database_model.specs.Aggregate.{AreEnough};
ghost use Rattle.database_model.specs.Find.{matching};
ghost use Rattle.database_model.specs.Lawful.{IsWithin};
ghost use Rattle.filter.specs.Condition.{no_conditions};
ghost use Rattle.asked_documents.specs.Asking.{IsAsked};
ghost use Rattle.queries.specs.Folding.{AsksTaken};
ghost use Rattle.sort.specs.Sort.{order};

use crate::by_order::first_by_index;
use crate::id_order::keeps_id_order;
use crate::looking_up::spelled_in;
use crate::ordering::built_all;
use aggregate::{first_sorted, leading_match};
use bson::Document;
use bson_bytes::SpelledDocument;
use collections::Collections;
use entries::Catalogued;
use filter::Filter;
use page::Disk;
use path::Refusal;
use pipelines::Pipeline;
use sort::Sort;
use std::alloc::Global;

/// The filter of a `$match` in front of a pipeline; the one that all documents match where there is none.
fn asked_by<'a>(pipeline: &'a Pipeline, all: &'a Filter) -> &'a Filter
    requires { all.now ≡ no_conditions }
    ensures { AsksTaken (pipeline_of pipeline.now) result.now }
{
    match leading_match(pipeline) {
        Some(filter) => filter,
        None => all,
    }
}

/// The first documents of a collection in the order of a sort that match a filter, up to so many, where they are read in that order:
/// it is that of their `_id`s, or an index in it leads to them soon.
fn first_in_order<D: Disk>(
    alloc: Global,
    file: &mut Collections<D>,
    home: &Catalogued,
    filter: &Filter,
    sort: &Sort,
    most: usize,
) -> Result<Option<Vec<SpelledDocument>>, Refusal>
    ensures reads { ReadsOf D.history (IsAsked home.now)
        (λ now c found. IfSome found
        (λ v. v.items ≡ take most (order sort.now (matching filter.now c.documents))))
        result file.old file.new }
    ensures within { IfOk result (λ found. IfSome found (λ v. All IsWithin v.items)) }
{
    if file.is_stopped() {
        return Err(Refusal::StorageFailed);
    }
    if keeps_id_order(sort) {
        let found = spelled_in(alloc, file, home, filter, most)?;
        return Ok(Some(found));
    }
    first_by_index(alloc, file, home, filter, sort, most)
}

/// The documents of a collection that a pipeline needs, read in the order of its `$sort`, where it keeps the first ones alone and
/// that is the order of their `_id`s, or an index in it leads to them soon.
pub(crate) fn needed_by_order<D: Disk>(
    alloc: Global,
    file: &mut Collections<D>,
    home: &Catalogued,
    pipeline: &Pipeline,
) -> Result<Option<Vec<Document>>, Refusal>
    ensures reads { ReadsOf D.history (IsAsked home.now)
        (λ now c found. IfSome found
        (λ few. AreEnough (pipeline_of pipeline.now) few.items c.documents))
        result file.old file.new }
    ensures within { IfOk result (λ found. IfSome found (λ few. All IsWithin few.items)) }
{
    if file.is_stopped() {
        return Err(Refusal::StorageFailed);
    }
    let Some(first) = first_sorted(pipeline) else {
        return Ok(None);
    };
    let all = Filter::new(alloc);
    let filter = asked_by(pipeline, &all);
    let Some(found) = first_in_order(alloc, file, home, filter, first.sort, first.most)? else {
        return Ok(None);
    };
    let built = built_all(alloc, found)?;
    Ok(Some(built))
}
