//! Which documents a pipeline needs.

ghost use Rattle.std.specs.Prelude.{◌≡◌, None, IfOk, IfSome, is_some, List, map, option_map};
ghost use Rattle.bson.specs.Tree.{Pairs};
ghost use Rattle.outcome.specs.Outcome.{Gives};
ghost use Rattle.std.specs.List.{filter};
ghost use Rattle.aggregate_model.specs.Limits.{first_fault};
ghost use Rattle.aggregate_model.specs.Pipeline.{run};
ghost use Rattle.pipelines.specs.GroupView.{grouping_of};
ghost use Rattle.aggregate_model.specs.Taking.{takes, behind_match, groups_first, leading_match, run_behind_groups, KeepsFirst, FirstAreEnough, SufficesTaken, IsEnough};
ghost use Rattle.pipelines.specs.View.{stage_of, pipeline_of};

use bson::{Document, NoMemory};
use bson_bytes::RawDoc;
use filter::Filter;
use path::Refusal;
use pipelines::{Pipeline, Stage};
use sort::{AsDocument, Sort, laws};
use std::alloc::Global;

/// A `$sort` in front, or behind a `$match` in front, of which a pipeline keeps the first documents alone.
#[derive(Drop)]
pub struct FirstSorted<'a> {
    pub sort: &'a Sort,
    /// How many of them are enough.
    pub most: usize,
}

/// The stages behind a `$match` in front.
pub(crate) fn behind_match(stages: &[Stage]) -> &[Stage]
    ensures { map stage_of result.now ≡ behind_match (map stage_of stages.now) }
{
    match stages.split_first() {
        Some((Stage::Match(_), behind)) => behind,
        _ => stages,
    }
}

/// How many of the first documents are enough for the stages, where a `$limit` says so.
fn enough(stages: &[Stage]) -> Option<usize>
    ensures { IfSome result (λ most. FirstAreEnough (map stage_of stages.now) most) }
{
    match stages.split_first() {
        Some((Stage::Limit(most), _)) => Some(*most),
        Some((Stage::Skip(skipped), behind)) => enough(behind)?.checked_add(*skipped),
        _ => None,
    }
}

/// The filter of a `$match` in front of a pipeline, by which alone it takes a document.
pub fn leading_match(pipeline: &Pipeline) -> Option<&Filter>
    ensures { option_map (λ f. f.now) result ≡ leading_match (pipeline_of pipeline.now) }
{
    match pipeline.stages.first() {
        Some(Stage::Match(filter)) => Some(filter),
        _ => None,
    }
}

/// Whether a pipeline takes a document at all: where its first stage is a `$match`, whether that matches. It makes the same
/// of the documents that it takes as of all of them. The document stays its bytes.
pub fn takes_raw(
    alloc: Global,
    pipeline: &Pipeline,
    document: &RawDoc<'_>,
) -> Result<bool, NoMemory>
    ensures { IfOk result (λ answer. answer ≡ takes (pipeline_of pipeline.now) document.now) }
{
    match pipeline.stages.first() {
        Some(Stage::Match(filter)) => filter.matches_raw(alloc, document),
        _ => Ok(true),
    }
}

/// How many of the first documents that a pipeline takes are enough, if all are within the limits: where there is a
/// `$limit` behind no stage but a `$match` and `$skip`s.
pub fn most_needed(pipeline: &Pipeline) -> Option<usize>
    ensures { IfSome result (λ most. SufficesTaken (pipeline_of pipeline.now) most) }
{
    enough(behind_match(&pipeline.stages))
}

/// The `$sort` of which a pipeline keeps the first documents alone, where there is one in front or behind a `$match` in
/// front.
pub fn first_sorted(pipeline: &Pipeline) -> Option<FirstSorted<'_>>
    ensures { IfSome result
        (λ first. KeepsFirst (pipeline_of pipeline.now) first.sort.now first.most) }
{
    let Some((Stage::Sort(sort), behind)) = behind_match(&pipeline.stages).split_first() else {
        return None;
    };
    let most = enough(behind)?;
    laws::sorts_in_parts();
    Some(FirstSorted { sort, most })
}

/// Those of documents that a pipeline still needs, where these are enough of all that it has taken so far: where it sorts
/// them and keeps the first ones, these alone.
pub fn still_needed<'a, T: AsDocument>(
    pipeline: &Pipeline,
    these: Vec<&'a T>,
) -> Result<Vec<&'a T>, NoMemory>
    ensures { (seen : List Pairs)
        → IsEnough (pipeline_of pipeline.now) (map (λ d. T.document d.now) these.entry.items) seen
        → IfOk result (λ v. IsEnough (pipeline_of pipeline.now)
        (map (λ d. T.document d.now) v.items) seen) }
{
    let Some(first) = first_sorted(pipeline) else {
        return Ok(these);
    };
    if these.len() <= first.most {
        return Ok(these);
    }
    let mut ordered = first.sort.order_shared(these)?;
    ordered.truncate(first.most);
    Ok(ordered)
}
