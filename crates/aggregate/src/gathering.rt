//! Groups of documents that come one after the other and stay their bytes.

ghost use Rattle.std.specs.Prelude.{◌≡◌, true, None, [], ◌∷◌, ◌++◌, IfOk, IfSome, List, OnOk, is_some, map};
ghost use Rattle.bson.specs.Tree.{Pairs};
ghost use Rattle.outcome.specs.Outcome.{Gives};
ghost use Rattle.aggregate.specs.Gathering.{HasGathered, after_groups};
ghost use Rattle.pipelines.specs.GroupView.{grouping_of};
ghost use Rattle.aggregate.specs.Groups.{entries_of};
ghost use Rattle.aggregate_model.specs.Limits.{first_fault};
ghost use Rattle.aggregate_model.specs.Pipeline.{run};
ghost use Rattle.aggregate_model.specs.Stage.{Stage as Step};
ghost use Rattle.aggregate_model.specs.Taking.{behind_match, groups_first};
ghost use Rattle.pipelines.specs.View.{pipeline_of, stage_of};

use crate::group_ids::id_value;
use crate::groups::Groups;
use crate::limits::within_limits;
use crate::running::run_stages;
use crate::taking::{behind_match, takes_raw};
use bson::{Document, NoMemory};
use bson_bytes::RawDoc;
use path::Refusal;
use pipelines::{Grouping, Pipeline, Stage};
use std::alloc::{AllocError, Global};

/// A pipeline that groups its documents, and the groups of those that it was given so far. It holds none of them. One
/// whose `_id` can't be made decides: then it is refused, whatever comes behind.
#[derive(Drop)]
pub struct Gathering<'a> {
    pipeline: &'a Pipeline,
    grouping: &'a Grouping,
    behind: &'a [Stage],
    groups: Groups,
    refused: Option<Refusal>,
}

/// What stages make of groups.
fn after_groups(
    alloc: Global,
    grouping: &Grouping,
    behind: &[Stage],
    groups: Groups,
    limit: u32,
) -> Result<Vec<Document>, Refusal>
    ensures { Gives Refusal.OutOfMemory (λ v. v.items) result
        (after_groups (grouping_of grouping.now) (entries_of groups) (map stage_of behind.now) limit) }
{
    let documents = groups.into_documents(alloc, &grouping.fields)?;
    run_stages(alloc, behind, within_limits(documents, limit)?, limit)
}

impl Gathering<'_> {
    /// The groups of no document yet, where a pipeline groups them before all else but a `$match`. `None` where it doesn't.
    pub fn of(pipeline: &Pipeline) -> Option<Gathering<'_>>
        ensures begun { IfSome result (λ g. HasGathered (pipeline_of pipeline.now) [] g) }
        ensures groups { is_some result ≡ groups_first (behind_match (pipeline_of pipeline.now)) }
    {
        match behind_match(&pipeline.stages).split_first() {
            Some((Stage::Group(grouping), behind)) => Some(Gathering {
                pipeline,
                grouping,
                behind,
                groups: Groups::new(pipeline.alloc),
                refused: None,
            }),
            _ => None,
        }
    }

    /// Whether it is refused, so that no other document changes anything.
    pub fn is_refused(&self) -> bool
        ensures { result ≡ true → (stages : List Step) (all more : List Pairs)
            → HasGathered stages all self.now → HasGathered stages (all ++ more) self.now }
    {
        self.refused.is_some()
    }

    /// Takes the next document, which stays its bytes, into its group.
    pub fn take(&mut self, alloc: Global, document: &RawDoc<'_>) -> Result<(), NoMemory>
        ensures { (stages : List Step) (all : List Pairs) → HasGathered stages all self.old
            → OnOk result (HasGathered stages (all ++ document.now ∷ []) self.new) }
    {
        if self.refused.is_some() || !takes_raw(alloc, self.pipeline, document)? {
            return Ok(());
        }
        match id_value(alloc, &self.grouping.id, document) {
            Ok(id) => self.groups.put(alloc, &self.grouping.fields, id, document),
            Err(Refusal::OutOfMemory) => Err(AllocError),
            Err(refusal) => {
                self.refused = Some(refusal);
                Ok(())
            }
        }
    }

    /// What the pipeline makes of the documents that it was given, where none of them is over a limit.
    ///
    /// Refused as `run` is.
    pub fn into_documents(self, alloc: Global, limit: u32) -> Result<Vec<Document>, Refusal>
        ensures runs { (stages : List Step) (all : List Pairs)
            → HasGathered stages all self.entry → first_fault limit all ≡ None
            → Gives Refusal.OutOfMemory (λ v. v.items) result (run stages limit all) }
        ensures within { IfOk result (λ v. first_fault limit v.items ≡ None) }
    {
        let Gathering {
            grouping,
            behind,
            groups,
            refused,
            pipeline: _,
        } = self;
        match refused {
            Some(refusal) => Err(refusal),
            None => after_groups(alloc, grouping, behind, groups, limit),
        }
    }
}
