//! The documents that a pipeline takes, as those that are looked for.

ghost use Rattle.std.specs.Prelude.{option_to_list};
ghost use Rattle.aggregate_model.specs.Taking.{leading_match, takes};
ghost use Rattle.pipelines.specs.View.{pipeline_of};

use aggregate::{leading_match, takes_raw};
use asked_documents::DocumentPredicate;
use bson::NoMemory;
use bson_bytes::RawDoc;
use filter::Filter;
use pipelines::Pipeline;
use std::alloc::Global;

/// Those that the pipeline takes.
#[derive(Clone, Copy)]
pub(crate) struct TakenBy<'a> {
    pub(crate) pipeline: &'a Pipeline,
}

impl DocumentPredicate for TakenBy<'_> {
    ghost selects = { λ a. takes (pipeline_of a.pipeline.now) };

    ghost filters = { λ a. option_to_list (leading_match (pipeline_of a.pipeline.now)) };

    fn selects_raw(&self, alloc: Global, document: &RawDoc<'_>) -> Result<bool, NoMemory> {
        takes_raw(alloc, self.pipeline, document)
    }

    fn filter_count(&self) -> usize {
        usize::from(leading_match(self.pipeline).is_some())
    }

    fn filter_at(&self, _at: usize) -> Option<&Filter> {
        leading_match(self.pipeline)
    }

    fn put_ids(&self, _alloc: Global, _ids: &mut Vec<Vec<u8>>) -> Result<bool, NoMemory> {
        Ok(leading_match(self.pipeline).is_some())
    }

    fn asked_filter(&self) -> Option<&Filter> {
        leading_match(self.pipeline)
    }
}
