//! Documents of which some are told by their `_id`s: a walk finds the others, and asks no more of each document than it has to.

ghost use Rattle.std.specs.Prelude.{◌≡◌, ◌&&◌, ◌||◌, [], IfOk, map};
ghost use Rattle.database_model.specs.Documents.{key_of};
ghost use Rattle.index.specs.Changes.{is_among};
ghost use Rattle.asked_documents.specs.ById.{one_matches};
ghost use Rattle.value_order.specs.KeyText.{tree_text};

use asked_documents::DocumentPredicate;
use bson::NoMemory;
use bson_bytes::RawDoc;
use candidate_ids::IdSet;
use filter::Filter;
use std::alloc::Global;

/// Those that are looked for, and that a filter matches or whose `_id`s are among these.
#[derive(Drop)]
pub(crate) struct PartlyTold<'a, S> {
    pub(crate) which: &'a S,
    pub(crate) ids: &'a IdSet,
    pub(crate) walked: &'a [&'a Filter],
}

/// Whether one of the filters matches a document that stays its bytes.
fn one_matches(alloc: Global, filters: &[&Filter], document: &RawDoc<'_>) -> Result<bool, NoMemory>
    ensures { IfOk result
        (λ answer. answer ≡ one_matches (map (λ f. f.now) filters.now) document.now) }
{
    'filters: for filter in filters {
        if filter.matches_raw(alloc, document)? {
            return Ok(true);
        }
    }
    Ok(false)
}

/// Whether one of the filters matches it, or its `_id` is among these.
fn is_beside(
    alloc: Global,
    filters: &[&Filter],
    ids: &IdSet,
    document: &RawDoc<'_>,
) -> Result<bool, NoMemory>
    ensures { IfOk result (λ answer. answer
        ≡ (one_matches (map (λ f. f.now) filters.now) document.now
        || is_among ids.now (tree_text (key_of document.now)))) }
{
    if one_matches(alloc, filters, document)? {
        return Ok(true);
    }
    ids.has_id_of(alloc, document)
}

impl<S: DocumentPredicate> DocumentPredicate for PartlyTold<'_, S> {
    ghost selects = { λ a d. (one_matches (map (λ f. f.now) a.walked.now) d
        || is_among a.ids.now (tree_text (key_of d))) && S.selects a.which.now d };

    ghost filters = { λ a. [] };

    fn selects_raw(&self, alloc: Global, document: &RawDoc<'_>) -> Result<bool, NoMemory> {
        if !is_beside(alloc, self.walked, self.ids, document)? {
            return Ok(false);
        }
        self.which.selects_raw(alloc, document)
    }

    fn filter_count(&self) -> usize {
        0
    }

    fn filter_at(&self, _at: usize) -> Option<&Filter> {
        None
    }

    fn put_ids(&self, _alloc: Global, _ids: &mut Vec<Vec<u8>>) -> Result<bool, NoMemory> {
        Ok(false)
    }

    fn asked_filter(&self) -> Option<&Filter> {
        None
    }
}
