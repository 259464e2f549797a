//! The documents that the statements of a delete match.

ghost use Rattle.std.specs.Prelude.{map};
ghost use Rattle.database_model.specs.Merging.{is_deleted};

use asked_documents::DocumentPredicate;
use bson::NoMemory;
use bson_bytes::RawDoc;
use commands::Deletion;
use filter::Filter;
use statements::is_deleted;
use std::alloc::Global;

/// The documents that a statement of a delete matches.
#[derive(Drop)]
pub struct Matched<'a> {
    pub deletions: &'a [Deletion],
}

impl DocumentPredicate for Matched<'_> {
    ghost selects = { λ a. is_deleted a.deletions.now };

    ghost filters = { λ a. map (λ d. d.filter) a.deletions.now };

    fn selects_raw(&self, alloc: Global, document: &RawDoc<'_>) -> Result<bool, NoMemory> {
        is_deleted(alloc, self.deletions, document)
    }

    fn filter_count(&self) -> usize {
        self.deletions.len()
    }

    fn filter_at(&self, at: usize) -> Option<&Filter> {
        match self.deletions.get(at) {
            Some(deletion) => Some(&deletion.filter),
            None => None,
        }
    }

    fn put_ids(&self, _alloc: Global, _ids: &mut Vec<Vec<u8>>) -> Result<bool, NoMemory> {
        Ok(true)
    }

    fn asked_filter(&self) -> Option<&Filter> {
        match self.deletions {
            [only] => Some(&only.filter),
            _ => None,
        }
    }
}
