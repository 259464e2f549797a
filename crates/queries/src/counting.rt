//! How many documents of a collection match.

ghost use Rattle.std.specs.Prelude.{◌≡◌, length};
ghost use Rattle.collections.specs.Lookups.{ReadsOf};
ghost use Rattle.database_model.specs.Find.{matching};
ghost use Rattle.filter.specs.Matches.{matches};
ghost use Rattle.index.specs.View.{texts_of};
ghost use Rattle.asked_documents.specs.Asking.{IsAsked};
ghost use Rattle.asked_documents.specs.ById.{AreIdsOf};
ghost use Rattle.queries.specs.Folding.{Counts};

use bson_bytes::RawDoc;
use candidate_ids::asked_ids;
use collections::{Collections, DocumentFold};
use entries::Catalogued;
use filter::Filter;
use page::Disk;
use path::Refusal;
use std::alloc::Global;
use walks::{fold_asked, fold_by_ids};

/// How many documents match a filter, of those that are lent. No more of them is read than the filter asks for.
#[derive(Drop)]
struct Counting<'a> {
    alloc: Global,
    filter: &'a Filter,
    count: usize,
}

impl DocumentFold for Counting<'_> {
    ghost makes = { Counts };

    fn is_done(&self) -> bool {
        false
    }

    fn take(&mut self, document: &RawDoc<'_>) -> Result<(), Refusal> {
        if !self.filter.matches_raw(self.alloc, document)? {
            return Ok(());
        }
        self.count = self.count.saturating_add(1);
        Ok(())
    }
}

/// How many documents of a collection in a file match a filter, by a walk through it.
fn count_scanned<D: Disk>(
    alloc: Global,
    file: &mut Collections<D>,
    home: &Catalogued,
    filter: &Filter,
) -> Result<usize, Refusal>
    ensures { ReadsOf D.history (IsAsked home.now)
        (λ now c count. count ≡ length (matching filter.now c.documents))
        result file.old file.new }
{
    let counting = Counting {
        alloc,
        filter,
        count: 0,
    };
    Ok(fold_asked(alloc, file, home, filter, counting)?.count)
}

/// How many documents of the collection of a number match a filter, where those that do have some of these `_id`s, told by their
/// ascending key texts.
fn count_by_ids<D: Disk>(
    alloc: Global,
    file: &mut Collections<D>,
    number: u32,
    filter: &Filter,
    ids: &[Vec<u8>],
) -> Result<usize, Refusal>
    ensures { ReadsOf D.history (AreIdsOf number (matches filter.now) (texts_of ids.now))
        (λ now c count. count ≡ length (matching filter.now c.documents))
        result file.old file.new }
{
    let counting = Counting {
        alloc,
        filter,
        count: 0,
    };
    Ok(fold_by_ids(file, number, ids, counting)?.count)
}

/// How many documents of a collection in a file match a filter. None of them is kept. Where the filter asks for an `_id`, or an
/// index serves it, no others are read than it leads to; else the collection is walked through.
pub fn count_in<D: Disk>(
    alloc: Global,
    file: &mut Collections<D>,
    home: &Catalogued,
    filter: &Filter,
) -> Result<usize, Refusal>
    ensures { ReadsOf D.history (IsAsked home.now)
        (λ now c count. count ≡ length (matching filter.now c.documents))
        result file.old file.new }
{
    match asked_ids(alloc, file, home, filter)? {
        Some(ids) => count_by_ids(alloc, file, home.number, filter, &ids),
        None => count_scanned(alloc, file, home, filter),
    }
}
