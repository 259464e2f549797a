//! Walks through a collection that keep the documents that are looked for.

ghost use Rattle.std.specs.Prelude.{◌≡◌, All, IfOk, IfErr, IfSome, [], ◌∷◌, take};
ghost use Rattle.std.specs.List.{filter};
ghost use Rattle.collections.specs.Lookups.{ReadsOf};
ghost use Rattle.database_model.specs.Lawful.{IsWithin};
ghost use Rattle.entry_model.specs.LawfulState.{IsStorable};
ghost use Rattle.planner.specs.IdLaws.{with_found};
ghost use Rattle.asked_documents.specs.Asking.{IsAsked};
ghost use Rattle.walks.specs.Scanning.{Selected};

use crate::id_range::fold_asked;
use crate::within::copied_within;
use asked_documents::DocumentPredicate;
use bson_bytes::{RawDoc, SpelledDocument};
use collections::{Collections, DocumentFold};
use entries::Catalogued;
use page::Disk;
use path::Refusal;
use std::alloc::Global;

/// So many documents are read at a time by whoever walks through a collection batch by batch.
pub const BATCH: usize = 64;

/// The document, with bytes of its own, if it is looked for.
fn selected<S: DocumentPredicate>(
    alloc: Global,
    which: &S,
    document: &RawDoc<'_>,
) -> Result<Option<SpelledDocument>, Refusal>
    ensures selects { IfOk result (λ found. with_found found []
        ≡ filter (S.selects which.now) (document.now ∷ [])) }
    ensures within { IfOk result (λ found. IfSome found (λ d. IsWithin d)) }
    ensures refuses { IsStorable document.now → IfErr result (λ e. e ≡ Refusal.OutOfMemory) }
{
    if !which.selects_raw(alloc, document)? {
        return Ok(None);
    }
    Ok(Some(copied_within(alloc, document)?))
}

/// Documents that are looked for, of those that are lent: the first ones, up to so many.
#[derive(Drop)]
pub(crate) struct Selecting<'a, S> {
    pub(crate) alloc: Global,
    pub(crate) which: &'a S,
    pub(crate) most: usize,
    pub(crate) found: Vec<SpelledDocument>,
}

impl<S: DocumentPredicate> DocumentFold for Selecting<'_, S> {
    ghost makes = { Selected S.selects };

    fn is_done(&self) -> bool {
        self.most <= self.found.len()
    }

    fn take(&mut self, document: &RawDoc<'_>) -> Result<(), Refusal> {
        if self.most <= self.found.len() {
            return Ok(());
        }
        let Some(document) = selected(self.alloc, self.which, document)? else {
            return Ok(());
        };
        self.found.push(document)?;
        Ok(())
    }
}

/// The documents of a collection in a file that are looked for, by a walk through it: the first ones, up to so many.
pub fn scanned<D: Disk, S: DocumentPredicate>(
    alloc: Global,
    file: &mut Collections<D>,
    home: &Catalogued,
    which: &S,
    most: usize,
) -> Result<Vec<SpelledDocument>, Refusal>
    ensures reads { ReadsOf D.history (IsAsked home.now)
        (λ now c found. found.items ≡ take most (filter (S.selects which.now) c.documents))
        result file.old file.new }
    ensures within { IfOk result (λ found. All IsWithin found.items) }
{
    let selecting = Selecting {
        alloc,
        which,
        most,
        found: Vec::new(alloc),
    };
    Ok(fold_asked(alloc, file, home, which, selecting)?.found)
}
