//! An index of a collection is dropped with the entries of all its documents, noted as edits of the file.

ghost use Rattle.std.specs.Prelude.{◌≡◌, ◌<◌, ◌≤◌, All, IfErr, IfOk, OnOk, length, true};
ghost use Rattle.collections.specs.Lookups.{IsWithinLimits};
ghost use Rattle.commands.specs.View.{dropped_of};
ghost use Rattle.entries.specs.IndexBuilding.{HasRemovedEntries};
ghost use Rattle.entries.specs.Indexed.{GoesOnBy};
ghost use Rattle.entry_model.specs.StateEntries.{index_entries, removals};
ghost use Rattle.engine.specs.Durable.{IsRunning, IsSound};
ghost use Rattle.engine.specs.Looking.{LooksOf};
ghost use Rattle.engine.specs.Storing.{Notes};
ghost use Rattle.engine.specs.Unindexing.{HasKeysIn, HasOtherIndexes, HasUnindexed, IsIndexedBy, IsUnindexed, IsUnindexing, drop_at, drop_each};
ghost use Rattle.engine.specs.View.{world};

use crate::engine::Engine;
use bson::Document;
use collections::Walk;
use commands::DroppedIndexes;
use entries::{Catalogued, Edits};
use index::IndexSpec;
use index_list::first_dropped;
use page::Disk;
use path::Refusal;
use std::alloc::Global;
use stored_documents::id_text;
use walks::BATCH;

/// Notes that a document's entries in an index are removed.
fn unindex_one(
    alloc: Global,
    edits: &mut Edits,
    number: u32,
    index: &IndexSpec,
    document: &Document,
) -> Result<(), Refusal>
    ensures continues { OnOk result (GoesOnBy edits.old
        (removals (index_entries number document.now index.now)) edits.new) }
    ensures refuses { IfErr result (λ e. HasKeysIn index.now document.now
        → e ≡ Refusal.OutOfMemory) }
{
    let id = id_text(alloc, document)?;
    let keys = index.keys(alloc, document)?;
    Ok(edits.remove_entries(number, index, &id, document, &keys)?)
}

/// Notes that the entries of documents in an index are removed.
fn unindex_each(
    alloc: Global,
    edits: &mut Edits,
    number: u32,
    index: &IndexSpec,
    documents: &[Document],
) -> Result<(), Refusal>
    ensures removes { OnOk result
        (HasRemovedEntries edits.old edits.new number index.now documents.now) }
    ensures refuses { IfErr result (λ e. All (HasKeysIn index.now) documents.now
        → e ≡ Refusal.OutOfMemory) }
{
    'documents: for document in documents {
        unindex_one(alloc, edits, number, index, document)?;
    }
    Ok(())
}

impl<D: Disk> Engine<D> {
    /// Notes that the entries of the next documents of a walk are removed from an index: whether there were some.
    fn unindex_batch(
        &mut self,
        edits: &mut Edits,
        walk: &mut Walk,
        number: u32,
        index: &IndexSpec,
    ) -> Result<bool, Refusal>
        requires sound { IsSound D.history self.old }
        ensures looks { LooksOf D.history (IsUnindexing index.now walk.old)
            (HasUnindexed number index.now edits.old edits.new walk.new)
            result self.old self.new }
        ensures ends { IfOk result (λ more. more ≡ true → walk.new.left < walk.old.left) }
    {
        let batch = self.file.next_documents(walk, BATCH)?;
        unindex_each(self.alloc, edits, number, index, &batch)?;
        Ok(!batch.is_empty())
    }

    /// Notes that the entries of all documents of the collection of a number are removed from one of its indexes.
    fn unindex_all(
        &mut self,
        edits: &mut Edits,
        number: u32,
        index: &IndexSpec,
    ) -> Result<(), Refusal>
        requires sound { IsSound D.history self.old }
        requires running { IsRunning self.old }
        ensures { LooksOf D.history (IsIndexedBy number index.now)
            (IsUnindexed number index.now edits.old edits.new) result self.old self.new }
    {
        let mut walk = self.file.walk(number)?;
        'batches: while self.unindex_batch(edits, &mut walk, number, index)? {}
        Ok(())
    }

    /// Notes that the index at a place is dropped.
    fn note_dropped_at(
        &mut self,
        edits: &mut Edits,
        namespace: &str,
        home: &mut Catalogued,
        at: usize,
    ) -> Result<(), Refusal>
        requires sound { IsSound D.history self.old }
        requires short { length namespace.now ≤ 255 }
        requires limits { IsWithinLimits home.old }
        requires within { at < length home.old.indexes.items }
        ensures notes { Notes D.history namespace.now
            (HasOtherIndexes (world self.old).collections namespace.now) (drop_at at)
            home.old home.new edits.old edits.new result self.old self.new }
        ensures limits { OnOk result (IsWithinLimits home.new) }
        ensures shorter { OnOk result
            (length home.new.indexes.items < length home.old.indexes.items) }
    {
        if self.file.is_stopped() {
            return Err(Refusal::StorageFailed);
        }
        self.unindex_all(edits, home.number, &home.indexes[at])?;
        Ok(edits.drop_index(namespace, home, at)?)
    }

    /// Notes that indexes are dropped, one after the other.
    pub(crate) fn note_dropped(
        &mut self,
        edits: &mut Edits,
        namespace: &str,
        home: &mut Catalogued,
        dropped: &DroppedIndexes<'_>,
    ) -> Result<(), Refusal>
        requires sound { IsSound D.history self.old }
        requires short { length namespace.now ≤ 255 }
        requires limits { IsWithinLimits home.old }
        ensures notes { Notes D.history namespace.now
            (HasOtherIndexes (world self.old).collections namespace.now)
            (drop_each (dropped_of dropped.now))
            home.old home.new edits.old edits.new result self.old self.new }
    {
        'indexes: while let Some(at) = first_dropped(&home.indexes, dropped) {
            self.note_dropped_at(edits, namespace, home, at)?;
        }
        Ok(())
    }
}
