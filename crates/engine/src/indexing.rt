//! An index is made of the documents that its collection has, and noted as edits of the file.

ghost use Rattle.std.specs.Prelude.{◌≡◌, ◌<◌, ◌≤◌, IfErr, IfOk, OnOk, length, true};
ghost use Rattle.collections.specs.Lookups.{IsWithinLimits};
ghost use Rattle.database_model.specs.CreateIndexes.{with_new_index, with_new_indexes};
ghost use Rattle.engine.specs.Durable.{IsRunning, IsSound};
ghost use Rattle.engine.specs.Indexing.{HasDocumentsOf, HasIndexed, IsIndexed, IsIndexing, IsUnbegun, IsUnindexable, RefusesOne, TakesEach};
ghost use Rattle.engine.specs.Storing.{Notes};
ghost use Rattle.engine.specs.Trying.{MayRefuseOf};
ghost use Rattle.engine.specs.View.{world};

use crate::MOST_INDEXES;
use crate::engine::Engine;
use bson::Document;
use collections::Walk;
use commands::NewIndex;
use entries::{Catalogued, Edits, NewEntries};
use index_list::{is_in_conflict, is_there, unused_number};
use page::Disk;
use path::Refusal;
use std::alloc::Global;
use stored_documents::id_text;
use walks::BATCH;

/// Documents enter an index, one after the other, up to the first that it refuses.
fn take_each(alloc: Global, made: &mut NewEntries, documents: &[Document]) -> Result<(), Refusal>
    ensures takes { OnOk result (TakesEach made.old made.new documents.now) }
    ensures refuses { IfErr result (RefusesOne made.old documents.now) }
{
    'documents: for document in documents {
        let id = id_text(alloc, document)?;
        made.take(&id, document)?;
    }
    Ok(())
}

impl<D: Disk> Engine<D> {
    /// The next documents of a walk enter an index: whether there were some.
    fn take_batch(&mut self, made: &mut NewEntries, walk: &mut Walk) -> Result<bool, Refusal>
        requires sound { IsSound D.history self.old }
        ensures tries { MayRefuseOf D.history (IsIndexing walk.old made.old)
            (HasIndexed walk.new made.new) IsUnindexable result self.old self.new }
        ensures ends { IfOk result (λ more. more ≡ true → walk.new.left < walk.old.left) }
    {
        let batch = self.file.next_documents(walk, BATCH)?;
        take_each(self.alloc, made, &batch)?;
        Ok(!batch.is_empty())
    }

    /// All documents of the collection of a name enter an index. A missing one has none.
    fn take_all(&mut self, made: &mut NewEntries, namespace: &str) -> Result<(), Refusal>
        requires sound { IsSound D.history self.old }
        requires running { IsRunning self.old }
        ensures { MayRefuseOf D.history (IsUnbegun namespace.now made.old) (IsIndexed made.new)
            IsUnindexable result self.old self.new }
    {
        let Some(number) = self.number_of(namespace)? else {
            return Ok(());
        };
        let mut walk = self.file.walk(number)?;
        'batches: while self.take_batch(made, &mut walk)? {}
        Ok(())
    }

    /// Notes that an index is made in the collection of a name, where it isn't there. The first of these refusals:
    /// `IndexOptionsConflict` where another has its name or its definition, `TooMany` where there are sixteen, and those of the
    /// documents in ascending order of `_id`, as `NewEntries::take` has them.
    fn note_index(
        &mut self,
        edits: &mut Edits,
        namespace: &str,
        home: &mut Catalogued,
        index: &NewIndex,
    ) -> Result<(), Refusal>
        requires sound { IsSound D.history self.old }
        requires short { length namespace.now ≤ 255 }
        requires limits { IsWithinLimits home.old }
        ensures notes { Notes D.history namespace.now
            (HasDocumentsOf (world self.old).collections namespace.now)
            (λ c. with_new_index c index.now)
            home.old home.new edits.old edits.new result self.old self.new }
        ensures limits { IsWithinLimits home.new }
    {
        if self.file.is_stopped() {
            return Err(Refusal::StorageFailed);
        }
        if is_there(&home.indexes, index) {
            return Ok(());
        }
        if is_in_conflict(&home.indexes, index) {
            return Err(Refusal::IndexOptionsConflict);
        }
        if MOST_INDEXES <= home.indexes.len() {
            return Err(Refusal::TooMany);
        }
        let spec = index.spec(unused_number(&home.indexes))?;
        let mut made = NewEntries::new(self.alloc, home.number, spec);
        self.take_all(&mut made, namespace)?;
        Ok(edits.make_index(namespace, home, made)?)
    }

    /// Notes that indexes are made, in their order, up to the first that is refused.
    pub(crate) fn note_indexes(
        &mut self,
        edits: &mut Edits,
        namespace: &str,
        home: &mut Catalogued,
        indexes: &[NewIndex],
    ) -> Result<(), Refusal>
        requires sound { IsSound D.history self.old }
        requires short { length namespace.now ≤ 255 }
        requires limits { IsWithinLimits home.old }
        ensures notes { Notes D.history namespace.now
            (HasDocumentsOf (world self.old).collections namespace.now)
            (λ c. with_new_indexes c indexes.now)
            home.old home.new edits.old edits.new result self.old self.new }
        ensures limits { IfOk result (λ _. IsWithinLimits home.new) }
    {
        'indexes: for index in indexes {
            self.note_index(edits, namespace, home, index)?;
        }
        Ok(())
    }
}
