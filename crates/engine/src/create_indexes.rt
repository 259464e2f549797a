//! `createIndexes`: indexes of a collection are made.

ghost use Rattle.std.specs.Prelude.{◌≡◌, ◌≤◌, All, Err, IfOk, false, length};
ghost use Rattle.page.specs.History.{KeepsWord};
ghost use Rattle.command_model.specs.NewIndex.{IsShortNewIndex};
ghost use Rattle.database_model.specs.CreateIndexes.{indexed, run_create_indexes};
ghost use Rattle.engine.specs.Durable.{disk_history, has_changes, IsSound};
ghost use Rattle.engine.specs.Indexing.{ArePlanned};
ghost use Rattle.engine.specs.Performing.{RunsCommand};
ghost use Rattle.engine.specs.Trying.{MayRefuse};
ghost use Rattle.replies.specs.View.{IsSendable};
ghost use Rattle.engine.specs.View.{world};
ghost use Rattle.engine.specs.Writing.{ChangesCollections};

use crate::engine::Engine;
use bson::Document;
use commands::NewIndex;
use entries::Edits;
use page::Disk;
use path::Refusal;
use replies::create_indexes_reply;

/// What a `createIndexes` makes: the edits, how many indexes its collection had beside that on `_id` and has, and whether it is new.
#[derive(Drop)]
pub(crate) struct PlannedIndexes {
    pub(crate) edits: Edits,
    pub(crate) before: usize,
    pub(crate) after: usize,
    pub(crate) is_new: bool,
}

impl<D: Disk> Engine<D> {
    /// Makes indexes of a collection, all or none. Where each is there already nothing is written; a missing collection is made.
    pub(crate) fn create_indexes(
        &mut self,
        namespace: &str,
        indexes: &[NewIndex],
    ) -> Result<Document, Refusal>
        requires short { length namespace.now ≤ 255 }
        requires limits { All IsShortNewIndex indexes.now }
        requires sound { IsSound D.history self.old }
        ensures performs { RunsCommand D.history
            (run_create_indexes (world self.old)
            (record { namespace = namespace.now; indexes = indexes.now }))
            result self.old self.new }
        ensures has_changes { KeepsWord (disk_history D.history self.new)
            → (world self.new).collections ≡ (world self.old).collections
            → has_changes self.new ≡ has_changes self.old }
        ensures sendable { IfOk result (λ d. IsSendable d) }
    {
        let planned = self.planned_indexes(namespace, indexes)?;
        let (before, after) = (1 + planned.before, 1 + planned.after);
        let reply = create_indexes_reply(self.alloc, before, after, planned.is_new)?;
        self.put_planned(namespace, indexes, &planned)?;
        Ok(reply)
    }

    /// The edits that make indexes in the collection of a name, and it where it is missing.
    fn planned_indexes(
        &mut self,
        namespace: &str,
        indexes: &[NewIndex],
    ) -> Result<PlannedIndexes, Refusal>
        requires short { length namespace.now ≤ 255 }
        requires sound { IsSound D.history self.old }
        ensures tries { MayRefuse D.history
            (ArePlanned (world self.old).collections namespace.now indexes.now)
            (λ e. indexed (world self.old).collections namespace.now indexes.now ≡ Err e)
            result self.old self.new }
        ensures few { IfOk result (λ p. (p.before ≤ 16) × (p.after ≤ 16)) }
    {
        let is_new = self.number_of(namespace)?.is_none();
        let mut edits = Edits::new(self.alloc);
        let mut home = self.target(&mut edits, namespace)?;
        let before = home.indexes.len();
        self.note_indexes(&mut edits, namespace, &mut home, indexes)?;
        Ok(PlannedIndexes {
            edits,
            before,
            after: home.indexes.len(),
            is_new,
        })
    }

    /// Puts what is planned into the file, where there is something new.
    fn put_planned(
        &mut self,
        namespace: &str,
        indexes: &[NewIndex],
        planned: &PlannedIndexes,
    ) -> Result<(), Refusal>
        requires short { length namespace.now ≤ 255 }
        requires limits { All IsShortNewIndex indexes.now }
        requires sound { IsSound D.history self.old }
        requires planned { KeepsWord (disk_history D.history self.old)
            → ArePlanned (world self.old).collections namespace.now indexes.now planned.now }
        ensures makes { ChangesCollections D.history
            (indexed (world self.old).collections namespace.now indexes.now)
            result self.old self.new }
        ensures has_changes { planned.now.is_new ≡ false → planned.now.after ≤ planned.now.before
            → has_changes self.new ≡ has_changes self.old }
    {
        if self.file.is_stopped() {
            return Err(Refusal::StorageFailed);
        }
        if !planned.is_new && planned.after <= planned.before {
            return Ok(());
        }
        self.write(&planned.edits, &(namespace, indexes))
    }
}
