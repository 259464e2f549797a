//! `dropIndexes`: indexes of a collection are taken away.

ghost use Rattle.std.specs.Prelude.{◌≡◌, ◌≤◌, IfOk, Ok, length};
ghost use Rattle.commands.specs.View.{dropped_of};
ghost use Rattle.page.specs.History.{KeepsWord};
ghost use Rattle.database_model.specs.DropIndexes.{index_dropped, left_by, remaining, run_drop_indexes};
ghost use Rattle.engine.specs.Durable.{disk_history, has_changes, IsSound};
ghost use Rattle.engine.specs.Performing.{RunsCommand};
ghost use Rattle.engine.specs.TakingOut.{HasHome};
ghost use Rattle.replies.specs.View.{IsSendable};
ghost use Rattle.engine.specs.View.{world};
ghost use Rattle.engine.specs.Writing.{ChangesCollections};
ghost use Rattle.collections.specs.Lookups.{IsWithinLimits};

use crate::engine::Engine;
use bson::Document;
use commands::DroppedIndexes;
use entries::{Catalogued, Edits};
use index_list::{check_dropped, first_dropped};
use page::Disk;
use path::Refusal;
use replies::drop_indexes_reply;

impl<D: Disk> Engine<D> {
    /// Takes an index of a collection away, or all but that on `_id`. Where there is none of them nothing is written.
    pub(crate) fn drop_indexes(
        &mut self,
        namespace: &str,
        dropped: &DroppedIndexes<'_>,
    ) -> Result<Document, Refusal>
        requires short { length namespace.now ≤ 255 }
        requires sound { IsSound D.history self.old }
        ensures performs { RunsCommand D.history
            (run_drop_indexes (world self.old)
            (record { namespace = namespace.now; indexes = dropped_of dropped.now }))
            result self.old self.new }
        ensures has_changes { KeepsWord (disk_history D.history self.new)
            → (world self.new).collections ≡ (world self.old).collections
            → has_changes self.new ≡ has_changes self.old }
        ensures sendable { IfOk result (λ d. IsSendable d) }
    {
        let Some(home) = self.catalogued(namespace)? else {
            return Err(Refusal::NamespaceNotFound);
        };
        check_dropped(&home.indexes, dropped)?;
        let reply = drop_indexes_reply(self.alloc, 1 + home.indexes.len())?;
        self.remove_indexes(namespace, home, dropped)?;
        Ok(reply)
    }

    /// Takes them out of the file, where there are some.
    fn remove_indexes(
        &mut self,
        namespace: &str,
        home: Catalogued,
        dropped: &DroppedIndexes<'_>,
    ) -> Result<(), Refusal>
        requires short { length namespace.now ≤ 255 }
        requires sound { IsSound D.history self.old }
        requires limits { IsWithinLimits home }
        requires may { left_by (dropped_of dropped.now) home.indexes.items
            ≡ Ok (remaining (dropped_of dropped.now) home.indexes.items) }
        requires home { KeepsWord (disk_history D.history self.old)
            → HasHome (world self.old).collections namespace.now home }
        ensures makes { ChangesCollections D.history
            (index_dropped (world self.old).collections namespace.now (dropped_of dropped.now))
            result self.old self.new }
        ensures has_changes { length home.indexes.items
            ≤ length (remaining (dropped_of dropped.now) home.indexes.items)
            → has_changes self.new ≡ has_changes self.old }
    {
        if first_dropped(&home.indexes, dropped).is_none() {
            return Ok(());
        }
        let mut edits = Edits::new(self.alloc);
        let mut home = home;
        self.note_dropped(&mut edits, namespace, &mut home, dropped)?;
        self.write(&edits, &(namespace, dropped))
    }
}
