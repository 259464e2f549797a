//! `drop`: a collection is taken away.

ghost use Rattle.std.specs.Prelude.{◌≡◌, ◌<◌, ◌≤◌, [], IfOk, length, true};
ghost use Rattle.database_model.specs.DropCollection.{dropped, run_drop};
ghost use Rattle.engine.specs.Dropping.{HasStepped, IsEmptying, IsFilled, IsLeft};
ghost use Rattle.engine.specs.Looking.{LooksOf};
ghost use Rattle.page.specs.History.{KeepsWord};
ghost use Rattle.engine.specs.Durable.{disk_history, has_changes, IsRunning, IsSound};
ghost use Rattle.engine.specs.Performing.{RunsCommand};
ghost use Rattle.engine.specs.TakingOut.{HasHome};
ghost use Rattle.replies.specs.View.{IsSendable};
ghost use Rattle.engine.specs.View.{world};
ghost use Rattle.engine.specs.Writing.{ChangesCollections};

use crate::engine::Engine;
use crate::removing::note_removed;
use bson::Document;
use collections::Walk;
use entries::{Catalogued, Edits};
use page::Disk;
use path::Refusal;
use replies::drop_reply;
use std::alloc::Global;
use walks::BATCH;

impl<D: Disk> Engine<D> {
    /// Takes a collection away with its documents; `NamespaceNotFound` where there is none of its name.
    pub(crate) fn drop_collection(&mut self, namespace: &str) -> Result<Document, Refusal>
        requires short { length namespace.now ≤ 255 }
        requires sound { IsSound D.history self.old }
        ensures performs { RunsCommand D.history
            (run_drop (world self.old) (record { namespace = namespace.now }))
            result self.old self.new }
        ensures has_changes { KeepsWord (disk_history D.history self.new)
            → (world self.new).collections ≡ (world self.old).collections
            → has_changes self.new ≡ has_changes self.old }
        ensures sendable { IfOk result (λ d. IsSendable d) }
    {
        let Some(home) = self.catalogued(namespace)? else {
            return Err(Refusal::NamespaceNotFound);
        };
        let reply = drop_reply(self.alloc, 1 + home.indexes.len(), namespace)?;
        self.remove_collection(namespace, &home)?;
        Ok(reply)
    }

    /// Takes a collection, its documents and their entries in its indexes out of the file.
    fn remove_collection(&mut self, namespace: &str, home: &Catalogued) -> Result<(), Refusal>
        requires short { length namespace.now ≤ 255 }
        requires sound { IsSound D.history self.old }
        requires home { KeepsWord (disk_history D.history self.old)
            → HasHome (world self.old).collections namespace.now home.now }
        ensures { ChangesCollections D.history (dropped (world self.old).collections namespace.now)
            result self.old self.new }
    {
        let mut edits = Edits::new(self.alloc);
        self.note_emptied(&mut edits, home)?;
        edits.remove_collection(namespace)?;
        self.write(&edits, &namespace)
    }

    /// Notes that all documents are taken out of a collection, with their entries in its indexes.
    fn note_emptied(&mut self, edits: &mut Edits, home: &Catalogued) -> Result<(), Refusal>
        requires sound { IsSound D.history self.old }
        ensures { LooksOf D.history (IsFilled home.now edits.old)
            (λ now c _. IsLeft now c edits.new []) result self.old self.new }
    {
        if self.file.is_stopped() {
            return Err(Refusal::StorageFailed);
        }
        let mut walk = self.file.walk(home.number)?;
        'batches: while self.note_batch(edits, &mut walk, home)? {}
        Ok(())
    }

    /// Notes that the next documents of a walk are taken out of their collection: whether there were some.
    fn note_batch(
        &mut self,
        edits: &mut Edits,
        walk: &mut Walk,
        home: &Catalogued,
    ) -> Result<bool, Refusal>
        requires sound { IsSound D.history self.old }
        requires running { IsRunning self.old }
        ensures looks { LooksOf D.history (IsEmptying home.now walk.old edits.old)
            (HasStepped home.now walk.new edits.new) result self.old self.new }
        ensures ends { IfOk result (λ more. more ≡ true → walk.new.left < walk.old.left) }
    {
        let batch = self.file.next_documents(walk, BATCH)?;
        note_removed(self.alloc, edits, home, &batch)?;
        Ok(!batch.is_empty())
    }
}
