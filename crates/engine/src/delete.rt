//! `delete`: what its statements leave of a collection.

ghost use Rattle.std.specs.Prelude.{◌≡◌, [], IfOk, Ok};
ghost use Rattle.database_model.specs.Delete.{run_delete};
ghost use Rattle.engine.specs.Looking.{Looks};
ghost use Rattle.page.specs.History.{KeepsWord};
ghost use Rattle.engine.specs.Durable.{disk_history, has_changes, IsSound};
ghost use Rattle.engine.specs.Performing.{RunsCommand};
ghost use Rattle.engine.specs.Removing.{IsTaken, FirstAreEnough, deleted};
ghost use Rattle.engine.specs.Writing.{ChangesCollections};
ghost use Rattle.replies.specs.View.{IsSendable};
ghost use Rattle.engine.specs.View.{world};

use crate::engine::Engine;
use crate::removing::note_removed;
use bson::Document;
use commands::Deletion;
use entries::{Catalogued, Edits};
use meant_documents::Matched;
use page::Disk;
use path::Refusal;
use replies::{SharedDocument, total_reply};
use statements::after_deletions;
use std::alloc::Global;

/// So many of the documents that statements match, in ascending order of `_id`, are enough: one, where a
/// single statement takes the first one.
fn enough(deletions: &[Deletion]) -> usize
    ensures { FirstAreEnough deletions.now result }
{
    match deletions {
        [only] if only.only_first => 1,
        _ => usize::MAX,
    }
}

/// What a delete takes out of a collection.
#[derive(Drop)]
struct Taken {
    home: Catalogued,
    removed: Vec<SharedDocument>,
}

/// Nothing, where the collection is missing.
fn none_taken(alloc: Global) -> Taken
    ensures { result.removed.items ≡ [] }
{
    let home = Catalogued {
        number: 0,
        indexes: Vec::new(alloc),
    };
    Taken {
        home,
        removed: Vec::new(alloc),
    }
}

impl<D: Disk> Engine<D> {
    /// Deletes documents, statement by statement.
    pub(crate) fn delete(
        &mut self,
        namespace: &str,
        deletions: &[Deletion],
    ) -> Result<Document, Refusal>
        requires sound { IsSound D.history self.old }
        ensures performs { RunsCommand D.history
            (run_delete (world self.old)
            (record { namespace = namespace.now; deletions = deletions.now }))
            result self.old self.new }
        ensures has_changes { KeepsWord (disk_history D.history self.new)
            → (world self.new).collections ≡ (world self.old).collections
            → has_changes self.new ≡ has_changes self.old }
        ensures sendable { IfOk result (λ d. IsSendable d) }
    {
        let taken = self.taken(namespace, deletions)?;
        let reply = total_reply(self.alloc, taken.removed.len())?;
        self.remove(namespace, deletions, &taken)?;
        Ok(reply)
    }

    /// What a delete takes out of the collection of a name. Of its documents those are kept that a statement
    /// matches, as many as are enough.
    fn taken(&mut self, namespace: &str, deletions: &[Deletion]) -> Result<Taken, Refusal>
        requires sound { IsSound D.history self.old }
        ensures { Looks D.history (λ now taken. IsTaken now namespace.now deletions.now taken)
            result self.old self.new }
    {
        let Some(home) = self.catalogued(namespace)? else {
            return Ok(none_taken(self.alloc));
        };
        let found = self.selected(&home, &Matched { deletions }, enough(deletions))?;
        let left = after_deletions(self.alloc, &found, deletions)?;
        Ok(Taken {
            home,
            removed: left.removed,
        })
    }

    /// Takes documents out of the file, with their entries in the indexes. Where there are none, nothing is
    /// written.
    fn remove(
        &mut self,
        namespace: &str,
        deletions: &[Deletion],
        taken: &Taken,
    ) -> Result<(), Refusal>
        requires sound { IsSound D.history self.old }
        requires taken { KeepsWord (disk_history D.history self.old)
            → IsTaken (world self.old).collections namespace.now deletions.now taken.now }
        ensures makes { ChangesCollections D.history
            (Ok (deleted (world self.old).collections namespace.now deletions.now))
            result self.old self.new }
        ensures has_changes { taken.now.removed.items ≡ []
            → has_changes self.new ≡ has_changes self.old }
    {
        if self.file.is_stopped() {
            return Err(Refusal::StorageFailed);
        }
        if taken.removed.is_empty() {
            return Ok(());
        }
        let mut edits = Edits::new(self.alloc);
        note_removed(self.alloc, &mut edits, &taken.home, &taken.removed)?;
        self.write(&edits, &(namespace, deletions))
    }
}
