//! `create`: a collection is made.

ghost use Rattle.std.specs.Prelude.{◌≡◌, ◌≤◌, IfErr, IfOk, length};
ghost use Rattle.database_model.specs.Create.{created, run_create};
ghost use Rattle.page.specs.History.{KeepsWord};
ghost use Rattle.engine.specs.Durable.{disk_history, has_changes, IsSound};
ghost use Rattle.engine.specs.Performing.{RunsCommand};
ghost use Rattle.replies.specs.View.{IsSendable};
ghost use Rattle.engine.specs.View.{world};
ghost use Rattle.engine.specs.Writing.{ChangesCollections};

use crate::engine::Engine;
use bson::Document;
use entries::Edits;
use page::Disk;
use path::Refusal;
use replies::ping_reply;

impl<D: Disk> Engine<D> {
    /// Makes an empty collection; `NamespaceExists` where there is one of its name, `TooMany` where it would be one too
    /// many.
    pub(crate) fn create(&mut self, namespace: &str) -> Result<Document, Refusal>
        requires short { length namespace.now ≤ 255 }
        requires sound { IsSound D.history self.old }
        ensures performs { RunsCommand D.history
            (run_create (world self.old) (record { namespace = namespace.now }))
            result self.old self.new }
        ensures has_changes { KeepsWord (disk_history D.history self.new)
            → (world self.new).collections ≡ (world self.old).collections
            → has_changes self.new ≡ has_changes self.old }
        ensures sendable { IfOk result (λ d. IsSendable d) }
    {
        let reply = ping_reply(self.alloc)?;
        self.make_collection(namespace)?;
        Ok(reply)
    }

    /// Makes an empty collection of a name that none has, and of the least number that none has.
    fn make_collection(&mut self, namespace: &str) -> Result<(), Refusal>
        requires short { length namespace.now ≤ 255 }
        requires sound { IsSound D.history self.old }
        ensures { ChangesCollections D.history (created (world self.old).collections namespace.now)
            result self.old self.new }
    {
        if self.number_of(namespace)?.is_some() {
            return Err(Refusal::NamespaceExists);
        }
        let number = self.new_number()?;
        let mut edits = Edits::new(self.alloc);
        edits.put_collection(namespace, number)?;
        self.write(&edits, &namespace)
    }
}
