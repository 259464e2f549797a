//! `getMore`: the next batch of a cursor.

ghost use Rattle.std.specs.Prelude.{◌≡◌, ◌≤◌, IfOk, length};
ghost use Rattle.database_model.specs.GetMore.{run_get_more};
ghost use Rattle.engine.specs.Durable.{has_changes, IsSound};
ghost use Rattle.engine.specs.Performing.{RunsReadingCommand};
ghost use Rattle.replies.specs.View.{IsSendable};
ghost use Rattle.engine.specs.View.{world};

use crate::engine::Engine;
use bson_bytes::SpelledDocument;
use page::Disk;
use path::Refusal;
use pinned_cursors::give_next;
use replies::ConnId;

impl<D: Disk> Engine<D> {
    /// Gives the next documents of a cursor; `CursorNotFound` where the connection has none of this id and namespace.
    pub(crate) fn get_more(
        &mut self,
        connection: ConnId,
        namespace: &str,
        id: &i64,
        most: Option<usize>,
    ) -> Result<SpelledDocument, Refusal>
        requires short { length namespace.now ≤ 255 }
        requires sound { IsSound D.history self.old }
        ensures performs { RunsReadingCommand D.history
            (run_get_more (world self.old) connection
            (record { id = id.now; namespace = namespace.now; batch_size = most }))
            result self.old self.new }
        ensures has_changes { has_changes self.new ≡ has_changes self.old }
        ensures sendable { IfOk result (λ d. IsSendable d) }
    {
        let Some(at) = self.cursors.place_of(connection, namespace, id) else {
            return Err(Refusal::CursorNotFound);
        };
        let cursors = &mut self.cursors;
        give_next(self.alloc, &mut self.file, cursors, at, namespace, most)
    }
}
