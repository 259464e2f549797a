//! `killCursors`: cursors of a connection end.

ghost use Rattle.std.specs.Prelude.{◌≡◌, ◌≤◌, IfOk, length};
ghost use Rattle.database_model.specs.KillCursors.{run_kill_cursors};
ghost use Rattle.pinned_cursors.specs.Turns.{Releases};
ghost use Rattle.replies.specs.View.{IsSendable, Runs};
ghost use Rattle.engine.specs.View.{world};

use crate::engine::Engine;
use bson::Document;
use cursors::{Ends, kill_reply, tell_apart};
use page::Disk;
use path::Refusal;
use pinned_cursors::end_all;
use replies::ConnId;

impl<D: Disk> Engine<D> {
    /// Ends the cursors of a connection and a namespace that have one of these ids.
    pub(crate) fn kill_cursors(
        &mut self,
        connection: ConnId,
        namespace: &str,
        ids: &[i64],
    ) -> Result<Document, Refusal>
        requires { length ids.now ≤ 1000 }
        ensures file { Releases self.old.is_changed D.history self.old.file self.new.file
            self.old.cursors self.new.cursors }
        ensures runs { Runs (world self.old)
            (run_kill_cursors (world self.old) connection
            (record { namespace = namespace.now; cursors = ids.now }))
            (world self.new) result }
        ensures told { self.new.told ≡ self.old.told }
        ensures has_changes { self.new.is_changed ≡ self.old.is_changed }
        ensures sendable { IfOk result (λ d. IsSendable d) }
    {
        let told = tell_apart(self.alloc, &self.cursors, connection, namespace, ids)?;
        let reply = kill_reply(self.alloc, &told)?;
        let asked = Ends::Asked(connection, namespace, ids);
        end_all(&mut self.file, &mut self.cursors, &asked);
        Ok(reply)
    }
}
