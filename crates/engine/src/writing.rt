//! Edits of the collections are put into the file.

ghost use Rattle.std.specs.Prelude.{◌≡◌, List};
ghost use Rattle.page.specs.History.{KeepsWord};
ghost use Rattle.entry_model.specs.LawfulState as states;
ghost use Rattle.entry_model.specs.State.{Collection};
ghost use Rattle.entry_model.specs.StateEntries.{Leads};
ghost use Rattle.engine.specs.Durable.{disk_history, IsRunning, IsSound};
ghost use Rattle.database_model.specs.Lawful.{IsLawfulState};
ghost use Rattle.engine.specs.View.{world};
ghost use Rattle.engine.specs.Writing.{Writes};

use crate::engine::Engine;
use entries::Edits;
use page::Disk;
use path::Refusal;

impl<D: Disk> Engine<D> {
    /// Puts edits into the file, all or none. What is passed beside them tells contracts which collections they make.
    pub(crate) fn write<A>(&mut self, edits: &Edits, with: &A) -> Result<(), Refusal>
        ghost after: { List Collection }
        requires sound { IsSound D.history self.old }
        requires lawful { IsLawfulState after }
        requires leads { KeepsWord (disk_history D.history self.old) → IsRunning self.old
            → Leads edits.now (world self.old).collections after × states.IsLawfulState after }
        ensures { Writes D.history after result self.old self.new }
    {
        if self.file.is_stopped() {
            return Err(Refusal::StorageFailed);
        }
        self.file.apply(edits)?;
        self.told.change(with);
        self.is_changed = true;
        Ok(())
    }
}
