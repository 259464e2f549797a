//! Cursors end, and their pins with them.

ghost use Rattle.std.specs.Prelude.{◌≡◌, ◌<◌, Bool, length};
ghost use Rattle.cursors.specs.Changes.{without};
ghost use Rattle.cursors.specs.Ending.{others};
ghost use Rattle.pinned_cursors.specs.Turns.{EndsPin, Releases};

use collections::Collections;
use cursors::{Cursors, Ends};
use page::Disk;
use pager::Version;

/// Ends the pin of a cursor that had one.
pub(crate) fn end_pin<D: Disk>(file: &mut Collections<D>, pinned: Option<Version>)
    ensures { EndsPin D.history pinned file.old file.new }
{
    if let Some(version) = pinned {
        file.unpin(version);
    }
}

/// Ends the cursor at a place, and its pin where it holds no documents.
pub(crate) fn end<D: Disk>(file: &mut Collections<D>, cursors: &mut Cursors, at: usize)
    requires there { at < length cursors.old.list }
    ensures left { cursors.new ≡ without cursors.old at }
    ensures releases { (changed : Bool) → Releases changed D.history file.old file.new cursors.old
        cursors.new }
{
    let pinned = cursors.end_at(at);
    end_pin(file, pinned);
}

/// Ends cursors one after the other, and the pins of those that hold no documents.
pub fn end_all<D: Disk>(file: &mut Collections<D>, cursors: &mut Cursors, ends: &Ends<'_>)
    ensures left { cursors.new ≡ others ends.now cursors.old }
    ensures releases { (changed : Bool) → Releases changed D.history file.old file.new cursors.old
        cursors.new }
{
    'ended: while let Some(pinned) = cursors.end_first(ends) {
        end_pin(file, pinned);
    }
}
