//! Cursors give their next documents, those that they keep or those that they read.

ghost use Rattle.std.specs.Prelude.{◌<◌, ◌≤◌, IfOk, length};
ghost use Rattle.cursors.specs.Held.{cursors_of};
ghost use Rattle.database_model.specs.Lawful.{AreLawfulCursors};
ghost use Rattle.pinned_cursors.specs.Batches.{GivesNext};
ghost use Rattle.replies.specs.View.{IsSendable};

use crate::next_batches::next_batch;
use bson_bytes::SpelledDocument;
use collections::Collections;
use cursors::Cursors;
use page::Disk;
use path::Refusal;
use std::alloc::Global;

/// Gives the next documents of the cursor at a place: those that it keeps, or those that are read from its version. With its last one it
/// ends, and its pin with it. A refusal leaves it as it was.
pub fn give_next<D: Disk>(
    alloc: Global,
    file: &mut Collections<D>,
    cursors: &mut Cursors,
    at: usize,
    namespace: &str,
    most: Option<usize>,
) -> Result<SpelledDocument, Refusal>
    requires there { at < length cursors.old.list }
    requires short { length namespace.now ≤ 255 }
    ensures gives { GivesNext D.history at namespace.now most result file.old file.new cursors.old
        cursors.new }
    ensures lawful { AreLawfulCursors (cursors_of cursors.old)
        → AreLawfulCursors (cursors_of cursors.new) }
    ensures sendable { IfOk result (λ d. IsSendable d) }
{
    if !cursors.keeps_at(at) {
        return next_batch(alloc, file, cursors, at, namespace, most);
    }
    let (reply, count) = cursors.batch(at, namespace, most)?;
    cursors.advance(at, count);
    Ok(reply)
}
