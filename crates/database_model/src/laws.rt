//! Laws of cursors, each the contract of a function that does nothing.

ghost use Rattle.database_model.specs.CursorLaws.{UndoingClosesTouched};
ghost use Rattle.database_model.specs.CursorLife.{GivesItsList, LastBatchIsWhole};

/// What a cursor gives over its whole life: its batches, one after the other, and what is left of it are the documents that it
/// was opened on, whatever other commands, commits, undone turns and ends of connections come between.
pub fn gives_its_list()
    ensures { GivesItsList }
{}

/// A batch that says 0 in place of the cursor's number has all that was left.
pub fn last_batch_is_whole()
    ensures { LastBatchIsWhole }
{}

/// A turn that is undone leaves exactly the cursors that none of its commands opened, advanced or killed, with what they had.
pub fn undoing_closes_touched()
    ensures { UndoingClosesTouched }
{}
