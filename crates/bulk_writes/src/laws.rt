//! Laws of writes of several statements, each the contract of a function that does nothing.

ghost use Rattle.bulk_writes.specs.AskedLaws.{AnsweredAlike};
ghost use Rattle.bulk_writes.specs.Laws.{DeleteInTurn, InsertInTurn};
ghost use Rattle.bulk_writes.specs.UpdateLaws.{UpdateInTurn, UpdateRefused};

/// The documents of an insert, inserted one after the other, come to what the insert of all comes to, and are refused for what that one is.
pub fn insert_in_turn()
    ensures { InsertInTurn }
{}

/// The statements of a delete, one after the other, leave what the delete of all leaves, and take away as many documents.
pub fn delete_in_turn()
    ensures { DeleteInTurn }
{}

/// The statements of an update that isn't refused are done, one after the other, and leave what the update of all leaves.
pub fn update_in_turn()
    ensures { UpdateInTurn }
{}

/// An update that is refused, and whose message is within its limit, is refused for what the first refused one of its statements is.
pub fn update_refused()
    ensures { UpdateRefused }
{}

/// A write that is done as a whole leaves the world, and is answered, as it would be with each of its statements asked by itself.
pub fn answered_alike()
    ensures { AnsweredAlike }
{}
