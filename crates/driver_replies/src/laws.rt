//! Laws of the definitions, as contracts.

ghost use Rattle.driver_replies.specs.BatchLaws.{AsksEachStatement};
ghost use Rattle.driver_replies.specs.NewIdLaws.{GivesEachItsOwn};

/// Where nobody else asks the database between them, the statements of a write that was refused as a whole leave it as each by itself does, up
/// to the first that is refused where they are in order; and what is told is what they did.
pub fn asks_each_statement()
    ensures { AsksEachStatement }
{}

/// The documents of an insert get object ids one after the other; and no two of these, of one message or of two, are the same where their
/// numbers aren't.
pub fn gives_each_its_own()
    ensures { GivesEachItsOwn }
{}
