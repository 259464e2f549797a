//! Laws of the definitions, as contracts.

ghost use Rattle.drivers.specs.Laws.{AsksOwnFields, AsksSameStatements, IgnoredMakesNoDifference, IgnoredInEntries, IgnoredLeavesThePlan};
ghost use Rattle.drivers.specs.Asked.{IgnoredGoesTheSame, IsHeardAsWanted, KeepsWhatIsAsked, RefusedAsksNothing};
ghost use Rattle.drivers.specs.Rows.{StepRows};

/// Something is asked of the database only if the command is one for it and no field of it is refused: the command without the fields
/// that the database doesn't have.
pub fn asks_own_fields()
    ensures { AsksOwnFields }
{}

/// The statements of a write that are asked one by one, where the whole was refused, are those that were asked as a whole.
pub fn asks_same_statements()
    ensures { AsksSameStatements }
{}

/// What is kept of a message is made of what was asked first, and behind a reply nothing more of what is asked is kept.
pub fn keeps_what_is_asked()
    ensures { KeepsWhatIsAsked }
{}

/// A field that is ignored makes no difference to what is done first.
pub fn ignored_makes_no_difference()
    ensures { IgnoredMakesNoDifference }
{}

/// Nor does one of an index that is made, or of a statement.
pub fn ignored_in_entries()
    ensures { IgnoredInEntries }
{}

/// Such a field, where it has a rule whatever the command is, makes no difference to the answer either.
pub fn ignored_leaves_the_plan()
    ensures { IgnoredLeavesThePlan }
{}

/// However the database replies, a message that wants an answer is asked next or answered, and one that wants none is never answered.
pub fn ends_as_wanted()
    ensures { IsHeardAsWanted }
{}

/// A command that is refused in front asks nothing of the database.
pub fn refused_asks_nothing()
    ensures { RefusedAsksNothing }
{}

/// A field that is ignored whatever the command is makes no difference to what is asked, nor to how it ends, however the database replies.
pub fn ignored_goes_the_same()
    ensures { IgnoredGoesTheSame }
{}

/// Commands, worked by hand.
pub fn rows()
    ensures { StepRows }
{}
