//! Laws of the definitions, as contracts.

ghost use Rattle.driver_messages.specs.Cutting.{AreTakenInOrder, CutsMakeNoDifference};
ghost use Rattle.driver_messages.specs.Laws.{CommandKeepsLength, KeepsLength};
ghost use Rattle.driver_messages.specs.Rows.{DoubleRows, ForeignRows, IntegerRows, QueryRows};

/// Messages, foreign types and whole doubles, worked by hand.
pub fn rows()
    ensures queries { QueryRows }
    ensures foreign { ForeignRows }
    ensures doubles { DoubleRows }
    ensures integers { IntegerRows }
{}

/// A message is as long with its whole doubles as integers as it is without, and so is a command alone.
pub fn keeps_length()
    ensures message { KeepsLength }
    ensures command { CommandKeepsLength }
{}

/// However a socket's bytes are cut into chunks, the messages that are taken of them stand in all of them one after the other; and once
/// all are taken, they are the same ones, with the same fault behind them, if there is one.
pub fn cuts_make_no_difference()
    ensures in_order { AreTakenInOrder }
    ensures once { CutsMakeNoDifference }
{}
