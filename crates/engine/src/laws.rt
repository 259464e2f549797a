//! Laws of the definitions, each the contract of a function that does nothing.

ghost use Rattle.engine.specs.Laws.{BeginsLawful, StaysLawful, ReadsChangeNothing, HoldsOne, ZerosHoldNothing, RepliesSendable};

/// The world that an engine begins with is lawful.
pub fn begins_lawful()
    ensures { BeginsLawful }
{}

/// A lawful world steps to a lawful world, whatever it is told.
pub fn stays_lawful()
    ensures { StaysLawful }
{}

/// A command that only reads, and what is refused before it runs, change no collection, however they are answered.
pub fn reads_change_nothing()
    ensures { ReadsChangeNothing }
{}

/// What a lawful world replies is within `REPLY_LIMIT`.
pub fn replies_sendable()
    ensures { RepliesSendable }
{}

/// A disk of zeros holds no collection.
pub fn zeros_hold_nothing()
    ensures { ZerosHoldNothing }
{}

/// An image of a disk holds one list of collections at most.
pub fn holds_one()
    ensures { HoldsOne }
{}
