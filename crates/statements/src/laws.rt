//! Laws of what the statements of an update write and reply, each the contract of a function that does nothing.

ghost use Rattle.statements.specs.Room.{RepliesAreShort, RepliesHaveRoom};
ghost use Rattle.statements.specs.WriteLaws.{UnchangedWriteNothing, WritesJoin, WritesLead, WritesOfMeant, WritesReplace, WritesStored};

/// What the statements of an update write, put among the documents, gives what they make of these, byte by byte.
pub fn writes_lead()
    ensures { WritesLead }
{}

/// Statements write what the first of them write, and then the others over what these left.
pub fn writes_join()
    ensures { WritesJoin }
{}

/// A statement that leaves each document that it matches as it is writes nothing.
pub fn unchanged_write_nothing()
    ensures { UnchangedWriteNothing }
{}

/// What an update writes and doesn't make goes in the place of a document that is there.
pub fn writes_replace()
    ensures { WritesReplace }
{}

/// What an update writes may be stored.
pub fn writes_stored()
    ensures { WritesStored }
{}

/// An update writes over the documents that its statements may mean what it writes over all of them.
pub fn writes_of_meant()
    ensures { WritesOfMeant }
{}

/// The reply of an update is no longer than the body that asks for it.
pub fn replies_are_short()
    ensures { RepliesAreShort }
{}

/// No update whose message is within its limit is refused because its reply is too long.
pub fn replies_have_room()
    ensures { RepliesHaveRoom }
{}
