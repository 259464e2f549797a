//! What the first frames are answered, byte by byte, and that the reply of an update has room in a message; each the contract of a
//! function that does nothing.

ghost use Rattle.message_laws.specs.Room.{UpdatesHaveRoom};
ghost use Rattle.message_laws.specs.Rows.{FirstRows};

/// The bytes of the first replies, from the bytes of the first frames.
pub fn first_rows()
    ensures { FirstRows }
{}

/// No update whose message is within its limit is refused because its reply is too long.
pub fn updates_have_room()
    ensures { UpdatesHaveRoom }
{}
