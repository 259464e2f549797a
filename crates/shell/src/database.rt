//! What answers commands.

use bson::Document;

/// Why a command has no reply.
#[derive(Clone, Copy, Debug, PartialEq, Eq)]
pub enum DatabaseFault {
    /// The command has more bytes than a message may have.
    TooLarge = 1,
    /// Out of memory.
    Memory,
    /// A write or a sync of the file failed, and the database answers no more.
    Stopped,
}

/// A database that answers commands, one after the other, each in a turn of its own.
pub trait Database {
    ghost use Rattle.std.specs.Prelude.{Result};
    ghost use Rattle.bson.specs.Tree.{Pairs};
    ghost use Rattle.shell.specs.declared.database.DatabaseFault.{DatabaseFault};

    /// What holds between two calls.
    ghost is_sound: { Self → Type 0 };

    /// What a command may be answered, and what becomes of the database then.
    ghost answers: { Self → Pairs → Result Pairs DatabaseFault → Self → Type 0 };

    /// The reply to a command, or the refusal.
    fn reply(&mut self, command: &Document) -> Result<Document, DatabaseFault>
        requires sound { is_sound self.old }
        ensures sound { is_sound self.new }
        ensures answers { answers self.old command.now result self.new };
}
