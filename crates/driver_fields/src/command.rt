//! The commands that drivers send.

ghost use Rattle.std.specs.Prelude.{◌≡◌};
ghost use Rattle.driver_fields.specs.Commands.{command_of};

use driver_replies::named;

/// A command that the database isn't asked.
#[derive(Clone, Copy, Debug, PartialEq, Eq)]
pub enum Own {
    /// `hello`: it is told what to know of the server.
    Hello,
    /// `isMaster`, its older name.
    IsMaster,
    /// It is told the version.
    BuildInfo,
    /// It is about sessions, of which the server keeps nothing.
    Session,
    /// It says who the client is, and is refused.
    Login,
}

/// A command that the database is asked, by what is translated of it beside the fields that any may have.
#[derive(Clone, Copy, Debug, PartialEq, Eq)]
pub enum Asked {
    /// Nothing.
    Plain,
    /// A `createIndexes`, each of whose indexes has fields of its own.
    CreateIndexes,
    /// A write, which may say whether its statements are in order. Each of these has fields of its own.
    Write,
    /// A `find`, which may say that its first batch is its last.
    Find,
    /// A `getMore`, which goes to the connection that opened the cursor.
    GetMore,
    /// A `killCursors`, each of whose cursors goes to the connection that opened it.
    KillCursors,
    /// A `listCollections`, which may say which ones by their names.
    ListCollections,
    /// A `listIndexes`.
    ListIndexes,
    /// A `dropDatabase`, which drops one collection after the other.
    DropDatabase,
    /// An `explain`, which holds a `find`.
    Explain,
    /// A `findAndModify`, which finds a document and changes it.
    Modify,
    /// A `distinct`, which finds documents and tells the values of a path.
    Distinct,
}

/// What is done with a command.
#[derive(Clone, Copy, Debug, PartialEq, Eq)]
pub enum Command {
    /// It is answered at once.
    Own(Own),
    /// The database is asked.
    Forwarded(Asked),
}

/// The commands whose names have up to five bytes.
const UP_TO_FIVE: [(&str, Command); 5] = [
    ("hello", Command::Own(Own::Hello)),
    ("ping", Command::Forwarded(Asked::Plain)),
    ("count", Command::Forwarded(Asked::Plain)),
    ("drop", Command::Forwarded(Asked::Plain)),
    ("find", Command::Forwarded(Asked::Find)),
];

/// Those whose names have six to eight bytes.
const UP_TO_EIGHT: [(&str, Command); 9] = [
    ("isMaster", Command::Own(Own::IsMaster)),
    ("ismaster", Command::Own(Own::IsMaster)),
    ("create", Command::Forwarded(Asked::Plain)),
    ("insert", Command::Forwarded(Asked::Write)),
    ("update", Command::Forwarded(Asked::Write)),
    ("delete", Command::Forwarded(Asked::Write)),
    ("getMore", Command::Forwarded(Asked::GetMore)),
    ("explain", Command::Forwarded(Asked::Explain)),
    ("distinct", Command::Forwarded(Asked::Distinct)),
];

/// Those whose names have more.
const FROM_NINE: [(&str, Command); 17] = [
    ("buildInfo", Command::Own(Own::BuildInfo)),
    ("buildinfo", Command::Own(Own::BuildInfo)),
    ("endSessions", Command::Own(Own::Session)),
    ("killSessions", Command::Own(Own::Session)),
    ("refreshSessions", Command::Own(Own::Session)),
    ("saslStart", Command::Own(Own::Login)),
    ("saslContinue", Command::Own(Own::Login)),
    ("authenticate", Command::Own(Own::Login)),
    ("aggregate", Command::Forwarded(Asked::Plain)),
    ("createIndexes", Command::Forwarded(Asked::CreateIndexes)),
    ("dropIndexes", Command::Forwarded(Asked::Plain)),
    ("killCursors", Command::Forwarded(Asked::KillCursors)),
    (
        "listCollections",
        Command::Forwarded(Asked::ListCollections),
    ),
    ("listIndexes", Command::Forwarded(Asked::ListIndexes)),
    ("dropDatabase", Command::Forwarded(Asked::DropDatabase)),
    ("findAndModify", Command::Forwarded(Asked::Modify)),
    ("findandmodify", Command::Forwarded(Asked::Modify)),
];

/// What is done with a command of this name; nothing where it is unknown. The length of a name says in which table it
/// may stand.
#[tactic(auto, unfolding(crate::specs::Commands::command_of))]
pub fn command_of(name: &str) -> Option<Command>
    ensures { result ≡ command_of name.now }
{
    let len = name.len();
    if len < 6 {
        return named(&UP_TO_FIVE, name);
    }
    if len < 9 {
        return named(&UP_TO_EIGHT, name);
    }
    named(&FROM_NINE, name)
}
