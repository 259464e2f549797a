//! The commands that write, each of which has several statements.

ghost use Rattle.std.specs.Prelude.{◌≡◌};
ghost use Rattle.driver_replies.specs.Modifying.{write_name};
ghost use Rattle.driver_replies.specs.Writes.{write_of, field_of, is_update};

use crate::tables::named;

/// A command that writes.
#[derive(Clone, Copy, Debug, PartialEq, Eq)]
pub enum Write {
    Insert,
    Update,
    Delete,
}

/// The commands that write, by their names.
const WRITES: [(&str, Write); 3] = [
    ("insert", Write::Insert),
    ("update", Write::Update),
    ("delete", Write::Delete),
];

/// The write of this name.
pub fn write_of(name: &str) -> Option<Write>
    ensures { result ≡ write_of name.now }
{
    named(&WRITES, name)
}

impl Write {
    /// Its name.
    pub(crate) fn name(self) -> &'static str
        ensures { result.now ≡ write_name self }
    {
        match self {
            Write::Insert => "insert",
            Write::Update => "update",
            Write::Delete => "delete",
        }
    }

    /// The field that holds its statements.
    pub fn field(self) -> &'static str
        ensures { result.now ≡ field_of self }
    {
        match self {
            Write::Insert => "documents",
            Write::Update => "updates",
            Write::Delete => "deletes",
        }
    }

    /// Whether its reply says how many documents were changed.
    pub(crate) fn is_update(self) -> bool
        ensures { result ≡ is_update self }
    {
        match self {
            Write::Update => true,
            _ => false,
        }
    }
}
