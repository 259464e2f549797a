//! Updates as they were read.

ghost use Rattle.std.specs.Prelude.{◌≡◌};
ghost use Rattle.update_model.specs.Update.{is_replacement};

use crate::numbers::Number;
use bson::{Document, Value};
use filter::Condition;
use path::Path;
use std::alloc::Global;

/// How many edits are many: fewer are done one after the other.
pub(crate) const MANY: usize = 16;

/// What an edit does at its path.
#[derive(Drop)]
pub(crate) enum Action {
    /// Puts a value there.
    Set(Value),
    /// Takes away what stands there.
    Unset,
    /// Adds a number.
    Increment(Number),
    /// Puts a value there that is below what stands there.
    AtMost(Value),
    /// Puts a value there that is above what stands there.
    AtLeast(Value),
    /// Puts values at the end of an array.
    Push(Vec<Value>),
    /// Takes the elements out of an array for which the condition looks.
    Pull(Condition),
    /// Moves what stands there to another path.
    Rename(Path),
}

/// What is done at one path.
#[derive(Drop)]
pub(crate) struct Edit {
    pub path: Path,
    pub action: Action,
}

#[derive(Drop)]
pub(crate) enum Form {
    /// Edits, in the order written.
    Edits(Vec<Edit>),
    /// A document that takes the place of another.
    Replacement(Document),
}

/// An update: edits at paths of which none is, or leads to, another, or a document that takes the place of another.
pub struct Update {
    pub(crate) alloc: Global,
    pub(crate) form: Form,
}

// (written out, so that no crate above proves again that its parts are let go)
impl Drop for Update {
    fn drop(self) {
        let Update { alloc: _, form: _ } = self;
    }
}

impl Update {
    ghost use Rattle.update.specs.View.{update_of};

    /// Whether it is a document that takes the place of another.
    pub fn is_replacement(&self) -> bool
        ensures { result ≡ is_replacement (update_of self.now) }
    {
        match self.form {
            Form::Replacement(_) => true,
            Form::Edits(_) => false,
        }
    }
}
