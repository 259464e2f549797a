//! Updates of their own that are equal to others.

ghost use Rattle.std.specs.Prelude.{◌≡◌, IfOk, map};
ghost use Rattle.bson.specs.View.{items_of};
ghost use Rattle.update.specs.View.{action_of, edit_of, update_of};

use crate::arrays::copies;
use crate::edit::{Action, Edit, Form, Update};
use bson::NoMemory;
use std::alloc::Global;

impl Action {
    fn copy(&self, alloc: Global) -> Result<Action, NoMemory>
        ensures { IfOk result (λ a. action_of a ≡ action_of self.now) }
    {
        match self {
            Action::Set(value) => Ok(Action::Set(value.copy()?)),
            Action::Unset => Ok(Action::Unset),
            Action::Increment(by) => Ok(Action::Increment(*by)),
            Action::AtMost(value) => Ok(Action::AtMost(value.copy()?)),
            Action::AtLeast(value) => Ok(Action::AtLeast(value.copy()?)),
            Action::Push(values) => Ok(Action::Push(copies(alloc, values)?)),
            Action::Pull(condition) => Ok(Action::Pull(condition.copy()?)),
            Action::Rename(path) => Ok(Action::Rename(path.copy()?)),
        }
    }
}

impl Edit {
    fn copy(&self, alloc: Global) -> Result<Edit, NoMemory>
        ensures { IfOk result (λ e. edit_of e ≡ edit_of self.now) }
    {
        Ok(Edit {
            path: self.path.copy()?,
            action: self.action.copy(alloc)?,
        })
    }
}

pub(crate) fn copy_edits(alloc: Global, edits: &[Edit]) -> Result<Vec<Edit>, NoMemory>
    ensures { IfOk result (λ v. map edit_of v.items ≡ map edit_of edits.now) }
{
    let mut all = Vec::with_capacity(alloc, edits.len())?;
    'edits: for edit in edits {
        all.push(edit.copy(alloc)?)?;
    }
    Ok(all)
}

impl Update {
    /// An equal update of its own.
    pub fn copy(&self) -> Result<Update, NoMemory>
        ensures { IfOk result (λ u. update_of u ≡ update_of self.now) }
    {
        let alloc = self.alloc;
        match &self.form {
            Form::Edits(edits) => {
                let form = Form::Edits(copy_edits(alloc, edits)?);
                Ok(Update { alloc, form })
            }
            Form::Replacement(new) => {
                let form = Form::Replacement(new.copy()?);
                Ok(Update { alloc, form })
            }
        }
    }
}
