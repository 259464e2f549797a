//! Edits as they are read, none of which meets another, with the set of the paths that they change.

ghost use Rattle.std.specs.Prelude.{◌≡◌, ◌++◌, [], ◌∷◌, false, IfOk, OnOk, map};
ghost use Rattle.outcome.specs.Outcome.{Gives};
ghost use Rattle.update.specs.EditPaths.{HaveOneMore, conflicts_with};
ghost use Rattle.update_model.specs.Parsing.{conflicts, without_conflict};
ghost use Rattle.update.specs.View.{edit_of};

use crate::edit::{Action, Edit};
use bson::NoMemory;
use path::{PathSet, Refusal};
use std::alloc::Global;
use std::marker::Model;

/// Edits in the order read.
#[derive(Drop)]
pub(crate) struct EditList {
    edits: Vec<Edit>,

    /// The paths that they change, by which it is told whether another edit meets one of them.
    paths: PathSet,
}

impl Model for EditList {
    ghost use Rattle.std.specs.Prelude.{List, map};
    ghost use Rattle.std.specs.Coded.{coded_list};
    ghost use Rattle.update_model.specs.Update as updates;
    ghost use Rattle.update_model.specs.UpdateCode.{coded_edit};
    ghost use Rattle.update.specs.EditPaths.{HavePathsOf};
    ghost use Rattle.update.specs.View.{edit_of};

    ghost Value = { List updates.Edit };

    ghost coded = { coded_list coded_edit };

    ghost view = { λ a. map edit_of a.edits.items };

    ghost invariant = { λ a. HavePathsOf a.paths (map edit_of a.edits.items) };
}

/// Whether the edit meets one of these paths, or the new path of a rename meets its old one.
fn conflicts_with(paths: &PathSet, edit: &Edit) -> bool
    ensures { result ≡ conflicts_with paths.now (edit_of edit.now) }
{
    match &edit.action {
        Action::Rename(new) => {
            paths.meets(&edit.path) || paths.meets(new) || new.meets(&edit.path)
        }
        _ => paths.meets(&edit.path),
    }
}

/// Puts the paths that an edit changes among these, which it meets none of.
fn put_paths(paths: &mut PathSet, edit: &Edit) -> Result<(), NoMemory>
    requires { conflicts_with paths.old (edit_of edit.now) ≡ false }
    ensures { OnOk result (HaveOneMore paths.old (edit_of edit.now) paths.new) }
{
    paths.put(edit.path.copy()?)?;
    match &edit.action {
        Action::Rename(new) => paths.put(new.copy()?),
        _ => Ok(()),
    }
}

impl EditList {
    /// No edit.
    pub fn new(alloc: Global) -> EditList
        ensures { result ≡ [] }
    {
        EditList {
            edits: Vec::new(alloc),
            paths: PathSet::new(alloc),
        }
    }

    /// Whether the edit meets one of these, or the new path of a rename meets its old one.
    pub fn conflicts(&self, edit: &Edit) -> bool
        ensures { result ≡ conflicts self.now (edit_of edit.now) }
    {
        conflicts_with(&self.paths, edit)
    }

    /// With an edit behind these, none of which it meets.
    pub fn with_apart(self, edit: Edit) -> Result<EditList, NoMemory>
        requires { conflicts self (edit_of edit) ≡ false }
        ensures { IfOk result (λ edits. edits ≡ self ++ edit_of edit ∷ []) }
    {
        let EditList { edits, paths } = self;
        let mut edits = edits;
        let mut paths = paths;
        match put_paths(&mut paths, &edit) {
            Ok(()) => {}
            Err(fault) => {
                drop(edit);
                return Err(fault);
            }
        }
        edits.push(edit)?;
        Ok(EditList { edits, paths })
    }

    /// With an edit behind these, none of which it may meet.
    pub fn with(self, edit: Edit) -> Result<EditList, Refusal>
        ensures { Gives Refusal.OutOfMemory (λ edits. edits) result
            (without_conflict self (edit_of edit)) }
    {
        if self.conflicts(&edit) {
            drop(edit);
            return Err(Refusal::ConflictingUpdateOperators);
        }
        Ok(self.with_apart(edit)?)
    }

    /// The edits.
    pub fn into_edits(self) -> Vec<Edit>
        ensures { map edit_of result.items ≡ self }
    {
        let EditList { edits, paths: _ } = self;
        edits
    }
}
