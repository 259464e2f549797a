//! `$rename` of many fields from one document to another, or within several by turns: what moves is copied from where it
//! stands. At the end all old paths and all new ones are taken away, which `unsets` does in one pass for each document,
//! and what moved is put at its new paths in the order written.

ghost use Rattle.std.specs.Prelude.{◌≡◌, ◌&&◌, ◌++◌, ◌∷◌, [], not, false, map, Ok, IfOk};
ghost use Rattle.bson.specs.Tree.{document};
ghost use Rattle.outcome.specs.Outcome.{Gives};
ghost use Rattle.path.specs.Edits.{if_ok};
ghost use Rattle.path.specs.Place.{passes_array};
ghost use Rattle.update_model.specs.Applying.{apply_edit, apply_edits};
ghost use Rattle.update.specs.Moving.{unset_of, move_of, put_all, all_moved, MayMove, GivesMoves};
ghost use Rattle.update_model.specs.Parsing.{conflicts};
ghost use Rattle.update_model.specs.Renames.{rename_at};
ghost use Rattle.update.specs.Renaming.{rename_of};
ghost use Rattle.update.specs.Unsets.{cut_all};
ghost use Rattle.update.specs.View.{edit_of};

use crate::edit::{Action, Edit};
use crate::edit_list::EditList;
use crate::operators::apply_action;
use crate::touching::touch_at;
use crate::unsets::unset_all;
use bson::{Document, NoMemory, Value};
use path::{Path, Refusal, passes_array, value_at, write_into};
use std::alloc::Global;
use std::marker::Model;

/// A field that moves.
#[derive(Drop)]
pub(crate) struct Moved {
    /// Its new path.
    path: Path,

    value: Value,
}

/// A document of which fields move.
struct Moving {
    /// The document before.
    document: Document,

    /// The old paths of these fields and their new ones, at which nothing is to be left.
    gone: EditList,

    /// What is put there then.
    moved: Vec<Moved>,
}

impl Model for Moving {
    ghost use Rattle.std.specs.Prelude.{map};
    ghost use Rattle.std.specs.Coded.{codes};
    ghost use Rattle.bson.specs.TreeCode.{coded_pairs, coded_tree};
    ghost use Rattle.update.specs.Moving.{Moves, MayMove, move_of};
    ghost use Rattle.update_model.specs.UpdateCode.{coded_edit};

    ghost Value = { Moves };

    ghost coded = { Prim.hlevel (codes, coded_pairs, coded_tree, coded_edit) };

    ghost view = { λ a. (a.document, (a.gone, map move_of a.moved.items)) };

    ghost invariant = { λ a. MayMove a.document a.gone (map move_of a.moved.items) };
}

/// Whether the field may move with the others: its paths meet none of theirs and lead through no array.
fn may_move(source: &Document, gone: &EditList, edit: &Edit, new: &Path) -> bool
    ensures { result ≡ (not (conflicts gone.now (edit_of edit.now))
        && (not (passes_array edit.now.path (document source.now))
        && not (passes_array new.now (document source.now)))) }
{
    !gone.conflicts(edit) && !passes_array(source, &edit.path) && !passes_array(source, new)
}

/// With an edit behind these that takes away what stands at the path.
fn with_unset(gone: EditList, path: &Path) -> Result<EditList, NoMemory>
    requires { conflicts gone (unset_of path.now) ≡ false }
    ensures { IfOk result (λ edits. edits ≡ gone ++ unset_of path.now ∷ []) }
{
    gone.with_apart(Edit {
        path: path.copy()?,
        action: Action::Unset,
    })
}

/// The fields that move, and the one at the old path, where there is one.
fn with_move(
    source: Document,
    gone: EditList,
    moved: Vec<Moved>,
    old: &Path,
    new: &Path,
) -> Result<Moving, Refusal>
    requires may { MayMove source gone (map move_of moved.items) }
    requires apart { conflicts gone (rename_of old.now new.now) ≡ false }
    requires old { passes_array old.now (document source) ≡ false }
    requires new { passes_array new.now (document source) ≡ false }
    ensures { GivesMoves result
        (if_ok (put_all (map move_of moved.items) (cut_all gone source)) (rename_at old.now new.now)) }
{
    let mut moved = moved;
    let source = touch_at(source, old);
    let source = touch_at(source, new);
    let _levels = source.levels();
    let found = value_at(&source, old);
    let Some(value) = found else {
        return Ok(Moving {
            document: source,
            gone,
            moved,
        });
    };
    let value = value.copy()?;
    let gone = with_unset(gone, old)?;
    let gone = with_unset(gone, new)?;
    moved.push(Moved {
        path: new.copy()?,
        value,
    })?;
    Ok(Moving {
        document: source,
        gone,
        moved,
    })
}

/// The document with each value at its new path, in order.
fn put_all(alloc: Global, moved: Vec<Moved>, document: Document) -> Result<Document, Refusal>
    ensures { Gives Refusal.OutOfMemory (λ d. d) result (put_all (map move_of moved.items) document) }
{
    let mut document = document;
    'moved: for field in moved {
        let Moved { path, value } = field;
        document = write_into(alloc, document, &path, value)?;
    }
    Ok(document)
}

impl Moving {
    /// The document, of which no field moves yet.
    fn new(alloc: Global, document: Document) -> Moving
        ensures { all_moved result ≡ Ok document }
    {
        Moving {
            document,
            gone: EditList::new(alloc),
            moved: Vec::new(alloc),
        }
    }

    /// The document once the fields have moved.
    fn into_document(self, alloc: Global) -> Result<Document, Refusal>
        ensures { Gives Refusal.OutOfMemory (λ d. d) result (all_moved self) }
    {
        let Moving {
            document,
            gone,
            moved,
        } = self;
        let edits = gone.into_edits();
        let left = unset_all(alloc, &edits, document)?;
        put_all(alloc, moved, left)
    }

    /// The document after the edit, which is done once the fields have moved.
    fn with_edit(self, alloc: Global, edit: &Edit) -> Result<Moving, Refusal>
        ensures { GivesMoves result (if_ok (all_moved self) (apply_edit (edit_of edit.now))) }
    {
        let document = self.into_document(alloc)?;
        let document = apply_action(alloc, document, &edit.path, &edit.action)?;
        Ok(Moving::new(alloc, document))
    }

    /// The document after the edit.
    fn after(self, alloc: Global, edit: &Edit) -> Result<Moving, Refusal>
        ensures { GivesMoves result (if_ok (all_moved self) (apply_edit (edit_of edit.now))) }
    {
        let Action::Rename(new) = &edit.action else {
            return self.with_edit(alloc, edit);
        };
        let Moving {
            document,
            gone,
            moved,
        } = self;
        if may_move(&document, &gone, edit, new) {
            return with_move(document, gone, moved, &edit.path, new);
        }
        Moving {
            document,
            gone,
            moved,
        }
        .with_edit(alloc, edit)
    }
}

/// The document once these edits have moved fields, from wherever to wherever.
pub(crate) fn move_all(
    alloc: Global,
    edits: &[Edit],
    document: Document,
) -> Result<Document, Refusal>
    ensures { Gives Refusal.OutOfMemory (λ d. d) result
        (apply_edits (map edit_of edits.now) document) }
{
    let mut moving = Moving::new(alloc, document);
    'edits: for edit in edits {
        moving = moving.after(alloc, edit)?;
    }
    moving.into_document(alloc)
}
