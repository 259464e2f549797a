//! What an update makes of a document.

ghost use Rattle.std.specs.Prelude.{◌≡◌, ◌≤◌, true, length, map};
ghost use Rattle.outcome.specs.Outcome.{Gives};
ghost use Rattle.update_model.specs.Applying.{apply_edits, changed, apply};
ghost use Rattle.update_model.specs.Stored.{judged};
ghost use Rattle.update.specs.View.{edit_of, form_of, update_of};

use crate::edit::{Edit, Form, MANY, Update};
use crate::moving::move_all;
use crate::operators::apply_action;
use crate::renaming::{count_renames, count_renames_below, rename_below};
use crate::replacements::replace;
use crate::stored::{id_first, stored_fault};
use crate::unsets::{count_unsets, parent_of, unset_all};
use bson::Document;
use path::{Refusal, passes_array};
use std::alloc::Global;

/// Whether the first are many, and half of them all at least.
fn is_most(first: &[Edit], all: &[Edit]) -> bool
    ensures { result ≡ true → 16 ≤ length first.now }
{
    MANY <= first.len() && all.len() / 2 <= first.len()
}

/// The edits, in the order written. Many that take something away, or rename fields of one document, are done at once
/// where they stand one behind the other.
fn apply_edits(alloc: Global, edits: &[Edit], document: Document) -> Result<Document, Refusal>
    ensures { Gives Refusal.OutOfMemory (λ d. d) result
        (apply_edits (map edit_of edits.now) document) }
{
    let mut document = document;
    let mut rest = edits;
    'runs: while let [edit, others @ ..] = rest {
        let parent = parent_of(&edit.path);
        let (unsets, behind_unsets) = rest.split_at(count_unsets(rest));
        let (renames, behind_renames) = rest.split_at(count_renames(rest));
        let (below, behind_below) = rest.split_at(count_renames_below(parent, rest));
        if MANY <= unsets.len() {
            document = unset_all(alloc, unsets, document)?;
            rest = behind_unsets;
        } else if is_most(below, renames) && !passes_array(&document, &edit.path) {
            document = rename_below(alloc, parent, below, document)?;
            rest = behind_below;
        } else if MANY <= renames.len() {
            document = move_all(alloc, renames, document)?;
            rest = behind_renames;
        } else {
            document = apply_action(alloc, document, &edit.path, &edit.action)?;
            rest = others;
        }
    }
    Ok(document)
}

fn changed(alloc: Global, form: &Form, document: &Document) -> Result<Document, Refusal>
    ensures { Gives Refusal.OutOfMemory (λ d. d) result (changed (form_of form.now) document.now) }
{
    match form {
        Form::Edits(edits) => apply_edits(alloc, edits, document.copy()?),
        Form::Replacement(new) => replace(alloc, new, document),
    }
}

/// The document with its `_id` first, where it may be stored so.
fn judged(document: Document, limit: u32) -> Result<Document, Refusal>
    ensures { Gives Refusal.OutOfMemory (λ d. d) result (judged limit document) }
{
    let document = id_first(document)?;
    match stored_fault(&document, limit) {
        Some(refusal) => Err(refusal),
        None => Ok(document),
    }
}

impl Update {
    /// What the update makes of a document, which is copied once.
    ///
    /// Refused by the first edit that can't be made; then with `ImmutableField` where a replacement would change `_id`;
    /// then where the whole may not be stored, as `stored_fault` says, `limit` being the most bytes.
    pub fn apply(&self, document: &Document, limit: u32) -> Result<Document, Refusal>
        ensures { Gives Refusal.OutOfMemory (λ d. d) result
            (apply (update_of self.now) limit document.now) }
    {
        let new = changed(self.alloc, &self.form, document)?;
        judged(new, limit)
    }
}
