//! `$rename`.

ghost use Rattle.std.specs.Prelude.{◌≡◌};
ghost use Rattle.outcome.specs.Outcome.{Gives};
ghost use Rattle.update_model.specs.Renames.{rename_at};

use bson::Document;
use path::{Path, Refusal, passes_array, remove_from, take_from, value_at, write_into};
use std::alloc::Global;

/// Moves what stands at the old path to the new one, last in its document.
pub(crate) fn rename_at(
    alloc: Global,
    document: Document,
    old: &Path,
    new: &Path,
) -> Result<Document, Refusal>
    ensures { Gives Refusal.OutOfMemory (λ d. d) result (rename_at old.now new.now document) }
{
    if passes_array(&document, old) {
        return Err(Refusal::BadValue);
    }
    if value_at(&document, old).is_none() {
        return Ok(document);
    }
    if passes_array(&document, new) {
        return Err(Refusal::BadValue);
    }
    let (left, taken) = take_from(document, old);
    match taken {
        Some(value) => write_into(alloc, remove_from(left, new), new, value),
        None => unreachable!(),
    }
}
