//! One value of a list that a path is to be equal to: the `_id`s to which an index leads whose first field has that path.

ghost use Rattle.std.specs.Prelude.{◌≡◌, ◌∷◌, [], List, Some, IfSome, true, false, ℕ};
ghost use Rattle.bson.specs.View.{tree};
ghost use Rattle.collections.specs.Lookups.{ReadsOf};
ghost use Rattle.filter.specs.Matches.{matches};
ghost use Rattle.index.specs.View.{texts_of};
ghost use Rattle.plan_model.specs.Plan.{range_in};
ghost use Rattle.plan_model.specs.Usable.{no_array};
ghost use Rattle.planner.specs.View.{range_of};
ghost use Rattle.candidate_ids.specs.Alternatives.{begins_with, equal_at, has_other_next, has_path};
ghost use Rattle.asked_documents.specs.Asking.{IsAsked};
ghost use Rattle.asked_documents.specs.ById.{TellOf};
ghost use Rattle.candidate_ids.specs.ByIndex.{IsRangeOf};

use crate::by_index::ids_asked;
use bson::Value;
use collections::Collections;
use entries::Catalogued;
use index::{IndexField, IndexSpec};
use page::Disk;
use path::{Path, Refusal};
use planner::{IndexRange, Leading};
use std::alloc::Global;

fn has_path(field: &IndexField, path: &Path) -> bool
    ensures { result ≡ has_path path.now field.now }
{
    field.path().is_front_of(path) && path.is_front_of(field.path())
}

/// Whether no field comes first, or one of another path.
fn has_other_next(fields: &[IndexField], path: &Path) -> bool
    ensures { result ≡ has_other_next path.now fields.now }
{
    match fields {
        [] => true,
        [first, ..] => !has_path(first, path),
    }
}

/// Whether the first of an index's fields has this path, and not the second one too.
fn begins_with(fields: &[IndexField], path: &Path) -> bool
    ensures { result ≡ begins_with path.now fields.now }
{
    match fields {
        [] => false,
        [first, rest @ ..] => has_path(first, path) && has_other_next(rest, path),
    }
}

/// The range of the keys of an index that begin with a value.
fn beginning_with<'a>(index: &'a IndexSpec, value: &'a Value) -> IndexRange<'a>
    ensures { (path : List (List ℕ)) → begins_with path index.now.fields ≡ true
        → no_array (tree value.now) ≡ Some (tree value.now)
        → range_of result ≡ range_in (equal_at path (tree value.now)) [] (Some index.now) }
{
    IndexRange {
        index: Some(index),
        equal: Leading {
            first: Some(value),
            second: None,
            third: None,
            fourth: None,
        },
        low: None,
        high: None,
        is_sorted: false,
    }
}

fn is_array(value: &Value) -> bool
    ensures { result ≡ false → no_array (tree value.now) ≡ Some (tree value.now) }
{
    match value {
        Value::Array(_) => true,
        _ => false,
    }
}

/// The range of the first index that serves the one value at a path.
fn range_of_value<'a>(
    path: &Path,
    value: &'a Value,
    indexes: &'a [IndexSpec],
) -> Option<IndexRange<'a>>
    ensures { IfSome result (λ range.
        IsRangeOf (equal_at path.now (tree value.now)) [] indexes.now (range_of range)) }
{
    if is_array(value) {
        return None;
    }
    'indexes: for index in indexes {
        if !begins_with(index.fields(), path) {
            continue;
        }
        let range = beginning_with(index, value);
        if range.is_spellable() {
            return Some(range);
        }
    }
    None
}

/// The texts of the `_id`s of the documents that have the value at a path, and perhaps of others, where an index leads to them by at
/// most so many of its entries.
pub(crate) fn ids_of_value<D: Disk>(
    alloc: Global,
    file: &mut Collections<D>,
    home: &Catalogued,
    path: &Path,
    value: &Value,
    most: usize,
) -> Result<Option<Vec<Vec<u8>>>, Refusal>
    ensures { ReadsOf D.history (IsAsked home.now)
        (λ now c found. IfSome found (λ ids.
        TellOf c (matches (equal_at path.now (tree value.now))) [] (texts_of ids.items)))
        result file.old file.new }
{
    if file.is_stopped() {
        return Err(Refusal::StorageFailed);
    }
    let Some(range) = range_of_value(path, value, &home.indexes) else {
        return Ok(None);
    };
    ids_asked(alloc, file, home, &range, most)
}
