//! `$unset` of many fields in one pass for each document that they are taken from: one by one, each would move up all
//! pairs behind it.

ghost use Rattle.std.specs.Prelude.{◌≡◌, ◌≤◌, true, [], length, take, map, IfOk, OnOk};
ghost use Rattle.std.specs.List.{list_all};
ghost use Rattle.std.specs.Option.{is_some};
ghost use Rattle.bson.specs.Tree.{scalar, null, no_pairs};
ghost use Rattle.bson.specs.Edits.{put};
ghost use Rattle.bson.specs.Lawful.{levels};
ghost use Rattle.bson.specs.Lookup.{lookup};
ghost use Rattle.bson.specs.View.{tree};
ghost use Rattle.outcome.specs.Outcome.{Gives};
ghost use Rattle.path.specs.Edits.{cut_off, cut_item};
ghost use Rattle.path.specs.Parts.{index_of};
ghost use Rattle.update_model.specs.Applying.{apply_edits};
ghost use Rattle.update.specs.Unsets.{is_below, is_unset, is_unset_below, last_name, marked, unmarked, without_items};
ghost use Rattle.update.specs.View.{edit_of};

use crate::copying::copy_edits;
use crate::edit::{Action, Edit, MANY};
use crate::inside::change_below;
use crate::operators::apply_action;
use bson::{Array, BuildFault, Document, NoMemory, Pair, Value};
use path::{Part, Path, Refusal, take_item};
use std::alloc::{AllocError, Global};
use std::cmp::Ordering;

/// The parts of a path but the last.
pub(crate) fn parent_of(path: &Path) -> &[Part] {
    match path.parts() {
        [parent @ .., _] => parent,
        [] => &[],
    }
}

/// The last part of a path.
pub(crate) fn last_part(path: &Path) -> &Part
    ensures { result.now ≡ last_name path.now }
{
    let (first, rest) = path.split_first();
    match rest {
        [.., last] => last,
        [] => first,
    }
}

/// Whether the path is that of a field, or an element, of what stands at the end of these parts.
pub(crate) fn is_below(parent: &[Part], path: &[Part]) -> bool
    ensures { result ≡ is_below parent.now path.now }
{
    let [name, parent @ ..] = parent else {
        return path.len() == 1;
    };
    let [first, rest @ ..] = path else {
        return false;
    };
    name.as_str() == first.as_str() && is_below(parent, rest)
}

/// Whether the edit takes something away.
fn is_unset(edit: &Edit) -> bool
    ensures { result ≡ is_unset (edit_of edit.now) }
{
    match &edit.action {
        Action::Unset => true,
        _ => false,
    }
}

/// How many of the first edits do nothing but take something away.
pub(crate) fn count_unsets(edits: &[Edit]) -> usize
    ensures within { result ≤ length edits.now }
    ensures unsets { list_all (λ e. is_unset (edit_of e)) (take result edits.now) ≡ true }
{
    'edits: for (count, edit) in edits.iter().enumerate() {
        if !is_unset(edit) {
            return count;
        }
    }
    edits.len()
}

/// Whether the edit takes away a field, or an element, of what stands at the end of these parts.
fn is_unset_below(parent: &[Part], edit: &Edit) -> bool
    ensures { result ≡ is_unset_below parent.now (edit_of edit.now) }
{
    match &edit.action {
        Action::Unset => is_below(parent, edit.path.parts()),
        _ => false,
    }
}

/// How many of the first edits do nothing but that.
fn count_unsets_below(parent: &[Part], edits: &[Edit]) -> usize
    ensures within { result ≤ length edits.now }
    ensures unsets { list_all (λ e. is_unset_below parent.now (edit_of e)) (take result edits.now) ≡ true }
{
    'edits: for (count, edit) in edits.iter().enumerate() {
        if !is_unset_below(parent, edit) {
            return count;
        }
    }
    edits.len()
}

/// Puts a value under the name.
pub(crate) fn put(document: &mut Document, name: &Part, value: Value) -> Result<(), NoMemory>
    requires { levels (tree value) ≤ 99 }
    ensures { OnOk result (document.new ≡ put document.old name.now (tree value)) }
{
    match document.set(name.as_str(), value) {
        Ok(()) => Ok(()),
        Err(BuildFault::Memory) => Err(AllocError),
        Err(BuildFault::Name) => unreachable!(),
        Err(BuildFault::Repeated) => unreachable!(),
        Err(BuildFault::Deep) => unreachable!(),
    }
}

/// A document with a null at the last name of each of the paths.
fn marked(alloc: Global, edits: &[Edit]) -> Result<Document, NoMemory>
    ensures { IfOk result (λ d. d ≡ marked (map edit_of edits.now) no_pairs) }
{
    let mut marks = Document::new(alloc);
    'edits: for edit in edits {
        put(&mut marks, last_part(&edit.path), Value::Null)?;
    }
    Ok(marks)
}

fn is_marked(marks: &Document, pair: &Pair) -> bool
    ensures { result ≡ is_some (lookup marks.now pair.now.name) }
{
    marks.get(pair.name.as_str()).is_some()
}

/// The document without the fields that are among the marks.
pub(crate) fn unmarked(document: Document, marks: &Document) -> Document
    ensures { result ≡ unmarked marks.now document }
{
    let mut pairs = document.into_pairs();
    pairs.retain(|pair| !is_marked(marks, pair));
    Document::from_pairs(pairs)
}

/// The document without the fields that the last parts name.
pub(crate) fn without_fields(
    alloc: Global,
    document: Document,
    edits: &[Edit],
) -> Result<Document, NoMemory>
    ensures { IfOk result (λ d. d ≡ unmarked (marked (map edit_of edits.now) no_pairs) document) }
{
    let marks = marked(alloc, edits)?;
    Ok(unmarked(document, &marks))
}

/// Puts a null in place of the element that a part numbers, where there is one.
fn empty_item(array: &mut Array, part: &Part)
    ensures { array.new ≡ cut_item (cut_off []) (index_of part.now) array.old }
{
    let Some(at) = part.index() else {
        return;
    };
    if array.len() <= at {
        return;
    }
    let _null_before = take_item(array, at);
}

/// The array with null in place of the elements that the last parts number.
pub(crate) fn without_items(array: Array, edits: &[Edit]) -> Array
    ensures { result ≡ without_items (map edit_of edits.now) array }
{
    let mut array = array;
    'edits: for edit in edits {
        empty_item(&mut array, last_part(&edit.path));
    }
    array
}

/// The edits, in the order written. Many that take away fields of one document, one behind the other, are done at once.
fn unset_runs(alloc: Global, edits: &[Edit], document: Document) -> Result<Document, Refusal>
    ensures { Gives Refusal.OutOfMemory (λ d. d) result
        (apply_edits (map edit_of edits.now) document) }
{
    let mut document = document;
    let mut rest = edits;
    'runs: while let [edit, others @ ..] = rest {
        let parent = parent_of(&edit.path);
        let (run, behind) = rest.split_at(count_unsets_below(parent, rest));
        if MANY <= run.len() {
            let _levels = document.levels();
            document = change_below(alloc, parent, run, document)?;
            rest = behind;
        } else {
            document = apply_action(alloc, document, &edit.path, &edit.action)?;
            rest = others;
        }
    }
    Ok(document)
}

/// An order in which the edits of one document's fields stand one behind the other: paths of one length in the order of
/// their parts.
fn by_parent(a: &Edit, b: &Edit) -> Ordering {
    match a.path.parts().len().cmp(&b.path.parts().len()) {
        Ordering::Equal => a.path.cmp(&b.path),
        order => order,
    }
}

/// The document without what these edits take away, in whatever order.
pub(crate) fn unset_all(
    alloc: Global,
    edits: &[Edit],
    document: Document,
) -> Result<Document, Refusal>
    requires { list_all (λ e. is_unset (edit_of e)) edits.now ≡ true }
    ensures { Gives Refusal.OutOfMemory (λ d. d) result
        (apply_edits (map edit_of edits.now) document) }
{
    let _levels = document.levels();
    let mut sorted = copy_edits(alloc, edits)?;
    sorted.sort_by(by_parent)?;
    unset_runs(alloc, &sorted, document)
}
