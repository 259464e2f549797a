//! `$rename` of many fields of one document in one pass: one after the other, each would move up all pairs behind it.

ghost use Rattle.std.specs.Prelude.{◌≡◌, ◌≤◌, true, false, if◌then◌else◌, length, take, map, option_map, None, IfOk, IfSome};
ghost use Rattle.std.specs.List.{list_all};
ghost use Rattle.std.specs.Option.{is_some};
ghost use Rattle.bson.specs.Tree.{Pairs, document};
ghost use Rattle.bson.specs.Edits.{put, cut};
ghost use Rattle.bson.specs.Lawful.{levels};
ghost use Rattle.bson.specs.Lookup.{lookup};
ghost use Rattle.bson.specs.View.{tree};
ghost use Rattle.outcome.specs.Outcome.{Gives};
ghost use Rattle.update_model.specs.Applying.{apply_edits};
ghost use Rattle.update.specs.Inside.{leads_to_array};
ghost use Rattle.update.specs.Renaming.{is_rename_below, moved_field, renamed};
ghost use Rattle.update.specs.Unsets.{unmarked};
ghost use Rattle.update.specs.View.{edit_of};

use crate::edit::{Action, Edit};
use crate::inside::change_below;
use crate::touching::touch;
use crate::unsets::{is_below, last_part, put, unmarked};
use bson::{Document, NoMemory, Value};
use path::{Part, Refusal};
use std::alloc::Global;
use std::marker::Model;

/// How many of the first edits do nothing but rename fields.
pub(crate) fn count_renames(edits: &[Edit]) -> usize
    ensures { result ≤ length edits.now }
{
    'edits: for (count, edit) in edits.iter().enumerate() {
        match &edit.action {
            Action::Rename(_) => {}
            _ => return count,
        }
    }
    edits.len()
}

/// Whether the edit moves a field of what stands at the end of these parts to another field of it.
fn is_rename_below(parent: &[Part], edit: &Edit) -> bool
    ensures { result ≡ is_rename_below parent.now (edit_of edit.now) }
{
    match &edit.action {
        Action::Rename(new) => {
            is_below(parent, new.parts()) && is_below(parent, edit.path.parts())
        }
        _ => false,
    }
}

/// How many of the first edits do nothing but that.
pub(crate) fn count_renames_below(parent: &[Part], edits: &[Edit]) -> usize
    ensures within { result ≤ length edits.now }
    ensures renames { list_all (λ e. is_rename_below parent.now (edit_of e)) (take result edits.now) ≡ true }
{
    'edits: for (count, edit) in edits.iter().enumerate() {
        if !is_rename_below(parent, edit) {
            return count;
        }
    }
    edits.len()
}

/// Takes the value of a field out that isn't gone, and leaves null in its place.
fn take_kept(kept: &mut Document, gone: &Document, name: &Part) -> Option<Value>
    ensures value { option_map tree result
        ≡ (if is_some (lookup gone.now name.now) then None else lookup kept.old name.now) }
    ensures levels { IfSome result (λ v. levels (tree v) ≤ 99) }
    ensures after { (marks : Pairs) → is_some (lookup marks name.now) ≡ true
        → unmarked marks kept.new ≡ unmarked marks kept.old }
{
    let _levels = kept.levels();
    if gone.get(name.as_str()).is_some() {
        return None;
    }
    let Some(at) = kept.position(name.as_str()) else {
        touch(kept);
        return None;
    };
    match kept.replace_at(at, Value::Null) {
        Ok(value) => Some(value),
        Err(_) => unreachable!(),
    }
}

/// A document of which fields are renamed.
struct Renaming {
    /// The fields that stand where they stood, with null in place of a value that moved.
    kept: Document,

    /// The names that don't stand there any more.
    gone: Document,

    /// The fields that were renamed, which stand behind.
    moved: Document,
}

impl Model for Renaming {
    ghost use Rattle.bson.specs.Tree.{Pairs};
    ghost use Rattle.bson.specs.TreeCode.{coded_pairs};
    ghost use Rattle.update.specs.Renaming.{whole, AreGone};

    ghost Value = { Pairs };

    ghost coded = { coded_pairs };

    ghost view = { λ a. whole a.gone a.kept a.moved };

    ghost invariant = { λ a. AreGone a.moved a.gone };
}

impl Renaming {
    /// The document, of which no field is renamed yet.
    fn new(alloc: Global, document: Document) -> Renaming
        ensures { result ≡ document }
    {
        Renaming {
            kept: document,
            gone: Document::new(alloc),
            moved: Document::new(alloc),
        }
    }

    /// Takes a field out.
    fn take(self, name: &Part) -> Result<(Renaming, Option<Value>), NoMemory>
        ensures left { IfOk result (λ r. r.0 ≡ cut self name.now) }
        ensures taken { IfOk result (λ r. option_map tree r.1 ≡ lookup self name.now) }
        ensures levels { IfOk result (λ r. IfSome r.1 (λ v. levels (tree v) ≤ 99)) }
    {
        let Renaming { kept, gone, moved } = self;
        let mut kept = kept;
        let mut gone = gone;
        let mut moved = moved;
        let _kept_levels = kept.levels();
        let _moved_levels = moved.levels();
        let found = moved.remove(name.as_str());
        let taken = match found {
            Some(value) => Some(value),
            None => take_kept(&mut kept, &gone, name),
        };
        put(&mut gone, name, Value::Null)?;
        Ok((Renaming { kept, gone, moved }, taken))
    }

    /// Puts a field behind the others, in place of the one of its name.
    fn put_last(self, name: &Part, value: Value) -> Result<Renaming, NoMemory>
        requires { levels (tree value) ≤ 99 }
        ensures { IfOk result (λ r. r ≡ put (cut self name.now) name.now (tree value)) }
    {
        let Renaming { kept, gone, moved } = self;
        let mut gone = gone;
        let mut moved = moved;
        let _levels = kept.levels();
        let _replaced = moved.remove(name.as_str());
        put(&mut moved, name, value)?;
        put(&mut gone, name, Value::Null)?;
        Ok(Renaming { kept, gone, moved })
    }

    /// Moves the field of the old name, where there is one, to the new one.
    fn rename(self, old: &Part, new: &Part) -> Result<Renaming, NoMemory>
        ensures { IfOk result (λ r. r ≡ moved_field old.now new.now self) }
    {
        let (left, taken) = self.take(old)?;
        match taken {
            Some(value) => left.put_last(new, value),
            None => Ok(left),
        }
    }

    /// The document itself.
    fn into_document(self) -> Result<Document, NoMemory>
        ensures { IfOk result (λ d. d ≡ self) }
    {
        let Renaming { kept, gone, moved } = self;
        let _levels = kept.levels();
        let mut pairs = unmarked(kept, &gone).into_pairs();
        let mut behind = moved.into_pairs();
        pairs.append(&mut behind)?;
        Ok(Document::from_pairs(pairs))
    }
}

/// The document once these edits have moved the fields of the last names of their paths.
pub(crate) fn renamed(
    alloc: Global,
    document: Document,
    edits: &[Edit],
) -> Result<Document, NoMemory>
    ensures { IfOk result (λ d. d ≡ renamed (map edit_of edits.now) document) }
{
    let mut renaming = Renaming::new(alloc, document);
    'edits: for edit in edits {
        match &edit.action {
            Action::Rename(new) => {
                renaming = renaming.rename(last_part(&edit.path), last_part(new))?;
            }
            _ => {}
        }
    }
    renaming.into_document()
}

/// The document once these edits have renamed fields, all of what stands at the end of the parts.
pub(crate) fn rename_below(
    alloc: Global,
    parent: &[Part],
    edits: &[Edit],
    source: Document,
) -> Result<Document, Refusal>
    requires below { list_all (λ e. is_rename_below parent.now (edit_of e)) edits.now ≡ true }
    requires no_array { leads_to_array parent.now (document source) ≡ false }
    ensures { Gives Refusal.OutOfMemory (λ d. d) result
        (apply_edits (map edit_of edits.now) source) }
{
    let _levels = source.levels();
    Ok(change_below(alloc, parent, edits, source)?)
}
