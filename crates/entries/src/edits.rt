//! A list of edits of the tree, which a commit makes at once.

ghost use Rattle.std.specs.Prelude.{◌≡◌, ◌==◌, [], None, true, IfOk, OnErr, OnOk, is_some, length, map, option_map};
ghost use Rattle.tree_model.specs.Keys.{edit_keys};
ghost use Rattle.tree_model.specs.EditView.{HasRoom, edit_in};
ghost use Rattle.tree_model.specs.Keys.{Each, Rises};
ghost use Rattle.index.specs.Changes.{is_among};
ghost use Rattle.entries.specs.EditList.{edit_at, IsEditList, IsShortEdit, LeadsWith, edit_of, edits_in, with_edit};

use bson::NoMemory;
use key_order::compare_keys;
use std::alloc::Global;
use std::collections::BTreeMap;
use std::marker::Model;
use tree_model::Edit;

/// Edits in ascending order of their keys, one at each, short enough for the tree.
#[derive(Drop)]
pub struct Edits {
    alloc: Global,

    /// At each key the value that is put there, or none, where the key is removed.
    pub(crate) noted: BTreeMap<Vec<u8>, Option<Vec<u8>>>,
}

impl Model for Edits {
    ghost use Rattle.std.specs.Prelude.{List};
    ghost use Rattle.std.specs.Coded.{coded_list};
    ghost use Rattle.tree_model.specs.Keys as trees;
    ghost use Rattle.entries.specs.EditCode.{edit_code};

    ghost Value = { List trees.Edit };

    ghost coded = { coded_list edit_code };

    ghost use Rattle.entries.specs.EditList.{edits_in, IsEditList};

    ghost view = { λ a. edits_in a.noted.entries };

    ghost invariant = { λ a. IsEditList (edits_in a.noted.entries) };
}

/// Puts a value at a key, or none, in place of what was noted for the key.
fn put_among(
    noted: &mut BTreeMap<Vec<u8>, Option<Vec<u8>>>,
    key: Vec<u8>,
    value: Option<Vec<u8>>,
) -> Result<(), NoMemory>
    ensures ok { OnOk result (edits_in noted.new.entries
        ≡ with_edit (edit_of key value) (edits_in noted.old.entries)) }
    ensures err { OnErr result (noted.new.entries ≡ noted.old.entries) }
{
    let _before = noted.insert(key, value)?;
    Ok(())
}

/// Whether a key is above all that are noted, as each is where keys come in ascending order.
fn is_above_all(noted: &BTreeMap<Vec<u8>, Option<Vec<u8>>>, key: &[u8]) -> bool
    ensures { result ≡ true → edit_at key.now (edits_in noted.now.entries) ≡ None }
{
    match noted.last_key_value() {
        Some((last, _)) => compare_keys(last.as_slice(), key).is_lt(),
        None => true,
    }
}

/// An edit as a tree takes it.
fn tree_edit<'a>(key: &'a Vec<u8>, value: &'a Option<Vec<u8>>) -> Edit<'a>
    ensures { edit_in result ≡ edit_of key.now value.now }
{
    Edit {
        key: key.as_slice(),
        value: match value {
            Some(value) => Some(value.as_slice()),
            None => None,
        },
    }
}

/// The edits as a tree takes them.
fn tree_edits(
    alloc: Global,
    noted: &BTreeMap<Vec<u8>, Option<Vec<u8>>>,
) -> Result<Vec<Edit<'_>>, NoMemory>
    ensures { IfOk result (λ v. map edit_in v.items ≡ edits_in noted.now.entries) }
{
    let mut all = Vec::with_capacity(alloc, noted.len())?;
    'edits: for edit in noted {
        let (key, value) = edit;
        all.push(tree_edit(key, value))?;
    }
    Ok(all)
}

impl Edits {
    /// No edit.
    pub fn new(alloc: Global) -> Edits
        ensures { result ≡ [] }
    {
        Edits {
            alloc,
            noted: BTreeMap::new(alloc),
        }
    }

    /// The allocator that it takes memory from.
    pub(crate) fn allocator(&self) -> Global
        ensures { IsEditList self.now }
    {
        self.alloc
    }

    /// How many keys are edited.
    pub fn len(&self) -> usize
        ensures { result ≡ length self.now }
    {
        self.noted.len()
    }

    /// Whether there is no edit.
    pub fn is_empty(&self) -> bool
        ensures { result ≡ (length self.now == 0) }
    {
        self.noted.is_empty()
    }

    /// Forgets all edits.
    pub fn clear(&mut self)
        ensures { self.new ≡ [] }
    {
        self.noted.clear();
    }

    /// Whether there is an edit at a key.
    pub fn has(&self, key: &[u8]) -> bool
        ensures { result ≡ is_among (edit_keys self.now) key.now }
    {
        self.noted.contains_key(key)
    }

    /// Whether an edit of a key puts a value there, or else removes it, if there is one.
    pub fn puts_at(&self, key: &[u8]) -> Option<bool>
        ensures told { result ≡ option_map is_some (edit_at key.now self.now) }
        ensures rises { Rises (edit_keys self.now) }
    {
        if is_above_all(&self.noted, key) {
            return None;
        }
        match self.noted.get(key) {
            Some(value) => Some(value.is_some()),
            None => None,
        }
    }

    /// The edits as a tree takes them.
    pub fn tree_edits(&self, alloc: Global) -> Result<Vec<Edit<'_>>, NoMemory>
        ensures edits { IfOk result (λ v. map edit_in v.items ≡ self.now) }
        ensures room { IfOk result (λ v. Each HasRoom v.items) }
        ensures lawful { IsEditList self.now }
    {
        tree_edits(alloc, &self.noted)
    }

    /// Notes what a key is to have, in place of what was noted for it. Where memory runs out nothing changes.
    pub fn note(&mut self, key: Vec<u8>, value: Option<Vec<u8>>) -> Result<(), NoMemory>
        requires { IsShortEdit (edit_of key value) }
        ensures ok { OnOk result (self.new ≡ with_edit (edit_of key value) self.old) }
        ensures err { OnErr result (self.new ≡ self.old) }
        ensures leads { OnOk result (LeadsWith self.old (edit_of key value) self.new) }
    {
        put_among(&mut self.noted, key, value)
    }
}
