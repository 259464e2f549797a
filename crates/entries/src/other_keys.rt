//! Entries of an index that stand for a key and for another `_id` than a given one.

ghost use Rattle.std.specs.Prelude.{◌≡◌, ◌+◌, ◌<◌, ◌&&◌, ◌++◌, [], ◌∷◌, false, IfOk, is_some, option_map};
ghost use Rattle.std.specs.Ordering.{is_lt};
ghost use Rattle.tree_model.specs.Keys.{edit_keys};
ghost use Rattle.tree_model.specs.Keys.{Each, Rises, key_cmp};
ghost use Rattle.entries.specs.EditList.{IsEditList, edits_in};
ghost use Rattle.entries.specs.OtherKeys.{IsEndOf, is_another, puts_another, puts_any};
ghost use Rattle.index.specs.View.{texts_of};

use crate::edits::Edits;
use crate::entry_keys::index_key;
use bson::NoMemory;
use std::alloc::Global;
use std::collections::btree_map::Range;

/// Whether a key goes on from this front, and not by this text.
pub fn is_another(key: &[u8], front: &[u8], id: &[u8]) -> bool
    ensures { result ≡ is_another front.now id.now key.now }
{
    if !key.starts_with(front) {
        return false;
    }
    let (_, rest) = key.split_at(front.len());
    rest != id
}

/// The first bytes and then one that is above the next one.
fn above(alloc: Global, first: &[u8], next: u8) -> Result<Vec<u8>, NoMemory>
    requires { next < 255 }
    ensures { IfOk result (λ key. key.items ≡ first.now ++ (next + 1) ∷ []) }
{
    let mut key = first.to_vec(alloc)?;
    key.push(next + 1)?;
    Ok(key)
}

/// A key above all that go on from this front, if there is one.
pub fn end_of(alloc: Global, front: &[u8]) -> Result<Option<Vec<u8>>, NoMemory>
    ensures { IfOk result (λ end. IsEndOf front.now (option_map (λ v. v.items) end)) }
{
    for at in (0..front.len()).rev() {
        if front[at] < u8::MAX {
            return Ok(Some(above(alloc, &front[..at], front[at])?));
        }
    }
    Ok(None)
}

/// Whether an edit puts an entry whose key goes on from this front, and not by this text.
fn puts_another(key: &[u8], value: &Option<Vec<u8>>, front: &[u8], id: &[u8]) -> bool
    ensures { result ≡ (is_some value.now && is_another front.now id.now key.now) }
{
    value.is_some() && is_another(key, front, id)
}

/// Whether one of these edits, which rise and aren't below this front, puts an entry whose key goes on from it and not by this text.
fn puts_from(edits: Range<'_, Vec<u8>, Option<Vec<u8>>>, front: &[u8], id: &[u8]) -> bool
    requires rises { Rises (edit_keys (edits_in edits)) }
    requires above { Each (λ e. is_lt (key_cmp e.0.items front.now) ≡ false) edits }
    ensures { result ≡ puts_another front.now id.now (edits_in edits.entry) }
{
    'edits: for edit in edits {
        let (key, value) = edit;
        if !key.starts_with(front) {
            return false;
        }
        if puts_another(key, value, front, id) {
            return true;
        }
    }
    false
}

impl Edits {
    /// Whether an entry is put whose key goes on from this front, and not by this text.
    pub fn puts_other(&self, front: &Vec<u8>, id: &[u8]) -> bool
        ensures puts { result ≡ puts_another front.now.items id.now self.now }
        ensures lawful { IsEditList self.now }
    {
        puts_from(self.noted.range(front..), front, id)
    }

    /// Whether an index gets an entry for one of these encoded keys, and for another `_id` than the one of this text.
    pub(crate) fn puts_any_other(
        &self,
        number: u32,
        index: u32,
        keys: &[Vec<u8>],
        id: &[u8],
    ) -> Result<bool, NoMemory>
        ensures puts { IfOk result (λ puts. puts
            ≡ puts_any number index id.now (texts_of keys.now) self.now) }
        ensures lawful { IsEditList self.now }
    {
        let alloc = self.allocator();
        'keys: for key in keys {
            let front = index_key(alloc, number, index, key)?;
            if self.puts_other(&front, id) {
                return Ok(true);
            }
        }
        Ok(false)
    }
}
