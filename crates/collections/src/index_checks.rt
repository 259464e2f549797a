//! Whether the entries of a document's keys stand in the indexes of its collection, whatever the tree spells.

ghost use Rattle.std.specs.Prelude.{◌≡◌, length, map};
ghost use Rattle.std.specs.List.{list_any};
ghost use Rattle.btree.specs.Scan.{entry_in};
ghost use Rattle.entries.specs.OtherKeys.{has_other_key, is_another};
ghost use Rattle.index.specs.View.{texts_of};
ghost use Rattle.collections.specs.Entries.{ReadsTree};
ghost use Rattle.collections.specs.IndexChecks.{has_entry, is_empty_at, lacks_any, lacks_key, lacks_one};
ghost use Rattle.collections.specs.Lookups.{IsBatchOf, IsValueAt};
ghost use Rattle.std.specs.Option.{option_map};

use crate::applying::refusal_of;
use crate::collections::Collections;
use crate::lookups::{entries_below, value_below};
use btree::{Batch, Entry, Range};
use entries::{end_of, index_key, is_another};
use index::{IndexSpec, entry_key};
use page::Disk;
use path::Refusal;

/// Whether a value stands there, and is empty.
fn is_empty_at(found: &Option<Vec<u8>>) -> bool
    ensures { result ≡ is_empty_at (option_map (λ v. v.items) found.now) }
{
    match found {
        Some(value) => value.is_empty(),
        None => false,
    }
}

/// Whether one of these entries has a key that goes on from this front, and not by this text.
fn any_other(entries: &[Entry], front: &[u8], id: &[u8]) -> bool
    ensures { result ≡ list_any (λ x. is_another front.now id.now (entry_in x).key) entries.now }
{
    entries
        .iter()
        .any(|entry| is_another(&entry.key, front, id))
}

impl<D: Disk> Collections<D> {
    /// The value at a key of the turn's tree.
    fn tree_value(&mut self, key: &[u8]) -> Result<Option<Vec<u8>>, Refusal>
        ensures { ReadsTree D.history (IsValueAt key.now) result self.old self.new }
    {
        if self.pager.is_stopped() {
            return Err(Refusal::StorageFailed);
        }
        match value_below(self.alloc, &mut self.pager, self.root, key) {
            Ok(found) => Ok(found),
            Err(fault) => Err(refusal_of(fault)),
        }
    }

    /// The entries of a range of the turn's tree.
    fn tree_entries(&mut self, range: Range<'_>) -> Result<Batch, Refusal>
        ensures { ReadsTree D.history (IsBatchOf range.entry) result self.old self.new }
    {
        if self.pager.is_stopped() {
            return Err(Refusal::StorageFailed);
        }
        match entries_below(self.alloc, &mut self.pager, self.root, range) {
            Ok(batch) => Ok(batch),
            Err(fault) => Err(refusal_of(fault)),
        }
    }

    /// Whether an index has the entry of an encoded key and the `_id` of this text.
    fn has_entry(&mut self, number: u32, index: u32, key: &[u8], id: &[u8]) -> Result<bool, Refusal>
        ensures { ReadsTree D.history
            (λ entries found. found ≡ has_entry number index key.now id.now entries)
            result self.old self.new }
    {
        let at = entry_key(self.alloc, number, index, key, id)?;
        let found = self.tree_value(&at)?;
        Ok(is_empty_at(&found))
    }

    /// Whether an index has an entry for this encoded key and for another `_id` than the one of this text. It reads all entries of
    /// the key.
    fn has_other_entry(
        &mut self,
        number: u32,
        index: u32,
        key: &[u8],
        id: &[u8],
    ) -> Result<bool, Refusal>
        ensures { ReadsTree D.history
            (λ entries found. found ≡ has_other_key number index key.now id.now entries)
            result self.old self.new }
    {
        let front = index_key(self.alloc, number, index, key)?;
        let end = end_of(self.alloc, &front)?;
        let batch = self.tree_entries(Range {
            from: &front,
            to: end.as_deref(),
            limit: usize::MAX,
        })?;
        if batch.next.is_some() {
            return Err(Refusal::OutOfMemory);
        }
        Ok(any_other(&batch.entries, &front, id))
    }

    /// Whether an index has no entry for an encoded key and the `_id` of this text, or a unique one has one for the key and
    /// another `_id`.
    fn lacks_key(
        &mut self,
        number: u32,
        index: &IndexSpec,
        key: &[u8],
        id: &[u8],
    ) -> Result<bool, Refusal>
        ensures { ReadsTree D.history
            (λ entries found. found ≡ lacks_key number index.now id.now key.now entries)
            result self.old self.new }
    {
        let at = index.number();
        if !self.has_entry(number, at, key, id)? {
            return Ok(true);
        }
        if !index.is_unique() {
            return Ok(false);
        }
        self.has_other_entry(number, at, key, id)
    }

    /// Whether it is so of one of these keys.
    fn lacks_one(
        &mut self,
        number: u32,
        index: &IndexSpec,
        keys: &[Vec<u8>],
        id: &[u8],
    ) -> Result<bool, Refusal>
        ensures { ReadsTree D.history
            (λ entries found. found ≡ lacks_one number index.now id.now (texts_of keys.now) entries)
            result self.old self.new }
    {
        'keys: for key in keys {
            if self.lacks_key(number, index, key, id)? {
                return Ok(true);
            }
        }
        Ok(false)
    }

    /// Whether one of these indexes has no entry for one of a document's encoded keys and the `_id` of this text, or a unique one
    /// has an entry for the key and another `_id`.
    pub fn lacks_any(
        &mut self,
        number: u32,
        indexes: &[IndexSpec],
        keys: &[Vec<Vec<u8>>],
        id: &[u8],
    ) -> Result<bool, Refusal>
        requires { length keys.now ≡ length indexes.now }
        ensures { ReadsTree D.history (λ entries found. found
            ≡ lacks_any number id.now indexes.now (map (λ ks. texts_of ks.items) keys.now) entries)
            result self.old self.new }
    {
        'indexes: for (at, index) in indexes.iter().enumerate() {
            if self.lacks_one(number, index, &keys[at], id)? {
                return Ok(true);
            }
        }
        Ok(false)
    }
}
