//! Which documents and keys are there once noted edits are put into the tree.

ghost use Rattle.std.specs.Prelude.{◌≡◌, ◌||◌, length, map};
ghost use Rattle.std.specs.List.{list_any};
ghost use Rattle.btree.specs.Scan.{entry_in};
ghost use Rattle.entries.specs.EditList.{IsEditList};
ghost use Rattle.entries.specs.OtherKeys.{leaves_another, puts_another};
ghost use Rattle.collections.specs.Calls.{Reads};
ghost use Rattle.index.specs.View.{texts_of};
ghost use Rattle.collections.specs.OtherKeys.{TellsDocument, TellsOf, TellsOtherKey, any_other_key, is_taken};

use crate::collections::Collections;
use btree::{Entry, Range};
use entries::{Edits, document_key, end_of, index_key, is_another};
use index::IndexSpec;
use page::Disk;
use path::Refusal;

/// Whether one of these entries that the edits leave has a key that goes on from this front, and not by this text.
fn leaves_another(entries: &[Entry], edits: &Edits, front: &[u8], id: &[u8]) -> bool
    ensures { result ≡ list_any (λ x. leaves_another front.now id.now edits.now (entry_in x))
        entries.now }
{
    entries.iter().any(|entry| is_another(&entry.key, front, id) && !edits.has(&entry.key))
}

/// Whether one of the edits puts such an entry, or they leave one.
fn tells_another(entries: &[Entry], edits: &Edits, front: &Vec<u8>, id: &[u8]) -> bool
    ensures told { result ≡ (puts_another front.now.items id.now edits.now
        || list_any (λ x. leaves_another front.now.items id.now edits.now (entry_in x)) entries.now) }
    ensures lawful { IsEditList edits.now }
{
    if edits.puts_other(front, id) {
        return true;
    }
    leaves_another(entries, edits, front, id)
}

impl<D: Disk> Collections<D> {
    /// Whether there is a document of the `_id` of this text in the collection of a number, once the edits are put into the tree.
    pub fn has_noted(&mut self, edits: &Edits, number: u32, id: &[u8]) -> Result<bool, Refusal>
        ensures { Reads D.history (TellsDocument edits.now number id.now)
            result self.old self.new }
    {
        let key = document_key(self.alloc, number, id)?;
        let found = self.value_at(&key)?;
        Ok(edits.puts_at(&key).unwrap_or(found.is_some()))
    }

    /// Whether an index has an entry for this encoded key and for another `_id` than the one of this text, once the edits are
    /// put into the tree. It reads all entries of the key.
    pub fn has_other_key(
        &mut self,
        edits: &Edits,
        number: u32,
        index: u32,
        key: &[u8],
        id: &[u8],
    ) -> Result<bool, Refusal>
        ensures { Reads D.history (TellsOtherKey edits.now number index key.now id.now)
            result self.old self.new }
    {
        let front = index_key(self.alloc, number, index, key)?;
        let end = end_of(self.alloc, &front)?;
        let batch = self.entries_in(Range {
            from: &front,
            to: end.as_deref(),
            limit: usize::MAX,
        })?;
        if batch.next.is_some() {
            return Err(Refusal::StorageFailed);
        }
        Ok(tells_another(&batch.entries, edits, &front, id))
    }

    /// The same for one of several encoded keys.
    fn has_any_other_key(
        &mut self,
        edits: &Edits,
        number: u32,
        index: u32,
        keys: &[Vec<u8>],
        id: &[u8],
    ) -> Result<bool, Refusal>
        ensures { Reads D.history
            (TellsOf (any_other_key number index id.now (texts_of keys.now)) edits.now)
            result self.old self.new }
    {
        if self.is_stopped() {
            return Err(Refusal::StorageFailed);
        }
        'keys: for key in keys {
            if self.has_other_key(edits, number, index, key, id)? {
                return Ok(true);
            }
        }
        Ok(false)
    }

    /// Whether a unique one of these indexes has one of a document's encoded keys for another `_id` than the one of this text,
    /// once the edits are put into the tree.
    pub fn is_taken(
        &mut self,
        edits: &Edits,
        number: u32,
        indexes: &[IndexSpec],
        keys: &[Vec<Vec<u8>>],
        id: &[u8],
    ) -> Result<bool, Refusal>
        requires { length keys.now ≡ length indexes.now }
        ensures { Reads D.history (TellsOf
            (is_taken number id.now indexes.now (map (λ ks. texts_of ks.items) keys.now)) edits.now)
            result self.old self.new }
    {
        if self.is_stopped() {
            return Err(Refusal::StorageFailed);
        }
        'indexes: for (at, index) in indexes.iter().enumerate() {
            if !index.is_unique() {
                continue;
            }
            if self.has_any_other_key(edits, number, index.number(), &keys[at], id)? {
                return Ok(true);
            }
        }
        Ok(false)
    }
}
