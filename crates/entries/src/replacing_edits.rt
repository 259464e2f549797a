//! Edits by which one document replaces another in a collection with indexes.

ghost use Rattle.std.specs.Prelude.{◌≡◌, ◌≤◌, All, IfOk, Ok, OnErr, OnOk, length, map};
ghost use Rattle.std.specs.declared.cmp.Ordering.TheVariants.{Equal};
ghost use Rattle.value_order.specs.KeyText.{tree_text};
ghost use Rattle.value_order.specs.Order.{compare};
ghost use Rattle.index.specs.Changes.{IsAscending};
ghost use Rattle.entries.specs.Indexed.{NotesSome, ReplacesIn, edits_by, entries_at, entries_in_all, replacing_in, with_edits, without_all};
ghost use Rattle.index.specs.KeyTexts.{keys_in_all};
ghost use Rattle.entry_model.specs.LawfulState.{IsStorable};
ghost use Rattle.entry_model.specs.State.{key_of};
ghost use Rattle.entry_model.specs.StateEntries.{puts, removals};
ghost use Rattle.index.specs.View.{texts_of};

use crate::edits::Edits;
use crate::indexed_edits::EntryEdit;
use bson::{Document, NoMemory};
use index::{IndexSpec, KeyChanges};
use std::alloc::Global;

/// The keys that each index loses and those that it gains.
fn changes_in_all<'a>(
    alloc: Global,
    old: &'a [Vec<Vec<u8>>],
    new: &'a [Vec<Vec<u8>>],
) -> Result<Vec<KeyChanges<'a>>, NoMemory>
    requires one_each { length old.now ≡ length new.now }
    requires old_ascend { All (λ ks. IsAscending (texts_of ks.items)) old.now }
    requires new_ascend { All (λ ks. IsAscending (texts_of ks.items)) new.now }
    ensures removed { IfOk result (λ v. map (λ c. map (λ key. key.now) c.removed.items) v.items
        ≡ without_all (map (λ ks. texts_of ks.items) old.now) (map (λ ks. texts_of ks.items) new.now)) }
    ensures added { IfOk result (λ v. map (λ c. map (λ key. key.now) c.added.items) v.items
        ≡ without_all (map (λ ks. texts_of ks.items) new.now) (map (λ ks. texts_of ks.items) old.now)) }
{
    let mut all = Vec::with_capacity(alloc, new.len())?;
    'new: for (at, keys) in new.iter().enumerate() {
        all.push(KeyChanges::between(alloc, &old[at], keys)?)?;
    }
    Ok(all)
}

impl Edits {
    /// Puts or removes an entry for each of these keys.
    fn note_changed(
        &mut self,
        what: EntryEdit,
        number: u32,
        index: u32,
        id: &[u8],
        keys: &[&[u8]],
    ) -> Result<(), NoMemory>
        requires id { length id.now ≤ 500 }
        requires keys { All (λ key. length key.now ≤ 500) keys.now }
        ensures ok { OnOk result (self.new ≡ with_edits (edits_by what
            (entries_at number index id.now (map (λ key. key.now) keys.now))) self.old) }
        ensures err { OnErr result (NotesSome self.old (edits_by what
            (entries_at number index id.now (map (λ key. key.now) keys.now))) self.new) }
    {
        let alloc = self.allocator();
        'keys: for key in keys {
            self.note_entry(alloc, what, number, index, id, key)?;
        }
        Ok(())
    }

    /// Puts in each index the entries that it gains.
    fn put_changes(
        &mut self,
        number: u32,
        indexes: &[IndexSpec],
        id: &[u8],
        changes: &[KeyChanges<'_>],
    ) -> Result<(), NoMemory>
        requires id { length id.now ≤ 500 }
        requires one_each { length changes.now ≡ length indexes.now }
        requires keys { All (λ c. All (λ key. length key.now ≤ 500) c.added.items) changes.now }
        ensures ok { OnOk result (self.new ≡ with_edits (puts (entries_in_all number id.now indexes.now
            (map (λ c. map (λ key. key.now) c.added.items) changes.now))) self.old) }
        ensures err { OnErr result (NotesSome self.old (puts (entries_in_all number id.now indexes.now
            (map (λ c. map (λ key. key.now) c.added.items) changes.now))) self.new) }
    {
        'indexes: for (at, index) in indexes.iter().enumerate() {
            self.note_changed(
                EntryEdit::Put,
                number,
                index.number(),
                id,
                &changes[at].added,
            )?;
        }
        Ok(())
    }

    /// Removes from each index the entries that it loses.
    fn remove_changes(
        &mut self,
        number: u32,
        indexes: &[IndexSpec],
        id: &[u8],
        changes: &[KeyChanges<'_>],
    ) -> Result<(), NoMemory>
        requires id { length id.now ≤ 500 }
        requires one_each { length changes.now ≡ length indexes.now }
        requires keys { All (λ c. All (λ key. length key.now ≤ 500) c.removed.items) changes.now }
        ensures ok { OnOk result (self.new ≡ with_edits (removals (entries_in_all number id.now indexes.now
            (map (λ c. map (λ key. key.now) c.removed.items) changes.now))) self.old) }
        ensures err { OnErr result (NotesSome self.old (removals (entries_in_all number id.now indexes.now
            (map (λ c. map (λ key. key.now) c.removed.items) changes.now))) self.new) }
    {
        'indexes: for (at, index) in indexes.iter().enumerate() {
            self.note_changed(
                EntryEdit::Removal,
                number,
                index.number(),
                id,
                &changes[at].removed,
            )?;
        }
        Ok(())
    }

    /// Puts a document in place of the one of its `_id`, in the collection of a number and of these indexes: its entry, and
    /// of each index's entries those are removed whose keys only the old one has, and those put whose keys only the new
    /// one has. Of an index in which the two have the same keys nothing is noted. Where memory runs out the first of these
    /// edits are noted, and no others.
    pub fn replace_document(
        &mut self,
        number: u32,
        indexes: &[IndexSpec],
        id: &[u8],
        old: &Document,
        old_keys: &[Vec<Vec<u8>>],
        document: &Document,
        keys: &[Vec<Vec<u8>>],
    ) -> Result<(), NoMemory>
        requires storable { IsStorable document.now }
        requires text { id.now ≡ tree_text (key_of document.now) }
        requires old_keyed { keys_in_all indexes.now old.now
            ≡ Ok (map (λ ks. texts_of ks.items) old_keys.now) }
        requires keyed { keys_in_all indexes.now document.now
            ≡ Ok (map (λ ks. texts_of ks.items) keys.now) }
        ensures ok { OnOk result (tree_text (key_of old.now) ≡ tree_text (key_of document.now)
            → self.new ≡ with_edits (replacing_in number indexes.now old.now document.now) self.old) }
        ensures err { OnErr result (tree_text (key_of old.now) ≡ tree_text (key_of document.now)
            → NotesSome self.old (replacing_in number indexes.now old.now document.now) self.new) }
        ensures leads { OnOk result
            (ReplacesIn self.old self.new number indexes.now old.now document.now) }
    {
        let alloc = self.allocator();
        let changes = changes_in_all(alloc, old_keys, keys)?;
        self.remove_changes(number, indexes, id, &changes)?;
        self.put_document(number, id, document)?;
        self.put_changes(number, indexes, id, &changes)
    }
}
