//! Edits of collections with indexes: the entries of documents in their indexes, put and removed.

ghost use Rattle.std.specs.Prelude.{◌≡◌, ◌≤◌, All, Ok, OnErr, OnOk, length, map};
ghost use Rattle.value_order.specs.KeyText.{tree_text};
ghost use Rattle.entries.specs.EditList.{with_edit};
ghost use Rattle.entries.specs.Indexed.{DeletesFrom, GoesOnBy, InsertsInto, NotesSome, edit_by, edits_by, entries_at, entries_in_all, entry_at, with_edits};
ghost use Rattle.index.specs.KeyTexts.{keys_in, keys_in_all};
ghost use Rattle.entry_model.specs.LawfulState.{IsStorable};
ghost use Rattle.entry_model.specs.State.{key_of};
ghost use Rattle.entry_model.specs.StateEntries.{document_entries, index_entries, puts, removals};
ghost use Rattle.index.specs.View.{texts_of};

use crate::edits::Edits;
use bson::{Document, NoMemory};
use index::{IndexSpec, entry_key};
use std::alloc::Global;

/// What is noted of an entry.
#[derive(Clone, Copy)]
pub(crate) enum EntryEdit {
    Put,
    Removal,
}

impl Edits {
    /// Puts the entry of one key, or removes it.
    pub(crate) fn note_entry(
        &mut self,
        alloc: Global,
        what: EntryEdit,
        number: u32,
        index: u32,
        id: &[u8],
        key: &[u8],
    ) -> Result<(), NoMemory>
        requires id { length id.now ≤ 500 }
        requires key { length key.now ≤ 500 }
        ensures ok { OnOk result (self.new
            ≡ with_edit (edit_by what (entry_at number index id.now key.now)) self.old) }
        ensures err { OnErr result (self.new ≡ self.old) }
    {
        let key = entry_key(alloc, number, index, key, id)?;
        match what {
            EntryEdit::Put => self.note(key, Some(Vec::new(alloc))),
            EntryEdit::Removal => self.note(key, None),
        }
    }

    /// Puts or removes an entry for each of these encoded keys of the document whose `_id` has this text, in the index of
    /// a number.
    fn note_keys(
        &mut self,
        what: EntryEdit,
        number: u32,
        index: u32,
        id: &[u8],
        keys: &[Vec<u8>],
    ) -> Result<(), NoMemory>
        requires id { length id.now ≤ 500 }
        requires keys { All (λ key. length key.items ≤ 500) keys.now }
        ensures ok { OnOk result (self.new
            ≡ with_edits (edits_by what (entries_at number index id.now (texts_of keys.now))) self.old) }
        ensures err { OnErr result (NotesSome self.old
            (edits_by what (entries_at number index id.now (texts_of keys.now))) self.new) }
    {
        let alloc = self.allocator();
        'keys: for key in keys {
            self.note_entry(alloc, what, number, index, id, key)?;
        }
        Ok(())
    }

    /// Puts or removes the entries of a document in each of these indexes.
    fn note_in_indexes(
        &mut self,
        what: EntryEdit,
        number: u32,
        indexes: &[IndexSpec],
        id: &[u8],
        keys: &[Vec<Vec<u8>>],
    ) -> Result<(), NoMemory>
        requires id { length id.now ≤ 500 }
        requires one_each { length keys.now ≡ length indexes.now }
        requires keys { All (λ ks. All (λ key. length key.items ≤ 500) ks.items) keys.now }
        ensures ok { OnOk result (self.new ≡ with_edits (edits_by what (entries_in_all number id.now
            indexes.now (map (λ ks. texts_of ks.items) keys.now))) self.old) }
        ensures err { OnErr result (NotesSome self.old (edits_by what (entries_in_all number id.now
            indexes.now (map (λ ks. texts_of ks.items) keys.now))) self.new) }
    {
        'indexes: for (at, index) in indexes.iter().enumerate() {
            self.note_keys(what, number, index.number(), id, &keys[at])?;
        }
        Ok(())
    }
}

impl Edits {
    /// Puts the entries of a document in one index: one for each of its encoded keys there, by the ascending text of its
    /// `_id`. Where memory runs out the first of them are noted, and no others.
    pub fn put_entries(
        &mut self,
        number: u32,
        index: &IndexSpec,
        id: &[u8],
        document: &Document,
        keys: &[Vec<u8>],
    ) -> Result<(), NoMemory>
        requires short { length id.now ≤ 500 }
        requires text { id.now ≡ tree_text (key_of document.now) }
        requires keyed { keys_in index.now.fields document.now ≡ Ok (texts_of keys.now) }
        ensures ok { OnOk result (self.new
            ≡ with_edits (puts (index_entries number document.now index.now)) self.old) }
        ensures err { OnErr result (NotesSome self.old
            (puts (index_entries number document.now index.now)) self.new) }
        ensures continues { OnOk result (GoesOnBy self.old
            (puts (index_entries number document.now index.now)) self.new) }
    {
        let _alloc = self.allocator();
        self.note_keys(EntryEdit::Put, number, index.number(), id, keys)
    }

    /// Removes them.
    pub fn remove_entries(
        &mut self,
        number: u32,
        index: &IndexSpec,
        id: &[u8],
        document: &Document,
        keys: &[Vec<u8>],
    ) -> Result<(), NoMemory>
        requires short { length id.now ≤ 500 }
        requires text { id.now ≡ tree_text (key_of document.now) }
        requires keyed { keys_in index.now.fields document.now ≡ Ok (texts_of keys.now) }
        ensures ok { OnOk result (self.new
            ≡ with_edits (removals (index_entries number document.now index.now)) self.old) }
        ensures err { OnErr result (NotesSome self.old
            (removals (index_entries number document.now index.now)) self.new) }
        ensures continues { OnOk result (GoesOnBy self.old
            (removals (index_entries number document.now index.now)) self.new) }
    {
        let _alloc = self.allocator();
        self.note_keys(EntryEdit::Removal, number, index.number(), id, keys)
    }

    /// Puts a document that is new in the collection of a number and of these indexes: its entry, and one for each of its
    /// encoded keys in each of them. Where memory runs out the first of these are noted, and no others.
    pub fn insert_document(
        &mut self,
        number: u32,
        indexes: &[IndexSpec],
        id: &[u8],
        document: &Document,
        keys: &[Vec<Vec<u8>>],
    ) -> Result<(), NoMemory>
        requires storable { IsStorable document.now }
        requires text { id.now ≡ tree_text (key_of document.now) }
        requires keyed { keys_in_all indexes.now document.now
            ≡ Ok (map (λ ks. texts_of ks.items) keys.now) }
        ensures ok { OnOk result (self.new
            ≡ with_edits (puts (document_entries number indexes.now document.now)) self.old) }
        ensures err { OnErr result (NotesSome self.old
            (puts (document_entries number indexes.now document.now)) self.new) }
        ensures leads { OnOk result
            (InsertsInto self.old self.new number indexes.now document.now) }
    {
        let _alloc = self.allocator();
        self.put_document(number, id, document)?;
        self.note_in_indexes(EntryEdit::Put, number, indexes, id, keys)
    }

    /// Removes a document of the collection of a number and of these indexes: its entry, and that of each of its encoded
    /// keys in each of them. Where memory runs out the first of these are noted, and no others.
    pub fn delete_document(
        &mut self,
        number: u32,
        indexes: &[IndexSpec],
        id: &[u8],
        document: &Document,
        keys: &[Vec<Vec<u8>>],
    ) -> Result<(), NoMemory>
        requires short { length id.now ≤ 500 }
        requires text { id.now ≡ tree_text (key_of document.now) }
        requires keyed { keys_in_all indexes.now document.now
            ≡ Ok (map (λ ks. texts_of ks.items) keys.now) }
        ensures ok { OnOk result (self.new
            ≡ with_edits (removals (document_entries number indexes.now document.now)) self.old) }
        ensures err { OnErr result (NotesSome self.old
            (removals (document_entries number indexes.now document.now)) self.new) }
        ensures leads { OnOk result
            (DeletesFrom self.old self.new number indexes.now document.now) }
    {
        let _alloc = self.allocator();
        self.remove_document(number, id)?;
        self.note_in_indexes(EntryEdit::Removal, number, indexes, id, keys)
    }
}
