//! Edits that put and remove documents and collections.

ghost use Rattle.std.specs.Prelude.{◌≡◌, ◌≤◌, OnErr, OnOk, length};
ghost use Rattle.value_order.specs.KeyText.{tree_text};
ghost use Rattle.tree_model.specs.Keys.{removal};
ghost use Rattle.entry_model.specs.Documents.{AddsCollection, RemovesCollection};
ghost use Rattle.entries.specs.EditList.{with_edit};
ghost use Rattle.entry_model.specs.LawfulState.{IsStorable};
ghost use Rattle.entry_model.specs.State.{empty_collection, key_of, words};
ghost use Rattle.entry_model.specs.StateEntries.{catalogue_entry, document_entry, key_under, put_of};

use crate::edits::Edits;
use crate::entry_keys::{catalogue_key, document_key};
use crate::entry_values::{document_bytes, plain_bytes};
use bson::{Document, NoMemory};

impl Edits {
    /// Puts a document into the collection of a number, by the ascending text of its `_id`, in place of the one that it
    /// has of that `_id`.
    pub(crate) fn put_document(
        &mut self,
        number: u32,
        id: &[u8],
        document: &Document,
    ) -> Result<(), NoMemory>
        requires storable { IsStorable document.now }
        requires text { id.now ≡ tree_text (key_of document.now) }
        ensures ok { OnOk result (self.new
            ≡ with_edit (put_of (document_entry number document.now)) self.old) }
        ensures err { OnErr result (self.new ≡ self.old) }
    {
        let alloc = self.allocator();
        let key = document_key(alloc, number, id)?;
        let bytes = document_bytes(alloc, document)?;
        self.note(key, Some(bytes))
    }

    /// Removes the document of an `_id` from the collection of a number, by the ascending text of the `_id`.
    pub(crate) fn remove_document(&mut self, number: u32, id: &[u8]) -> Result<(), NoMemory>
        requires short { length id.now ≤ 500 }
        ensures ok { OnOk result (self.new
            ≡ with_edit (removal (key_under number 0 id.now)) self.old) }
        ensures err { OnErr result (self.new ≡ self.old) }
    {
        let key = document_key(self.allocator(), number, id)?;
        self.note(key, None)
    }

    /// Adds an empty collection of a new name and a new number.
    pub fn put_collection(&mut self, namespace: &str, number: u32) -> Result<(), NoMemory>
        requires name { length namespace.now ≤ 255 }
        requires number { (1 ≤ number) × (number ≤ 1000) }
        ensures ok { OnOk result (self.new
            ≡ with_edit (put_of (catalogue_entry (empty_collection namespace.now number))) self.old) }
        ensures err { OnErr result (self.new ≡ self.old) }
        ensures leads { OnOk result (AddsCollection self.old self.new namespace.now number) }
    {
        let alloc = self.allocator();
        let key = catalogue_key(alloc, namespace)?;
        let bytes = Vec::from_slice(alloc, &plain_bytes(number))?;
        self.note(key, Some(bytes))
    }

    /// Removes a collection that has no documents any more.
    pub fn remove_collection(&mut self, namespace: &str) -> Result<(), NoMemory>
        requires name { length namespace.now ≤ 255 }
        ensures ok { OnOk result (self.new
            ≡ with_edit (removal (key_under 0 0 (tree_text (words namespace.now)))) self.old) }
        ensures err { OnErr result (self.new ≡ self.old) }
        ensures leads { OnOk result (RemovesCollection self.old self.new namespace.now) }
    {
        let key = catalogue_key(self.allocator(), namespace)?;
        self.note(key, None)
    }
}
