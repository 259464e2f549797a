//! An index that is made of the documents which its collection has already.

ghost use Rattle.std.specs.Prelude.{◌≡◌, ◌≢◌, ◌<◌, ◌≤◌, ◌&&◌, ◌++◌, [], ◌∷◌, IfErr, IfOk, OnOk, length};
ghost use Rattle.std.specs.List.{remove};
ghost use Rattle.value_order.specs.KeyText.{tree_text};
ghost use Rattle.index.specs.Definition.{IsDefinition};
ghost use Rattle.entries.specs.IndexMaking.{Begins, DropsIndexAt, MakesIndexOf, RefusesNext, TakesNext};
ghost use Rattle.entries.specs.Indexed.{GoesOnBy};
ghost use Rattle.entries.specs.OtherKeys.{puts_any};
ghost use Rattle.entry_model.specs.State.{key_of};
ghost use Rattle.index.specs.View.{texts_of};

use crate::catalogue_reading::Catalogued;
use crate::edits::Edits;
use bson::{Document, NoMemory};
use index::IndexSpec;
use path::Refusal;
use std::alloc::Global;

/// An index that is being made in the collection of a number, and its entries so far.
#[derive(Drop)]
pub struct NewEntries {
    pub number: u32,
    pub index: IndexSpec,
    pub entries: Edits,
}

impl NewEntries {
    /// An index before the first document has entered it.
    pub fn new(alloc: Global, number: u32, index: IndexSpec) -> NewEntries
        ensures begins { Begins number index result }
        ensures number { result.number ≡ number }
        ensures lawful { IsDefinition index }
    {
        let _number = index.number();
        NewEntries {
            number,
            index,
            entries: Edits::new(alloc),
        }
    }

    /// Whether the index is unique and has one of these encoded keys of a document for another `_id` than the one of this text.
    fn is_taken(&self, id: &[u8], keys: &[Vec<u8>]) -> Result<bool, NoMemory>
        ensures { IfOk result (λ taken. taken ≡ (self.now.index.is_unique
            && puts_any self.now.number self.now.index.number id.now (texts_of keys.now)
            self.now.entries)) }
    {
        if !self.index.is_unique() {
            return Ok(false);
        }
        self.entries
            .puts_any_other(self.number, self.index.number(), keys, id)
    }

    /// The next document of the collection enters, by the ascending text of its `_id`.
    ///
    /// The first of these refusals: `KeyTooLong`, `CannotIndexParallelArrays`, `DuplicateKey` where the index is unique and one
    /// before has one of its keys.
    pub fn take(&mut self, id: &[u8], document: &Document) -> Result<(), Refusal>
        requires short { length id.now ≤ 500 }
        requires text { id.now ≡ tree_text (key_of document.now) }
        ensures takes { OnOk result (TakesNext self.old self.new document.now) }
        ensures refuses { IfErr result (λ e. e ≢ Refusal.OutOfMemory
            → RefusesNext self.old document.now e) }
    {
        let keys = self.index.keys(self.entries.allocator(), document)?;
        if self.is_taken(id, &keys)? {
            return Err(Refusal::DuplicateKey);
        }
        self.entries
            .put_entries(self.number, &self.index, id, document, &keys)?;
        self.index.note_arrays(document);
        Ok(())
    }
}

impl Edits {
    /// Notes each of these edits, one after the other.
    fn note_each(&mut self, edits: Edits) -> Result<(), NoMemory>
        ensures { OnOk result (GoesOnBy self.old edits self.new) }
    {
        let _alloc = self.allocator();
        'edits: for edit in edits.noted {
            let (key, value) = edit;
            self.note(key, value)?;
        }
        Ok(())
    }

    /// Makes the index in the collection of a name, all of whose documents have entered it: its entries are put, and it stands behind the
    /// collection's others in the catalogue.
    pub fn make_index(
        &mut self,
        namespace: &str,
        home: &mut Catalogued,
        made: NewEntries,
    ) -> Result<(), NoMemory>
        requires name { length namespace.now ≤ 255 }
        requires number { home.old.number ≤ 1000 }
        requires few { length home.old.indexes.items < 16 }
        ensures number { home.new.number ≡ home.old.number }
        ensures indexes { OnOk result (home.new.indexes.items
            ≡ home.old.indexes.items ++ made.index ∷ []) }
        ensures few { length home.new.indexes.items ≤ 16 }
        ensures makes { OnOk result (MakesIndexOf self.old self.new namespace.now home.old.number
            home.old.indexes.items made) }
    {
        self.note_each(made.entries)?;
        home.indexes.push(made.index)?;
        self.put_indexes(namespace, home.number, &home.indexes)
    }

    /// Drops the index at a place among a collection's, where the entries of all its documents were removed from it: the catalogue
    /// has the others.
    pub fn drop_index(
        &mut self,
        namespace: &str,
        home: &mut Catalogued,
        at: usize,
    ) -> Result<(), NoMemory>
        requires name { length namespace.now ≤ 255 }
        requires number { home.old.number ≤ 1000 }
        requires few { length home.old.indexes.items ≤ 16 }
        requires within { at < length home.old.indexes.items }
        ensures number { home.new.number ≡ home.old.number }
        ensures indexes { home.new.indexes.items ≡ remove home.old.indexes.items at }
        ensures drops { OnOk result (DropsIndexAt self.old self.new namespace.now home.old.number
            home.old.indexes.items at) }
    {
        let _index = home.indexes.remove(at);
        self.put_indexes(namespace, home.number, &home.indexes)
    }
}
