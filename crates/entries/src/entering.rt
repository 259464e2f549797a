//! Documents that enter a collection with indexes.

ghost use Rattle.std.specs.Prelude.{◌≡◌, ◌≢◌, ◌≤◌, Err, IfErr, IfOk, IfSome, OnOk, false, length, map, option_map};
ghost use Rattle.std.specs.List.{list_any};
ghost use Rattle.value_order.specs.KeyText.{tree_text};
ghost use Rattle.entry_model.specs.Entering.{Enters, NotesArrays, StayIndexed, becomes_multikey};
ghost use Rattle.entries.specs.KeyedDocuments.{AreKeyed};
ghost use Rattle.index.specs.IndexKeys.{noted};
ghost use Rattle.index.specs.KeyTexts.{keys_in_all};
ghost use Rattle.entry_model.specs.LawfulState.{IsStorable};
ghost use Rattle.entry_model.specs.State.{key_of};

use crate::catalogue_reading::Catalogued;
use crate::edits::Edits;
use bson::{Document, NoMemory};
use index::{IndexSpec, keys_in_all};
use path::Refusal;
use std::alloc::Global;

/// With a document that enters, the documents stay in order and the indexes are those of them.
pub fn stay_indexed()
    ensures { StayIndexed }
{}

/// A document with its encoded keys in each index of its collection.
#[derive(Drop)]
pub struct Keyed<'a> {
    pub document: &'a Document,
    pub keys: Vec<Vec<Vec<u8>>>,
}

impl<'a> Keyed<'a> {
    /// A document with its keys in these indexes; the first refusal of it otherwise, as `keys_in_all` gives it.
    pub fn new(
        alloc: Global,
        indexes: &[IndexSpec],
        document: &'a Document,
    ) -> Result<Keyed<'a>, Refusal>
        ensures keyed { IfOk result (λ k. AreKeyed indexes.now k) }
        ensures document { IfOk result (λ k. k.document.now ≡ document.now) }
        ensures refused { IfErr result (λ e. e ≢ Refusal.OutOfMemory
            → keys_in_all indexes.now document.now ≡ Err e) }
    {
        let keys = keys_in_all(alloc, indexes, document)?;
        Ok(Keyed { document, keys })
    }
}

/// Whether one of these indexes becomes multikey with a document: it has an array on one of the paths, and none had before.
fn become_multikey(indexes: &[IndexSpec], document: &Document) -> bool
    ensures { result ≡ list_any (becomes_multikey document.now) indexes.now }
{
    indexes.iter().any(|index| !index.is_multi() && index.is_multikey_with(document))
}

/// Notes of each of these indexes whether it is multikey with a document.
fn note_all(indexes: &mut [IndexSpec], document: &Document)
    ensures { indexes.new ≡ map (noted document.now) indexes.old }
{
    'indexes: for index in indexes.iter_mut() {
        index.note_arrays(document);
    }
}

impl Edits {
    /// Notes in the catalogue which indexes of the collection of a name are multikey with a document, where that is new of one.
    fn note_multikey(
        &mut self,
        namespace: &str,
        home: &mut Catalogued,
        document: &Document,
    ) -> Result<(), NoMemory>
        requires name { length namespace.now ≤ 255 }
        requires number { home.old.number ≤ 1000 }
        requires few { length home.old.indexes.items ≤ 16 }
        ensures number { home.new.number ≡ home.old.number }
        ensures indexes { home.new.indexes.items
            ≡ map (noted document.now) home.old.indexes.items }
        ensures notes { OnOk result (NotesArrays self.old self.new namespace.now home.old.number
            home.old.indexes.items document.now) }
    {
        if !become_multikey(&home.indexes, document) {
            return Ok(());
        }
        note_all(&mut home.indexes, document);
        self.put_indexes(namespace, home.number, &home.indexes)
    }

    /// Puts a document that was judged into the collection of a name, as a new one, or in place of the one of its
    /// `_id` that is passed, with its entries in the collection's indexes. Those become multikey on whose paths it has an array, which
    /// is noted in the catalogue.
    pub fn enter_document(
        &mut self,
        namespace: &str,
        home: &mut Catalogued,
        id: &[u8],
        replaced: Option<&Keyed<'_>>,
        keyed: &Keyed<'_>,
    ) -> Result<(), NoMemory>
        requires name { length namespace.now ≤ 255 }
        requires number { home.old.number ≤ 1000 }
        requires few { length home.old.indexes.items ≤ 16 }
        requires storable { IsStorable keyed.now.document.now }
        requires text { id.now ≡ tree_text (key_of keyed.now.document.now) }
        requires keyed { AreKeyed home.old.indexes.items keyed.now }
        requires old_keyed { IfSome replaced (λ was. AreKeyed home.old.indexes.items was.now) }
        ensures number { home.new.number ≡ home.old.number }
        ensures noted { home.new.indexes.items
            ≡ map (noted keyed.now.document.now) home.old.indexes.items }
        ensures enters { OnOk result (Enters self.old self.new namespace.now home.old.number
            home.old.indexes.items (option_map (λ was. was.now.document.now) replaced.entry)
            keyed.now.document.now) }
    {
        let Keyed { document, keys } = keyed;
        self.note_multikey(namespace, home, document)?;
        let indexes = &home.indexes;
        match replaced {
            None => self.insert_document(home.number, indexes, id, document, keys),
            Some(old) => self.replace_document(
                home.number,
                indexes,
                id,
                old.document,
                &old.keys,
                document,
                keys,
            ),
        }
    }
}
