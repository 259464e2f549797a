//! Collections by their names, and documents by their `_id`.

ghost use Rattle.std.specs.Prelude.{◌≡◌, IfOk, IfSome, List, length, map};
ghost use Rattle.std.specs.Option.{option_map};
ghost use Rattle.bson.specs.Spelling.{frame_of, pairs_bytes};
ghost use Rattle.bson.specs.Tree.{Pairs};
ghost use Rattle.page.specs.History.{KeepsWord};
ghost use Rattle.btree.specs.Scan.{entry_in};
ghost use Rattle.tree_model.specs.Store.{IsSame};
ghost use Rattle.entry_model.specs.LawfulState.{IsKept, IsStorable};
ghost use Rattle.entry_model.specs.State.{Collection, find_collection};
ghost use Rattle.entry_model.specs.StateEntries.{catalogue_entry};
ghost use Rattle.collections.specs.Below.{IsNothing, ReadsBelow};
ghost use Rattle.collections.specs.Calls.{Reads};
ghost use Rattle.collections.specs.Entries.{AreNextEntries, ReadsEntries, ReadsTree};
ghost use Rattle.collections.specs.Lookups.{AreBytesAt, AreEach, IsBatchOf, IsInTree, IsNameOf, IsOfCollection, IsOfDocument, IsPlaceOf, IsValueAt, IsWithinLimits, LooksUp, OrMemory, ReadsOf, catalogued_in, catalogued_of, name_in, name_of, stored_at};
ghost use Rattle.collections.specs.View.{disk_history, pages_of};

use crate::applying::refusal_of;
use crate::collections::Collections;
use crate::remembered::{remember, told_again};
use bson::Document;
use bson_bytes::SpelledDocument;
use btree::{Batch, Entry, Range, get, scan};
use entries::{
    Catalogued, catalogue_key, catalogue_parts, document_in, document_key, first_key, namespace_in,
};
use page::Disk;
use pager::Pager;
use path::Refusal;
use std::alloc::Global;
use tree_model::TreeFault;

/// The most collections of a database.
pub const MOST_COLLECTIONS: usize = 1_000;

/// A collection by its name.
#[derive(Drop)]
pub struct Name {
    pub namespace: String,
    pub number: u32,
}

/// The value at a key of the tree below a root page.
pub(crate) fn value_below<D: Disk>(
    alloc: Global,
    pager: &mut Pager<D>,
    root: u32,
    key: &[u8],
) -> Result<Option<Vec<u8>>, TreeFault>
    ensures { LooksUp D.history root (IsValueAt key.now) result pager.old pager.new }
{
    get(alloc, pager, root, key)
}

/// The entries of a range of that tree.
pub(crate) fn entries_below<D: Disk>(
    alloc: Global,
    pager: &mut Pager<D>,
    root: u32,
    range: Range<'_>,
) -> Result<Batch, TreeFault>
    ensures { LooksUp D.history root (IsBatchOf range.entry) result pager.old pager.new }
{
    scan(alloc, pager, root, range)
}

/// All entries of that tree.
fn all_below<D: Disk>(
    alloc: Global,
    pager: &mut Pager<D>,
    root: u32,
) -> Result<Vec<Entry>, TreeFault>
    ensures { LooksUp D.history root (λ entries all. map entry_in all.items ≡ entries)
        result pager.old pager.new }
{
    let range = Range {
        from: &[],
        to: None,
        limit: usize::MAX,
    };
    let batch = entries_below(alloc, pager, root, range)?;
    if batch.next.is_some() {
        return Err(TreeFault::Length);
    }
    Ok(batch.entries)
}

/// The document that an entry's value is.
fn document_of(alloc: Global, value: &[u8]) -> Result<Document, Refusal>
    ensures { (d : Pairs) → IsStorable d → value.now ≡ frame_of (pairs_bytes d)
        → OrMemory (λ document. document ≡ d) result }
{
    match document_in(alloc, value)? {
        Some(document) => Ok(document),
        None => Err(Refusal::StorageFailed),
    }
}

/// The documents that entries are.
pub(crate) fn documents_of(alloc: Global, entries: &[Entry]) -> Result<Vec<Document>, Refusal>
    ensures reads { (ds : List Pairs) → AreEach IsOfDocument entries.now ds
        → OrMemory (λ documents. documents.items ≡ ds) result }
    ensures count { IfOk result (λ documents. length documents.items ≡ length entries.now) }
{
    let mut documents = Vec::with_capacity(alloc, entries.len())?;
    for entry in entries {
        documents.push(document_of(alloc, &entry.value)?)?;
    }
    Ok(documents)
}

/// The document that an entry's value is, kept as its bytes.
fn spelled_in(value: Vec<u8>) -> Result<SpelledDocument, Refusal>
    ensures { (d : Pairs) → IsStorable d → value.items ≡ frame_of (pairs_bytes d)
        → OrMemory (λ document. document ≡ d) result }
{
    match SpelledDocument::read(value) {
        Some(document) => Ok(document),
        None => Err(Refusal::StorageFailed),
    }
}

/// The documents that entries are, kept as their bytes.
pub(crate) fn spelled_of(
    alloc: Global,
    entries: Vec<Entry>,
) -> Result<Vec<SpelledDocument>, Refusal>
    ensures reads { (ds : List Pairs) → AreEach IsOfDocument entries.items ds
        → OrMemory (λ documents. documents.items ≡ ds) result }
    ensures count { IfOk result (λ documents. length documents.items ≡ length entries.items) }
{
    let mut documents = Vec::with_capacity(alloc, entries.len())?;
    'entries: for entry in entries {
        documents.push(spelled_in(entry.value)?)?;
    }
    Ok(documents)
}

/// The number and the indexes that the catalogue tells of a collection.
pub(crate) fn told_in(alloc: Global, value: &[u8]) -> Result<Catalogued, Refusal>
    ensures told { (c : Collection) → IsKept c → value.now ≡ (catalogue_entry c).value
        → OrMemory (λ told. catalogued_of told ≡ catalogued_in c) result }
    ensures limits { IfOk result IsWithinLimits }
{
    match catalogue_parts(alloc, value)? {
        Some(told) => Ok(told),
        None => Err(Refusal::StorageFailed),
    }
}

/// The collection that an entry of the catalogue is of.
fn name_at(alloc: Global, entry: &Entry) -> Result<Name, Refusal>
    ensures { (c : Collection) → IsOfCollection entry.now c
        → OrMemory (λ name. IsNameOf name c) result }
{
    let Some(namespace) = namespace_in(alloc, &entry.key)? else {
        return Err(Refusal::StorageFailed);
    };
    let told = told_in(alloc, &entry.value)?;
    Ok(Name {
        namespace,
        number: told.number,
    })
}

/// The collections that entries of the catalogue are of.
fn names_at(alloc: Global, entries: &[Entry]) -> Result<Vec<Name>, Refusal>
    ensures { (cs : List Collection) → AreEach IsOfCollection entries.now cs
        → OrMemory (λ names. map name_of names.items ≡ map name_in cs) result }
{
    let mut names = Vec::new(alloc);
    for entry in entries {
        names.push(name_at(alloc, entry)?)?;
    }
    Ok(names)
}

impl<D: Disk> Collections<D> {
    /// The value at a key of the tree below a root page.
    fn value_from(&mut self, root: u32, key: &[u8]) -> Result<Option<Vec<u8>>, Refusal>
        ensures reads { ReadsBelow D.history root IsNothing
            (λ now asked. IsInTree (IsValueAt key.now) now) result self.old self.new }
        ensures same { KeepsWord (disk_history D.history self.new)
            → IsSame (pages_of D.history self.old) (pages_of D.history self.new) }
    {
        if self.pager.is_stopped() {
            return Err(Refusal::StorageFailed);
        }
        match value_below(self.alloc, &mut self.pager, root, key) {
            Ok(found) => Ok(found),
            Err(fault) => Err(refusal_of(fault)),
        }
    }

    /// The value at a key of the turn's tree.
    pub(crate) fn value_at(&mut self, key: &[u8]) -> Result<Option<Vec<u8>>, Refusal>
        ensures { Reads D.history (IsInTree (IsValueAt key.now)) result self.old self.new }
    {
        self.value_from(self.root, key)
    }

    /// The entries of a range of the tree below a root page.
    pub(crate) fn entries_from(&mut self, root: u32, range: Range<'_>) -> Result<Batch, Refusal>
        ensures { ReadsBelow D.history root IsNothing
            (λ now asked. IsInTree (IsBatchOf range.entry) now) result self.old self.new }
    {
        if self.pager.is_stopped() {
            return Err(Refusal::StorageFailed);
        }
        match entries_below(self.alloc, &mut self.pager, root, range) {
            Ok(batch) => Ok(batch),
            Err(fault) => Err(refusal_of(fault)),
        }
    }

    /// The entries of a range of the turn's tree.
    pub(crate) fn entries_in(&mut self, range: Range<'_>) -> Result<Batch, Refusal>
        ensures { Reads D.history (IsInTree (IsBatchOf range.entry)) result self.old self.new }
    {
        self.entries_from(self.root, range)
    }

    /// All entries of the turn's tree, in ascending order of their keys.
    pub fn entries(&mut self) -> Result<Vec<Entry>, Refusal>
        ensures { ReadsEntries D.history result self.old self.new }
    {
        if self.pager.is_stopped() {
            return Err(Refusal::StorageFailed);
        }
        match all_below(self.alloc, &mut self.pager, self.root) {
            Ok(entries) => Ok(entries),
            Err(fault) => Err(refusal_of(fault)),
        }
    }

    /// Some entries of the turn's tree in ascending order of their keys, from a key on, at most so many, and the key of the next one.
    pub fn next_entries(&mut self, from: &[u8], limit: usize) -> Result<Batch, Refusal>
        ensures { ReadsTree D.history (AreNextEntries from.now limit) result self.old self.new }
    {
        if self.pager.is_stopped() {
            return Err(Refusal::StorageFailed);
        }
        let range = Range {
            from,
            to: None,
            limit,
        };
        match entries_below(self.alloc, &mut self.pager, self.root, range) {
            Ok(batch) => Ok(batch),
            Err(fault) => Err(refusal_of(fault)),
        }
    }

    /// The number and the indexes of the collection of a name, by a look at the tree. They are remembered.
    fn look_up(&mut self, namespace: &str) -> Result<Option<Catalogued>, Refusal>
        ensures reads { Reads D.history (λ now found. option_map catalogued_of found
            ≡ option_map catalogued_in (find_collection now namespace.now))
            result self.old self.new }
        ensures limits { IfOk result (λ found. IfSome found IsWithinLimits) }
    {
        let root = self.root;
        let key = catalogue_key(self.alloc, namespace)?;
        let Some(value) = self.value_from(root, &key)? else {
            return Ok(None);
        };
        let told = remember(self.alloc, &mut self.remembered, root, namespace, value)?;
        Ok(Some(told))
    }

    /// The number and the indexes of the collection of a name, if there is one. That of the last name is remembered: it is told again
    /// without a look at the tree, as long as nothing is changed.
    pub fn catalogued(&mut self, namespace: &str) -> Result<Option<Catalogued>, Refusal>
        ensures reads { Reads D.history (λ now found. option_map catalogued_of found
            ≡ option_map catalogued_in (find_collection now namespace.now))
            result self.old self.new }
        ensures limits { IfOk result (λ found. IfSome found IsWithinLimits) }
    {
        if self.pager.is_stopped() {
            return Err(Refusal::StorageFailed);
        }
        if let Some(told) = told_again(&self.remembered, self.root, namespace)? {
            return Ok(Some(told));
        }
        self.look_up(namespace)
    }

    /// The number of the collection of a name, if there is one.
    pub fn number_of(&mut self, namespace: &str) -> Result<Option<u32>, Refusal>
        ensures { Reads D.history (λ now found. found
            ≡ option_map (λ c. c.number) (find_collection now namespace.now))
            result self.old self.new }
    {
        let Some(told) = self.catalogued(namespace)? else {
            return Ok(None);
        };
        Ok(Some(told.number))
    }

    /// All collections, in ascending order of their names.
    pub fn names(&mut self) -> Result<Vec<Name>, Refusal>
        ensures { Reads D.history (λ now names. map name_of names.items ≡ map name_in now)
            result self.old self.new }
    {
        let from = first_key(self.alloc, 0, 0)?;
        let to = first_key(self.alloc, 0, 1)?;
        let batch = self.entries_in(Range {
            from: &from,
            to: Some(&to),
            limit: MOST_COLLECTIONS,
        })?;
        if batch.next.is_some() {
            return Err(Refusal::StorageFailed);
        }
        names_at(self.alloc, &batch.entries)
    }

    /// The bytes of a document in the collection of a number, by the key text of its `_id`, in the tree below a root page.
    fn bytes_from(&mut self, root: u32, number: u32, id: &[u8]) -> Result<Option<Vec<u8>>, Refusal>
        ensures { ReadsBelow D.history root (IsPlaceOf number id.now)
            (λ now place found. AreBytesAt place found) result self.old self.new }
    {
        let key = document_key(self.alloc, number, id)?;
        self.value_from(root, &key)
    }

    /// The document of that `_id` in the tree below a root page, if there is one, kept as its bytes: nothing of it is copied or built.
    pub(crate) fn document_from(
        &mut self,
        root: u32,
        number: u32,
        id: &[u8],
    ) -> Result<Option<SpelledDocument>, Refusal>
        ensures { ReadsBelow D.history root (IsPlaceOf number id.now)
            (λ now place found. found ≡ stored_at place) result self.old self.new }
    {
        let Some(bytes) = self.bytes_from(root, number, id)? else {
            return Ok(None);
        };
        Ok(Some(spelled_in(bytes)?))
    }

    /// The document of that `_id`, if there is one, kept as its bytes: nothing of it is copied or built.
    pub fn document(&mut self, number: u32, id: &[u8]) -> Result<Option<SpelledDocument>, Refusal>
        ensures { ReadsOf D.history (IsPlaceOf number id.now)
            (λ now place found. found ≡ stored_at place) result self.old self.new }
    {
        self.document_from(self.root, number, id)
    }
}
