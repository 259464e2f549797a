//! The collections of a file. It is opened with what its bytes hold, of which no entry is read then; a check
//! reads each entry of its tree once and judges it, and keeps none but what the catalogue tells. Each key of
//! a document is looked up, and the entries of indexes are counted.

ghost use Rattle.std.specs.Prelude.{◌≡◌, ◌≢◌, ◌+◌, ◌≤◌, ◌⊎◌, [], List, ℕ, Some, IfErr, IfOk, OnOk, map};
ghost use Rattle.page.specs.History.{now, reads};
ghost use Rattle.btree.specs.Scan.{entry_in};
ghost use Rattle.bson.specs.Tree.{Pairs};
ghost use Rattle.opening.specs.FileOpening.{IsFileOpened, Judges, LoadsBatch, LoadsEntries, LoadsFile};
ghost use Rattle.entry_model.specs.State.{Collection};
ghost use Rattle.collections.specs.Opening.{HasLimit};
ghost use Rattle.opening.specs.Judging.{AreLoaded, HasItsKeys, IsFaultOf, IsLoadingAs, IsName, IsStoredAt, Refuses, RefusesOne, Takes, TakesAll, TakesDocument, TakesName, key_count, keys_among, listed_of, nothing_read, numbered};
ghost use Rattle.opening.specs.Loading.{named_as, progress_of};
ghost use Rattle.opening.specs.Refusing.{IsFileRefused};

use crate::ghost_state::GhostState;
use crate::judging::{
    Named, add_keys, document_at, index_in, keys_of, name_at, number_in, numbered,
};
use bson::Document;
use btree::Entry;
use collections::Collections as FileCollections;
use page::Disk;
use path::Refusal;
use roots::OpenFault;
use std::alloc::Global;
use trusted_disk::TrustedDisk;

/// How many entries are read at a time.
const ENTRIES_AT_ONCE: usize = 64;

/// What was read of a file so far, beside what is told: the catalogue, how many documents there were, how
/// many keys these have, and how many entries of indexes there were.
#[derive(Drop)]
pub struct Loading {
    pub names: Vec<Named>,
    pub documents: u64,
    pub keys: u64,
    pub seen: u64,
}

/// What a refusal to read entries is.
fn reading_fault(refusal: Refusal) -> OpenFault
    ensures device { result ≡ OpenFault.Device → refusal ≡ Refusal.StorageFailed }
    ensures kinds { (result ≡ OpenFault.Device) ⊎ (result ≡ OpenFault.Memory) }
{
    match refusal {
        Refusal::StorageFailed => OpenFault::Device,
        _ => OpenFault::Memory,
    }
}

/// The document of an entry of a collection, whose keys stand in the collection's indexes, and a count with
/// its keys more.
fn judge_document<D: Disk>(
    alloc: Global,
    file: &mut FileCollections<D>,
    of: &Named,
    count: u64,
    entry: &Entry,
) -> Result<(Document, u64), OpenFault>
    ensures stored { IfOk result (λ r. IsStoredAt (named_as of.now) (entry_in entry.now) r.0) }
    ensures judges { Judges D.history (λ all r. HasItsKeys all (named_as of.now) r.0
        × (r.1 ≡ count + key_count (keys_among of.now.indexes.items r.0)))
        (λ all. (d : Pairs) → IsStoredAt (named_as of.now) (entry_in entry.now) d
        → HasItsKeys all (named_as of.now) d → ⊥) result file.old file.new }
{
    let (document, text) = match document_at(alloc, of.number, entry) {
        Ok(found) => found,
        Err(fault) => return Err(fault),
    };
    let keys = match keys_of(alloc, &of.indexes, &document) {
        Ok(keys) => keys,
        Err(fault) => return Err(fault),
    };
    match file.lacks_any(of.number, &of.indexes, &keys, &text) {
        Ok(false) => {}
        Ok(true) => return Err(OpenFault::Damaged),
        Err(refusal) => return Err(reading_fault(refusal)),
    }
    match add_keys(count, &keys) {
        Some(count) => Ok((document, count)),
        None => Err(OpenFault::Memory),
    }
}

/// Takes the collection of an entry of the catalogue.
fn take_name(
    alloc: Global,
    loading: &mut Loading,
    told: &mut GhostState,
    entry: &Entry,
) -> Result<(), OpenFault>
    requires { IsLoadingAs (map named_as loading.old.names.items) told.old.value.now }
    ensures loading { OnOk result
        (IsLoadingAs (map named_as loading.new.names.items) told.new.value.now) }
    ensures takes { OnOk result (TakesName (progress_of loading.old told.old.value.now)
        (entry_in entry.now) (progress_of loading.new told.new.value.now)) }
    ensures err { IfErr result (λ e. IsFaultOf e ((n : Collection)
        → IsName (listed_of told.old.value.now) (entry_in entry.now) n → ⊥)) }
{
    let name = match name_at(alloc, &loading.names, entry) {
        Ok(name) => name,
        Err(fault) => return Err(fault),
    };
    told.change(&name);
    match loading.names.push(name) {
        Ok(()) => Ok(()),
        Err(_) => Err(OpenFault::Memory),
    }
}

/// Takes the document of an entry of the collection of a number.
fn take_document<D: Disk>(
    alloc: Global,
    file: &mut FileCollections<D>,
    loading: &mut Loading,
    told: &mut GhostState,
    number: u32,
    entry: &Entry,
) -> Result<(), OpenFault>
    requires { IsLoadingAs (map named_as loading.old.names.items) told.old.value.now }
    ensures loading { OnOk result
        (IsLoadingAs (map named_as loading.new.names.items) told.new.value.now) }
    ensures judges { Judges D.history (λ all _. TakesDocument all
        (progress_of loading.old told.old.value.now) (entry_in entry.now)
        (progress_of loading.new told.new.value.now))
        (λ all. (c : Collection) (d : Pairs) → c.number ≡ number
        → numbered number (listed_of told.old.value.now) ≡ Some c
        → IsStoredAt c (entry_in entry.now) d → HasItsKeys all c d → ⊥)
        result file.old file.new }
{
    let Some(of) = numbered(&loading.names, number) else {
        return Err(OpenFault::Damaged);
    };
    let Some(documents) = loading.documents.checked_add(1) else {
        return Err(OpenFault::Memory);
    };
    match judge_document(alloc, file, of, loading.keys, entry) {
        Ok((document, keys)) => {
            loading.documents = documents;
            loading.keys = keys;
            told.change(&(number, document));
            Ok(())
        }
        Err(fault) => Err(fault),
    }
}

/// Takes an entry of an index.
fn take_key(loading: &mut Loading) -> Result<(), OpenFault>
    ensures ok { OnOk result (loading.new
        ≡ record loading.old { seen = loading.old.seen + 1 }) }
    ensures err { IfErr result (λ e. e ≡ OpenFault.Memory) }
{
    match loading.seen.checked_add(1) {
        Some(seen) => {
            loading.seen = seen;
            Ok(())
        }
        None => Err(OpenFault::Memory),
    }
}

/// Takes an entry.
fn take_entry<D: Disk>(
    alloc: Global,
    file: &mut FileCollections<D>,
    loading: &mut Loading,
    told: &mut GhostState,
    entry: &Entry,
) -> Result<(), OpenFault>
    requires { IsLoadingAs (map named_as loading.old.names.items) told.old.value.now }
    ensures loading { OnOk result
        (IsLoadingAs (map named_as loading.new.names.items) told.new.value.now) }
    ensures judges { Judges D.history (λ all _. Takes all
        (progress_of loading.old told.old.value.now) (entry_in entry.now)
        (progress_of loading.new told.new.value.now))
        (λ all. Refuses all (progress_of loading.old told.old.value.now) (entry_in entry.now))
        result file.old file.new }
{
    let Some(index) = index_in(&entry.key) else {
        return Err(OpenFault::Damaged);
    };
    let Some(number) = number_in(&entry.key) else {
        return Err(OpenFault::Damaged);
    };
    if index != 0 {
        return take_key(loading);
    }
    if number == 0 {
        return take_name(alloc, loading, told, entry);
    }
    take_document(alloc, file, loading, told, number, entry)
}

/// Takes entries, one after the other.
fn take_entries<D: Disk>(
    alloc: Global,
    file: &mut FileCollections<D>,
    loading: &mut Loading,
    told: &mut GhostState,
    entries: &[Entry],
) -> Result<(), OpenFault>
    requires { IsLoadingAs (map named_as loading.old.names.items) told.old.value.now }
    ensures loading { OnOk result
        (IsLoadingAs (map named_as loading.new.names.items) told.new.value.now) }
    ensures judges { Judges D.history (λ all _. TakesAll all
        (progress_of loading.old told.old.value.now) (map entry_in entries.now)
        (progress_of loading.new told.new.value.now))
        (λ all. RefusesOne all (progress_of loading.old told.old.value.now)
        (map entry_in entries.now)) result file.old file.new }
{
    'entries: for entry in entries {
        match take_entry(alloc, file, loading, told, entry) {
            Ok(()) => {}
            Err(fault) => return Err(fault),
        }
    }
    Ok(())
}

/// Takes a batch of the file's entries, from a key on, and hands out the key of the next one.
fn load_batch<D: Disk>(
    alloc: Global,
    file: &mut FileCollections<D>,
    loading: &mut Loading,
    told: &mut GhostState,
    from: &[u8],
) -> Result<Option<Vec<u8>>, OpenFault>
    requires { IsLoadingAs (map named_as loading.old.names.items) told.old.value.now }
    ensures loading { OnOk result
        (IsLoadingAs (map named_as loading.new.names.items) told.new.value.now) }
    ensures loads { LoadsBatch D.history from.now result
        (progress_of loading.old told.old.value.now)
        (progress_of loading.new told.new.value.now) file.old file.new }
{
    let batch = match file.next_entries(from, ENTRIES_AT_ONCE) {
        Ok(batch) => batch,
        Err(refusal) => return Err(reading_fault(refusal)),
    };
    match take_entries(alloc, file, loading, told, &batch.entries) {
        Ok(()) => Ok(batch.next),
        Err(fault) => Err(fault),
    }
}

/// Takes all entries of a file, of which nothing is told yet. The bound on batches is none that a file could
/// reach.
fn load_entries<D: Disk>(
    alloc: Global,
    file: &mut FileCollections<D>,
    loading: &mut Loading,
    told: &mut GhostState,
) -> Result<(), OpenFault>
    requires read { progress_of loading.old told.old.value.now ≡ nothing_read }
    requires names { loading.old.names.items ≡ [] }
    ensures loaded { OnOk result
        (IsLoadingAs (map named_as loading.new.names.items) told.new.value.now) }
    ensures loads { LoadsEntries D.history result (progress_of loading.new told.new.value.now)
        file.old file.new }
{
    let mut from = Vec::new(alloc);
    'batches: for _ in 0..u64::MAX {
        match load_batch(alloc, file, loading, told, &from) {
            Ok(Some(next)) => from = next,
            Ok(None) => return Ok(()),
            Err(fault) => return Err(fault),
        }
    }
    Err(OpenFault::Memory)
}

/// Takes all entries of a file, of which nothing is told yet: there are as many entries of indexes as keys of
/// documents.
pub fn load_file<D: Disk>(
    alloc: Global,
    file: &mut FileCollections<D>,
    told: &mut GhostState,
) -> Result<Loading, OpenFault>
    requires { told.old.value.now ≡ [] }
    ensures { LoadsFile D.history result told.new.value.now file.old file.new }
{
    let mut loading = Loading {
        names: Vec::new(alloc),
        documents: 0,
        keys: 0,
        seen: 0,
    };
    match load_entries(alloc, file, &mut loading, told) {
        Ok(()) => {}
        Err(fault) => return Err(fault),
    }
    if loading.keys != loading.seen {
        return Err(OpenFault::Damaged);
    }
    Ok(loading)
}

/// Opens a disk. The collections that are told of it are those that an image holds, which the caller chooses;
/// where it holds none the disk isn't trusted.
fn open_told<D: Disk>(
    alloc: Global,
    disk: D,
    limit: u32,
) -> Result<(FileCollections<TrustedDisk<D>>, GhostState), (D, OpenFault)>
    ghost image: { ℕ → List ℕ }
    ensures opened { IfOk result (λ r. image ≡ reads (now (D.history disk))
        → IsFileOpened D.history disk r.1.value r.0) }
    ensures limit { IfOk result (λ r. HasLimit limit r.0) }
    ensures refused { IfErr result (λ e. IsFileRefused D.history disk e.0 e.1) }
{
    match FileCollections::open(alloc, disk, limit) {
        Ok(file) => Ok((file.trusting(), GhostState::of(&()))),
        Err((disk, fault)) => Err((disk, fault)),
    }
}

/// Opens a disk that a crash may have left, as a file of at most so many pages, or those that it has. No
/// entry of its tree is read: the collections that are told of it are those that the disk's bytes hold, and
/// where they hold none the disk isn't trusted. An `Err` hands the disk back.
pub fn open_file<D: Disk>(
    alloc: Global,
    disk: D,
    limit: u32,
) -> Result<(FileCollections<TrustedDisk<D>>, GhostState), (D, OpenFault)>
    ensures opened { IfOk result (λ r. IsFileOpened D.history disk r.1.value r.0) }
    ensures limit { IfOk result (λ r. HasLimit limit r.0) }
    ensures refused { IfErr result (λ e. IsFileRefused D.history disk e.0 e.1) }
{
    open_told(alloc, disk, limit)
}
