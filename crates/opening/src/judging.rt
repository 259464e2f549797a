//! How one entry of a file that is opened is judged: what the catalogue tells of a collection, and which document is stored.

ghost use Rattle.std.specs.Prelude.{◌≡◌, ◌+◌, ◌<◌, ◌≤◌, ◌^◌, Some, true, List, ℕ, IfNone, IfOk, IfSome, IsUtf8, MatchResult, length, map};
ghost use Rattle.std.specs.List.{AllByRecursion, list_all, list_any};
ghost use Rattle.bson.specs.Tree.{Pairs};
ghost use Rattle.btree.specs.Scan.{entry_in};
ghost use Rattle.value_order.specs.KeyText.{tree_text};
ghost use Rattle.index.specs.Definition.{IsDefinition};
ghost use Rattle.entry_model.specs.Entering.{becomes_multikey};
ghost use Rattle.entry_model.specs.State.{Collection};
ghost use Rattle.entry_model.specs.StateEntries.{key_under};
ghost use Rattle.index.specs.View.{texts_of};
ghost use Rattle.database_model.specs.Documents.{key_of};
ghost use Rattle.opening.specs.Judging.{IsDocumentAt, IsFaultOf, IsIndexable, IsName, JudgesText, are_apart, has_number, index_in, key_count, keys_among, numbered, stands_behind};
ghost use Rattle.opening.specs.Loading.{named_as};

use crate::MOST_COLLECTIONS;
use bson::{Document, NoMemory};
use btree::Entry;
use command_model::NAMESPACE_LIMIT;
use entries::{catalogue_told, document_in, document_key, namespace_in};
use index::{IndexSpec, keys_in_all};
use path::Refusal;
use roots::OpenFault;
use std::alloc::{AllocError, Global};
use stored_documents::{ID, STORED_LIMIT};
use update::{id_of, limits_fault, names_fault};
use value_order::{Direction, KeyFault, KeyPart, key_text};

/// What the catalogue tells of a collection.
#[derive(Drop)]
pub struct Named {
    pub namespace: String,
    pub number: u32,
    pub indexes: Vec<IndexSpec>,
}

/// The number of the collection that a key stands under, 0 for the catalogue.
pub(crate) fn number_in(key: &[u8]) -> Option<u32>
    ensures some { (number : ℕ) (text : List ℕ) → number < 2 ^ 32
        → key.now ≡ key_under number 0 text → IfSome result (λ n. n ≡ number) }
    ensures none { IfNone result (length key.now < 4) }
{
    let (number, _) = key.split_first_chunk::<4>()?;
    Some(u32::from_be_bytes(*number))
}

/// The number of the index that a key stands under, 0 for the catalogue and for documents.
pub(crate) fn index_in(key: &[u8]) -> Option<u32>
    ensures some { IfSome result (λ i. (i ≡ index_in key.now) × (8 ≤ length key.now)) }
    ensures none { IfNone result (length key.now < 8) }
{
    let (_, rest) = key.split_first_chunk::<4>()?;
    let (index, _) = rest.split_first_chunk::<4>()?;
    Some(u32::from_be_bytes(*index))
}

/// Whether a name comes behind another, and has another number.
fn is_behind(name: &Named, other: &Named) -> bool
    ensures { result ≡ stands_behind (named_as name.now) (named_as other.now) }
{
    other
        .namespace
        .as_str()
        .cmp(name.namespace.as_str())
        .is_lt()
        && other.number != name.number
}

/// Whether it is so to each of these names.
fn is_last(name: &Named, names: &[Named]) -> bool
    ensures { result ≡ list_all (stands_behind (named_as name.now)) (map named_as names.now) }
{
    'each: for other in names {
        if !is_behind(name, other) {
            return false;
        }
    }
    true
}

/// How long a name is, which is a text.
fn text_len(name: &str) -> usize
    ensures len { result ≡ length name.now }
    ensures text { IsUtf8 name.now }
{
    name.len()
}

/// Whether one of these indexes has this number.
fn has_number(indexes: &[IndexSpec], number: u32) -> bool
    ensures { result ≡ has_number number indexes.now }
{
    indexes.iter().any(|index| index.number() == number)
}

/// Whether no two of them have one number.
fn are_apart(indexes: &[IndexSpec]) -> bool
    ensures apart { result ≡ are_apart indexes.now }
    ensures lawful { result ≡ true → AllByRecursion IsDefinition indexes.now }
{
    let mut rest = indexes;
    'each: while let Some((first, others)) = rest.split_first() {
        if has_number(others, first.number()) {
            return false;
        }
        rest = others;
    }
    true
}

/// The collection that an entry of the catalogue is of, where it may follow those of these names.
pub(crate) fn name_at(alloc: Global, names: &[Named], entry: &Entry) -> Result<Named, OpenFault>
    ensures { MatchResult result
        (λ n. IsName (map named_as names.now) (entry_in entry.now) (named_as n))
        (λ e. IsFaultOf e ((n : Collection)
        → IsName (map named_as names.now) (entry_in entry.now) n → ⊥)) }
{
    let Some(namespace) = namespace_in(alloc, &entry.key)? else {
        return Err(OpenFault::Damaged);
    };
    let Some(told) = catalogue_told(alloc, &entry.value)? else {
        return Err(OpenFault::Damaged);
    };
    if NAMESPACE_LIMIT < text_len(namespace.as_str()) || MOST_COLLECTIONS <= names.len() {
        return Err(OpenFault::Damaged);
    }
    if !are_apart(&told.indexes) {
        return Err(OpenFault::Damaged);
    }
    let name = Named {
        namespace,
        number: told.number,
        indexes: told.indexes,
    };
    if !is_last(&name, names) {
        return Err(OpenFault::Damaged);
    }
    Ok(name)
}

/// The first of these names that has this number.
pub(crate) fn numbered(names: &[Named], number: u32) -> Option<&Named>
    ensures some { IfSome result (λ n. numbered number (map named_as names.now)
        ≡ Some (named_as n.now)) }
    ensures none { IfNone result ((c : Collection) → numbered number (map named_as names.now)
        ≡ Some c → ⊥) }
{
    'each: for name in names {
        if name.number == number {
            return Some(name);
        }
    }
    None
}

/// The text of a document's `_id`, where the document may be stored as it is.
fn stored_text(alloc: Global, document: &Document) -> Result<Option<Vec<u8>>, NoMemory>
    ensures { IfOk result (JudgesText document.now) }
{
    let _levels = document.levels();
    if limits_fault(document, STORED_LIMIT).is_some() || names_fault(document).is_some() {
        return Ok(None);
    }
    let Some(0) = document.position(ID) else {
        return Ok(None);
    };
    let Some(id) = id_of(document) else {
        return Ok(None);
    };
    match key_text(alloc, &KeyPart::Value(id), Direction::Ascending) {
        Ok(text) => Ok(Some(text)),
        Err(KeyFault::TooLong) => Ok(None),
        Err(KeyFault::Memory) => Err(AllocError),
    }
}

/// The document of an entry of the collection of a number, and the text of its `_id`.
pub(crate) fn document_at(
    alloc: Global,
    number: u32,
    entry: &Entry,
) -> Result<(Document, Vec<u8>), OpenFault>
    ensures { MatchResult result (λ r. IsDocumentAt number (entry_in entry.now) r.0
        × (r.1.items ≡ tree_text (key_of r.0)))
        (λ e. IsFaultOf e ((d : Pairs) → IsDocumentAt number (entry_in entry.now) d → ⊥)) }
{
    let Some(document) = document_in(alloc, &entry.value)? else {
        return Err(OpenFault::Damaged);
    };
    let Some(text) = stored_text(alloc, &document)? else {
        return Err(OpenFault::Damaged);
    };
    let key = document_key(alloc, number, &text)?;
    if key.as_slice() != entry.key.as_slice() {
        return Err(OpenFault::Damaged);
    }
    Ok((document, text))
}

/// Whether one of the indexes isn't multikey though the document has an array on one of its paths.
fn becomes_multikey(indexes: &[IndexSpec], document: &Document) -> bool
    ensures { result ≡ list_any (becomes_multikey document.now) indexes.now }
{
    indexes.iter().any(|index| !index.is_multi() && index.is_multikey_with(document))
}

/// The encoded keys of a document in each of these indexes, where it may be stored in them as they are.
pub(crate) fn keys_of(
    alloc: Global,
    indexes: &[IndexSpec],
    document: &Document,
) -> Result<Vec<Vec<Vec<u8>>>, OpenFault>
    ensures { MatchResult result (λ v. IsIndexable indexes.now document.now
        × (map (λ ks. texts_of ks.items) v.items ≡ keys_among indexes.now document.now))
        (λ e. IsFaultOf e (IsIndexable indexes.now document.now → ⊥)) }
{
    if becomes_multikey(indexes, document) {
        return Err(OpenFault::Damaged);
    }
    match keys_in_all(alloc, indexes, document) {
        Ok(keys) => Ok(keys),
        Err(Refusal::OutOfMemory) => Err(OpenFault::Memory),
        Err(_) => Err(OpenFault::Damaged),
    }
}

/// A count with as many more as there are keys.
pub(crate) fn add_keys(count: u64, keys: &[Vec<Vec<u8>>]) -> Option<u64>
    ensures { IfSome result (λ n. n
        ≡ count + key_count (map (λ ks. texts_of ks.items) keys.now)) }
{
    let mut sum = count;
    'each: for some in keys {
        sum = sum.checked_add(some.len() as u64)?;
    }
    Some(sum)
}
