//! The `_id`s of documents in the order of a sort. While they are sorted, of each no more is kept than its `_id` and the fields that
//! the sort looks at.

ghost use Rattle.std.specs.Prelude.{◌≡◌, IfOk, OnOk, map, take};
ghost use Rattle.std.specs.List.{AllZip};
ghost use Rattle.bson.specs.Lawful.{NoZero};
ghost use Rattle.bson.specs.Lookup.{lookup};
ghost use Rattle.collections.specs.Lookups.{ReadsOf};
ghost use Rattle.database_model.specs.Find.{matching};
ghost use Rattle.index.specs.View.{texts_of};
ghost use Rattle.sort.specs.Sort.{order};
ghost use Rattle.asked_documents.specs.Asking.{IsAsked};
ghost use Rattle.walks.specs.Listed.{id_text_of};
ghost use Rattle.queries.specs.SortedIds.{HasNoOther, IsPartOf, IsShortOf, KeepsShort};

use crate::by_order::first_by_index;
use crate::looking_up::looked_up_in;
use crate::ordering::{first_ones, let_late_go};
use bson::{BuildFault, Document, NoMemory, Value};
use bson_bytes::{RawDoc, SpelledDocument};
use collections::{Collections, DocumentFold};
use entries::Catalogued;
use filter::Filter;
use page::Disk;
use path::Refusal;
use sort::Sort;
use std::alloc::{AllocError, Global};
use value_order::group_text;
use walks::{fold_asked, listed_texts};

/// Adds what a document has of a name to a part of it, unless it is there.
fn take_over(
    alloc: Global,
    document: &RawDoc<'_>,
    name: &str,
    part: &mut Document,
) -> Result<(), NoMemory>
    requires name { NoZero name.now }
    requires part { IsPartOf part.old document.now }
    ensures part { OnOk result (IsPartOf part.new document.now) }
    ensures kept { OnOk result (IsPartOf part.old part.new) }
    ensures same { OnOk result (lookup part.new name.now ≡ lookup document.now name.now) }
    ensures only { OnOk result (HasNoOther name.now part.old part.new) }
{
    let _bytes = document.bytes();
    if part.get(name).is_some() {
        return Ok(());
    }
    let Some(found) = document.get(name) else {
        return Ok(());
    };
    match part.push(name, found.value(alloc)?) {
        Ok(()) => Ok(()),
        Err(BuildFault::Memory) => Err(AllocError),
        Err(BuildFault::Name) => unreachable!("it has no zero"),
        Err(BuildFault::Repeated) => unreachable!("it is new"),
        Err(BuildFault::Deep) => unreachable!("it nests no deeper than the document"),
    }
}

/// Of a document its `_id` and the fields with which the paths of a sort begin, each once.
fn short_document(alloc: Global, sort: &Sort, document: &RawDoc<'_>) -> Result<Document, NoMemory>
    ensures { IfOk result (λ short. IsShortOf sort.now document.now short) }
{
    let room = Vec::with_capacity(alloc, sort.fields().len() + 1)?;
    let mut short = Document::from_pairs(room);
    take_over(alloc, document, "_id", &mut short)?;
    'fields: for field in sort.fields() {
        let (part, _) = field.path.split_first();
        take_over(alloc, document, part.as_str(), &mut short)?;
    }
    Ok(short)
}

/// The short documents of these, in their order.
fn short_documents(
    alloc: Global,
    sort: &Sort,
    documents: &[SpelledDocument],
) -> Result<Vec<Document>, NoMemory>
    ensures { IfOk result (λ shorts. AllZip (IsShortOf sort.now) documents.now shorts.items) }
{
    let mut shorts = Vec::with_capacity(alloc, documents.len())?;
    'documents: for document in documents {
        shorts.push(short_document(alloc, sort, &document.raw())?)?;
    }
    Ok(shorts)
}

/// The short documents of those that are lent and match a filter: the first ones in the order of a sort, up to so many, and some
/// that come too late.
#[derive(Drop)]
struct Shortening<'a> {
    alloc: Global,
    filter: &'a Filter,
    sort: &'a Sort,
    most: usize,
    found: Vec<Document>,
}

impl DocumentFold for Shortening<'_> {
    ghost makes = { KeepsShort };

    fn is_done(&self) -> bool {
        false
    }

    fn take(&mut self, document: &RawDoc<'_>) -> Result<(), Refusal> {
        if !self.filter.matches_raw(self.alloc, document)? {
            return Ok(());
        }
        let short = short_document(self.alloc, self.sort, document)?;
        let_late_go(self.alloc, self.sort, &mut self.found, self.most)?;
        self.found.push(short)?;
        Ok(())
    }
}

/// The key text of a document's `_id`; of null's where it has none, as a disk may give some.
fn id_text(alloc: Global, document: &Document) -> Result<Vec<u8>, NoMemory>
    ensures { IfOk result (λ text. text.items ≡ id_text_of document.now) }
{
    match document.get("_id") {
        Some(id) => group_text(alloc, id),
        None => group_text(alloc, &Value::Null),
    }
}

/// The key texts of the `_id`s of the first documents in the order of a sort, up to so many.
fn first_ids(
    alloc: Global,
    sort: &Sort,
    documents: Vec<Document>,
    most: usize,
) -> Result<Vec<Vec<u8>>, NoMemory>
    ensures { IfOk result (λ ids. texts_of ids.items
        ≡ map id_text_of (take most (order sort.now documents.items))) }
{
    let first = first_ones(sort, documents, most)?;
    let mut texts = Vec::with_capacity(alloc, first.len())?;
    'first: for document in &first {
        texts.push(id_text(alloc, document)?)?;
    }
    Ok(texts)
}

/// The same of documents that were looked up.
fn first_ids_of(
    alloc: Global,
    sort: &Sort,
    documents: &[SpelledDocument],
    most: usize,
) -> Result<Vec<Vec<u8>>, NoMemory>
    ensures { IfOk result (λ ids. texts_of ids.items
        ≡ map id_text_of (take most (order sort.now documents.now))) }
{
    let shorts = short_documents(alloc, sort, documents)?;
    first_ids(alloc, sort, shorts, most)
}

/// The same of the documents of a collection in a file that match a filter, by a walk through the collection.
fn walked_ids<D: Disk>(
    alloc: Global,
    file: &mut Collections<D>,
    home: &Catalogued,
    filter: &Filter,
    sort: &Sort,
    most: usize,
) -> Result<Vec<Vec<u8>>, Refusal>
    ensures { ReadsOf D.history (IsAsked home.now)
        (λ now c ids. texts_of ids.items
        ≡ map id_text_of (take most (order sort.now (matching filter.now c.documents))))
        result file.old file.new }
{
    let shortening = Shortening {
        alloc,
        filter,
        sort,
        most,
        found: Vec::new(alloc),
    };
    let kept = fold_asked(alloc, file, home, filter, shortening)?;
    Ok(first_ids(alloc, sort, kept.found, most)?)
}

/// The same, by look-ups where the `_id`s of all that match are told.
fn ids_by_sorting<D: Disk>(
    alloc: Global,
    file: &mut Collections<D>,
    home: &Catalogued,
    filter: &Filter,
    sort: &Sort,
    most: usize,
) -> Result<Vec<Vec<u8>>, Refusal>
    ensures { ReadsOf D.history (IsAsked home.now)
        (λ now c ids. texts_of ids.items
        ≡ map id_text_of (take most (order sort.now (matching filter.now c.documents))))
        result file.old file.new }
{
    match looked_up_in(alloc, file, home, filter, usize::MAX)? {
        Some(found) => Ok(first_ids_of(alloc, sort, &found, most)?),
        None => walked_ids(alloc, file, home, filter, sort, most),
    }
}

/// The key texts of the `_id`s of the documents of a collection in a file that match a filter, in the order of a sort: the first
/// ones, up to so many, read in that order where an index is in it.
pub fn ordered_ids_in<D: Disk>(
    alloc: Global,
    file: &mut Collections<D>,
    home: &Catalogued,
    filter: &Filter,
    sort: &Sort,
    most: usize,
) -> Result<Vec<Vec<u8>>, Refusal>
    ensures { ReadsOf D.history (IsAsked home.now)
        (λ now c ids. texts_of ids.items
        ≡ map id_text_of (take most (order sort.now (matching filter.now c.documents))))
        result file.old file.new }
{
    match first_by_index(alloc, file, home, filter, sort, most)? {
        Some(found) => Ok(listed_texts(alloc, &found)?),
        None => ids_by_sorting(alloc, file, home, filter, sort, most),
    }
}
