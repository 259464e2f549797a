//! Ordering documents: each one's keys are looked up once, and no value is copied.

ghost use Rattle.std.specs.Prelude.{◌≡◌, ◌<◌, List, IfOk, OnOk, length, map, drop, slice_index_or, slice_set, option_map};
ghost use Rattle.bson.specs.Tree.{Pairs, no_pairs};
ghost use Rattle.path.specs.View.{reached};
ghost use Rattle.value_order.specs.View.{key_of};
ghost use Rattle.sort.specs.Sort.{precedes, in_direction, keys_of, array_keys, sort_key, sorted, order};
ghost use Rattle.sort.specs.SortKeys.{field_of, earlier, first_of, document_keys, first_or_null, keys_cmp, keys_held, ranked_cmp, numbered, with_keys, ranked_of, arranged};

use crate::as_document::AsDocument;
use crate::sort::{Field, Sort};
use bson::{Array, Document, NoMemory, Value};
use path::{Reached, reach};
use std::alloc::Global;
use std::cmp::Ordering;
use std::mem;
use value_order::{KeyPart, compare_keys};

/// A document, its place among those that are sorted, and its keys, one for each field.
#[derive(Drop)]
pub(crate) struct Ranked<'a> {
    pub keys: Vec<KeyPart<'a>>,
    pub document: &'a Document,
    pub place: usize,
}

fn precedes(descending: bool, order: Ordering) -> bool
    ensures { result ≡ precedes descending order }
{
    match (descending, order) {
        (true, Ordering::Greater) | (false, Ordering::Less) => true,
        _ => false,
    }
}

fn in_direction(descending: bool, order: Ordering) -> Ordering
    ensures { result ≡ in_direction descending order }
{
    if descending { order.reverse() } else { order }
}

/// The first of what was found before and one key more.
fn earlier<'a>(descending: bool, found: Option<KeyPart<'a>>, key: KeyPart<'a>) -> KeyPart<'a>
    ensures { key_of result
        ≡ earlier descending (option_map key_of found.entry) (key_of key.entry) }
{
    match found {
        None => key,
        Some(first) => {
            if precedes(descending, compare_keys(&key, &first)) {
                key
            } else {
                first
            }
        }
    }
}

/// The first of what was found before and the keys of an array.
fn first_in_array<'a>(
    descending: bool,
    found: Option<KeyPart<'a>>,
    array: &'a Array,
) -> Option<KeyPart<'a>>
    ensures { option_map key_of result
        ≡ first_of descending (option_map key_of found.entry) (array_keys array.now) }
{
    if array.is_empty() {
        return Some(earlier(descending, found, KeyPart::EmptyArray));
    }
    let mut found = found;
    'items: for item in array.items() {
        found = Some(earlier(descending, found, KeyPart::Value(item)));
    }
    found
}

/// The first of what was found before and the keys of what a path reached.
fn first_reached<'a>(
    descending: bool,
    found: Option<KeyPart<'a>>,
    end: Reached<'a>,
) -> Option<KeyPart<'a>>
    ensures { option_map key_of result
        ≡ first_of descending (option_map key_of found.entry) (keys_of (reached end.entry)) }
{
    match end {
        Reached::Missing => Some(earlier(descending, found, KeyPart::Nothing)),
        Reached::Value(Value::Array(array)) => first_in_array(descending, found, array),
        Reached::Value(value) => Some(earlier(descending, found, KeyPart::Value(value))),
    }
}

/// The key of a document at a field.
fn sort_key<'a>(
    alloc: Global,
    field: &Field,
    document: &'a Document,
) -> Result<KeyPart<'a>, NoMemory>
    ensures { IfOk result (λ k. key_of k ≡ sort_key (field_of field.now) document.now) }
{
    let mut found = None;
    let all = reach(alloc, document, &field.path)?;
    'all: for reached in &all {
        found = first_reached(field.descending, found, *reached);
    }
    match found {
        Some(key) => Ok(key),
        None => Ok(KeyPart::Nothing),
    }
}

/// The key at a place, null where there is none.
fn key_at<'a>(keys: &[KeyPart<'a>], place: usize) -> KeyPart<'a>
    ensures { key_of result ≡ first_or_null (map key_of (drop place keys.now)) }
{
    match keys.get(place) {
        Some(key) => *key,
        None => KeyPart::Nothing,
    }
}

/// By the first field whose keys differ.
fn compare_lists(fields: &[Field], a: &[KeyPart<'_>], b: &[KeyPart<'_>]) -> Ordering
    ensures { result ≡ keys_cmp (map field_of fields.now) (map key_of a.now) (map key_of b.now) }
{
    'fields: for (i, field) in fields.iter().enumerate() {
        let order = compare_keys(&key_at(a, i), &key_at(b, i));
        match in_direction(field.descending, order) {
            Ordering::Equal => {}
            order => return order,
        }
    }
    Ordering::Equal
}

fn compare_ranked(fields: &[Field], a: &Ranked<'_>, b: &Ranked<'_>) -> Ordering
    ensures { result ≡ ranked_cmp (map field_of fields.now) a.now b.now }
{
    compare_lists(fields, &a.keys, &b.keys)
}

/// Takes a document out, and leaves an empty one.
fn take_out(alloc: Global, documents: &mut Vec<Document>, place: usize) -> Document
    requires { place < length documents.old.items }
    ensures taken { (d : _) → result ≡ slice_index_or documents.old.items place d }
    ensures left { documents.new.items ≡ slice_set documents.old.items place no_pairs }
{
    mem::replace(&mut documents[place], Document::new(alloc))
}

impl Sort {
    /// A document's keys, one for each field.
    fn keys<'a>(&self, document: &'a Document) -> Result<Vec<KeyPart<'a>>, NoMemory>
        ensures { IfOk result (λ v. map key_of v.items ≡ document_keys self.now document.now) }
    {
        let alloc = *self.fields.allocator();
        let mut keys = Vec::with_capacity(alloc, self.fields.len())?;
        'fields: for field in &self.fields {
            let key = sort_key(alloc, field, document)?;
            keys.push(key)?;
        }
        Ok(keys)
    }

    fn rank<'a>(&self, document: &'a Document, place: usize) -> Result<Ranked<'a>, NoMemory>
        ensures { IfOk result (λ r. ranked_of r ≡ with_keys self.now (document.now, place)) }
    {
        let keys = self.keys(document)?;
        Ok(Ranked {
            keys,
            document,
            place,
        })
    }

    fn rank_shared<'a, T: AsDocument>(
        &self,
        documents: &[&'a T],
    ) -> Result<Vec<Ranked<'a>>, NoMemory>
        ensures { IfOk result (λ v. map ranked_of v.items
            ≡ map (with_keys self.now)
            (numbered 0 (map (λ d. T.document d.now) documents.now))) }
    {
        let mut all = Vec::with_capacity(*self.fields.allocator(), documents.len())?;
        'documents: for document in documents {
            let ranked = self.rank((*document).as_document(), all.len())?;
            all.push(ranked)?;
        }
        Ok(all)
    }

    fn rank_all<'a>(&self, documents: &'a [Document]) -> Result<Vec<Ranked<'a>>, NoMemory>
        ensures { IfOk result (λ v. map ranked_of v.items
            ≡ map (with_keys self.now) (numbered 0 documents.now)) }
    {
        let mut all = Vec::with_capacity(*self.fields.allocator(), documents.len())?;
        'documents: for document in documents {
            let ranked = self.rank(document, all.len())?;
            all.push(ranked)?;
        }
        Ok(all)
    }

    /// Sorts by keys. What ties keeps its order.
    fn sort_ranked(&self, all: &mut Vec<Ranked<'_>>) -> Result<(), NoMemory>
        ensures { OnOk result (all.new.items ≡ sorted (ranked_cmp self.now) all.old.items) }
    {
        let fields = self.fields.as_slice();
        all.sort_by(|a, b| compare_ranked(fields, a, b))?;
        Ok(())
    }

    /// What lends documents, in the order of the sort of these. Those that tie keep their order.
    pub fn order_shared<'a, T: AsDocument>(
        &self,
        documents: Vec<&'a T>,
    ) -> Result<Vec<&'a T>, NoMemory>
        ensures { IfOk result (λ v. map (λ d. T.document d.now) v.items
            ≡ order self.now (map (λ d. T.document d.now) documents.entry.items)) }
    {
        let places = self.places(self.rank_shared(&documents)?)?;
        let mut ordered = Vec::with_capacity(*self.fields.allocator(), documents.len())?;
        'places: for place in &places {
            ordered.push(documents[*place])?;
        }
        Ok(ordered)
    }

    /// The places of documents in the order of the sort.
    fn places(&self, ranked: Vec<Ranked<'_>>) -> Result<Vec<usize>, NoMemory>
        ensures { (documents : List Pairs)
            → map ranked_of ranked.entry.items ≡ map (with_keys self.now) (numbered 0 documents)
            → IfOk result (λ v. v.items ≡ map (λ p. p.1) (arranged self.now documents)) }
    {
        let mut all = ranked;
        self.sort_ranked(&mut all)?;
        let mut places = Vec::with_capacity(*self.fields.allocator(), all.len())?;
        'all: for ranked in &all {
            places.push(ranked.place)?;
        }
        Ok(places)
    }

    /// The same for documents by value, which are moved and not copied.
    pub fn order(&self, documents: Vec<Document>) -> Result<Vec<Document>, NoMemory>
        ensures { IfOk result (λ v. v.items ≡ order self.now documents.items) }
    {
        let places = self.places(self.rank_all(&documents)?)?;
        let alloc = *self.fields.allocator();
        let mut documents = documents;
        let mut ordered = Vec::with_capacity(alloc, documents.len())?;
        'places: for place in &places {
            let document = take_out(alloc, &mut documents, *place);
            ordered.push(document)?;
        }
        Ok(ordered)
    }
}
