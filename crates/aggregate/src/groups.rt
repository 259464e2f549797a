//! `$group`: the groups of documents.
//!
//! A group keeps its `_id` and what its accumulators have, and no document. It is looked up by the text of its `_id`, which
//! is equal for values that the order calls equal.

ghost use Rattle.std.specs.Prelude.{◌≡◌, ◌<◌, [], false, true, IfOk, IfSome, OnOk, Some, length, map};
ghost use Rattle.bson.specs.View.{tree};
ghost use Rattle.outcome.specs.Outcome.{Gives};
ghost use Rattle.value_order.specs.KeyText.{tree_text};
ghost use Rattle.aggregate_model.specs.Group.{same, grouped};
ghost use Rattle.aggregate.specs.Found.{id_value_of};
ghost use Rattle.aggregate.specs.States.{state_of};
ghost use Rattle.pipelines.specs.GroupView.{group_field_of, grouping_of};
ghost use Rattle.aggregate.specs.Groups.{entry_of, entries_of, IsIndexed, IsPlace};
ghost use Rattle.aggregate.specs.Table.{has, starts, taken, put_document, with_outcomes, entry_document, entry_documents, grouped_from};

use crate::accumulators::State;
use crate::expression::expression_value;
use crate::fields::set_field;
use crate::group_ids::{IdValue, id_value};
use crate::path_source::PathSource;
use bson::{Document, NoMemory, Value};
use indexmap::IndexMap;
use path::Refusal;
use pipelines::{GroupField, Grouping};
use std::alloc::Global;
use std::cmp::Ordering;
use std::mem;
use value_order::{compare, group_text};

/// What a group has of its documents.
#[derive(Drop)]
struct Group {
    id: Value,
    states: Vec<State>,
}

/// Groups, in the order of their first documents, with their places by the text of the `_id`.
#[derive(Drop)]
pub(crate) struct Groups {
    places: IndexMap<Vec<u8>, usize>,
    groups: Vec<Group>,
}

fn is_same(a: &Value, b: &Value) -> bool
    ensures { result ≡ same (tree a.now) (tree b.now) }
{
    match compare(a, b) {
        Ordering::Equal => true,
        Ordering::Less | Ordering::Greater => false,
    }
}

/// The place of the group of an `_id`, looked for in all.
fn search(groups: &[Group], id: &Value) -> Option<usize>
    ensures { IsPlace groups.now (tree id.now) result }
{
    'groups: for (at, group) in groups.iter().enumerate() {
        if is_same(&group.id, id) {
            return Some(at);
        }
    }
    None
}

/// Whether a group stands at a place and has this `_id`.
fn has_at(groups: &[Group], at: usize, id: &Value) -> bool
    ensures { result ≡ true → IsPlace groups.now (tree id.now) (Some at) }
{
    match groups.get(at) {
        Some(group) => is_same(&group.id, id),
        None => false,
    }
}

/// What accumulators have of no document.
fn starts(alloc: Global, fields: &[GroupField]) -> Result<Vec<State>, NoMemory>
    ensures { IfOk result (λ v. map state_of v.items ≡ starts (map group_field_of fields.now)) }
{
    let mut states = Vec::with_capacity(alloc, fields.len())?;
    'fields: for field in fields {
        states.push(State::new(alloc, field.accumulator))?;
    }
    Ok(states)
}

/// Gives each accumulator its field's value of a document.
fn take_all<S: PathSource>(
    alloc: Global,
    fields: &[GroupField],
    document: &S,
    states: &mut Vec<State>,
) -> Result<(), NoMemory>
    ensures { OnOk result (map state_of states.new.items
        ≡ taken (map group_field_of fields.now) (S.source document.now)
        (map state_of states.old.items)) }
{
    'fields: for (at, field) in fields.iter().enumerate() {
        if states.len() <= at {
            return Ok(());
        }
        let found = expression_value(alloc, &field.expression, document)?;
        states[at].take(found)?;
    }
    Ok(())
}

/// The document with what the accumulators give in the end.
fn with_outcomes(
    alloc: Global,
    fields: &[GroupField],
    states: Vec<State>,
    document: Document,
) -> Result<Document, Refusal>
    ensures { Gives Refusal.OutOfMemory (λ d. d) result
        (with_outcomes (map group_field_of fields.now) (map state_of states.items) document) }
{
    let mut document = document;
    let mut states = states;
    'fields: for (at, field) in fields.iter().enumerate() {
        if states.len() <= at {
            return Ok(document);
        }
        let state = mem::replace(&mut states[at], State::Last(None));
        let value = state.outcome(alloc)?;
        document = set_field(document, field.name.as_str(), value)?;
    }
    Ok(document)
}

impl Group {
    /// A group of one document.
    fn new<S: PathSource>(
        alloc: Global,
        fields: &[GroupField],
        id: IdValue<'_>,
        document: &S,
    ) -> Result<Group, NoMemory>
        ensures { let fs = map group_field_of fields.now in IfOk result (λ g. entry_of g
            ≡ (id_value_of id.entry, taken fs (S.source document.now) (starts fs))) }
    {
        let mut states = starts(alloc, fields)?;
        take_all(alloc, fields, document, &mut states)?;
        Ok(Group {
            id: id.into_value()?,
            states,
        })
    }

    /// The document of the group. `BadValue` for a sum past int64 and where it would nest too deep.
    fn document(self, alloc: Global, fields: &[GroupField]) -> Result<Document, Refusal>
        ensures { Gives Refusal.OutOfMemory (λ d. d) result
            (entry_document (map group_field_of fields.now) (entry_of self)) }
    {
        let Group { id, states } = self;
        let document = set_field(Document::new(alloc), "_id", id)?;
        with_outcomes(alloc, fields, states, document)
    }
}

impl Groups {
    pub(crate) fn new(alloc: Global) -> Groups
        ensures none { entries_of result ≡ [] }
        ensures indexed { IsIndexed result }
    {
        Groups {
            places: IndexMap::new(alloc),
            groups: Vec::new(alloc),
        }
    }

    /// The place of the group of an `_id` with this text. The order decides: texts of more than 4 GiB may be equal where
    /// the values are not.
    fn place(&self, text: &Vec<u8>, id: &Value) -> Option<usize>
        ensures within { IfSome result (λ at. at < length self.now.groups.items) }
        ensures place { IsIndexed self.now → text.now.items ≡ tree_text (tree id.now)
            → IsPlace self.now.groups.items (tree id.now) result }
    {
        let Some(found) = self.places.get(text) else {
            return None;
        };
        let at = *found;
        if has_at(&self.groups, at, id) {
            return Some(at);
        }
        search(&self.groups, id)
    }

    /// Begins a group at the end with a document. Its `_id` has this text, and no group has that `_id` yet.
    fn push_group<S: PathSource>(
        &mut self,
        alloc: Global,
        fields: &[GroupField],
        id: IdValue<'_>,
        document: &S,
        text: Vec<u8>,
    ) -> Result<(), NoMemory>
        ensures indexed { IsIndexed self.old → text.items ≡ tree_text (id_value_of id.entry)
            → has same (entries_of self.old) (id_value_of id.entry) ≡ false
            → OnOk result (IsIndexed self.new) }
        ensures put { has same (entries_of self.old) (id_value_of id.entry) ≡ false
            → OnOk result (entries_of self.new
            ≡ put_document (map group_field_of fields.now)
            (id_value_of id.entry, S.source document.now) (entries_of self.old)) }
    {
        let group = Group::new(alloc, fields, id, document)?;
        self.places.insert(text, self.groups.len())?;
        self.groups.push(group)?;
        Ok(())
    }

    /// Puts a document into its group, or into a new one at the end.
    pub(crate) fn put<S: PathSource>(
        &mut self,
        alloc: Global,
        fields: &[GroupField],
        id: IdValue<'_>,
        document: &S,
    ) -> Result<(), NoMemory>
        ensures indexed { IsIndexed self.old → OnOk result (IsIndexed self.new) }
        ensures put { IsIndexed self.old → OnOk result (entries_of self.new
            ≡ put_document (map group_field_of fields.now)
            (id_value_of id.entry, S.source document.now) (entries_of self.old)) }
    {
        let text = group_text(alloc, id.get())?;
        match self.place(&text, id.get()) {
            Some(at) => take_all(alloc, fields, document, &mut self.groups[at].states),
            None => self.push_group(alloc, fields, id, document, text),
        }
    }

    /// A document for each group.
    pub(crate) fn into_documents(
        self,
        alloc: Global,
        fields: &[GroupField],
    ) -> Result<Vec<Document>, Refusal>
        ensures { Gives Refusal.OutOfMemory (λ v. v.items) result
            (entry_documents (map group_field_of fields.now) (entries_of self)) }
    {
        let Groups { places: _, groups } = self;
        let mut given = Vec::with_capacity(alloc, groups.len())?;
        'groups: for group in groups {
            given.push(group.document(alloc, fields)?)?;
        }
        Ok(given)
    }
}

/// A document for each group of the documents, which are taken one after the other.
fn grouped_from(grouping: &Grouping, documents: &[Document]) -> Result<Vec<Document>, Refusal>
    ensures { Gives Refusal.OutOfMemory (λ v. v.items) result
        (grouped_from (grouping_of grouping.now) documents.now []) }
{
    let alloc = grouping.alloc;
    let mut groups = Groups::new(alloc);
    'documents: for document in documents {
        let id = id_value(alloc, &grouping.id, document)?;
        groups.put(alloc, &grouping.fields, id, document)?;
    }
    groups.into_documents(alloc, &grouping.fields)
}

/// A document for each group, in the order of first appearance.
pub(crate) fn grouped(grouping: &Grouping, documents: &[Document]) -> Result<Vec<Document>, Refusal>
    ensures { Gives Refusal.OutOfMemory (λ v. v.items) result
        (grouped (grouping_of grouping.now) documents.now) }
{
    grouped_from(grouping, documents)
}
