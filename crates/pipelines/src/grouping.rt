//! `$group` as it was read.

ghost use Rattle.std.specs.Prelude.{◌≡◌, [], IfOk, map};
ghost use Rattle.bson.specs.View.{tree};
ghost use Rattle.outcome.specs.Outcome.{Gives, Does};
ghost use Rattle.aggregate_model.specs.Group.{read_id_fields, read_id, read_group_field, no_parts, read_part, read_parts, read_grouping};
ghost use Rattle.pipelines.specs.GroupView.{expression_of, id_field_of, id_of, group_field_of, grouping_of, parts_of};

use crate::accumulators::accumulator_named;
use crate::expression::Expression;
use crate::names::FieldName;
use crate::operands::only_pair_in;
use aggregate_model::Accumulator;
use bson::{Document, NoMemory, Value};
use path::Refusal;
use std::alloc::Global;

/// A field of an `_id` that is a document.
#[derive(Drop)]
pub struct IdField {
    pub name: FieldName,
    pub expression: Expression,
}

/// The value by which documents are split: one, or a document of some.
#[derive(Drop)]
pub enum GroupId {
    One(Expression),
    Fields(Vec<IdField>),
}

/// A field that is given of a group, beside its `_id`.
#[derive(Drop)]
pub struct GroupField {
    pub name: FieldName,
    pub accumulator: Accumulator,
    pub expression: Expression,
}

/// How documents are split, and what is given of each group.
#[derive(Drop)]
pub struct Grouping {
    pub alloc: Global,
    pub id: GroupId,
    pub fields: Vec<GroupField>,
}

/// What was read so far.
#[derive(Drop)]
struct Parts {
    id: Option<GroupId>,
    fields: Vec<GroupField>,
}

fn read_id_fields(alloc: Global, document: &Document) -> Result<Vec<IdField>, Refusal>
    ensures { Gives Refusal.OutOfMemory (λ v. map id_field_of v.items) result
        (read_id_fields document.now []) }
{
    let mut fields = Vec::new(alloc);
    'pairs: for pair in document.pairs() {
        let name = FieldName::read(alloc, pair.name.as_str())?;
        let expression = Expression::read(alloc, &pair.value)?;
        fields.push(IdField { name, expression })?;
    }
    Ok(fields)
}

impl GroupId {
    fn read(alloc: Global, value: &Value) -> Result<GroupId, Refusal>
        ensures { Gives Refusal.OutOfMemory id_of result (read_id (tree value.now)) }
    {
        match value {
            Value::Document(document) => Ok(GroupId::Fields(read_id_fields(alloc, document)?)),
            _ => Ok(GroupId::One(Expression::read(alloc, value)?)),
        }
    }
}

impl GroupField {
    /// The field of `{accumulator: expression}`.
    fn read(alloc: Global, name: &str, value: &Value) -> Result<GroupField, Refusal>
        ensures { Gives Refusal.OutOfMemory group_field_of result
            (read_group_field name.now (tree value.now)) }
    {
        let name = FieldName::read(alloc, name)?;
        let (word, operand) = only_pair_in(value)?;
        let Some(accumulator) = accumulator_named(word) else {
            return Err(Refusal::FailedToParse);
        };
        let expression = Expression::read(alloc, operand)?;
        Ok(GroupField {
            name,
            accumulator,
            expression,
        })
    }
}

impl Parts {
    fn read_part(&mut self, alloc: Global, name: &str, value: &Value) -> Result<(), Refusal>
        ensures { Does Refusal.OutOfMemory result (parts_of self.new)
            (read_part name.now (tree value.now) (parts_of self.old)) }
    {
        if name == "_id" {
            self.id = Some(GroupId::read(alloc, value)?);
        } else {
            self.fields.push(GroupField::read(alloc, name, value)?)?;
        }
        Ok(())
    }
}

fn read_parts(alloc: Global, document: &Document) -> Result<Parts, Refusal>
    ensures { Gives Refusal.OutOfMemory parts_of result (read_parts document.now no_parts) }
{
    let mut parts = Parts {
        id: None,
        fields: Vec::new(alloc),
    };
    'pairs: for pair in document.pairs() {
        parts.read_part(alloc, pair.name.as_str(), &pair.value)?;
    }
    Ok(parts)
}

impl Grouping {
    /// The grouping that a document spells, or the first misuse from the left. `FailedToParse` without `_id`.
    pub(crate) fn read(alloc: Global, document: &Document) -> Result<Grouping, Refusal>
        ensures { Gives Refusal.OutOfMemory grouping_of result (read_grouping document.now) }
    {
        let Parts { id, fields } = read_parts(alloc, document)?;
        match id {
            Some(id) => Ok(Grouping { alloc, id, fields }),
            None => Err(Refusal::FailedToParse),
        }
    }
}

impl IdField {
    fn copy(&self) -> Result<IdField, NoMemory>
        ensures { IfOk result (λ f. id_field_of f ≡ id_field_of self.now) }
    {
        Ok(IdField {
            name: self.name.copy()?,
            expression: self.expression.copy()?,
        })
    }
}

fn copy_id_fields(alloc: Global, fields: &[IdField]) -> Result<Vec<IdField>, NoMemory>
    ensures { IfOk result (λ v. map id_field_of v.items ≡ map id_field_of fields.now) }
{
    let mut all = Vec::with_capacity(alloc, fields.len())?;
    'fields: for field in fields {
        all.push(field.copy()?)?;
    }
    Ok(all)
}

impl GroupId {
    fn copy(&self, alloc: Global) -> Result<GroupId, NoMemory>
        ensures { IfOk result (λ g. id_of g ≡ id_of self.now) }
    {
        match self {
            GroupId::One(expression) => Ok(GroupId::One(expression.copy()?)),
            GroupId::Fields(fields) => Ok(GroupId::Fields(copy_id_fields(alloc, fields)?)),
        }
    }
}

impl GroupField {
    fn copy(&self) -> Result<GroupField, NoMemory>
        ensures { IfOk result (λ f. group_field_of f ≡ group_field_of self.now) }
    {
        Ok(GroupField {
            name: self.name.copy()?,
            accumulator: self.accumulator,
            expression: self.expression.copy()?,
        })
    }
}

fn copy_fields(alloc: Global, fields: &[GroupField]) -> Result<Vec<GroupField>, NoMemory>
    ensures { IfOk result (λ v. map group_field_of v.items ≡ map group_field_of fields.now) }
{
    let mut all = Vec::with_capacity(alloc, fields.len())?;
    'fields: for field in fields {
        all.push(field.copy()?)?;
    }
    Ok(all)
}

impl Grouping {
    /// An equal one of its own.
    pub(crate) fn copy(&self) -> Result<Grouping, NoMemory>
        ensures { IfOk result (λ g. grouping_of g ≡ grouping_of self.now) }
    {
        Ok(Grouping {
            alloc: self.alloc,
            id: self.id.copy(self.alloc)?,
            fields: copy_fields(self.alloc, &self.fields)?,
        })
    }
}
