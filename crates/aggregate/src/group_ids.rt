//! The value by which `$group` splits documents.

ghost use Rattle.std.specs.Prelude.{◌≡◌, IfOk, map};
ghost use Rattle.bson.specs.Tree.{no_pairs};
ghost use Rattle.bson.specs.View.{tree};
ghost use Rattle.outcome.specs.Outcome.{Gives};
ghost use Rattle.aggregate_model.specs.Expression.{expression_value, or_null};
ghost use Rattle.aggregate_model.specs.Group.{with_id_field, with_id_fields, id_value};
ghost use Rattle.aggregate.specs.Found.{found_of, id_value_of};
ghost use Rattle.pipelines.specs.GroupView.{id_field_of, id_of};

use crate::expression::expression_value;
use crate::fields::set_field;
use crate::path_source::PathSource;
use crate::path_value::Found;
use bson::{Document, NoMemory, Value};
use path::Refusal;
use pipelines::{GroupId, IdField};
use std::alloc::Global;

/// The value by which a document is put into a group: one that stands in it, or one that was made.
#[derive(Drop)]
pub(crate) enum IdValue<'a> {
    There(&'a Value),
    Made(Value),
}

impl IdValue<'_> {
    pub(crate) fn get(&self) -> &Value
        ensures { tree result.now ≡ id_value_of self.now }
    {
        match self {
            IdValue::There(value) => value,
            IdValue::Made(value) => value,
        }
    }

    /// A value of its own.
    pub(crate) fn into_value(self) -> Result<Value, NoMemory>
        ensures { IfOk result (λ v. tree v ≡ id_value_of self.entry) }
    {
        match self {
            IdValue::There(value) => value.copy(),
            IdValue::Made(value) => Ok(value),
        }
    }
}

/// A value that was found, null where it is missing.
fn or_null(found: Found<'_>) -> IdValue<'_>
    ensures { id_value_of result ≡ or_null (found_of found.entry) }
{
    match found {
        Found::Missing => IdValue::Made(Value::Null),
        Found::There(value) => IdValue::There(value),
        Found::Made(value) => IdValue::Made(value),
    }
}

/// The document with a field of an `_id`, where its expression gives something.
fn with_id_field<S: PathSource>(
    alloc: Global,
    field: &IdField,
    whole: &S,
    document: Document,
) -> Result<Document, Refusal>
    ensures { let f = id_field_of field.now in Gives Refusal.OutOfMemory (λ d. d) result
        (with_id_field f.name (expression_value f.expression (S.source whole.now))
        document) }
{
    let found = expression_value(alloc, &field.expression, whole)?;
    match found.into_value()? {
        Some(value) => set_field(document, field.name.as_str(), value),
        None => Ok(document),
    }
}

fn with_id_fields<S: PathSource>(
    alloc: Global,
    fields: &[IdField],
    whole: &S,
) -> Result<Document, Refusal>
    ensures { Gives Refusal.OutOfMemory (λ d. d) result
        (with_id_fields (map id_field_of fields.now) (S.source whole.now) no_pairs) }
{
    let mut document = Document::new(alloc);
    'fields: for field in fields {
        document = with_id_field(alloc, field, whole, document)?;
    }
    Ok(document)
}

/// The value by which a document is put into a group. A missing one is null; in a document it is left out.
pub(crate) fn id_value<'a, S: PathSource>(
    alloc: Global,
    id: &'a GroupId,
    document: &'a S,
) -> Result<IdValue<'a>, Refusal>
    ensures { Gives Refusal.OutOfMemory id_value_of result
        (id_value (id_of id.now) (S.source document.now)) }
{
    match id {
        GroupId::One(expression) => Ok(or_null(expression_value(alloc, expression, document)?)),
        GroupId::Fields(fields) => {
            let made = with_id_fields(alloc, fields, document)?;
            Ok(IdValue::Made(Value::Document(made)))
        }
    }
}
