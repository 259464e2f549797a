//! Updates from the documents that spell them.

ghost use Rattle.std.specs.Prelude.{◌≡◌, [], map};
ghost use Rattle.bson.specs.View.{tree};
ghost use Rattle.outcome.specs.Outcome.{Gives};
ghost use Rattle.update_model.specs.Parsing.{read_edit, read_edits};
ghost use Rattle.update_model.specs.Parsing.{read_operator, read_operators, read_update};
ghost use Rattle.update.specs.View.{edit_of, update_of};

use crate::edit::{Edit, Form, Update};
use crate::edit_list::EditList;
use crate::operators::{editable_path, operator_of, read_action};
use bson::{Document, Value};
use filter::has_operators;
use path::Refusal;
use std::alloc::Global;
use update_model::Operator;

/// The edits before, and one more.
fn read_edit(
    alloc: Global,
    operator: Operator,
    name: &str,
    value: &Value,
    edits: EditList,
) -> Result<EditList, Refusal>
    ensures { Gives Refusal.OutOfMemory (λ edits. edits) result
        (read_edit operator name.now (tree value.now) edits) }
{
    let path = editable_path(alloc, name)?;
    let action = read_action(alloc, operator, value)?;
    edits.with(Edit { path, action })
}

/// The edits before, and those of one operator.
fn read_edits(
    alloc: Global,
    operator: Operator,
    document: &Document,
    edits: EditList,
) -> Result<EditList, Refusal>
    ensures { Gives Refusal.OutOfMemory (λ edits. edits) result
        (read_edits operator document.now edits) }
{
    let mut edits = edits;
    'pairs: for pair in document.pairs() {
        edits = read_edit(alloc, operator, pair.name.as_str(), &pair.value, edits)?;
    }
    Ok(edits)
}

/// The edits before, and those of the operator of a name.
fn read_operator(
    alloc: Global,
    name: &str,
    value: &Value,
    edits: EditList,
) -> Result<EditList, Refusal>
    ensures { Gives Refusal.OutOfMemory (λ edits. edits) result
        (read_operator name.now (tree value.now) edits) }
{
    let Some(operator) = operator_of(name) else {
        return Err(Refusal::BadValue);
    };
    match value {
        Value::Document(document) => read_edits(alloc, operator, document, edits),
        _ => Err(Refusal::TypeMismatch),
    }
}

/// The edits of all operators.
fn read_operators(alloc: Global, document: &Document) -> Result<Vec<Edit>, Refusal>
    ensures { Gives Refusal.OutOfMemory (λ v. map edit_of v.items) result
        (read_operators document.now []) }
{
    let mut edits = EditList::new(alloc);
    'pairs: for pair in document.pairs() {
        edits = read_operator(alloc, pair.name.as_str(), &pair.value, edits)?;
    }
    Ok(edits.into_edits())
}

impl Update {
    /// The update that a document spells, or the first misuse from the left: operators, where the first name begins with
    /// `$`, else a replacement.
    ///
    /// At one path these are looked for in order: a fault of the path, `ImmutableField` where it begins with `_id`, the
    /// operand, `ConflictingUpdateOperators` where it meets an earlier path of the update.
    pub fn read(alloc: Global, document: &Document) -> Result<Update, Refusal>
        ensures { Gives Refusal.OutOfMemory update_of result (read_update document.now) }
    {
        if has_operators(document) {
            let edits = read_operators(alloc, document)?;
            let form = Form::Edits(edits);
            return Ok(Update { alloc, form });
        }
        let form = Form::Replacement(document.copy()?);
        Ok(Update { alloc, form })
    }
}
