//! `$push` and `$pull`.

ghost use Rattle.std.specs.Prelude.{◌≡◌, OnOk, IfOk, Ok, option_map};
ghost use Rattle.bson.specs.Tree.{array, append_items};
ghost use Rattle.bson.specs.View.{tree, items_of};
ghost use Rattle.path.specs.Edits.{within};
ghost use Rattle.outcome.specs.Outcome.{Gives};
ghost use Rattle.filter.specs.View.{condition_of};
ghost use Rattle.update_model.specs.Arrays.{only_one, items_to_push, each_items, items_without, pull_at};

use crate::touching::touch_at;
use bson::{Array, BuildFault, Document, NoMemory, Value};
use filter::{Condition, has_operators};
use path::{NewValue, Path, Refusal, value_at, write_new};
use std::alloc::Global;

// ---- $push

/// Copies of values.
pub(crate) fn copies(alloc: Global, values: &[Value]) -> Result<Vec<Value>, NoMemory>
    ensures { IfOk result (λ v. items_of v.items ≡ items_of values.now) }
{
    let mut all = Vec::with_capacity(alloc, values.len())?;
    'values: for value in values {
        all.push(value.copy()?)?;
    }
    Ok(all)
}

fn only_one(alloc: Global, value: &Value) -> Result<Vec<Value>, NoMemory>
    ensures { IfOk result (λ v. items_of v.items ≡ only_one (tree value.now)) }
{
    let mut all = Vec::with_capacity(alloc, 1)?;
    all.push(value.copy()?)?;
    Ok(all)
}

/// The values of `{$each: [..]}`.
fn each_items(alloc: Global, document: &Document) -> Result<Vec<Value>, Refusal>
    ensures { Gives Refusal.OutOfMemory (λ v. items_of v.items) result (each_items document.now) }
{
    let [first, rest @ ..] = document.pairs() else {
        return Err(Refusal::BadValue);
    };
    if first.name.as_str() != "$each" {
        return Err(Refusal::BadValue);
    }
    let Value::Array(array) = &first.value else {
        return Err(Refusal::TypeMismatch);
    };
    if !rest.is_empty() {
        return Err(Refusal::BadValue);
    }
    Ok(copies(alloc, array.items())?)
}

/// The values that `$push` puts there: all of `{$each: [..]}`, else the operand itself.
pub(crate) fn items_to_push(alloc: Global, value: &Value) -> Result<Vec<Value>, Refusal>
    ensures { Gives Refusal.OutOfMemory (λ v. items_of v.items) result
        (items_to_push (tree value.now)) }
{
    match value {
        Value::Document(document) if has_operators(document) => each_items(alloc, document),
        _ => Ok(only_one(alloc, value)?),
    }
}

/// The array with copies of values at its end. `BadValue` where one nests more levels than an element may.
fn with_items(source: Array, values: &[Value]) -> Result<Value, Refusal>
    ensures { Gives Refusal.OutOfMemory tree result
        (within 99 (Ok (array (append_items source (items_of values.now))))) }
{
    let mut array = source;
    'values: for value in values {
        match array.push(value.copy()?) {
            Ok(()) => {}
            Err(BuildFault::Deep) => return Err(Refusal::BadValue),
            Err(BuildFault::Memory) => return Err(Refusal::OutOfMemory),
            Err(BuildFault::Name) => unreachable!(),
            Err(BuildFault::Repeated) => unreachable!(),
        }
    }
    let _levels = array.levels();
    Ok(Value::Array(array))
}

/// What `$push` makes of what stands at its path.
#[derive(Clone, Copy, Drop)]
pub(crate) struct Pushed<'a> {
    pub alloc: Global,
    pub items: &'a [Value],
}

impl NewValue for Pushed<'_> {
    ghost use Rattle.update_model.specs.Arrays.{pushed};
    ghost use Rattle.bson.specs.View.{items_of};

    ghost made = { λ a old. pushed (items_of a.items.now) old };

    fn make(self, old: Option<Value>) -> Result<Value, Refusal> {
        match old {
            None => with_items(Array::new(self.alloc), self.items),
            Some(Value::Array(array)) => with_items(array, self.items),
            Some(_) => Err(Refusal::BadValue),
        }
    }
}

// ---- $pull

/// The array without the elements for which the condition looks.
fn items_without(condition: &Condition, array: Array) -> Array
    ensures { result ≡ items_without (condition_of condition.now) array }
{
    let mut items = array.into_items();
    items.retain(|item| !condition.matches_element(item));
    Array::from_items(items)
}

/// What `$pull` makes of what stands at its path.
#[derive(Clone, Copy, Drop)]
pub(crate) struct Pulled<'a> {
    pub condition: &'a Condition,
}

impl NewValue for Pulled<'_> {
    ghost use Rattle.update_model.specs.Arrays.{pulled};
    ghost use Rattle.filter.specs.View.{condition_of};

    ghost made = { λ a old. pulled (condition_of a.condition.now) old };

    fn make(self, old: Option<Value>) -> Result<Value, Refusal> {
        match old {
            Some(Value::Array(array)) => Ok(Value::Array(items_without(self.condition, array))),
            Some(_) => Err(Refusal::BadValue),
            None => Err(Refusal::BadValue),
        }
    }
}

/// Takes the elements for which the condition looks out of the array at the path, if something stands there.
pub(crate) fn pull_at(
    alloc: Global,
    document: Document,
    path: &Path,
    condition: &Condition,
) -> Result<Document, Refusal>
    ensures { Gives Refusal.OutOfMemory (λ d. d) result
        (pull_at path.now (condition_of condition.now) document) }
{
    if value_at(&document, path).is_none() {
        return Ok(touch_at(document, path));
    }
    write_new(alloc, document, path, Pulled { condition })
}
