//! Whether a filter holds of a document that stays its bytes. The values of the fields that its paths begin with are
//! asked where they stand; only documents and arrays among them are read, one at a time.

ghost use Rattle.std.specs.Prelude.{◌≡◌, IfOk};
ghost use Rattle.bson.specs.Lent.{scalar_of};
ghost use Rattle.bson.specs.Tree.{scalar};
ghost use Rattle.path.specs.Reach.{reach};
ghost use Rattle.filter.specs.Matches.{holds, all_hold, any_holds, matches, whole, along};
ghost use Rattle.filter.specs.Condition.{at};
ghost use Rattle.filter.specs.View.{condition_of};

use crate::condition::{Condition, Filter};
use crate::matching::{all_hold_along, holds_of_scalar};
use bson::{NoMemory, RawScalar};
use bson_bytes::RawDoc;
use path::{Part, Path};
use std::alloc::Global;

impl Filter {
    /// Whether all of it holds of a document that stays its bytes.
    pub fn matches_raw(&self, alloc: Global, document: &RawDoc<'_>) -> Result<bool, NoMemory>
        ensures { IfOk result (λ answer. answer ≡ matches self.now document.now) }
    {
        all_hold(alloc, self, document)
    }
}

#[cycle(raw_matching)]
fn all_hold(alloc: Global, filter: &Filter, document: &RawDoc<'_>) -> Result<bool, NoMemory>
    ensures { IfOk result (λ answer. answer ≡ all_hold filter.now (whole document.now)) }
{
    'conditions: for condition in filter.conditions() {
        if !holds(alloc, condition, document)? {
            return Ok(false);
        }
    }
    Ok(true)
}

#[cycle(raw_matching)]
fn any_holds(alloc: Global, filter: &Filter, document: &RawDoc<'_>) -> Result<bool, NoMemory>
    ensures { IfOk result (λ answer. answer ≡ any_holds filter.now (whole document.now)) }
{
    'conditions: for condition in filter.conditions() {
        if holds(alloc, condition, document)? {
            return Ok(true);
        }
    }
    Ok(false)
}

#[cycle(raw_matching)]
fn holds(alloc: Global, condition: &Condition, document: &RawDoc<'_>) -> Result<bool, NoMemory>
    ensures { IfOk result (λ answer.
        answer ≡ holds (condition_of condition.now) (whole document.now)) }
{
    match condition {
        Condition::All(filter) => all_hold(alloc, filter, document),
        Condition::Any(filter) => any_holds(alloc, filter, document),
        Condition::NotAll(filter) => Ok(!all_hold(alloc, filter, document)?),
        Condition::NotAny(filter) => Ok(!any_holds(alloc, filter, document)?),
        Condition::At(path, filter) => holds_at(alloc, path, filter, document),
        _ => Ok(false),
    }
}

/// Whether conditions hold of what a path reaches in the document.
fn holds_at(
    alloc: Global,
    path: &Path,
    filter: &Filter,
    document: &RawDoc<'_>,
) -> Result<bool, NoMemory>
    ensures { IfOk result (λ answer.
        answer ≡ holds (at path.now filter.now) (whole document.now)) }
{
    let (part, rest) = path.split_first();
    let Some(found) = document.get(part.as_str()) else {
        return Ok(all_hold_along(filter, None, rest));
    };
    match found.scalar() {
        Some(scalar) => Ok(all_hold_from(filter, &scalar, rest)),
        None => {
            let value = found.value(alloc)?;
            Ok(all_hold_along(filter, Some(&value), rest))
        }
    }
}

/// Whether conditions hold of what the parts of a path reach from a value that holds no other.
fn all_hold_from(filter: &Filter, value: &RawScalar<'_>, parts: &[Part]) -> bool
    ensures { result ≡ all_hold filter.now
        (along (reach parts.now (scalar (scalar_of value.now)))) }
{
    if !parts.is_empty() {
        return all_hold_along(filter, None, parts);
    }
    'conditions: for condition in filter.conditions() {
        if !holds_of_scalar(condition, value) {
            return false;
        }
    }
    true
}
