//! Filters that ask for one of several: for a value of a list at a path, or for what one of several filters matches. Where an index, or
//! the `_id`, leads to each of these, all of them together are told without a walk.

ghost use Rattle.std.specs.Prelude.{◌≡◌, [], IfSome, Some, option_map};
ghost use Rattle.bson.specs.Tree.{document};
ghost use Rattle.collections.specs.Lookups.{ReadsOf};
ghost use Rattle.filter.specs.Matches.{all_hold, along, holds, matches, whole};
ghost use Rattle.filter.specs.View.{condition_of, conditions_of};
ghost use Rattle.index.specs.View.{texts_of};
ghost use Rattle.path.specs.Reach.{reach};
ghost use Rattle.candidate_ids.specs.Alternatives.{AreAlternatives, one_holds, subject_at};
ghost use Rattle.asked_documents.specs.Asking.{IsAsked};
ghost use Rattle.asked_documents.specs.ById.{TellOf};

use crate::by_id::put_ids;
use crate::by_index::ids_by_index;
use crate::members::ids_of_value;
use collections::Collections;
use entries::Catalogued;
use filter::{Condition, Filter, Predicate};
use page::Disk;
use path::{Path, Refusal};
use std::alloc::Global;

/// Conditions of which one has to hold: of what the path reaches, or of the document where there is no path.
#[derive(Clone, Copy)]
struct Alternatives<'a> {
    path: Option<&'a Path>,
    conditions: &'a [Condition],
}

/// The first of those among what is asked at a path.
fn listed_at<'a>(path: &'a Path, asked: &'a Filter) -> Option<Alternatives<'a>>
    ensures { IfSome result (λ a.
        AreAlternatives (λ d. all_hold asked.now (along (reach path.now (document d))))
        (option_map (λ p. p.now) a.path) (conditions_of a.conditions.now)) }
{
    'asked: for condition in asked.conditions() {
        if let Condition::Any(members) = condition {
            return Some(Alternatives {
                path: Some(path),
                conditions: members.conditions(),
            });
        }
    }
    None
}

/// Those for which a condition on a document asks.
fn alternatives_in(condition: &Condition) -> Option<Alternatives<'_>>
    ensures { IfSome result (λ a.
        AreAlternatives (λ d. holds (condition_of condition.now) (whole d))
        (option_map (λ p. p.now) a.path) (conditions_of a.conditions.now)) }
{
    match condition {
        Condition::Any(branches) => Some(Alternatives {
            path: None,
            conditions: branches.conditions(),
        }),
        Condition::At(path, asked) => listed_at(path, asked),
        _ => None,
    }
}

/// The texts of the `_id`s among which are those of all documents that have a value of a list at a path, where an index leads to them
/// by at most so many entries.
fn ids_of_member<D: Disk>(
    alloc: Global,
    file: &mut Collections<D>,
    home: &Catalogued,
    path: &Path,
    member: &Condition,
    most: usize,
) -> Result<Option<Vec<Vec<u8>>>, Refusal>
    ensures { ReadsOf D.history (IsAsked home.now)
        (λ now c found. IfSome found (λ ids.
        TellOf c (λ d. holds (condition_of member.now) (subject_at (Some path.now) d))
        [] (texts_of ids.items))) result file.old file.new }
{
    if file.is_stopped() {
        return Err(Refusal::StorageFailed);
    }
    let Condition::Is(asked) = member else {
        return Ok(None);
    };
    let Predicate::Equal(value) = asked else {
        return Ok(None);
    };
    ids_of_value(alloc, file, home, path, value, most)
}

/// The same of the documents that one of several filters matches, where it asks for their `_id`s, or an index serves it.
fn ids_of_branch<D: Disk>(
    alloc: Global,
    file: &mut Collections<D>,
    home: &Catalogued,
    branch: &Condition,
    most: usize,
) -> Result<Option<Vec<Vec<u8>>>, Refusal>
    ensures { ReadsOf D.history (IsAsked home.now)
        (λ now c found. IfSome found (λ ids.
        TellOf c (λ d. holds (condition_of branch.now) (whole d)) [] (texts_of ids.items)))
        result file.old file.new }
{
    if file.is_stopped() {
        return Err(Refusal::StorageFailed);
    }
    let Condition::All(filter) = branch else {
        return Ok(None);
    };
    let mut ids = Vec::new(alloc);
    if put_ids(alloc, &mut ids, filter)? {
        return Ok(Some(ids));
    }
    ids_by_index(alloc, file, home, filter, most)
}

/// The same of one of the alternatives.
fn ids_of_one<D: Disk>(
    alloc: Global,
    file: &mut Collections<D>,
    home: &Catalogued,
    path: Option<&Path>,
    condition: &Condition,
    most: usize,
) -> Result<Option<Vec<Vec<u8>>>, Refusal>
    ensures { ReadsOf D.history (IsAsked home.now)
        (λ now c found. IfSome found (λ ids. TellOf c (λ d. holds (condition_of condition.now)
        (subject_at (option_map (λ p. p.now) path.entry) d)) [] (texts_of ids.items)))
        result file.old file.new }
{
    match path {
        Some(path) => ids_of_member(alloc, file, home, path, condition, most),
        None => ids_of_branch(alloc, file, home, condition, most),
    }
}

/// The same of all of them together, by at most so many entries.
fn ids_of_all<D: Disk>(
    alloc: Global,
    file: &mut Collections<D>,
    home: &Catalogued,
    alternatives: Alternatives<'_>,
    most: usize,
) -> Result<Option<Vec<Vec<u8>>>, Refusal>
    ensures { ReadsOf D.history (IsAsked home.now)
        (λ now c found. IfSome found (λ ids.
        TellOf c (one_holds (option_map (λ p. p.now) alternatives.entry.path)
        (conditions_of alternatives.entry.conditions.now)) [] (texts_of ids.items)))
        result file.old file.new }
{
    if file.is_stopped() {
        return Err(Refusal::StorageFailed);
    }
    if most < alternatives.conditions.len() {
        return Ok(None);
    }
    let mut ids = Vec::new(alloc);
    'conditions: for condition in alternatives.conditions {
        let left = most.saturating_sub(ids.len());
        let Some(mut found) = ids_of_one(alloc, file, home, alternatives.path, condition, left)?
        else {
            return Ok(None);
        };
        ids.append(&mut found)?;
    }
    Ok(Some(ids))
}

/// The same of the documents that a filter matches which asks for one of several.
fn ids_by_alternatives<D: Disk>(
    alloc: Global,
    file: &mut Collections<D>,
    home: &Catalogued,
    filter: &Filter,
    most: usize,
) -> Result<Option<Vec<Vec<u8>>>, Refusal>
    ensures { ReadsOf D.history (IsAsked home.now)
        (λ now c found. IfSome found
        (λ ids. TellOf c (matches filter.now) [] (texts_of ids.items)))
        result file.old file.new }
{
    if file.is_stopped() {
        return Err(Refusal::StorageFailed);
    }
    'conditions: for condition in filter.conditions() {
        let Some(alternatives) = alternatives_in(condition) else {
            continue;
        };
        if let Some(ids) = ids_of_all(alloc, file, home, alternatives, most)? {
            return Ok(Some(ids));
        }
    }
    Ok(None)
}

/// The texts of the `_id`s among which are those of all documents that a filter matches, where an index serves it, or it asks for one
/// of several that indexes and `_id`s serve: by at most so many entries of indexes.
pub(crate) fn ids_served<D: Disk>(
    alloc: Global,
    file: &mut Collections<D>,
    home: &Catalogued,
    filter: &Filter,
    most: usize,
) -> Result<Option<Vec<Vec<u8>>>, Refusal>
    ensures { ReadsOf D.history (IsAsked home.now)
        (λ now c found. IfSome found
        (λ ids. TellOf c (matches filter.now) [] (texts_of ids.items)))
        result file.old file.new }
{
    if file.is_stopped() {
        return Err(Refusal::StorageFailed);
    }
    if let Some(ids) = ids_by_index(alloc, file, home, filter, most)? {
        return Ok(Some(ids));
    }
    ids_by_alternatives(alloc, file, home, filter, most)
}
