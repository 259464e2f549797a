//! Whether a filter holds of a document.
//!
//! A path is followed without a list of what it reaches: the walk ends with the first value that passes. It copies no
//! value and takes no memory.

ghost use Rattle.std.specs.Prelude.{◌≡◌, ◌||◌, false, Ok, None, Some, [], ◌∷◌, option_map};
ghost use Rattle.std.specs.List.{list_any};
ghost use Rattle.bson.specs.Lent.{scalar_of};
ghost use Rattle.bson.specs.Tree.{document, scalar};
ghost use Rattle.bson.specs.Lookup.{lookup};
ghost use Rattle.bson.specs.View.{tree};
ghost use Rattle.path.specs.Reach.{reach, onwards, in_elements, in_place, items_list};
ghost use Rattle.filter.specs.Matches.{holds, all_hold, any_holds, matches, some_reached, some_element, of_document, along, alone};
ghost use Rattle.filter.specs.View.{condition_of};
ghost use Rattle.filter.specs.Probes.{subject_of, probe_passes, field_passes};

use crate::condition::{Condition, Filter, Predicate};
use crate::predicate;
use crate::value_set::ValueSet;
use bson::{Array, Document, NoMemory, RawScalar, Value};
use path::{Part, item_of_part};

/// What conditions are asked of.
#[derive(Clone, Copy)]
enum Subject<'a> {
    /// A document.
    Whole(&'a Document),
    /// What the parts of a path reach from the value that its first part has led to, or from Missing.
    Along(Option<&'a Value>, &'a [Part]),
    /// A value that a path has led to and that holds no other, lent.
    Scalar(&'a RawScalar<'a>),
    /// One element of an array, as it stands.
    Alone(&'a Value),
}

/// What a walk looks for.
#[derive(Clone, Copy)]
enum Probe<'a> {
    /// A value that passes a predicate.
    Predicate(&'a Predicate),
    /// One that is equal to one of many.
    OneOf(&'a ValueSet),
    /// An array with an element of which conditions hold.
    Element(&'a Filter),
    /// An array with a document of which conditions hold.
    ElementDocument(&'a Filter),
}

impl Filter {
    /// Whether all of it holds of a document.
    pub fn matches(&self, document: &Document) -> Result<bool, NoMemory>
        ensures { result ≡ Ok (matches self.now document.now) }
    {
        Ok(all_hold(self, Subject::Whole(document)))
    }
}

/// Whether all of it holds of what a path reaches, by the value that its first part leads to and the other parts.
pub(crate) fn all_hold_along(filter: &Filter, found: Option<&Value>, rest: &[Part]) -> bool
    ensures { result ≡ all_hold filter.now
        (along (onwards (reach rest.now) (option_map (λ v. tree v.now) found.entry) (None ∷ []))) }
{
    all_hold(filter, Subject::Along(found, rest))
}

/// Whether a condition holds of a value that a path has led to and that holds no other. A predicate, as most conditions
/// of one path are, is asked at once.
pub(crate) fn holds_of_scalar(condition: &Condition, value: &RawScalar<'_>) -> bool
    ensures { result ≡ holds (condition_of condition.now)
        (along (Some (scalar (scalar_of value.now)) ∷ [])) }
{
    match condition {
        Condition::Is(predicate) => predicate::scalar_passes(predicate, value),
        _ => holds(condition, Subject::Scalar(value)),
    }
}

/// Whether all of it holds of one element of an array, as it stands.
pub(crate) fn all_hold_alone(filter: &Filter, value: &Value) -> bool
    ensures { result ≡ all_hold filter.now (alone (tree value.now)) }
{
    all_hold(filter, Subject::Alone(value))
}

/// Whether the value is a document of which all of it holds.
pub(crate) fn all_hold_of_document(filter: &Filter, value: &Value) -> bool
    ensures { result ≡ of_document (all_hold filter.now) (tree value.now) }
{
    match value {
        Value::Document(document) => all_hold(filter, Subject::Whole(document)),
        _ => false,
    }
}

#[cycle(matching)]
fn all_hold(filter: &Filter, subject: Subject<'_>) -> bool
    ensures { result ≡ all_hold filter.now (subject_of subject.entry) }
{
    'conditions: for condition in filter.conditions() {
        if !holds(condition, subject) {
            return false;
        }
    }
    true
}

#[cycle(matching)]
fn any_holds(filter: &Filter, subject: Subject<'_>) -> bool
    ensures { result ≡ any_holds filter.now (subject_of subject.entry) }
{
    if let Some(values) = &filter.values {
        return finds(Probe::OneOf(values), subject);
    }
    'conditions: for condition in filter.conditions() {
        if holds(condition, subject) {
            return true;
        }
    }
    false
}

#[cycle(matching)]
fn holds(condition: &Condition, subject: Subject<'_>) -> bool
    ensures { result ≡ holds (condition_of condition.now) (subject_of subject.entry) }
{
    match condition {
        Condition::All(filter) => all_hold(filter, subject),
        Condition::Any(filter) => any_holds(filter, subject),
        Condition::NotAll(filter) => !all_hold(filter, subject),
        Condition::NotAny(filter) => !any_holds(filter, subject),
        Condition::At(path, filter) => match subject {
            Subject::Whole(document) => {
                let (part, rest) = path.split_first();
                all_hold(filter, Subject::Along(document.get(part.as_str()), rest))
            }
            _ => false,
        },
        Condition::Is(predicate) => finds(Probe::Predicate(predicate), subject),
        Condition::Element(filter) => finds(Probe::Element(filter), subject),
        Condition::ElementDocument(filter) => finds(Probe::ElementDocument(filter), subject),
    }
}

/// Whether something that was reached is what the walk looks for.
#[cycle(matching)]
fn finds(probe: Probe<'_>, subject: Subject<'_>) -> bool
    ensures { result ≡ some_reached (probe_passes probe.entry) (subject_of subject.entry) }
{
    match subject {
        Subject::Whole(_) => false,
        Subject::Along(Some(value), rest) => finds_from(probe, value, rest),
        Subject::Along(None, _) => missing_passes(probe),
        Subject::Scalar(value) => scalar_passes(probe, value),
        Subject::Alone(value) => passes(probe, true, value),
    }
}

/// Whether the parts reach it from a value.
#[cycle(matching)]
fn finds_from(probe: Probe<'_>, value: &Value, parts: &[Part]) -> bool
    ensures { result
        ≡ list_any (probe_passes probe.entry false) (reach parts.now (tree value.now)) }
{
    let [part, rest @ ..] = parts else {
        return passes(probe, false, value);
    };
    match value {
        Value::Document(document) => finds_in_field(probe, document, part, rest, false),
        Value::Array(array) => finds_in_array(probe, array, part, rest),
        _ => missing_passes(probe),
    }
}

/// Whether a part and the rest reach it from a document. One that lacks the part's field may be passed over.
#[cycle(matching)]
fn finds_in_field(
    probe: Probe<'_>,
    document: &Document,
    part: &Part,
    rest: &[Part],
    passes_over: bool,
) -> bool
    ensures { result ≡ field_passes (probe_passes probe.entry false) (reach rest.now)
        (lookup document.now part.now) passes_over }
{
    match document.get(part.as_str()) {
        Some(value) => finds_from(probe, value, rest),
        None => !passes_over && missing_passes(probe),
    }
}

/// Whether a part and the rest reach it from an array.
#[cycle(matching)]
fn finds_in_array(probe: Probe<'_>, array: &Array, part: &Part, rest: &[Part]) -> bool
    ensures { let passes = probe_passes probe.entry false in let onward = reach rest.now in
        result ≡ (list_any passes (in_elements onward part.now array.now)
        || list_any passes (in_place onward part.now array.now)) }
{
    let items = array.items();
    let is_digits = part.is_digits();
    'items: for item in items {
        if let Value::Document(document) = item {
            if finds_in_field(probe, document, part, rest, is_digits) {
                return true;
            }
        }
    }
    match item_of_part(items, part) {
        Some(item) => finds_from(probe, item, rest),
        None => false,
    }
}

/// Whether Missing is what the walk looks for.
fn missing_passes(probe: Probe<'_>) -> bool
    ensures { result ≡ probe_passes probe.entry false None }
{
    match probe {
        Probe::Predicate(predicate) => predicate::missing_passes(predicate),
        Probe::OneOf(values) => values.missing_passes(),
        Probe::Element(_) | Probe::ElementDocument(_) => false,
    }
}

/// Whether a value that is lent is what the walk looks for.
fn scalar_passes(probe: Probe<'_>, value: &RawScalar<'_>) -> bool
    ensures { result
        ≡ probe_passes probe.entry false (Some (scalar (scalar_of value.now))) }
{
    match probe {
        Probe::Predicate(predicate) => predicate::scalar_passes(predicate, value),
        Probe::OneOf(values) => values.contains_scalar(value),
        Probe::Element(_) | Probe::ElementDocument(_) => false,
    }
}

/// Whether a value is what the walk looks for.
#[cycle(matching)]
fn passes(probe: Probe<'_>, alone: bool, value: &Value) -> bool
    ensures { result ≡ probe_passes probe.entry alone (Some (tree value.now)) }
{
    match probe {
        Probe::Predicate(predicate) => predicate::passes(predicate, alone, value),
        Probe::OneOf(values) => values.passes(alone, value),
        Probe::Element(filter) => match value {
            Value::Array(array) => has_element(filter, array),
            _ => false,
        },
        Probe::ElementDocument(filter) => match value {
            Value::Array(array) => has_document(filter, array),
            _ => false,
        },
    }
}

#[cycle(matching)]
fn has_element(filter: &Filter, array: &Array) -> bool
    ensures { result ≡ list_any (λ t. all_hold filter.now (alone t)) (items_list array.now) }
{
    'items: for item in array.items() {
        if all_hold(filter, Subject::Alone(item)) {
            return true;
        }
    }
    false
}

#[cycle(matching)]
fn has_document(filter: &Filter, array: &Array) -> bool
    ensures { result ≡ list_any (of_document (all_hold filter.now)) (items_list array.now) }
{
    'items: for item in array.items() {
        if let Value::Document(document) = item {
            if all_hold(filter, Subject::Whole(document)) {
                return true;
            }
        }
    }
    false
}
