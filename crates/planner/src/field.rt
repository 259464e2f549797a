//! The fields of an index, and what a filter and a sort say of them. That on `_id` has one.

ghost use Rattle.std.specs.Prelude.{◌≡◌, ◌≤◌, length, drop, codes, option_map, slice_get};
ghost use Rattle.sort.specs.SortKeys.{field_of as sort_field_of};
ghost use Rattle.filter.specs.View.{condition_of};
ghost use Rattle.path.specs.Parts.{parts_of};
ghost use Rattle.plan_model.specs.Usable.{is_path, usable_there, usable};
ghost use Rattle.plan_model.specs.Plan.{fields_of, is_direction, is_sorted_at, asked_of, asked_next, sorts_as};
ghost use Rattle.planner.specs.View.{usable_of, field_of, index_of};

use crate::usable::{Usable, all_usable};
use filter::{Condition, Filter};
use index::{IndexField, IndexSpec};
use path::Path;
use sort::{Sort, SortField};
use value_order::Direction;

/// A field of an index.
#[derive(Clone, Copy)]
pub(crate) enum Field<'a> {
    /// That of the index on `_id`.
    Id,
    /// One of another index.
    Of(&'a IndexField),
}

/// The field at a place of an index; none is the index on `_id`.
pub(crate) fn field_at<'a>(index: Option<&'a IndexSpec>, place: usize) -> Option<Field<'a>>
    ensures field { option_map field_of result
        ≡ slice_get (fields_of (index_of index.entry)) place }
    ensures few { length (fields_of (index_of index.entry)) ≤ 4 }
{
    match index {
        None if place == 0 => Some(Field::Id),
        None => None,
        Some(spec) => {
            let field = spec.fields().get(place)?;
            Some(Field::Of(field))
        }
    }
}

fn is_id(path: &Path) -> bool
    ensures { result ≡ is_path (parts_of (codes "_id")) path.now }
{
    let (first, rest) = path.split_first();
    rest.is_empty() && first.as_str() == "_id"
}

fn is_direction(descending: bool, direction: Direction) -> bool
    ensures { result ≡ is_direction descending direction }
{
    match direction {
        Direction::Ascending => !descending,
        Direction::Descending => descending,
    }
}

impl Field<'_> {
    /// Whether this is its path.
    fn has_path(self, path: &Path) -> bool
        ensures { result ≡ is_path (parts_of (field_of self.entry).path) path.now }
    {
        match self {
            Field::Id => is_id(path),
            Field::Of(field) => field.path().is_front_of(path) && path.is_front_of(field.path()),
        }
    }

    pub fn direction(self) -> Direction
        ensures { result ≡ (field_of self.entry).direction }
    {
        match self {
            Field::Id => Direction::Ascending,
            Field::Of(field) => field.direction(),
        }
    }

    /// Whether a sort's field is this one, path and direction.
    fn sorts_as(self, field: &SortField) -> bool
        ensures { result ≡ is_sorted_at (sort_field_of field.now) (field_of self.entry) }
    {
        self.has_path(&field.path) && is_direction(field.descending, self.direction())
    }

    fn usable_there<'b>(self, condition: &'b Condition) -> Usable<'b>
        ensures { usable_of result ≡ usable_there (parts_of (field_of self.entry).path)
            (condition_of condition.now) }
    {
        match condition {
            Condition::At(path, asked) if self.has_path(path) => all_usable(asked),
            _ => Usable::nothing(),
        }
    }

    /// What a filter asks of its path.
    fn usable<'b>(self, filter: &'b Filter) -> Usable<'b>
        ensures { usable_of result ≡ asked_of (field_of self.entry) filter.now }
    {
        let mut found = Usable::nothing();
        'conditions: for condition in filter.conditions() {
            found = found.or(&self.usable_there(condition));
        }
        found
    }
}

/// What a filter asks of the field at this place; nothing where there is none.
pub(crate) fn asked_at<'a>(
    filter: &'a Filter,
    index: Option<&IndexSpec>,
    place: usize,
) -> Usable<'a>
    ensures asked { usable_of result ≡ asked_next filter.now
        (drop place (fields_of (index_of index.entry))) }
    ensures few { length (fields_of (index_of index.entry)) ≤ 4 }
{
    match field_at(index, place) {
        Some(field) => field.usable(filter),
        None => Usable::nothing(),
    }
}

/// Whether a sort has exactly the paths and directions of an index.
pub(crate) fn sorts_as(sort: &Sort, index: Option<&IndexSpec>) -> bool
    ensures { result ≡ sorts_as sort.now (fields_of (index_of index.entry)) }
{
    let fields = sort.fields();
    'fields: for (place, sorted) in fields.iter().enumerate() {
        let Some(field) = field_at(index, place) else {
            return false;
        };
        if !field.sorts_as(sorted) {
            return false;
        }
    }
    field_at(index, fields.len()).is_none()
}
