//! Sorts: which fields documents are ordered by, and in which direction.

ghost use Rattle.std.specs.Prelude.{◌≡◌, ◌==◌, [], IfOk, length};
ghost use Rattle.bson.specs.View.{tree};
ghost use Rattle.outcome.specs.Outcome.{Gives};
ghost use Rattle.sort.specs.SortReading.{direction_of, direction_in, read_field, read_sort};

use bson::{Document, NoMemory, Value};
use filter::path_in;
use path::{Path, Refusal};
use std::alloc::Global;
use std::marker::Model;

/// The most fields of a sort.
const MOST_FIELDS: usize = 32;

/// A path, and whether the greatest value there comes first.
#[derive(Debug, Drop)]
pub struct Field {
    pub path: Path,
    pub descending: bool,
}

/// The fields that documents are ordered by, the first one first.
#[derive(Debug)]
pub struct Sort {
    pub(crate) fields: Vec<Field>,
}

// (written out, so that no crate above proves again that its parts are let go)
impl Drop for Sort {
    fn drop(self) {
        let Sort { fields: _ } = self;
    }
}

impl Model for Sort {
    ghost use Rattle.std.specs.Prelude.{List, map};
    ghost use Rattle.sort.specs.Sort.{SortField};
    ghost use Rattle.sort.specs.SortKeys.{field_of};

    ghost Value = { List SortField };

    ghost view = { λ a. map field_of a.fields.items };
}

fn direction_of(number: i64) -> Result<bool, Refusal>
    ensures { Gives Refusal.OutOfMemory (λ b. b) result (direction_of number) }
{
    if number == 1 {
        return Ok(false);
    }
    if number == -1 {
        return Ok(true);
    }
    Err(Refusal::BadValue)
}

/// Whether a field is descending: -1, and not 1.
fn direction_in(value: &Value) -> Result<bool, Refusal>
    ensures { Gives Refusal.OutOfMemory (λ b. b) result (direction_in (tree value.now)) }
{
    match value {
        Value::Int32(number) => direction_of(i64::from(*number)),
        Value::Int64(number) => direction_of(*number),
        _ => Err(Refusal::TypeMismatch),
    }
}

impl Field {
    ghost use Rattle.sort.specs.SortKeys.{field_of};

    fn read(alloc: Global, name: &str, value: &Value) -> Result<Field, Refusal>
        ensures { Gives Refusal.OutOfMemory field_of result (read_field name.now (tree value.now)) }
    {
        let path = path_in(alloc, name)?;
        let descending = direction_in(value)?;
        Ok(Field { path, descending })
    }

    fn copy(&self) -> Result<Field, NoMemory>
        ensures { IfOk result (λ f. field_of f ≡ field_of self.now) }
    {
        Ok(Field {
            path: self.path.copy()?,
            descending: self.descending,
        })
    }
}

impl Sort {
    ghost use Rattle.std.specs.Prelude.{map};
    ghost use Rattle.sort.specs.SortKeys.{field_of};

    /// The sort without fields, which leaves documents in the order given.
    pub fn new(alloc: Global) -> Sort
        ensures { result ≡ [] }
    {
        Sort {
            fields: Vec::new(alloc),
        }
    }

    /// The sort that a document spells, or the first misuse from the left. It has 32 fields at most, and nothing of
    /// one more is looked at.
    pub fn read(alloc: Global, document: &Document) -> Result<Sort, Refusal>
        ensures { Gives Refusal.OutOfMemory (λ s. s) result (read_sort document.now) }
    {
        let mut fields = Vec::new(alloc);
        'pairs: for pair in document.pairs() {
            if fields.len() == MOST_FIELDS {
                return Err(Refusal::BadValue);
            }
            let field = Field::read(alloc, pair.name.as_str(), &pair.value)?;
            fields.push(field)?;
        }
        Ok(Sort { fields })
    }

    /// An equal sort of its own.
    pub fn copy(&self) -> Result<Sort, NoMemory>
        ensures { IfOk result (λ s. s ≡ self.now) }
    {
        let mut fields = Vec::with_capacity(*self.fields.allocator(), self.fields.len())?;
        'fields: for field in &self.fields {
            fields.push(field.copy()?)?;
        }
        Ok(Sort { fields })
    }

    /// Its fields, the first one first.
    pub fn fields(&self) -> &[Field]
        ensures { map field_of result.now ≡ self.now }
    {
        &self.fields
    }

    /// Whether it has no field, so that documents stay in the order given.
    pub fn is_empty(&self) -> bool
        ensures { result ≡ (length self.now == 0) }
    {
        self.fields.is_empty()
    }
}
