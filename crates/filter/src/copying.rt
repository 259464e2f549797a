//! Filters of their own that are equal to others.

ghost use Rattle.std.specs.Prelude.{◌≡◌, IfOk};
ghost use Rattle.filter.specs.View.{predicate_of, condition_of};

use crate::condition::{Condition, Filter, Predicate};
use bson::{Kind, NoMemory};

impl Predicate {
    /// An equal predicate of its own.
    pub fn copy(&self) -> Result<Predicate, NoMemory>
        ensures { IfOk result (λ t. predicate_of t ≡ predicate_of self.now) }
    {
        match self {
            Predicate::Equal(value) => Ok(Predicate::Equal(value.copy()?)),
            Predicate::Ordered(comparison, value) => Ok(Predicate::Ordered(
                *comparison,
                value.copy()?,
            )),
            Predicate::There => Ok(Predicate::There),
            Predicate::OfKinds(kinds) => Ok(Predicate::OfKinds(copy_kinds(kinds)?)),
            Predicate::Size(size) => Ok(Predicate::Size(*size)),
        }
    }
}

fn copy_kinds(kinds: &Vec<Kind>) -> Result<Vec<Kind>, NoMemory>
    ensures { IfOk result (λ v. v.items ≡ kinds.now.items) }
{
    Vec::from_slice(*kinds.allocator(), kinds)
}

impl Condition {
    /// An equal condition of its own.
    #[cycle(copies)]
    pub fn copy(&self) -> Result<Condition, NoMemory>
        ensures { IfOk result (λ r. condition_of r ≡ condition_of self.now) }
    {
        match self {
            Condition::All(filter) => Ok(Condition::All(filter.copy()?)),
            Condition::Any(filter) => Ok(Condition::Any(filter.copy()?)),
            Condition::NotAll(filter) => Ok(Condition::NotAll(filter.copy()?)),
            Condition::NotAny(filter) => Ok(Condition::NotAny(filter.copy()?)),
            Condition::At(path, filter) => Ok(Condition::At(path.copy()?, filter.copy()?)),
            Condition::Is(predicate) => Ok(Condition::Is(predicate.copy()?)),
            Condition::Element(filter) => Ok(Condition::Element(filter.copy()?)),
            Condition::ElementDocument(filter) => Ok(Condition::ElementDocument(filter.copy()?)),
        }
    }
}

impl Filter {
    /// An equal filter of its own.
    #[cycle(copies)]
    pub fn copy(&self) -> Result<Filter, NoMemory>
        ensures { IfOk result (λ f. f ≡ self.now) }
    {
        let mut conditions = Vec::with_capacity(
            *self.conditions.allocator(),
            self.conditions.len(),
        )?;
        'conditions: for condition in &self.conditions {
            conditions.push(condition.copy()?)?;
        }
        let values = match &self.values {
            Some(values) => Some(values.copy()?),
            None => None,
        };
        Ok(Filter { conditions, values })
    }
}
