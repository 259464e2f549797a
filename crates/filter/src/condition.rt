//! Filters as they were read.

ghost use Rattle.std.specs.Prelude.{◌≡◌};
ghost use Rattle.filter.specs.Matches.{allows};

use crate::value_set::ValueSet;
use bson::{Kind, Value};
use path::Path;
use std::alloc::Global;
use std::cmp::Ordering;
use std::marker::Model;

/// How a value is to lie by another of its class.
#[derive(Clone, Copy, Debug, PartialEq, Eq)]
pub enum Comparison {
    Below,
    AtMost,
    Above,
    AtLeast,
}

impl Comparison {
    /// Whether it holds of two values that lie so.
    pub(crate) fn allows(self, order: Ordering) -> bool
        ensures { result ≡ allows self order }
    {
        match (self, order) {
            (Comparison::Below | Comparison::AtMost, Ordering::Less) => true,
            (Comparison::AtMost | Comparison::AtLeast, Ordering::Equal) => true,
            (Comparison::Above | Comparison::AtLeast, Ordering::Greater) => true,
            _ => false,
        }
    }
}

/// What is asked of a value that was reached, and of its elements where it is an array.
#[derive(Debug, Drop)]
pub enum Predicate {
    /// One of them is equal to this by the order of values; null is equal to what is missing too.
    Equal(Value),
    /// One of them is of this value's class and lies so by it.
    Ordered(Comparison, Value),
    /// A value is there.
    There,
    /// One of them is of these kinds.
    OfKinds(Vec<Kind>),
    /// The value is an array of so many elements.
    Size(usize),
}

/// One thing that is asked.
#[cycle(conditions)]
#[derive(Debug, Drop)]
pub enum Condition {
    /// All of these hold.
    All(Filter),
    /// One of these holds.
    Any(Filter),
    /// Not all of these hold.
    NotAll(Filter),
    /// None of these holds.
    NotAny(Filter),
    /// These hold of what the path reaches in the document.
    At(Path, Filter),
    /// Something that was reached passes the predicate.
    Is(Predicate),
    /// An array was reached with one element of which these hold, as it stands.
    Element(Filter),
    /// An array was reached with one element that is a document of which these hold.
    ElementDocument(Filter),
}

/// Conditions that all have to hold.
#[cycle(conditions)]
#[derive(Debug)]
pub struct Filter {
    pub(crate) conditions: Vec<Condition>,
    // the values of which one is asked for, where that is what they ask
    pub(crate) values: Option<ValueSet>,
}

// (written out, so that no crate above proves again that its parts are let go)
impl Drop for Filter {
    #[cycle(dropping)]
    fn drop(self) {
        let Filter {
            conditions: _,
            values: _,
        } = self;
    }
}

impl Model for Filter {
    ghost use Rattle.filter.specs.Condition.{Conditions, weights};

    ghost Value = { Conditions };

    ghost use Rattle.filter.specs.ConditionCode.{coded_conditions};

    ghost coded = { coded_conditions };

    ghost use Rattle.filter.specs.View.{conditions_of};

    ghost view = { λ a. conditions_of a.conditions.items };

    ghost use Rattle.filter.specs.Among.{AsksOneOf};

    ghost invariant = { λ a. AsksOneOf a.values (conditions_of a.conditions.items) };

    ghost size = { weights };

    ghost use Rattle.filter.specs.Sizes.{most_le-weights};

    ghost size_decreases = { λ a h. most_le-weights a.conditions.items };
}

impl Filter {
    ghost use Rattle.filter.specs.Condition.{no_conditions};
    ghost use Rattle.filter.specs.View.{conditions_of};

    /// The filter without conditions, which holds of every document.
    pub fn new(alloc: Global) -> Filter
        ensures { result ≡ no_conditions }
    {
        Filter {
            conditions: Vec::new(alloc),
            values: None,
        }
    }

    /// The conditions, in the order written.
    pub fn conditions(&self) -> &[Condition]
        ensures { conditions_of result.now ≡ self.now }
    {
        &self.conditions
    }

    /// The conditions themselves.
    pub(crate) fn into_conditions(self) -> Vec<Condition>
        ensures { conditions_of result.items ≡ self }
    {
        let Filter {
            conditions,
            values: _,
        } = self;
        conditions
    }
}
