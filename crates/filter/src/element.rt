//! What is asked of one element of an array apart from the others.

ghost use Rattle.std.specs.Prelude.{◌≡◌};
ghost use Rattle.bson.specs.View.{tree};
ghost use Rattle.outcome.specs.Outcome.{Gives};
ghost use Rattle.filter.specs.Elements.{read_element_condition, element_matches};
ghost use Rattle.filter.specs.View.{condition_of};

use crate::condition::Condition;
use crate::matching::{all_hold_alone, all_hold_of_document};
use crate::operands::{equal, just};
use crate::parsing::read_element;
use bson::Value;
use path::Refusal;
use std::alloc::Global;

impl Condition {
    /// What an element is asked by an operator document, which looks at it as it stands, by another document, a filter
    /// that looks at elements that are documents, or by another value, to be equal to it.
    pub fn read_element(alloc: Global, value: &Value) -> Result<Condition, Refusal>
        ensures { Gives Refusal.OutOfMemory condition_of result
            (read_element_condition (tree value.now)) }
    {
        match value {
            Value::Document(_) => read_element(alloc, value),
            _ => Ok(Condition::Element(just(alloc, equal(value)?)?)),
        }
    }

    /// Whether one element is what it looks for in an array. What looks for no element matches none.
    pub fn matches_element(&self, value: &Value) -> bool
        ensures { result ≡ element_matches (condition_of self.now) (tree value.now) }
    {
        match self {
            Condition::Element(filter) => all_hold_alone(filter, value),
            Condition::ElementDocument(filter) => all_hold_of_document(filter, value),
            _ => false,
        }
    }
}
