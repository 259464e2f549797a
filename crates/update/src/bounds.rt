//! `$min` and `$max`.

use bson::Value;
use path::{NewValue, Refusal};
use std::cmp::Ordering;
use value_order::compare;

/// What `$min` makes of what stands at its path.
#[derive(Clone, Copy, Drop)]
pub(crate) struct Lowered<'a> {
    pub operand: &'a Value,
}

impl NewValue for Lowered<'_> {
    ghost use Rattle.update_model.specs.Bounds.{lowered};
    ghost use Rattle.bson.specs.View.{tree};

    ghost made = { λ a old. lowered (tree a.operand.now) old };

    fn make(self, old: Option<Value>) -> Result<Value, Refusal> {
        match old {
            None => Ok(self.operand.copy()?),
            Some(value) => match compare(self.operand, &value) {
                Ordering::Less => Ok(self.operand.copy()?),
                Ordering::Equal | Ordering::Greater => Ok(value),
            },
        }
    }
}

/// What `$max` makes of what stands at its path.
#[derive(Clone, Copy, Drop)]
pub(crate) struct Raised<'a> {
    pub operand: &'a Value,
}

impl NewValue for Raised<'_> {
    ghost use Rattle.update_model.specs.Bounds.{raised};
    ghost use Rattle.bson.specs.View.{tree};

    ghost made = { λ a old. raised (tree a.operand.now) old };

    fn make(self, old: Option<Value>) -> Result<Value, Refusal> {
        match old {
            None => Ok(self.operand.copy()?),
            Some(value) => match compare(&value, self.operand) {
                Ordering::Less => Ok(self.operand.copy()?),
                Ordering::Equal | Ordering::Greater => Ok(value),
            },
        }
    }
}
