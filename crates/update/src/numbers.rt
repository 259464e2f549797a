//! `$inc`.

ghost use Rattle.std.specs.Prelude.{◌≡◌, option_map};
ghost use Rattle.bson.specs.View.{tree};
ghost use Rattle.outcome.specs.Outcome.{Gives};
ghost use Rattle.update_model.specs.Numbers.{number_in, number_tree, sum};

use crate::sums::{sum_of_int32, sum_of_int64};
use bson::Value;
use path::{NewValue, Refusal};

/// An int32 or an int64.
#[derive(Clone, Copy, Drop)]
pub(crate) enum Number {
    Int32(i32),
    Int64(i64),
}

impl Number {
    ghost use Rattle.update.specs.View.{number_of};

    /// The number that a value is.
    pub fn read(value: &Value) -> Result<Number, Refusal>
        ensures { Gives Refusal.OutOfMemory number_of result (number_in (tree value.now)) }
    {
        match value {
            Value::Int32(number) => Ok(Number::Int32(*number)),
            Value::Int64(number) => Ok(Number::Int64(*number)),
            _ => Err(Refusal::TypeMismatch),
        }
    }

    fn value(self) -> Value
        ensures { tree result ≡ number_tree (number_of self) }
    {
        match self {
            Number::Int32(number) => Value::Int32(number),
            Number::Int64(number) => Value::Int64(number),
        }
    }

    /// The sum: of two int32 an int32 where it fits, else an int64. `BadValue` past int64.
    fn plus(self, by: Number) -> Result<Number, Refusal>
        ensures { Gives Refusal.OutOfMemory number_of result (sum (number_of self) (number_of by)) }
    {
        match (self, by) {
            (Number::Int32(a), Number::Int32(b)) => Ok(sum_of_int32(a, b)),
            (Number::Int32(a), Number::Int64(b)) => sum_of_int64(i64::from(a), b),
            (Number::Int64(a), Number::Int32(b)) => sum_of_int64(a, i64::from(b)),
            (Number::Int64(a), Number::Int64(b)) => sum_of_int64(a, b),
        }
    }
}

/// What `$inc` makes of what stands at its path.
#[derive(Clone, Copy, Drop)]
pub(crate) struct Incremented {
    pub by: Number,
}

impl NewValue for Incremented {
    ghost use Rattle.update_model.specs.Numbers.{incremented};
    ghost use Rattle.update.specs.View.{number_of};

    ghost made = { λ a old. incremented (number_of a.by) old };

    fn make(self, old: Option<Value>) -> Result<Value, Refusal> {
        match old {
            None => Ok(self.by.value()),
            Some(value) => {
                let number = Number::read(&value)?;
                let sum = number.plus(self.by)?;
                Ok(sum.value())
            }
        }
    }
}
