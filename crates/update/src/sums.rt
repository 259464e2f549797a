//! Sums of numbers.

ghost use Rattle.std.specs.Prelude.{◌≡◌, ◌+ℤ◌, Ok};
ghost use Rattle.outcome.specs.Outcome.{Gives};
ghost use Rattle.update_model.specs.Numbers.{as_int64, sum};
ghost use Rattle.update_model.specs.Update.{int32};
ghost use Rattle.update.specs.View.{number_of};

use crate::numbers::Number;
use path::Refusal;

/// The sum of two int32: an int32 where it fits, else an int64.
pub(crate) fn sum_of_int32(a: i32, b: i32) -> Number
    ensures { sum (int32 a) (int32 b) ≡ Ok (number_of result) }
{
    let sum = i64::from(a) + i64::from(b);
    if -2_147_483_648 <= sum && sum <= 2_147_483_647 {
        Number::Int32(sum as i32)
    } else {
        Number::Int64(sum)
    }
}

/// The sum of two int64. `BadValue` where it doesn't fit.
pub(crate) fn sum_of_int64(a: i64, b: i64) -> Result<Number, Refusal>
    ensures { Gives Refusal.OutOfMemory number_of result (as_int64 (a +ℤ b)) }
{
    match a.checked_add(b) {
        Some(sum) => Ok(Number::Int64(sum)),
        None => Err(Refusal::BadValue),
    }
}
