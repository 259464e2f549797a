//! Totals as values.

ghost use Rattle.std.specs.Prelude.{◌≡◌};
ghost use Rattle.bson.specs.View.{tree};
ghost use Rattle.outcome.specs.Outcome.{Gives};
ghost use Rattle.aggregate_model.specs.Numbers.{fits_int32, fits_int64, total_value};

use bson::Value;
use path::Refusal;

fn fits_int32(total: i128) -> bool
    ensures { result ≡ fits_int32 total }
{
    -2_147_483_648 <= total && total <= 2_147_483_647
}

fn fits_int64(total: i128) -> bool
    ensures { result ≡ fits_int64 total }
{
    -9_223_372_036_854_775_808 <= total && total <= 9_223_372_036_854_775_807
}

/// A total as an int32, where that is asked for and it fits, else as an int64. `BadValue` past int64.
pub(crate) fn total_value(narrow: bool, total: i128) -> Result<Value, Refusal>
    ensures { Gives Refusal.OutOfMemory tree result (total_value narrow total) }
{
    if narrow && fits_int32(total) {
        return Ok(Value::Int32(total as i32));
    }
    if fits_int64(total) {
        return Ok(Value::Int64(total as i64));
    }
    Err(Refusal::BadValue)
}
