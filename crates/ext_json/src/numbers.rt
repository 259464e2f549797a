//! Whole numbers in decimal.

ghost use Rattle.std.specs.Prelude.{◌≡◌, IfOk};
ghost use Rattle.std.specs.List.{list_all};
ghost use Rattle.std.specs.Char.{is_ascii_digit};
ghost use Rattle.bson.specs.View.{tree};
ghost use Rattle.bson.specs.Lawful.{levels};
ghost use Rattle.outcome.specs.Outcome.{GivesExactly};
ghost use Rattle.ext_json.specs.Numbers as spec;
ghost use Rattle.ext_json.specs.Numbers.{int32_in, int64_in, half_in, number_tree};
ghost use Rattle.ext_json.specs.Written as written;

use crate::fault::ExtJsonFault;
use bson::Value;

fn all_digits(bytes: &[u8]) -> bool
    ensures { result ≡ list_all is_ascii_digit bytes.now }
{
    bytes.iter().all(|byte| byte.is_ascii_digit())
}

/// Whether these are digits, one or more.
fn are_digits(bytes: &[u8]) -> bool
    ensures { result ≡ spec.are_digits bytes.now }
{
    !bytes.is_empty() && all_digits(bytes)
}

/// Whether the text is a whole number: digits, and a minus before them or none.
#[tactic(auto, unfolding(crate::specs::Numbers::is_whole))]
fn is_whole(text: &str) -> bool
    ensures { result ≡ spec.is_whole text.now }
{
    match text.as_bytes() {
        [b'-', digits @ ..] => are_digits(digits),
        digits => are_digits(digits),
    }
}

/// The whole number in eight bytes that a text is.
#[tactic(auto, unfolding(crate::specs::Numbers::int64_in))]
pub(crate) fn read_int64(text: &str, fault: ExtJsonFault) -> Result<i64, ExtJsonFault>
    ensures { GivesExactly (λ z. z) result (int64_in fault text.now) }
{
    if !is_whole(text) {
        return Err(fault);
    }
    match text.parse::<i64>() {
        Ok(number) => Ok(number),
        Err(_) => Err(ExtJsonFault::Range),
    }
}

/// The whole number in four bytes that a text is.
#[tactic(auto, unfolding(crate::specs::Numbers::int32_in))]
pub(crate) fn read_int32(text: &str) -> Result<i32, ExtJsonFault>
    ensures { GivesExactly (λ z. z) result (int32_in text.now) }
{
    if !is_whole(text) {
        return Err(ExtJsonFault::Wrapper);
    }
    match text.parse::<i32>() {
        Ok(number) => Ok(number),
        Err(_) => Err(ExtJsonFault::Range),
    }
}

/// The half of a timestamp that a text is.
#[tactic(auto, unfolding(crate::specs::Numbers::half_in))]
pub(crate) fn read_half(text: &str) -> Result<u32, ExtJsonFault>
    ensures { GivesExactly (λ n. n) result (half_in text.now) }
{
    if !are_digits(text.as_bytes()) {
        return Err(ExtJsonFault::Wrapper);
    }
    match text.parse::<u32>() {
        Ok(number) => Ok(number),
        Err(_) => Err(ExtJsonFault::Range),
    }
}

/// The value of a plain number: an int32 where it fits, else an int64.
#[tactic(auto, unfolding(crate::specs::Numbers::number_tree))]
pub(crate) fn read_number(text: &str) -> Result<Value, ExtJsonFault>
    ensures gives { GivesExactly tree result (number_tree text.now) }
    ensures flat { IfOk result (λ v. levels (tree v) ≡ 0) }
{
    let number = read_int64(text, ExtJsonFault::Fraction)?;
    if is_int32(number) {
        Ok(Value::Int32(number as i32))
    } else {
        Ok(Value::Int64(number))
    }
}

/// Whether the number fits an int32.
pub(crate) fn is_int32(number: i64) -> bool
    ensures { result ≡ written.is_int32 number }
{
    -2_147_483_648 <= number && number <= 2_147_483_647
}
