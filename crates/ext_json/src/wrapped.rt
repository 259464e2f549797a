//! What stands in a wrapper.

ghost use Rattle.std.specs.Prelude.{◌≡◌, IfOk};
ghost use Rattle.bson.specs.View.{tree};
ghost use Rattle.bson.specs.Lawful.{levels};
ghost use Rattle.json.specs.Reads.{token_of};
ghost use Rattle.outcome.specs.Outcome.{Gives, GivesExactly};
ghost use Rattle.ext_json.specs.Wrapped.{two_at, date_at, binary_at, timestamp_at, one_at, content_at, wrapped_at, member_at, long_at};
ghost use Rattle.ext_json.specs.declared.wrapper.Wrapper.TheVariants as wrappers;
ghost use Rattle.ext_json.specs.declared.fault.ExtJsonFault.TheVariants as faults;

use crate::encoded::{read_binary, read_object_id, read_uuid};
use crate::fault::ExtJsonFault;
use crate::moments::read_date;
use crate::numbers::{read_half, read_int32, read_int64};
use crate::tokens::{Tokens, number_of, text_of, unfit};
use crate::wrapper::Wrapper;
use bson::{Binary, Value};
use json::Token;
use std::alloc::Global;

/// A name and the value behind it.
fn take_member<'a>(tokens: &mut Tokens<'a>) -> Result<(&'a str, Token<'a>), ExtJsonFault>
    ensures { GivesExactly (λ m. ((m.0.now, token_of m.1), tokens.new)) result
        (member_at tokens.old) }
{
    let name = tokens.name()?;
    Ok((name, tokens.next()))
}

/// The values of two members of an object, in whatever order they stand.
#[tactic(auto, unfolding(crate::specs::Wrapped::two_at))]
fn take_two<'a>(
    tokens: &mut Tokens<'a>,
    first: &str,
    second: &str,
) -> Result<(Token<'a>, Token<'a>), ExtJsonFault>
    ensures { GivesExactly (λ x. ((token_of x.0, token_of x.1), tokens.new)) result
        (two_at first.now second.now tokens.old) }
{
    tokens.open()?;
    let (name, value) = take_member(tokens)?;
    let (other_name, other_value) = take_member(tokens)?;
    tokens.end()?;
    if name == first && other_name == second {
        return Ok((value, other_value));
    }
    if name == second && other_name == first {
        return Ok((other_value, value));
    }
    Err(ExtJsonFault::Wrapper)
}

/// A whole number in eight bytes, as a text.
fn take_long(tokens: &mut Tokens<'_>) -> Result<i64, ExtJsonFault>
    ensures { GivesExactly (λ z. (z, tokens.new)) result (long_at tokens.old) }
{
    let text = tokens.text()?;
    read_int64(text, ExtJsonFault::Wrapper)
}

/// A date: a text of ISO 8601, or an object that holds its milliseconds.
#[tactic(auto, unfolding(crate::specs::Wrapped::date_at))]
fn take_date(tokens: &mut Tokens<'_>) -> Result<i64, ExtJsonFault>
    ensures { GivesExactly (λ z. (z, tokens.new)) result (date_at tokens.old) }
{
    match tokens.next() {
        Token::String(text) => read_date(text),
        Token::BeginObject => {
            if tokens.name()? != "$numberLong" {
                return Err(ExtJsonFault::Wrapper);
            }
            let millis = take_long(tokens)?;
            tokens.end()?;
            Ok(millis)
        }
        token => Err(unfit(token)),
    }
}

/// A binary: an object of its bytes and its subtype.
#[tactic(auto, unfolding(crate::specs::Wrapped::binary_at))]
fn take_binary(alloc: Global, tokens: &mut Tokens<'_>) -> Result<Binary, ExtJsonFault>
    ensures { Gives faults.Memory (λ b. ((b.subtype, b.bytes), tokens.new)) result
        (binary_at tokens.old) }
{
    let (bytes, subtype) = take_two(tokens, "base64", "subType")?;
    read_binary(alloc, text_of(bytes)?, text_of(subtype)?)
}

/// A timestamp: an object of its seconds and its count.
#[tactic(auto, unfolding(crate::specs::Wrapped::timestamp_at))]
fn take_timestamp(tokens: &mut Tokens<'_>) -> Result<u64, ExtJsonFault>
    ensures { GivesExactly (λ n. (n, tokens.new)) result (timestamp_at tokens.old) }
{
    let (seconds, count) = take_two(tokens, "t", "i")?;
    let seconds = read_half(number_of(seconds)?)?;
    let count = read_half(number_of(count)?)?;
    Ok(u64::from(seconds) * 0x1_0000_0000 + u64::from(count))
}

/// The number 1.
#[tactic(auto, unfolding(crate::specs::Wrapped::one_at))]
fn take_one(tokens: &mut Tokens<'_>) -> Result<(), ExtJsonFault>
    ensures { GivesExactly (λ _. tokens.new) result (one_at tokens.old) }
{
    if number_of(tokens.next())? == "1" {
        Ok(())
    } else {
        Err(ExtJsonFault::Wrapper)
    }
}

/// A whole number in four bytes, as a text.
#[tactic(auto, unfolding(crate::specs::Wrapped::content_at))]
fn take_int32(tokens: &mut Tokens<'_>) -> Result<Value, ExtJsonFault>
    ensures { GivesExactly (λ v. (tree v, tokens.new)) result
        (content_at wrappers.NumberInt tokens.old) }
{
    Ok(Value::Int32(read_int32(tokens.text()?)?))
}

/// An ObjectId, as a text of hexadecimal digits.
#[tactic(auto, unfolding(crate::specs::Wrapped::content_at))]
fn take_object_id(tokens: &mut Tokens<'_>) -> Result<Value, ExtJsonFault>
    ensures { GivesExactly (λ v. (tree v, tokens.new)) result
        (content_at wrappers.ObjectId tokens.old) }
{
    Ok(Value::ObjectId(read_object_id(tokens.text()?)?))
}

/// A UUID, as a text of hexadecimal digits in groups.
#[tactic(auto, unfolding(crate::specs::Wrapped::content_at))]
fn take_uuid(alloc: Global, tokens: &mut Tokens<'_>) -> Result<Value, ExtJsonFault>
    ensures { Gives faults.Memory (λ v. (tree v, tokens.new)) result
        (content_at wrappers.Uuid tokens.old) }
{
    Ok(Value::Binary(read_uuid(alloc, tokens.text()?)?))
}

/// The least key of all, which the number 1 stands for.
#[tactic(auto, unfolding(crate::specs::Wrapped::content_at))]
fn take_min_key(tokens: &mut Tokens<'_>) -> Result<Value, ExtJsonFault>
    ensures { GivesExactly (λ v. (tree v, tokens.new)) result
        (content_at wrappers.MinKey tokens.old) }
{
    take_one(tokens)?;
    Ok(Value::MinKey)
}

/// The greatest key of all, which the number 1 stands for.
#[tactic(auto, unfolding(crate::specs::Wrapped::content_at))]
fn take_max_key(tokens: &mut Tokens<'_>) -> Result<Value, ExtJsonFault>
    ensures { GivesExactly (λ v. (tree v, tokens.new)) result
        (content_at wrappers.MaxKey tokens.old) }
{
    take_one(tokens)?;
    Ok(Value::MaxKey)
}

/// What stands in a wrapper, up to its end.
#[tactic(auto, unfolding(crate::specs::Wrapped::content_at))]
fn take_content(
    alloc: Global,
    tokens: &mut Tokens<'_>,
    wrapper: Wrapper,
) -> Result<Value, ExtJsonFault>
    ensures gives { Gives faults.Memory (λ v. (tree v, tokens.new)) result
        (content_at wrapper tokens.old) }
    ensures flat { IfOk result (λ v. levels (tree v) ≡ 0) }
{
    match wrapper {
        Wrapper::NumberInt => take_int32(tokens),
        Wrapper::NumberLong => Ok(Value::Int64(take_long(tokens)?)),
        Wrapper::ObjectId => take_object_id(tokens),
        Wrapper::Date => Ok(Value::Date(take_date(tokens)?)),
        Wrapper::Binary => Ok(Value::Binary(take_binary(alloc, tokens)?)),
        Wrapper::Uuid => take_uuid(alloc, tokens),
        Wrapper::Timestamp => Ok(Value::Timestamp(take_timestamp(tokens)?)),
        Wrapper::MinKey => take_min_key(tokens),
        Wrapper::MaxKey => take_max_key(tokens),
        Wrapper::Unsupported => Err(ExtJsonFault::Unsupported),
    }
}

/// The value of a wrapper, behind its name.
#[tactic(auto, unfolding(crate::specs::Wrapped::wrapped_at))]
pub(crate) fn take_wrapped(
    alloc: Global,
    tokens: &mut Tokens<'_>,
    wrapper: Wrapper,
) -> Result<Value, ExtJsonFault>
    ensures gives { Gives faults.Memory (λ v. (tree v, tokens.new)) result
        (wrapped_at wrapper tokens.old) }
    ensures flat { IfOk result (λ v. levels (tree v) ≡ 0) }
{
    let value = take_content(alloc, tokens, wrapper)?;
    tokens.end()?;
    Ok(value)
}
