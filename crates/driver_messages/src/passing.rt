//! Values of a document passed over, one after the other.

ghost use Rattle.std.specs.Prelude.{◌≡◌, IfOk};
ghost use Rattle.driver_messages.specs.PassingView.{passed_of};
ghost use Rattle.driver_messages.specs.WithIntegers.{over_known, over_double, over_value, passed};

use crate::place::Place;
use crate::seeking::{kind_of, value_len};
use crate::whole_double::integer_at;
use bson::{Kind, NoMemory};
use bson_bytes::read_name;

/// What stands at the front of what is left of a document.
#[derive(Clone, Copy)]
pub(crate) enum Passed<'a> {
    /// So many bytes, which stay as they are.
    Kept(usize),
    /// A double that is put as this integer, with its name.
    Integer(&'a str, i64),
    /// Nothing that can be passed over.
    Ended,
}

/// Into a document or an array, or over any other value of this kind.
fn over_known<'a>(
    place: &mut Place<'a>,
    kind: Kind,
    name: &'a str,
    bytes: &[u8],
) -> Result<Passed<'a>, NoMemory>
    ensures { IfOk result (λ p. passed_of p place.new
        ≡ over_known kind place.old name.now bytes.now) }
{
    if kind == Kind::Document || kind == Kind::Array {
        place.enter(name)?;
        return Ok(Passed::Kept(name.len() + 6));
    }
    Ok(Passed::Kept(name.len() + 2 + value_len(kind, bytes)))
}

/// Over a double, if it is to be put as an integer.
fn over_double<'a>(place: &Place<'a>, name: &'a str, bytes: &[u8]) -> Passed<'a>
    ensures { passed_of result place.now ≡ over_double place.now name.now bytes.now }
{
    if !place.has_own_number(name) {
        return Passed::Ended;
    }
    match integer_at(bytes) {
        Some(number) => Passed::Integer(name, number),
        None => Passed::Ended,
    }
}

/// Into a value under this type byte, or over it.
fn over_value<'a>(
    place: &mut Place<'a>,
    type_byte: u8,
    name: &'a str,
    bytes: &[u8],
) -> Result<Passed<'a>, NoMemory>
    ensures { IfOk result (λ p. passed_of p place.new
        ≡ over_value type_byte place.old name.now bytes.now) }
{
    if type_byte == 0x01 {
        return Ok(over_double(place, name, bytes));
    }
    match kind_of(type_byte) {
        Some(kind) => over_known(place, kind, name, bytes),
        None => Ok(Passed::Ended),
    }
}

/// One step to the right.
#[tactic(auto, unfolding(crate::specs::WithIntegers::passed))]
pub(crate) fn pass<'a>(place: &mut Place<'a>, bytes: &'a [u8]) -> Result<Passed<'a>, NoMemory>
    ensures { IfOk result (λ p. passed_of p place.new ≡ passed place.old bytes.now) }
{
    let Some((type_byte, after)) = bytes.split_first() else {
        return Ok(Passed::Ended);
    };
    if *type_byte == 0 {
        place.leave();
        return Ok(Passed::Kept(1));
    }
    match read_name(after) {
        Ok((name, value)) => over_value(place, *type_byte, name, value),
        Err(_) => Ok(Passed::Ended),
    }
}
