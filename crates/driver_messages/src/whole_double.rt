//! Doubles that are integers.

ghost use Rattle.std.specs.Prelude.{◌≡◌, ◌<◌, ◌^◌, IfSome};
ghost use Rattle.driver_messages.specs.WholeDouble.{normal_size, size, signed, integer_of, integer_at};

/// The parts of a significand that make one, of which a normal number has one beside them.
const ONE: u64 = 0x0010_0000_0000_0000;

/// The sign alone.
const SIGN: u64 = 0x8000_0000_0000_0000;

/// The normal number with this exponent and this significand, up to its sign, where it is an integer below 2^63.
#[tactic(auto, unfolding(crate::specs::WholeDouble::normal_size), using(crate::proofs::WholeDoubleLemmas::size_below))]
fn normal_size(exponent: u64, significand: u64) -> Option<u64>
    requires { significand < 2 ^ 52 }
    ensures value { result ≡ normal_size exponent significand }
    ensures fits { IfSome result (λ n. n < 2 ^ 63) }
{
    if exponent < 1023 || 1086 <= exponent {
        return None;
    }
    let parts = u128::from(ONE + significand) * 2u128.pow((exponent - 1023) as u32);
    if parts % u128::from(ONE) != 0 {
        return None;
    }
    Some((parts / u128::from(ONE)) as u64)
}

/// The number of these bits, up to its sign, where it is an integer below 2^63.
fn size(bits: u64) -> Option<u64>
    ensures value { result ≡ size bits }
    ensures fits { IfSome result (λ n. n < 2 ^ 63) }
{
    if bits % SIGN == 0 {
        return Some(0);
    }
    normal_size(bits / ONE % 2048, bits % ONE)
}

fn signed(negative: bool, size: u64) -> i64
    requires { size < 2 ^ 63 }
    ensures { result ≡ signed negative size }
{
    let number = size as i64;
    if negative {
        return -number;
    }
    number
}

/// The integer that the double of these bits is, where it is one that is below 2^63 up to its sign.
#[tactic(auto, unfolding(crate::specs::WholeDouble::integer_of))]
fn integer_of(bits: u64) -> Option<i64>
    ensures { result ≡ integer_of bits }
{
    let size = size(bits)?;
    Some(signed(SIGN <= bits, size))
}

/// The integer that the double is at the front of these bytes.
pub(crate) fn integer_at(bytes: &[u8]) -> Option<i64>
    ensures { result ≡ integer_at bytes.now }
{
    let eight = bytes.first_chunk::<8>()?;
    integer_of(u64::from_le_bytes(*eight))
}
