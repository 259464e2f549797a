//! The order of keys: byte by byte, and a key before the longer ones that it begins.
#![tactic(auto)]

ghost use Rattle.std.specs.Prelude.{◌≡◌, ◌++◌, IfSome, MatchOption, length, ◌<◌, ◌^◌};
ghost use Rattle.std.specs.Cmp.Lexicographic.{slice_cmp};
ghost use Rattle.std.specs.Int.{w64, to_be_bytes};
ghost use Rattle.std.specs.Ordering.{nat_cmp};

use std::cmp::Ordering;

/// The first eight bytes as a number, the first byte the highest, and the bytes behind them.
fn split_eight(bytes: &[u8]) -> Option<(u64, &[u8])>
    ensures parts { IfSome result (λ x. bytes.now ≡ to_be_bytes w64 x.0 ++ x.1.now) }
    ensures fits { IfSome result (λ x. x.0 < 2 ^ 64) }
    ensures shorter { IfSome result (λ x. length x.1.now < length bytes.now) }
{
    let (front, rest) = bytes.split_first_chunk::<8>()?;
    Some((u64::from_be_bytes(*front), rest))
}

/// How one key lies by another, compared byte by byte.
fn compare_bytes(one: &[u8], other: &[u8]) -> Ordering
    ensures { result ≡ slice_cmp nat_cmp one.now other.now }
{
    let mut left = one;
    let mut right = other;
    'bytes: while let Some((byte, after)) = left.split_first() {
        let Some((second, behind)) = right.split_first() else {
            return Ordering::Greater;
        };
        if *byte != *second {
            return byte.cmp(second);
        }
        left = after;
        right = behind;
    }
    if right.is_empty() {
        Ordering::Equal
    } else {
        Ordering::Less
    }
}

/// How one key lies by another. Eight bytes are compared at a time, as long as both have so many.
pub fn compare_keys(one: &[u8], other: &[u8]) -> Ordering
    ensures { result ≡ slice_cmp nat_cmp one.now other.now }
{
    let mut left = one;
    let mut right = other;
    'eights: while let Some((number, after)) = split_eight(left) {
        let Some((second, behind)) = split_eight(right) else {
            return compare_bytes(left, right);
        };
        if number != second {
            return number.cmp(&second);
        }
        left = after;
        right = behind;
    }
    compare_bytes(left, right)
}
