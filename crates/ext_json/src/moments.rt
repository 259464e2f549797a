//! Moments from texts of RFC 3339.

ghost use Rattle.std.specs.Prelude.{◌≡◌, ◌≤◌, ◌<◌, ◌*◌, option_map, IfSome, IsTrue};
ghost use Rattle.outcome.specs.Outcome.{GivesExactly};
ghost use Rattle.ext_json.specs.Moments as spec;
ghost use Rattle.ext_json.specs.Moments.{digit_at, two_at, byte_at, four_at, fraction_at, offset_in, zone_in, moment_at, day_at, clock_at, moment_in, date_in};

use crate::calendar::{Moment, month_len};
use crate::fault::ExtJsonFault;

/// The milliseconds from the beginning of the year 0 up to that of 1970.
const MILLIS_BEFORE_1970: i64 = 62_167_219_200_000;

fn take_digit(text: &[u8]) -> Option<(u32, &[u8])>
    ensures digit { option_map (λ x. (x.0, x.1.now)) result ≡ digit_at text.now }
    ensures bound { IfSome result (λ x. x.0 < 10) }
{
    match text {
        [digit, rest @ ..] if digit.is_ascii_digit() => Some((u32::from(*digit) - 48, rest)),
        _ => None,
    }
}

fn take_two(text: &[u8]) -> Option<(u32, &[u8])>
    ensures two { option_map (λ x. (x.0, x.1.now)) result ≡ two_at text.now }
    ensures bound { IfSome result (λ x. x.0 < 100) }
{
    let (high, rest) = take_digit(text)?;
    let (low, rest) = take_digit(rest)?;
    Some((10 * high + low, rest))
}

fn take_four(text: &[u8]) -> Option<(u32, &[u8])>
    ensures four { option_map (λ x. (x.0, x.1.now)) result ≡ four_at text.now }
    ensures bound { IfSome result (λ x. x.0 < 10000) }
{
    let (high, rest) = take_two(text)?;
    let (low, rest) = take_two(rest)?;
    Some((100 * high + low, rest))
}

fn take_byte(byte: u8, text: &[u8]) -> Option<&[u8]>
    ensures { option_map (λ x. x.now) result ≡ byte_at byte text.now }
{
    match text {
        [first, rest @ ..] if *first == byte => Some(rest),
        _ => None,
    }
}

/// One digit, two or three behind a point; 0 where there is no point.
fn take_fraction(text: &[u8]) -> Option<(u32, &[u8])>
    ensures fraction { option_map (λ x. (x.0, x.1.now)) result ≡ fraction_at text.now }
    ensures bound { IfSome result (λ x. x.0 < 1000) }
{
    let Some(digits) = take_byte(b'.', text) else {
        return Some((0, text));
    };
    let (tenths, rest) = take_digit(digits)?;
    let Some((hundredths, after)) = take_digit(rest) else {
        return Some((100 * tenths, rest));
    };
    match take_digit(after) {
        Some((last, end)) => Some((100 * tenths + 10 * hundredths + last, end)),
        None => Some((100 * tenths + 10 * hundredths, after)),
    }
}

/// The minutes of an offset of hours and minutes, less than a day.
fn read_offset(text: &[u8]) -> Option<u32>
    ensures offset { result ≡ offset_in text.now }
    ensures bound { IfSome result (λ n. n < 1440) }
{
    let (hours, rest) = take_two(text)?;
    let rest = take_byte(b':', rest)?;
    let (minutes, rest) = take_two(rest)?;
    if rest.is_empty() && hours < 24 && minutes < 60 {
        Some(60 * hours + minutes)
    } else {
        None
    }
}

/// Year, month and day.
fn take_day(text: &[u8]) -> Option<((u32, u32, u32), &[u8])>
    ensures day { option_map (λ x. (x.0, x.1.now)) result ≡ day_at text.now }
    ensures bound { IfSome result (λ x. (x.0.0 < 10000) × (x.0.1 < 100) × (x.0.2 < 100)) }
{
    let (year, rest) = take_four(text)?;
    let rest = take_byte(b'-', rest)?;
    let (month, rest) = take_two(rest)?;
    let rest = take_byte(b'-', rest)?;
    let (day, rest) = take_two(rest)?;
    Some(((year, month, day), rest))
}

/// Hour, minute and second.
fn take_clock(text: &[u8]) -> Option<((u32, u32, u32), &[u8])>
    ensures clock { option_map (λ x. (x.0, x.1.now)) result ≡ clock_at text.now }
    ensures bound { IfSome result (λ x. (x.0.0 < 100) × (x.0.1 < 100) × (x.0.2 < 100)) }
{
    let (hour, rest) = take_two(text)?;
    let rest = take_byte(b':', rest)?;
    let (minute, rest) = take_two(rest)?;
    let rest = take_byte(b':', rest)?;
    let (second, rest) = take_two(rest)?;
    Some(((hour, minute, second), rest))
}

/// A moment as the text has it, which no calendar may have.
fn take_moment(text: &[u8]) -> Option<(Moment, &[u8])>
    ensures moment { option_map (λ x. (x.0, x.1.now)) result ≡ moment_at text.now }
    ensures bound { IfSome result (λ x. spec.IsSmall x.0) }
{
    let ((year, month, day), rest) = take_day(text)?;
    let rest = take_byte(b'T', rest)?;
    let ((hour, minute, second), rest) = take_clock(rest)?;
    let (milli, rest) = take_fraction(rest)?;
    let moment = Moment {
        year,
        month,
        day,
        hour,
        minute,
        second,
        milli,
    };
    Some((moment, rest))
}

/// Whether the calendar has the moment.
fn is_moment(m: Moment) -> bool
    ensures { result ≡ spec.is_moment m }
{
    1 <= m.month
        && m.month <= 12
        && 1 <= m.day
        && m.day <= month_len(m.year, m.month)
        && m.hour < 24
        && m.minute < 60
        && m.second < 60
}

/// How many days so many months of a year have.
fn months_len(year: u32, months: u32) -> u32
    requires { months < 12 }
    ensures days { result ≡ spec.months_len year months }
    ensures bound { result ≤ 31 * months }
{
    let mut days = 0;
    'months: for month in 0..months {
        days += month_len(year, month + 1);
    }
    days
}

/// How many days there are before the year, from the beginning of the year 0 on.
fn years_len(year: u32) -> u32
    requires { year < 10000 }
    ensures days { result ≡ spec.years_len year }
    ensures bound { result < 3660000 }
{
    365 * year + (year + 3) / 4 + (year + 399) / 400 - (year + 99) / 100
}

/// The milliseconds of a moment from the beginning of the year 0 on.
#[tactic(auto, unfolding(crate::specs::Moments::millis_of))]
fn millis_of(m: Moment) -> u64
    requires small { spec.IsSmall m }
    requires month { (1 ≤ m.month) × (m.month ≤ 12) × (1 ≤ m.day) }
    ensures millis { result ≡ spec.millis_of m }
    ensures bound { result < 400000000000000 }
{
    let days = years_len(m.year) + months_len(m.year, m.month - 1) + m.day - 1;
    let seconds = 3600 * m.hour + 60 * m.minute + m.second;
    86_400_000 * u64::from(days) + 1000 * u64::from(seconds) + u64::from(m.milli)
}

/// The offset from UTC in minutes that ends a text.
fn read_zone(text: &[u8]) -> Option<i64>
    ensures zone { result ≡ zone_in text.now }
    ensures bound { IfSome result spec.IsOffset }
{
    match text {
        [b'Z'] => Some(0),
        [b'+', offset @ ..] => Some(read_offset(offset)? as i64),
        [b'-', offset @ ..] => Some(-(read_offset(offset)? as i64)),
        _ => None,
    }
}

/// The milliseconds since 1970 of those since the beginning of the year 0, with an offset in minutes.
fn since_1970(millis: u64, zone: i64) -> i64
    requires millis { millis < 400000000000000 }
    requires zone { spec.IsOffset zone }
    ensures { result ≡ spec.since_1970 millis zone }
{
    let local = millis as i64;
    local - MILLIS_BEFORE_1970 - 60_000 * zone
}

/// The milliseconds since 1970 of a text.
#[tactic(auto, unfolding(crate::specs::Moments::moment_in))]
fn read_moment(text: &[u8]) -> Option<i64>
    ensures { result ≡ moment_in text.now }
{
    let (moment, rest) = take_moment(text)?;
    let zone = read_zone(rest)?;
    if !is_moment(moment) {
        return None;
    }
    Some(since_1970(millis_of(moment), zone))
}

/// The date that a text in a wrapper stands for.
#[tactic(auto, unfolding(crate::specs::Moments::date_in))]
pub(crate) fn read_date(text: &str) -> Result<i64, ExtJsonFault>
    ensures { GivesExactly (λ z. z) result (date_in text.now) }
{
    match read_moment(text.as_bytes()) {
        Some(millis) => Ok(millis),
        None => Err(ExtJsonFault::Wrapper),
    }
}
