//! Moments as texts, by the calendar of ISO 8601.

ghost use Rattle.std.specs.Prelude.{◌≡◌, ◌<◌, ◌≤◌};
ghost use Rattle.ext_json.specs.Calendar as spec;
ghost use Rattle.ext_json.specs.Calendar.{year_from, month_from, moment_text};

const DAY_MILLIS: u64 = 86_400_000;

/// A moment by the calendar: its year, up to 9999, its month and day, from 1 on, and the time of the day.
#[derive(Clone, Copy, Debug, PartialEq, Eq)]
pub(crate) struct Moment {
    pub year: u32,
    pub month: u32,
    pub day: u32,
    pub hour: u32,
    pub minute: u32,
    pub second: u32,
    pub milli: u32,
}

fn is_leap(year: u32) -> bool
    ensures { result ≡ spec.is_leap year }
{
    year % 4 == 0 && (year % 100 != 0 || year % 400 == 0)
}

fn year_len(year: u32) -> u32
    ensures { result ≡ spec.year_len year }
{
    if is_leap(year) { 366 } else { 365 }
}

/// How many days a month has, from 1 on.
pub(crate) fn month_len(year: u32, month: u32) -> u32
    ensures { result ≡ spec.month_len year month }
{
    if month == 2 {
        return if is_leap(year) { 29 } else { 28 };
    }
    if month == 4 || month == 6 || month == 9 || month == 11 {
        return 30;
    }
    31
}

/// The year of so many days since 1970, up to 9999, and how many days of it are before.
fn year_of(days: u32) -> (u32, u32)
    ensures year { result ≡ year_from 8029 1970 days }
    ensures fits { result.1 ≤ days }
{
    let mut left = days;
    'years: for year in 1970..9999 {
        let len = year_len(year);
        if left < len {
            return (year, left);
        }
        left -= len;
    }
    (9999, left)
}

/// The month, from 1 on, of so many days of a year, and how many days of it are before.
fn month_of(year: u32, days: u32) -> (u32, u32)
    ensures month { result ≡ month_from 11 year 1 days }
    ensures fits { result.1 ≤ days }
{
    let mut left = days;
    'months: for month in 1..12 {
        let len = month_len(year, month);
        if left < len {
            return (month, left);
        }
        left -= len;
    }
    (12, left)
}

/// The moment so many milliseconds after the beginning of 1970, up to the year 9999.
#[tactic(auto, unfolding(crate::specs::Calendar::moment_of))]
pub(crate) fn moment_of(millis: u64) -> Moment
    requires { millis ≤ 253402300799999 }
    ensures { result ≡ spec.moment_of millis }
{
    let (year, left) = year_of((millis / DAY_MILLIS) as u32);
    let (month, left) = month_of(year, left);
    Moment {
        year,
        month,
        day: left + 1,
        hour: (millis % DAY_MILLIS / 3_600_000) as u32,
        minute: (millis / 60_000 % 60) as u32,
        second: (millis / 1000 % 60) as u32,
        milli: (millis % 1000) as u32,
    }
}

/// The last digit of a number.
fn digit(number: u32) -> u8
    ensures { result ≡ spec.digit number }
{
    b'0' + (number % 10) as u8
}

/// The text of a moment at the beginning of a second.
#[tactic(auto, unfolding(crate::specs::Calendar::moment_text))]
pub(crate) fn text_of_second(m: Moment) -> [u8; 20]
    requires { m.milli ≡ 0 }
    ensures { result ≡ moment_text m }
{
    [
        digit(m.year / 1000),
        digit(m.year / 100),
        digit(m.year / 10),
        digit(m.year),
        b'-',
        digit(m.month / 10),
        digit(m.month),
        b'-',
        digit(m.day / 10),
        digit(m.day),
        b'T',
        digit(m.hour / 10),
        digit(m.hour),
        b':',
        digit(m.minute / 10),
        digit(m.minute),
        b':',
        digit(m.second / 10),
        digit(m.second),
        b'Z',
    ]
}

/// The text of a moment with milliseconds.
#[tactic(auto, unfolding(crate::specs::Calendar::moment_text))]
pub(crate) fn text_of_milli(m: Moment) -> [u8; 24]
    requires { 0 < m.milli }
    ensures { result ≡ moment_text m }
{
    [
        digit(m.year / 1000),
        digit(m.year / 100),
        digit(m.year / 10),
        digit(m.year),
        b'-',
        digit(m.month / 10),
        digit(m.month),
        b'-',
        digit(m.day / 10),
        digit(m.day),
        b'T',
        digit(m.hour / 10),
        digit(m.hour),
        b':',
        digit(m.minute / 10),
        digit(m.minute),
        b':',
        digit(m.second / 10),
        digit(m.second),
        b'.',
        digit(m.milli / 100),
        digit(m.milli / 10),
        digit(m.milli),
        b'Z',
    ]
}
