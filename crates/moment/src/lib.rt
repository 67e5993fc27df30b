// The two kinds of time, UTCTime and GeneralizedTime, as seconds since 1970.
#![tactic(auto)]

ghost use Rattle.std.specs.Prelude.{◌≡◌, ◌+◌, ◌-◌, ◌≤◌, ◌<◌, length};
ghost use Rattle.moment.specs.Calendar.{leap_year, days_of_month, days_of_months, days_of_years, Real, seconds_to, full_year};
ghost use Rattle.moment.specs.Model.{date_of, two_at, date_at, no_such_day, no_such_time, unreal, moment_of, after_year_at, utc_in, generalized_in, is_utc, utc_at, generalized_at, time_at};

use der::Span;
use refusal::Refusal;

// X.680, 8.4.
const UTC_TIME: u8 = 0x17;

const GENERALIZED_TIME: u8 = 0x18;

// Stands for what is not two digits: larger than any number that they write.
const NO_NUMBER: u64 = 100;

#[derive(Clone, Copy)]
struct Date {
    year: u64,
    month: u64,
    day: u64,
    hour: u64,
    minute: u64,
    second: u64,
}

fn leap_year(year: u64) -> bool
    ensures { result ≡ leap_year year }
{
    if year % 100 == 0 {
        year % 400 == 0
    } else {
        year % 4 == 0
    }
}

fn days_of_month(year: u64, month: u64) -> u64
    requires { (1 ≤ month) × (month ≤ 12) }
    ensures { result ≡ days_of_month year month }
{
    if month == 2 {
        return if leap_year(year) { 29 } else { 28 };
    }
    let days: [u64; 12] = [31, 28, 31, 30, 31, 30, 31, 31, 30, 31, 30, 31];
    days[(month - 1) as usize]
}

// The days of the year before a month.
fn days_before_month(year: u64, month: u64) -> u64
    requires { (1 ≤ month) × (month ≤ 12) }
    ensures { result ≡ days_of_months year (month - 1) }
{
    let days: [u64; 12] = [0, 31, 59, 90, 120, 151, 181, 212, 243, 273, 304, 334];
    let before = days[(month - 1) as usize];
    if 2 < month && leap_year(year) {
        before + 1
    } else {
        before
    }
}

// The days from 1970 to a year. There are 719,162 from the year 1 to 1970.
fn days_before_year(year: u64) -> u64
    requires { (1970 ≤ year) × (year ≤ 9999) }
    ensures { result ≡ days_of_years (year - 1970) }
{
    let past = year - 1;
    past * 365 + past / 4 - past / 100 + past / 400 - 719162
}

// The number that the two digits at a place write.
fn two_at(s: &[u8], at: usize) -> u64
    requires { at + 1 < length s.now }
    ensures { result ≡ two_at s.now at }
{
    let (a, b) = (s[at], s[at + 1]);
    if a.is_ascii_digit() && b.is_ascii_digit() {
        u64::from(a - b'0') * 10 + u64::from(b - b'0')
    } else {
        NO_NUMBER
    }
}

// The date of a year, by the ten digits at a place.
fn date_at(s: &[u8], at: usize, year: u64) -> Date
    requires { at + 9 < length s.now }
    ensures { date_of result ≡ date_at s.now at year }
{
    Date {
        year,
        month: two_at(s, at),
        day: two_at(s, at + 2),
        hour: two_at(s, at + 4),
        minute: two_at(s, at + 6),
        second: two_at(s, at + 8),
    }
}

// Whether the calendar lacks a day.
fn no_such_day(year: u64, month: u64, day: u64) -> bool
    ensures { result ≡ no_such_day year month day }
{
    month < 1 || 12 < month || day < 1 || days_of_month(year, month) < day
}

// Whether the clock never shows a time.
fn no_such_time(hour: u64, minute: u64, second: u64) -> bool
    ensures { result ≡ no_such_time hour minute second }
{
    23 < hour || 59 < minute || 59 < second
}

// Whether the calendar or the clock lacks a date.
fn is_unreal(d: Date) -> bool
    ensures { result ≡ unreal (date_of d) }
{
    no_such_day(d.year, d.month, d.day) || no_such_time(d.hour, d.minute, d.second)
}

// The seconds from 1970 to a date.
fn seconds_to(d: Date) -> u64
    requires real { Real (date_of d) }
    requires years { (1970 ≤ d.year) × (d.year ≤ 9999) }
    ensures { result ≡ seconds_to (date_of d) }
{
    let days = days_before_year(d.year) + days_before_month(d.year, d.month) + (d.day - 1);
    ((days * 24 + d.hour) * 60 + d.minute) * 60 + d.second
}

// The moment of a date. Its text ends at `at`, and its content at `end`: left-over content is looked for last.
fn moment_of(d: Date, at: usize, end: usize) -> Result<(u64, usize), Refusal>
    requires { (1970 ≤ d.year) × (d.year ≤ 9999) }
    ensures { result ≡ moment_of (date_of d) at end }
{
    if is_unreal(d) {
        return Err(Refusal::BAD_DER_TIME);
    }
    if at < end {
        return Err(Refusal::TRAILING_TIME);
    }
    Ok((seconds_to(d), end))
}

// The moment of a year and of what follows it at `at`.
fn after_year(s: &[u8], at: usize, end: usize, year: u64) -> Result<(u64, usize), Refusal>
    requires { (at + 11 ≤ end) × (end ≤ length s.now) × (year ≤ 9999) }
    ensures { result ≡ after_year_at s.now at end year }
{
    if year < 1970 || s[at + 10] != b'Z' {
        return Err(Refusal::BAD_DER_TIME);
    }
    moment_of(date_at(s, at, year), at + 11, end)
}

// The year that two digits stand for (RFC 5280, 4.1.2.5.1).
fn full_year(digits: u64) -> u64
    requires { digits ≤ 99 }
    ensures { result ≡ full_year digits }
{
    if digits < 50 {
        2000 + digits
    } else {
        1900 + digits
    }
}

// The moment that a content says as UTCTime: YYMMDDHHMMSSZ.
fn utc_in(s: &[u8], start: usize, end: usize) -> Result<(u64, usize), Refusal>
    requires { (start ≤ end) × (end ≤ length s.now) }
    ensures { result ≡ utc_in s.now start end }
{
    if end - start < 13 {
        return Err(Refusal::BAD_DER_TIME);
    }
    let year = two_at(s, start);
    if 99 < year {
        return Err(Refusal::BAD_DER_TIME);
    }
    after_year(s, start + 2, end, full_year(year))
}

// The moment that a content says as GeneralizedTime: YYYYMMDDHHMMSSZ.
fn generalized_in(s: &[u8], start: usize, end: usize) -> Result<(u64, usize), Refusal>
    requires { (start ≤ end) × (end ≤ length s.now) }
    ensures { result ≡ generalized_in s.now start end }
{
    if end - start < 15 {
        return Err(Refusal::BAD_DER_TIME);
    }
    let hundreds = two_at(s, start);
    if 99 < hundreds {
        return Err(Refusal::BAD_DER_TIME);
    }
    let rest = two_at(s, start + 2);
    if 99 < rest {
        return Err(Refusal::BAD_DER_TIME);
    }
    after_year(s, start + 4, end, hundreds * 100 + rest)
}

// Whether the next byte is the tag of UTCTime.
fn is_utc(s: &[u8], from: usize, to: usize) -> bool
    ensures { result ≡ is_utc s.now from to }
{
    from < to && from < s.len() && s[from] == UTC_TIME
}

// The time at `from` as UTCTime.
fn utc_at(s: &[u8], from: usize, to: usize) -> Result<(u64, usize), Refusal>
    ensures { result ≡ utc_at s.now from to }
{
    let Span { start, end } = der::expect(s, from, to, UTC_TIME, Refusal::TRAILING_TIME)?;
    utc_in(s, start, end)
}

// The time at `from` as GeneralizedTime.
fn generalized_at(s: &[u8], from: usize, to: usize) -> Result<(u64, usize), Refusal>
    ensures { result ≡ generalized_at s.now from to }
{
    let Span { start, end } = der::expect(s, from, to, GENERALIZED_TIME, Refusal::TRAILING_TIME)?;
    generalized_in(s, start, end)
}

// The time at `from`, of either kind, that ends at `to` or before: the seconds since 1970, and the place after it. What is no value
// of that kind, and content left over after a good time, is Refusal::TRAILING_TIME; a content that does not begin with a good time
// is Refusal::BAD_DER_TIME, whatever follows.
pub fn time_at(s: &[u8], from: usize, to: usize) -> Result<(u64, usize), Refusal>
    ensures { result ≡ time_at s.now from to }
{
    if is_utc(s, from, to) {
        utc_at(s, from, to)
    } else {
        generalized_at(s, from, to)
    }
}
