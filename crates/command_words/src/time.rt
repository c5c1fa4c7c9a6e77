//! Moments as texts: which time stamp one stands for.

ghost use Rattle.std.specs.Prelude.{◌≡◌, ◌≤◌, ◌<◌, ◌-◌, ◌^◌, IfSome, length, option_and_then, option_map, sum, take, true};
ghost use Rattle.std.specs.List.{All};
ghost use Rattle.std.specs.Char.{is_ascii_digit};
ghost use Rattle.command_words.specs.Times.{after, clock_in, day_of, days_before_year, fraction_in, hours_by, is_date, is_end, is_leap};
ghost use Rattle.command_words.specs.Times.{day_by, minutes_by, minutes_in, month_by, month_lengths, number_first, point_in, seconds_by, seconds_in};
ghost use Rattle.command_words.specs.Times.{stamp_at, stamp_on, steps_of, time_of, two_after, within, year_first, year_of};
ghost use Rattle.command_words.specs.Views.{part_seen};

use nt_bytes::{are_digits, value_of};

/// The steps of 100 ns of a second, a minute, an hour and a day.
const SECOND: u64 = 10_000_000;

const MINUTE: u64 = 600_000_000;

const HOUR: u64 = 36_000_000_000;

const DAY: u64 = 864_000_000_000;

/// A number at the beginning of a text, and what follows it.
#[derive(Clone, Copy)]
pub struct Part<'a> {
    pub value: u64,
    pub rest: &'a [u8],
}

fn is_leap(year: u64) -> bool
    ensures { result ≡ is_leap year }
{
    year % 4 == 0 && (year % 100 != 0 || year % 400 == 0)
}

fn month_lengths(leap: bool) -> [u64; 12]
    ensures { result ≡ month_lengths leap }
{
    let february = if leap { 29 } else { 28 };
    [31, february, 31, 30, 31, 30, 31, 31, 30, 31, 30, 31]
}

/// The days of a year before a month, which counts from 1.
fn days_before_month(leap: bool, month: u64) -> u64
    requires first { 1 ≤ month }
    requires last { month ≤ 12 }
    ensures exact { result ≡ sum (take (month - 1) (month_lengths leap)) }
    ensures bound { result < 366 }
{
    let before = [0, 31, 59, 90, 120, 151, 181, 212, 243, 273, 304, 334];
    let days = before[month as usize - 1];
    if leap && 2 < month { days + 1 } else { days }
}

/// The days from the beginning of 1601 to that of the year.
fn days_before_year(year: u64) -> u64
    requires { year < 100000 }
    ensures exact { result ≡ days_before_year year }
    ensures bound { result < 100000000 }
{
    let years = year.saturating_sub(1601);
    365 * years + years / 4 - years / 100 + years / 400
}

fn is_date(year: u64, month: u64, day: u64) -> bool
    ensures { result ≡ is_date year month day }
{
    if month < 1 || 12 < month || day < 1 {
        return false;
    }
    day <= month_lengths(is_leap(year))[month as usize - 1]
}

/// Which day a date is, counted from 1601-01-01, where the calendar has it.
fn day_of(year: u64, month: u64, day: u64) -> Option<u64>
    requires { year < 100000 }
    ensures exact { result ≡ day_of year month day }
    ensures bound { IfSome result (λ d. d < 200000000) }
{
    if !is_date(year, month, day) {
        return None;
    }
    Some(days_before_year(year) + days_before_month(is_leap(year), month) + (day - 1))
}

/// What follows this byte, where it is the first.
fn after(byte: u8, text: &[u8]) -> Option<&[u8]>
    ensures { option_map (λ t. t.now) result ≡ after byte text.now }
{
    match text {
        [] => None,
        [first, rest @ ..] => { if *first == byte { Some(rest) } else { None } }
    }
}

/// The number that exactly this many digits at the beginning write.
fn number_first(digits: usize, text: &[u8]) -> Option<Part<'_>>
    requires { digits ≤ 10 }
    ensures { option_map part_seen result ≡ number_first digits text.now }
{
    if text.len() < digits {
        return None;
    }
    let (number, rest) = text.split_at(digits);
    if !are_digits(number) {
        return None;
    }
    Some(Part {
        value: value_of(number),
        rest,
    })
}

/// The number, where it is in this range.
fn within<'a>(least: u64, greatest: u64, part: Option<Part<'a>>) -> Option<Part<'a>>
    ensures exact { option_map part_seen result ≡ option_and_then (within least greatest) (option_map part_seen part.entry) }
    ensures bound { IfSome result (λ p. p.value ≤ greatest) }
{
    match part {
        None => None,
        Some(part) => {
            if least <= part.value && part.value <= greatest {
                Some(part)
            } else {
                None
            }
        }
    }
}

/// The number of two digits after this byte.
fn two_after(byte: u8, text: &[u8]) -> Option<Part<'_>>
    ensures { option_map part_seen result ≡ two_after byte text.now }
{
    match after(byte, text) {
        Some(rest) => number_first(2, rest),
        None => None,
    }
}

/// The year, after its `+` or without one.
fn year_first(text: &[u8]) -> Option<Part<'_>>
    ensures exact { option_map part_seen result ≡ year_first text.now }
    ensures bound { IfSome result (λ p. p.value ≤ 99999) }
{
    match after(b'+', text) {
        Some(rest) => within(10000, 99999, number_first(5, rest)),
        None => within(1601, 9999, number_first(4, text)),
    }
}

fn is_end(text: &[u8]) -> bool
    ensures { result ≡ is_end text.now }
{
    text == b"Z".as_slice()
}

fn power(exponent: usize) -> u64
    requires { exponent ≤ 6 }
    ensures { result ≡ 10 ^ exponent }
{
    match exponent {
        0 => 1,
        1 => 10,
        2 => 100,
        3 => 1000,
        4 => 10_000,
        5 => 100_000,
        _ => 1_000_000,
    }
}

/// The steps that the digits of a fraction write.
fn steps_of(digits: &[u8]) -> u64
    requires all { All (λ c. is_ascii_digit c ≡ true) digits.now }
    requires some { 0 < length digits.now }
    requires few { length digits.now ≤ 7 }
    ensures exact { result ≡ steps_of digits.now }
    ensures bound { result < 10000000 }
{
    value_of(digits) * power(7 - digits.len())
}

/// The steps of a second: one to seven digits, and the end.
fn fraction_in(text: &[u8]) -> Option<u64>
    ensures exact { result ≡ fraction_in text.now }
    ensures bound { IfSome result (λ s. s < 10000000) }
{
    let (digits, end) = text.split_at(text.len().saturating_sub(1));
    if !is_end(end) || !are_digits(digits) || 7 < digits.len() {
        return None;
    }
    Some(steps_of(digits))
}

/// The steps of a second after its point, or none where the text ends.
fn point_in(text: &[u8]) -> Option<u64>
    ensures exact { result ≡ point_in text.now }
    ensures bound { IfSome result (λ s. s < 10000000) }
{
    if is_end(text) {
        return Some(0);
    }
    match after(b'.', text) {
        Some(rest) => fraction_in(rest),
        None => None,
    }
}

/// The steps of a minute: the second, and its fraction.
fn seconds_by(second: Part<'_>) -> Option<u64>
    requires { second.value ≤ 59 }
    ensures exact { result ≡ seconds_by (part_seen second.entry) }
    ensures bound { IfSome result (λ s. s < 600000000) }
{
    match point_in(second.rest) {
        Some(steps) => Some(second.value * SECOND + steps),
        None => None,
    }
}

/// The steps of a minute after the minute, or none where the text ends.
fn seconds_in(text: &[u8]) -> Option<u64>
    ensures exact { result ≡ seconds_in text.now }
    ensures bound { IfSome result (λ s. s < 600000000) }
{
    if is_end(text) {
        return Some(0);
    }
    match within(0, 59, two_after(b':', text)) {
        Some(second) => seconds_by(second),
        None => None,
    }
}

/// The steps of an hour: the minute, and what follows it.
fn minutes_by(minute: Part<'_>) -> Option<u64>
    requires { minute.value ≤ 59 }
    ensures exact { result ≡ minutes_by (part_seen minute.entry) }
    ensures bound { IfSome result (λ s. s < 36000000000) }
{
    match seconds_in(minute.rest) {
        Some(steps) => Some(minute.value * MINUTE + steps),
        None => None,
    }
}

fn minutes_in(text: &[u8]) -> Option<u64>
    ensures exact { result ≡ minutes_in text.now }
    ensures bound { IfSome result (λ s. s < 36000000000) }
{
    match within(0, 59, two_after(b':', text)) {
        Some(minute) => minutes_by(minute),
        None => None,
    }
}

/// The steps of a day: the hour, and what follows it.
fn hours_by(hour: Part<'_>) -> Option<u64>
    requires { hour.value ≤ 23 }
    ensures exact { result ≡ hours_by (part_seen hour.entry) }
    ensures bound { IfSome result (λ s. s < 864000000000) }
{
    match minutes_in(hour.rest) {
        Some(steps) => Some(hour.value * HOUR + steps),
        None => None,
    }
}

/// The steps of a day after the day, or none where nothing follows it.
fn clock_in(text: &[u8]) -> Option<u64>
    ensures exact { result ≡ clock_in text.now }
    ensures bound { IfSome result (λ s. s < 864000000000) }
{
    if text.is_empty() {
        return Some(0);
    }
    match within(0, 23, two_after(b'T', text)) {
        Some(hour) => hours_by(hour),
        None => None,
    }
}

/// The stamp of that step of the day, where 64 bits hold it.
fn stamp_at(day: u64, steps: u64) -> Option<u64>
    ensures { result ≡ stamp_at day steps }
{
    match day.checked_mul(DAY) {
        Some(begin) => begin.checked_add(steps),
        None => None,
    }
}

/// The stamp of a day and of what follows it.
fn stamp_on(rest: &[u8], day: u64) -> Option<u64>
    ensures { result ≡ stamp_on rest.now day }
{
    match clock_in(rest) {
        Some(steps) => stamp_at(day, steps),
        None => None,
    }
}

fn day_by(year: u64, month: u64, day: Part<'_>) -> Option<u64>
    requires { year < 100000 }
    ensures { result ≡ day_by year month (part_seen day.entry) }
{
    match day_of(year, month, day.value) {
        Some(place) => stamp_on(day.rest, place),
        None => None,
    }
}

fn month_by(year: u64, month: Part<'_>) -> Option<u64>
    requires { year < 100000 }
    ensures { result ≡ month_by year (part_seen month.entry) }
{
    match two_after(b'-', month.rest) {
        Some(day) => day_by(year, month.value, day),
        None => None,
    }
}

fn year_of(year: Part<'_>) -> Option<u64>
    requires { year.value < 100000 }
    ensures { result ≡ year_of (part_seen year.entry) }
{
    match two_after(b'-', year.rest) {
        Some(month) => month_by(year.value, month),
        None => None,
    }
}

/// The time stamp, in steps of 100 ns since 1601-01-01T00:00:00 UTC, of the moment that the text stands for: a day, or a day and
/// a time of it, as `2009-07-14T04:37:09.5699689Z`, where what is left out is zero.
pub fn time_in(text: &[u8]) -> Option<u64>
    ensures { result ≡ time_of text.now }
{
    match year_first(text) {
        Some(year) => year_of(year),
        None => None,
    }
}
