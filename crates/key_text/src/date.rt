//! The date of a day.

ghost use Rattle.std.specs.Prelude.{◌≡◌, ◌<◌, ◌≤◌, ◌+◌};
ghost use Rattle.key_text.specs.Dates.{is_leap, year_day, date_of};

use crate::month::month_of;
use std::marker::Model;

/// A date of the Gregorian calendar. Month and day count from 1.
#[derive(Clone, Copy, Debug)]
pub(crate) struct Date {
    pub(crate) year: u32,
    pub(crate) month: u32,
    pub(crate) day: u32,
}

impl Model for Date {
    ghost use Rattle.key_text.specs.Dates.{Date as Found};

    ghost Value = { Found };

    ghost view = { λ a. record { year = a.year; month = a.month; day = a.day } };

    ghost inverse = { λ d. record { year = d.year; month = d.month; day = d.day } };
}

/// A year, and a day of it, counted from 0.
#[derive(Clone, Copy, Debug)]
pub(crate) struct YearDay {
    pub(crate) year: u32,
    pub(crate) day: u32,
}

impl Model for YearDay {
    ghost use Rattle.key_text.specs.Dates.{YearDay as Found};

    ghost Value = { Found };

    ghost view = { λ a. record { year = a.year; day = a.day } };

    ghost inverse = { λ y. record { year = y.year; day = y.day } };
}

fn is_leap(year: u32) -> bool
    ensures { result ≡ is_leap year }
{
    year % 4 == 0 && (year % 100 != 0 || year % 400 == 0)
}

/// The year in which a day stands, both counted from 1601-01-01.
fn year_day(day: u32) -> YearDay
    requires { day < 100000000 }
    ensures exact { result ≡ year_day day }
    ensures short { result.day ≤ 365 }
{
    let cycle = day % 146_097;
    let century = (cycle / 36_524).min(3);
    let in_century = cycle - 36_524 * century;
    let in_four = in_century % 1461;
    let one = (in_four / 365).min(3);
    YearDay {
        year: 1601 + 400 * (day / 146_097) + 100 * century + 4 * (in_century / 1461) + one,
        day: in_four - 365 * one,
    }
}

/// The date of a day, counted from 1601-01-01.
#[tactic(auto, unfolding(crate::specs::Dates::date_of))]
pub(crate) fn date_of(day: u32) -> Date
    requires { day < 100000000 }
    ensures exact { result ≡ date_of day }
    ensures small_month { result.month < 100 }
    ensures small_day { result.day < 100 }
{
    let place = year_day(day);
    let found = month_of(is_leap(place.year), place.day);
    Date {
        year: place.year,
        month: found.month,
        day: found.day,
    }
}
