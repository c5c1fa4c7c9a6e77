//! The month of a day of the year.

ghost use Rattle.std.specs.Prelude.{◌≡◌, ◌<◌, ◌≤◌, ◌+◌, length};
ghost use Rattle.key_text.specs.Months.{month_lengths, month_day};

use std::marker::Model;

/// A month, and a day of it, both counted from 1.
#[derive(Clone, Copy, Debug)]
pub(crate) struct MonthDay {
    pub(crate) month: u32,
    pub(crate) day: u32,
}

impl Model for MonthDay {
    ghost use Rattle.key_text.specs.Months.{MonthDay as Found};

    ghost Value = { Found };

    ghost view = { λ a. record { month = a.month; day = a.day } };

    ghost inverse = { λ m. record { month = m.month; day = m.day } };
}

fn month_lengths(leap: bool) -> [u32; 12]
    ensures { result ≡ month_lengths leap }
{
    let february = if leap { 29 } else { 28 };
    [31, february, 31, 30, 31, 30, 31, 31, 30, 31, 30, 31]
}

/// The month in which a day counted from 0 stands, where these are the lengths of the first months from `month` on.
fn month_among(lengths: &[u32], month: u32, day: u32) -> MonthDay
    requires few { month + length lengths.now < 100 }
    requires near { day < 1000 }
    ensures { result ≡ month_day lengths.now month day }
{
    let mut rest = lengths;
    let mut month = month;
    let mut day = day;
    'months: loop {
        let [days, more @ ..] = rest else {
            return MonthDay {
                month,
                day: day + 1,
            };
        };
        if day < *days {
            return MonthDay {
                month,
                day: day + 1,
            };
        }
        rest = more;
        month += 1;
        day -= *days;
    }
}

/// The month in which a day of the year stands, counted from 0.
pub(crate) fn month_of(leap: bool, day: u32) -> MonthDay
    requires { day ≤ 365 }
    ensures exact { result ≡ month_day (month_lengths leap) 1 day }
    ensures small_month { result.month < 100 }
    ensures small_day { result.day < 100 }
{
    month_among(&month_lengths(leap), 1, day)
}
