//! Time stamps as texts.

ghost use Rattle.std.specs.Prelude.{◌≡◌, ◌+◌, ◌++◌, ◌<◌, codes, OnOk};
ghost use Rattle.report_text.specs.line_text.Objects.{Text, field_text};
ghost use Rattle.key_text.specs.Stamps.{two_digits, year_text, date_text, clock_text, fraction_text, stamp_text};

use crate::date::{Date, date_of};
use report_text::line_text::{push_number, push_word_field};
use std::alloc::{AllocError, Global};

fn digit(value: u32) -> u8
    requires { value < 10 }
    ensures { result ≡ 48 + value }
{
    b'0' + value as u8
}

fn push_two(out: &mut Vec<u8>, value: u32) -> Result<(), AllocError>
    requires { value < 100 }
    ensures { OnOk result (out.new.items ≡ out.old.items ++ two_digits value) }
{
    out.extend_from_slice(&[digit(value / 10), digit(value % 10)])
}

fn push_year(out: &mut Vec<u8>, year: u32) -> Result<(), AllocError>
    ensures { OnOk result (out.new.items ≡ out.old.items ++ year_text year) }
{
    if 9999 < year {
        out.push(b'+')?;
    }
    push_number(out, u64::from(year))
}

fn push_date(out: &mut Vec<u8>, date: Date) -> Result<(), AllocError>
    requires month { date.month < 100 }
    requires day { date.day < 100 }
    ensures { OnOk result (out.new.items ≡ out.old.items ++ date_text date) }
{
    push_year(out, date.year)?;
    out.push(b'-')?;
    push_two(out, date.month)?;
    out.push(b'-')?;
    push_two(out, date.day)
}

fn push_clock(out: &mut Vec<u8>, second: u32) -> Result<(), AllocError>
    requires { second < 86400 }
    ensures { OnOk result (out.new.items ≡ out.old.items ++ clock_text second) }
{
    push_two(out, second / 3600)?;
    out.push(b':')?;
    push_two(out, second / 60 % 60)?;
    out.push(b':')?;
    push_two(out, second % 60)
}

fn push_fraction(out: &mut Vec<u8>, steps: u32) -> Result<(), AllocError>
    requires { steps < 10000000 }
    ensures { OnOk result (out.new.items ≡ out.old.items ++ fraction_text steps) }
{
    push_two(out, steps / 100_000)?;
    push_two(out, steps / 1000 % 100)?;
    push_two(out, steps / 10 % 100)?;
    out.push(digit(steps % 10))?;
    Ok(())
}

/// Appends the moment of a stamp in UTC, in steps of 100 ns since 1601-01-01T00:00:00: `2012-04-02T11:47:06.6718750Z`.
#[tactic(auto, unfolding(crate::specs::Stamps::stamp_text))]
pub fn push_moment(out: &mut Vec<u8>, stamp: u64) -> Result<(), AllocError>
    ensures { OnOk result (out.new.items ≡ out.old.items ++ stamp_text stamp) }
{
    let seconds = stamp / 10_000_000;
    push_date(out, date_of((seconds / 86_400) as u32))?;
    out.push(b'T')?;
    push_clock(out, (seconds % 86_400) as u32)?;
    out.push(b'.')?;
    push_fraction(out, (stamp % 10_000_000) as u32)?;
    out.push(b'Z')?;
    Ok(())
}

/// Appends the moment of a stamp as a field.
pub(crate) fn push_moment_field(
    alloc: Global,
    out: &mut Vec<u8>,
    stamp: u64,
) -> Result<(), AllocError>
    ensures { OnOk result (out.new.items ≡ out.old.items ++ field_text (codes "stamp") (Text (stamp_text stamp))) }
{
    let mut moment = Vec::new(alloc);
    push_moment(&mut moment, stamp)?;
    push_word_field(out, b"stamp", moment.as_slice())
}
