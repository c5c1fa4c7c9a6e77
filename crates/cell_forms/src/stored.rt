//! Names where they stand: units read out of the bytes that store them.

ghost use Rattle.std.specs.Prelude.{◌≡◌, ◌∷◌, true, [], IfOk};
ghost use Rattle.std.specs.List.{list_any};
ghost use Rattle.std.specs.Option.{IfSome, IsNone};
ghost use Rattle.std.specs.Prelude.{length};
ghost use Rattle.std.specs.Ordering.{nat_cmp};
ghost use Rattle.nt_bytes.specs.Folding.{folded_order, folded_unit};
ghost use Rattle.nt_bytes.specs.Text.{wide_of};
ghost use Rattle.hive_model.specs.Size.{is_narrow};
ghost use Rattle.nt_bytes.specs.Text.{is_backslash};
ghost use Rattle.cell_forms.specs.Views.{name_of};

use nt_bytes::{Units, fold, wide};
use std::alloc::{AllocError, Global};
use std::cmp::Ordering;

/// A name as a cell stores it: with one byte a unit or as UTF-16, and the bytes.
#[derive(Clone, Copy, Debug)]
pub struct StoredName<'a> {
    pub is_narrow: bool,
    pub bytes: &'a [u8],
}

/// The first unit of a name, and the rest of it.
#[derive(Clone, Copy)]
pub struct FirstUnit<'a> {
    pub unit: u16,
    pub rest: StoredName<'a>,
}

fn first_narrow(bytes: &[u8]) -> Option<FirstUnit<'_>>
    ensures none { IsNone result → bytes.now ≡ [] }
    ensures some { IfSome result (λ f. bytes.now ≡ f.unit ∷ name_of f.rest) }
{
    let [byte, rest @ ..] = bytes else {
        return None;
    };
    Some(FirstUnit {
        unit: u16::from(*byte),
        rest: StoredName {
            is_narrow: true,
            bytes: rest,
        },
    })
}

fn first_wide(bytes: &[u8]) -> Option<FirstUnit<'_>>
    ensures none { IsNone result → wide_of bytes.now ≡ [] }
    ensures some { IfSome result (λ f. wide_of bytes.now ≡ f.unit ∷ name_of f.rest) }
{
    let [low, high, rest @ ..] = bytes else {
        return None;
    };
    Some(FirstUnit {
        unit: u16::from_le_bytes([*low, *high]),
        rest: StoredName {
            is_narrow: false,
            bytes: rest,
        },
    })
}

// Does a name of one byte a unit have a backslash?
fn has_backslash_byte(bytes: &[u8]) -> bool
    ensures { result ≡ list_any is_backslash bytes.now }
{
    let mut rest = bytes;
    'bytes: loop {
        let [byte, more @ ..] = rest else {
            return false;
        };
        if *byte == 0x5c {
            return true;
        }
        rest = more;
    }
}

// Each byte is below 256.
fn are_low(bytes: &[u8])
    ensures { is_narrow bytes.now ≡ true }
{
    let _whole = bytes;
}

impl<'a> StoredName<'a> {
    /// The first unit, and the rest. None of an empty name.
    fn first(self) -> Option<FirstUnit<'a>>
        ensures none { IsNone result → name_of self.entry ≡ [] }
        ensures some { IfSome result (λ f. name_of self.entry ≡ f.unit ∷ name_of f.rest) }
    {
        if self.is_narrow {
            first_narrow(self.bytes)
        } else {
            first_wide(self.bytes)
        }
    }

    /// How many units there are.
    pub fn len(self) -> usize
        ensures { result ≡ length (name_of self.entry) }
    {
        if self.is_narrow {
            self.bytes.len()
        } else {
            self.bytes.len() / 2
        }
    }

    pub fn has_backslash(self) -> bool
        ensures { result ≡ list_any is_backslash (name_of self.entry) }
    {
        if self.is_narrow {
            return has_backslash_byte(self.bytes);
        }
        let mut rest = self;
        'units: loop {
            let Some(first) = rest.first() else {
                return false;
            };
            if first.unit == 0x5c {
                return true;
            }
            rest = first.rest;
        }
    }

    /// Is each unit below 256?
    pub fn is_low(self) -> bool
        ensures { result ≡ is_narrow (name_of self.entry) }
    {
        if self.is_narrow {
            are_low(self.bytes);
            return true;
        }
        let mut rest = self;
        'units: loop {
            let Some(first) = rest.first() else {
                return true;
            };
            if first.unit > 255 {
                return false;
            }
            rest = first.rest;
        }
    }

    /// The units in memory of their own.
    pub fn units(self, alloc: Global) -> Result<Units, AllocError>
        ensures { IfOk result (λ u. u ≡ name_of self.entry) }
    {
        if !self.is_narrow {
            return wide(alloc, self.bytes);
        }
        let units = self.bytes.iter().map(|b| u16::from(*b)).collect(alloc)?;
        Ok(Units::from_vec(units))
    }
}

// The order of two units below 256. The same two, as in a front that names share, are not folded.
fn compare_bytes(x: u8, y: u8) -> Ordering
    ensures { result ≡ nat_cmp (folded_unit x) (folded_unit y) }
{
    if x == y {
        return Ordering::Equal;
    }
    fold(u16::from(x)).cmp(&fold(u16::from(y)))
}

fn compare_narrow(a: &[u8], b: &[u8]) -> Ordering
    ensures { result ≡ folded_order a.now b.now }
{
    let mut xs = a;
    let mut ys = b;
    'bytes: loop {
        let [x, more_xs @ ..] = xs else {
            return 0.cmp(&ys.len());
        };
        let [y, more_ys @ ..] = ys else {
            return Ordering::Greater;
        };
        let order = compare_bytes(*x, *y);
        if order != Ordering::Equal {
            return order;
        }
        xs = more_xs;
        ys = more_ys;
    }
}

fn compare_units(a: StoredName<'_>, b: StoredName<'_>) -> Ordering
    ensures { result ≡ folded_order (name_of a.entry) (name_of b.entry) }
{
    let mut xs = a;
    let mut ys = b;
    'units: loop {
        let Some(x) = xs.first() else {
            return 0.cmp(&ys.len());
        };
        let Some(y) = ys.first() else {
            return Ordering::Greater;
        };
        let order = fold(x.unit).cmp(&fold(y.unit));
        if order != Ordering::Equal {
            return order;
        }
        xs = x.rest;
        ys = y.rest;
    }
}

/// The order of the folded units, as `nt_bytes::compare_folded` has it.
pub fn compare_stored(a: StoredName<'_>, b: StoredName<'_>) -> Ordering
    ensures { result ≡ folded_order (name_of a.entry) (name_of b.entry) }
{
    if a.is_narrow && b.is_narrow {
        return compare_narrow(a.bytes, b.bytes);
    }
    compare_units(a, b)
}
