//! A key as a text.

ghost use Rattle.std.specs.Prelude.{◌≡◌, [], ◌∷◌, ◌++◌, ◌/◌, ◌%◌, codes, Err, OnOk, IfOk};
ghost use Rattle.std.specs.List.{flat_map};
ghost use Rattle.reg_text.specs.declared.stop.RegFault.{RegFault as Fault};
ghost use Rattle.reg_text.specs.declared.stop.RegStop.TheVariants as stops;
ghost use Rattle.reg_text.specs.Writing.{place_of, text_of, unit_bytes, mark, reg_text_of};
ghost use Rattle.reg_text.specs.Gives.{GivesText};

use crate::keys::{push_key, push_part};
use crate::names::{has_broken_name, has_broken_part};
use crate::stop::{RegFault, RegFaultKind, RegStop};
use crate::values::push_ascii;
use nt_bytes::{Bytes, Names, Units};
use reg_tree::Key;
use std::alloc::{AllocError, Global};

fn push_parts(place: &mut Vec<u16>, names: &[Units]) -> Result<(), AllocError>
    ensures { OnOk result (place.new.items ≡ place.old.items ++ flat_map (λ name. codes "\\" ++ name) names.now) }
{
    for name in names {
        push_part(place, name.as_slice())?;
    }
    Ok(())
}

/// The place of the key at the path.
fn place(alloc: Global, path: &[Units]) -> Result<Vec<u16>, AllocError>
    ensures { IfOk result (λ p. p.items ≡ place_of path.now) }
{
    let mut place = Vec::new(alloc);
    push_ascii(&mut place, b"HKEY_LOCAL_MACHINE\\SYSTEM")?;
    push_parts(&mut place, path)?;
    Ok(place)
}

/// All units of the text.
fn units(alloc: Global, key: &Key, path: &[Units]) -> Result<Vec<u16>, AllocError>
    ensures { IfOk result (λ u. u.items ≡ text_of path.now key.now) }
{
    let mut out = Vec::new(alloc);
    push_ascii(&mut out, b"Windows Registry Editor Version 5.00")?;
    push_ascii(&mut out, b"\r\n\r\n")?;
    push_key(alloc, &mut out, &mut place(alloc, path)?, key)?;
    Ok(out)
}

fn push_unit(out: &mut Vec<u8>, unit: u16) -> Result<(), AllocError>
    ensures { OnOk result (out.new.items ≡ out.old.items ++ unit_bytes unit) }
{
    out.push((unit % 256) as u8)?;
    out.push((unit / 256) as u8)?;
    Ok(())
}

fn push_few(out: &mut Vec<u8>, units: &[u16]) -> Result<(), AllocError>
    ensures { OnOk result (out.new.items ≡ out.old.items ++ flat_map unit_bytes units.now) }
{
    for unit in units {
        push_unit(out, *unit)?;
    }
    Ok(())
}

fn low(unit: u16) -> u8
    ensures { result ≡ unit % 256 }
{
    (unit % 256) as u8
}

fn high(unit: u16) -> u8
    ensures { result ≡ unit / 256 }
{
    (unit / 256) as u8
}

fn push_four(out: &mut Vec<u8>, a: u16, b: u16, c: u16, d: u16) -> Result<(), AllocError>
    ensures { OnOk result (out.new.items ≡ out.old.items ++ flat_map unit_bytes (a ∷ b ∷ c ∷ d ∷ [])) }
{
    out.extend_from_slice(&[
        low(a),
        high(a),
        low(b),
        high(b),
        low(c),
        high(c),
        low(d),
        high(d),
    ])
}

/// Four units at a time, since a call for each byte would take most of the time of a whole text.
fn push_units(out: &mut Vec<u8>, units: &[u16]) -> Result<(), AllocError>
    ensures { OnOk result (out.new.items ≡ out.old.items ++ flat_map unit_bytes units.now) }
{
    let mut rest = units;
    'fours: loop {
        let [a, b, c, d, more @ ..] = rest else {
            return push_few(out, rest);
        };
        push_four(out, *a, *b, *c, *d)?;
        rest = more;
    }
}

/// The units in UTF-16 after the mark.
fn marked(alloc: Global, units: &[u16]) -> Result<Bytes, AllocError>
    ensures { IfOk result (λ b. b ≡ mark ++ flat_map unit_bytes units.now) }
{
    let mut out = Vec::from_slice(alloc, b"\xff\xfe")?;
    out.reserve(2 * units.len())?;
    push_units(&mut out, units)?;
    Ok(Bytes::from_vec(out))
}

/// The registry text of the key, which is at the path. A name that can't be in one line, of the
/// path, below the key, or of a value, is `NotText` at line 0.
#[tactic(auto, unfolding(crate::specs::Writing::reg_text_of))]
pub fn reg_text(alloc: Global, key: &Key, path: &Names) -> Result<Bytes, RegStop>
    ensures exact { GivesText result (reg_text_of path.now key.now) }
    ensures broken { (f : Fault) → reg_text_of path.now key.now ≡ Err f → result ≡ Err (stops.Fault f) }
{
    if has_broken_part(path.as_slice()) || has_broken_name(key) {
        return Err(RegStop::Fault(RegFault {
            kind: RegFaultKind::NotText,
            line: 0,
        }));
    }
    let units = units(alloc, key, path.as_slice())?;
    Ok(marked(alloc, units.as_slice())?)
}
