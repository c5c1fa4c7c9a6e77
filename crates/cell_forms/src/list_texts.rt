//! Lists of offsets as they are spelled.

ghost use Rattle.std.specs.Prelude.{◌≡◌, ◌<◌, ◌+◌, ◌*◌, ◌%◌, ◌^◌, ◌++◌, length, IfOk, OnOk};
ghost use Rattle.nt_bytes.specs.Folding.{folded_unit};
ghost use Rattle.hive_model.specs.Lists.{offsets_text, entries_text, ri_text, hash_of};

use nt_bytes::{Bytes, fold};
use std::alloc::{AllocError, Global};

fn append_offsets(out: &mut Bytes, offsets: &[u32]) -> Result<(), AllocError>
    ensures { OnOk result (out.new ≡ out.old ++ offsets_text offsets.now) }
{
    let mut rest = offsets;
    'entries: loop {
        let [offset, more @ ..] = rest else {
            return Ok(());
        };
        out.put_u32(*offset)?;
        rest = more;
    }
}

/// Appends the entries of a list of key nodes, eight bytes each: an offset, and the four bytes of its name.
pub fn append_entries(out: &mut Bytes, offsets: &[u32], hints: &[[u8; 4]]) -> Result<(), AllocError>
    requires { length offsets.now ≡ length hints.now }
    ensures { OnOk result (out.new ≡ out.old ++ entries_text offsets.now hints.now) }
{
    let mut rest = offsets;
    let mut rest_hints = hints;
    'entries: loop {
        let [offset, more @ ..] = rest else {
            return Ok(());
        };
        let [hint, more_hints @ ..] = rest_hints else {
            return Ok(());
        };
        out.put_u32(*offset)?;
        out.append(hint)?;
        rest = more;
        rest_hints = more_hints;
    }
}

/// The hash of a unit after others of this hash.
fn hash_behind(hash: u32, unit: u16) -> u32
    ensures { result ≡ (37 * hash + folded_unit unit) % 4294967296 }
{
    ((37 * u64::from(hash) + u64::from(fold(unit))) % 0x1_0000_0000) as u32
}

/// The hash that a list of key nodes has for a name: 37 times the hash of the units before, and the
/// folded unit, modulo 2^32.
pub fn name_hash(units: &[u16]) -> u32
    ensures { result ≡ hash_of units.now }
{
    let mut hash = 0;
    let mut rest = units;
    'units: loop {
        let [unit, more @ ..] = rest else {
            return hash;
        };
        hash = hash_behind(hash, *unit);
        rest = more;
    }
}

/// The payload of a list of lists.
#[tactic(auto, unfolding(hive_model::specs::Lists::ri_text))]
pub fn ri_bytes(alloc: Global, lists: &[u32]) -> Result<Bytes, AllocError>
    requires { length lists.now < 2 ^ 16 }
    ensures { IfOk result (λ b. b ≡ ri_text lists.now) }
{
    let mut bytes = Bytes::new(alloc);
    bytes.push(0x72)?;
    bytes.push(0x69)?;
    bytes.put_u16(lists.len() as u16)?;
    append_offsets(&mut bytes, lists)?;
    Ok(bytes)
}
