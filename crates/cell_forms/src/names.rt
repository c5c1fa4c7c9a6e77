//! Names as cells store them: one byte a unit, or UTF-16.

ghost use Rattle.std.specs.Prelude.{◌≡◌, ◌<◌, ◌≤◌, ◌*◌, ◌++◌, ℕ, true, length, slice_index, IfErr, OnOk};
ghost use Rattle.nt_bytes.specs.declared.fault.ReadStop.TheVariants.{Fault, Memory};
ghost use Rattle.hive_model.specs.Forms.{Gives};
ghost use Rattle.cell_forms.specs.Views.{name_of};
ghost use Rattle.hive_model.specs.StoredNames.{wide_text, name_text, key_name_at, value_name_at};
ghost use Rattle.hive_model.specs.Valid.{longest_value_name};

use crate::stored::StoredName;
use nt_bytes::{Bytes, HiveFault, HiveFaultKind, ReadStop};
use std::alloc::AllocError;

/// A fault of this kind at this offset.
pub(crate) fn fault(kind: HiveFaultKind, at: u32) -> ReadStop
    ensures { result ≡ Fault (record { kind = kind; at = at }) }
{
    ReadStop::Fault(HiveFault { kind, at })
}

/// The name of a key, where it stands. `FormLength` where a wide name has half a unit, `FormName`
/// where the name is over 255 units or has a backslash. It may be empty.
#[tactic(auto, unfolding(hive_model::specs::StoredNames::key_name_at))]
pub(crate) fn see_key_name(
    is_narrow: bool,
    bytes: &[u8],
    at: u32,
) -> Result<StoredName<'_>, ReadStop>
    ensures exact { Gives name_of at result (key_name_at is_narrow bytes.now) }
    ensures no_memory { IfErr result (λ stop. stop ≡ Memory → ⊥) }
{
    if !is_narrow && bytes.len() % 2 == 1 {
        return Err(fault(HiveFaultKind::FormLength, at));
    }
    let name = StoredName { is_narrow, bytes };
    if name.len() > 255 || name.has_backslash() {
        return Err(fault(HiveFaultKind::FormName, at));
    }
    Ok(name)
}

/// The name of a value, where it stands. `FormLength` where a wide name has half a unit, `FormName`
/// where the name is over 16,383 units.
#[tactic(auto, unfolding(hive_model::specs::StoredNames::value_name_at))]
pub(crate) fn see_value_name(
    is_narrow: bool,
    bytes: &[u8],
    at: u32,
) -> Result<StoredName<'_>, ReadStop>
    ensures exact { Gives name_of at result (value_name_at is_narrow bytes.now) }
    ensures no_memory { IfErr result (λ stop. stop ≡ Memory → ⊥) }
{
    if !is_narrow && bytes.len() % 2 == 1 {
        return Err(fault(HiveFaultKind::FormLength, at));
    }
    let name = StoredName { is_narrow, bytes };
    if name.len() > 16_383 {
        return Err(fault(HiveFaultKind::FormName, at));
    }
    Ok(name)
}

/// Appends units as pairs of bytes.
fn append_wide(out: &mut Bytes, units: &[u16]) -> Result<(), AllocError>
    ensures { OnOk result (out.new ≡ out.old ++ wide_text units.now) }
{
    let mut rest = units;
    'pairs: loop {
        let [unit, more @ ..] = rest else {
            return Ok(());
        };
        out.put_u16(*unit)?;
        rest = more;
    }
}

/// Appends a name as it is stored.
pub(crate) fn append_name(out: &mut Bytes, is_narrow: bool, name: &[u16]) -> Result<(), AllocError>
    requires { is_narrow ≡ true → (k : ℕ) → slice_index name.now k < 256 }
    ensures { OnOk result (out.new ≡ out.old ++ name_text is_narrow name.now) }
{
    if is_narrow {
        out.append_narrow(name)
    } else {
        append_wide(out, name)
    }
}

/// How many bytes a name is stored in.
pub(crate) fn name_size(is_narrow: bool, name: &[u16]) -> usize
    requires { length name.now ≤ longest_value_name }
    ensures exact { result ≡ length (name_text is_narrow name.now) }
    ensures bounds { result ≤ 2 * length name.now }
{
    if is_narrow {
        name.len()
    } else {
        2 * name.len()
    }
}
