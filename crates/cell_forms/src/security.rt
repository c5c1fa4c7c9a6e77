//! Security cells.

ghost use Rattle.std.specs.Prelude.{◌≡◌, ◌<◌, ◌^◌, length, IfOk};
ghost use Rattle.hive_model.specs.Forms.{Gives};
ghost use Rattle.hive_model.specs.Security.{security_at, security_text};
ghost use Rattle.cell_forms.specs.Views.{security_of};

use crate::names::fault;
use nt_bytes::{Bytes, HiveFaultKind, ReadStop, u16_at, u32_at};
use std::alloc::{AllocError, Global};

/// A security cell. The links are offsets in the bins data, `uses` is its reference count.
#[derive(Debug, Drop)]
pub struct SkForm {
    pub forward: u32,
    pub backward: u32,
    pub uses: u32,
    pub descriptor: Bytes,
}

/// Reads a security cell. `FormShort` where the payload is shorter than the fixed part or the
/// descriptor, `FormSign` where it does not begin with `sk`; each at `at`.
#[tactic(auto, unfolding(hive_model::specs::Security::security_at))]
pub fn read_sk(alloc: Global, payload: &[u8], at: u32) -> Result<SkForm, ReadStop>
    ensures { Gives security_of at result (security_at payload.now) }
{
    if payload.len() < 2 {
        return Err(fault(HiveFaultKind::FormShort, at));
    }
    if u16_at(payload, 0) != 0x6b73 {
        return Err(fault(HiveFaultKind::FormSign, at));
    }
    if payload.len() < 20 {
        return Err(fault(HiveFaultKind::FormShort, at));
    }
    let end = 20 + u32_at(payload, 16) as usize;
    if payload.len() < end {
        return Err(fault(HiveFaultKind::FormShort, at));
    }
    Ok(SkForm {
        forward: u32_at(payload, 4),
        backward: u32_at(payload, 8),
        uses: u32_at(payload, 12),
        descriptor: Bytes::from_slice(alloc, &payload[20..end])?,
    })
}

/// The payload that a security cell is spelled as. The field without a name is zero.
#[tactic(auto, unfolding(hive_model::specs::Security::security_text))]
pub fn sk_bytes(alloc: Global, form: &SkForm) -> Result<Bytes, AllocError>
    requires { length form.now.descriptor < 2 ^ 32 }
    ensures { IfOk result (λ b. b ≡ security_text (security_of form.now)) }
{
    let descriptor = form.descriptor.as_slice();
    let mut bytes = Bytes::new(alloc);
    bytes.push(0x73)?;
    bytes.push(0x6b)?;
    bytes.put_u16(0)?;
    bytes.put_u32(form.forward)?;
    bytes.put_u32(form.backward)?;
    bytes.put_u32(form.uses)?;
    bytes.put_u32(descriptor.len() as u32)?;
    bytes.append(descriptor)?;
    Ok(bytes)
}
