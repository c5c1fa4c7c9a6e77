//! Key values.

ghost use Rattle.std.specs.Prelude.{◌≡◌, ◌<◌, ◌≤◌, ℕ, true, length, slice_index, IfOk, IfErr};
ghost use Rattle.nt_bytes.specs.declared.fault.ReadStop.TheVariants.{Memory};
ghost use Rattle.hive_model.specs.Forms.{Gives};
ghost use Rattle.hive_model.specs.KeyValue.{is_narrow_value, key_value_at, key_value_text};
ghost use Rattle.hive_model.specs.KeyValue.{data_inside as data_inside_of};
ghost use Rattle.cell_forms.specs.Views.{key_value_of, value_seen};
ghost use Rattle.hive_model.specs.Valid.{longest_value_name};

use crate::names::{append_name, fault, name_size, see_value_name};
use crate::stored::StoredName;
use nt_bytes::{Bytes, HiveFaultKind, ReadStop, Units, u16_at, u32_at};
use std::alloc::{AllocError, Global};

/// A value, its numbers as they are stored. `size` is bytes of data; with its top bit set the data
/// are the first bytes of the offset field. `flags` has the bit 1 where the name is stored with
/// one byte a unit.
#[derive(Debug, Drop)]
pub struct VkForm {
    pub size: u32,
    pub offset: u32,
    pub kind: u32,
    pub flags: u16,
    pub name: Units,
}

/// Is a value's name stored with one byte a unit?
fn is_narrow(flags: u16) -> bool
    ensures { result ≡ is_narrow_value flags }
{
    flags % 2 == 1
}

/// A value, its name where it stands.
#[derive(Drop)]
pub struct VkSlice<'a> {
    pub size: u32,
    pub offset: u32,
    pub kind: u32,
    pub flags: u16,
    pub name: StoredName<'a>,
}

/// Reads a value. `FormShort` where the payload is shorter than the fixed part or the name,
/// `FormSign` where it does not begin with `vk`, `FormLength` where data in place are over 4 bytes
/// or a wide name has half a unit, `FormName` where the name is over 16,383 units; each at `at`.
#[tactic(auto, unfolding(hive_model::specs::KeyValue::key_value_at))]
pub fn see_vk(payload: &[u8], at: u32) -> Result<VkSlice<'_>, ReadStop>
    ensures exact { Gives value_seen at result (key_value_at payload.now) }
    ensures no_memory { IfErr result (λ stop. stop ≡ Memory → ⊥) }
{
    if payload.len() < 2 {
        return Err(fault(HiveFaultKind::FormShort, at));
    }
    if u16_at(payload, 0) != 0x6b76 {
        return Err(fault(HiveFaultKind::FormSign, at));
    }
    if payload.len() < 20 {
        return Err(fault(HiveFaultKind::FormShort, at));
    }
    let end = 20 + usize::from(u16_at(payload, 2));
    if payload.len() < end {
        return Err(fault(HiveFaultKind::FormShort, at));
    }
    let size = u32_at(payload, 4);
    if size > 0x8000_0004 {
        return Err(fault(HiveFaultKind::FormLength, at));
    }
    let flags = u16_at(payload, 16);
    let name = see_value_name(is_narrow(flags), &payload[20..end], at)?;
    Ok(VkSlice {
        size,
        offset: u32_at(payload, 8),
        kind: u32_at(payload, 12),
        flags,
        name,
    })
}

impl VkSlice<'_> {
    /// The same with a name of its own.
    pub fn owned(&self, alloc: Global) -> Result<VkForm, AllocError>
        ensures { IfOk result (λ f. key_value_of f ≡ value_seen self.now) }
    {
        let name = self.name.units(alloc)?;
        Ok(VkForm {
            size: self.size,
            offset: self.offset,
            kind: self.kind,
            flags: self.flags,
            name,
        })
    }
}

/// Reads a value as `see_vk` does, with a name of its own.
pub fn read_vk(alloc: Global, payload: &[u8], at: u32) -> Result<VkForm, ReadStop>
    ensures { Gives key_value_of at result (key_value_at payload.now) }
{
    let seen = see_vk(payload, at)?;
    Ok(seen.owned(alloc)?)
}

/// The data that the value holds itself, in place or empty; none where a cell of their own at
/// `offset` holds them.
pub fn data_inside(alloc: Global, form: &VkForm) -> Result<Option<Bytes>, AllocError>
    ensures { IfOk result (λ d. d ≡ data_inside_of (key_value_of form.now)) }
{
    if form.size >= 0x8000_0000 {
        let length = (form.size - 0x8000_0000).min(4) as usize;
        return Ok(Some(Bytes::from_slice(alloc, &form.offset.to_le_bytes()[..length])?));
    }
    if form.size == 0 {
        return Ok(Some(Bytes::new(alloc)));
    }
    Ok(None)
}

/// The payload that a value is spelled as. The field without a name is zero.
#[tactic(auto, unfolding(hive_model::specs::KeyValue::key_value_text))]
pub fn vk_bytes(alloc: Global, form: &VkForm) -> Result<Bytes, AllocError>
    requires short { length form.now.name ≤ longest_value_name }
    requires narrow { is_narrow_value form.now.flags ≡ true → (k : ℕ) → slice_index form.now.name k < 256 }
    ensures { IfOk result (λ b. b ≡ key_value_text (key_value_of form.now)) }
{
    let name = form.name.as_slice();
    let is_narrow = is_narrow(form.flags);
    let mut bytes = Bytes::new(alloc);
    bytes.push(0x76)?;
    bytes.push(0x6b)?;
    bytes.put_u16(name_size(is_narrow, name) as u16)?;
    bytes.put_u32(form.size)?;
    bytes.put_u32(form.offset)?;
    bytes.put_u32(form.kind)?;
    bytes.put_u16(form.flags)?;
    bytes.put_u16(0)?;
    append_name(&mut bytes, is_narrow, name)?;
    Ok(bytes)
}
