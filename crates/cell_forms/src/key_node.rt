//! Key nodes.

ghost use Rattle.std.specs.Prelude.{◌≡◌, ◌<◌, ◌≤◌, ◌∷◌, ℕ, ◌++◌, true, length, slice_index, IfOk, IfErr, OnOk};
ghost use Rattle.std.specs.Int.{w16, w32, w64, to_le_bytes};
ghost use Rattle.hive_model.specs.StoredNames.{name_text};
ghost use Rattle.nt_bytes.specs.declared.fault.ReadStop.TheVariants.{Memory};
ghost use Rattle.hive_model.specs.Forms.{Gives};
ghost use Rattle.hive_model.specs.KeyNode.{is_narrow_key, key_node_in, key_node_at, key_node_text};
ghost use Rattle.cell_forms.specs.Views.{key_node_of, name_of, node_seen};
ghost use Rattle.hive_model.specs.Valid.{longest_key_name};

use crate::names::{append_name, fault, name_size, see_key_name};
use crate::stored::StoredName;
use nt_bytes::{Bytes, HiveFaultKind, ReadStop, Units, u16_at, u32_at, u64_at};
use std::alloc::{AllocError, Global};

/// A key node, its numbers as they are stored. Offsets are bytes in the bins data, 0xFFFFFFFF is
/// none. `flags` has the bit 0x0020 where the name is stored with one byte a unit.
#[derive(Debug, Drop)]
pub struct NkForm {
    pub flags: u16,
    pub stamp: u64,
    pub parent: u32,
    pub child_count: u32,
    pub volatile_count: u32,
    pub child_list: u32,
    pub volatile_list: u32,
    pub value_count: u32,
    pub value_list: u32,
    pub security: u32,
    pub class: u32,
    pub greatest_child_name: u32,
    pub greatest_child_class: u32,
    pub greatest_value_name: u32,
    pub greatest_value_size: u32,
    pub class_length: u16,
    pub name: Units,
}

/// Is a key's name stored with one byte a unit?
fn is_narrow(flags: u16) -> bool
    ensures { result ≡ is_narrow_key flags }
{
    flags / 0x20 % 2 == 1
}

/// A key node, its name where it stands.
#[derive(Drop)]
pub struct NkSlice<'a> {
    pub flags: u16,
    pub stamp: u64,
    pub parent: u32,
    pub child_count: u32,
    pub volatile_count: u32,
    pub child_list: u32,
    pub volatile_list: u32,
    pub value_count: u32,
    pub value_list: u32,
    pub security: u32,
    pub class: u32,
    pub greatest_child_name: u32,
    pub greatest_child_class: u32,
    pub greatest_value_name: u32,
    pub greatest_value_size: u32,
    pub class_length: u16,
    pub name: StoredName<'a>,
}

/// The name of the key node in a payload, or why it holds none, as `see_nk` says.
#[tactic(auto, unfolding(hive_model::specs::KeyNode::key_node_at))]
fn see_name(payload: &[u8], at: u32) -> Result<StoredName<'_>, ReadStop>
    ensures read { Gives (λ n. key_node_in payload.now (name_of n)) at result (key_node_at payload.now) }
    ensures long { IfOk result (λ _. 76 ≤ length payload.now) }
    ensures no_memory { IfErr result (λ stop. stop ≡ Memory → ⊥) }
{
    if payload.len() < 2 {
        return Err(fault(HiveFaultKind::FormShort, at));
    }
    if u16_at(payload, 0) != 0x6b6e {
        return Err(fault(HiveFaultKind::FormSign, at));
    }
    if payload.len() < 76 {
        return Err(fault(HiveFaultKind::FormShort, at));
    }
    let end = 76 + usize::from(u16_at(payload, 72));
    if payload.len() < end {
        return Err(fault(HiveFaultKind::FormShort, at));
    }
    let is_narrow = is_narrow(u16_at(payload, 2));
    let name = see_key_name(is_narrow, &payload[76..end], at)?;
    Ok(name)
}

/// Reads a key node. `FormShort` where the payload is shorter than the fixed part or the name,
/// `FormSign` where it does not begin with `nk`, `FormLength` where a wide name has half a unit,
/// `FormName` where the name is over 255 units or has a backslash; each at `at`.
pub fn see_nk(payload: &[u8], at: u32) -> Result<NkSlice<'_>, ReadStop>
    ensures exact { Gives node_seen at result (key_node_at payload.now) }
    ensures no_memory { IfErr result (λ stop. stop ≡ Memory → ⊥) }
{
    let name = see_name(payload, at)?;
    Ok(fields(payload, name))
}

/// The fields of a payload, with this name.
fn fields<'a>(payload: &[u8], name: StoredName<'a>) -> NkSlice<'a>
    requires { 76 ≤ length payload.now }
    ensures { node_seen result ≡ key_node_in payload.now (name_of name.entry) }
{
    NkSlice {
        flags: u16_at(payload, 2),
        stamp: u64_at(payload, 4),
        parent: u32_at(payload, 16),
        child_count: u32_at(payload, 20),
        volatile_count: u32_at(payload, 24),
        child_list: u32_at(payload, 28),
        volatile_list: u32_at(payload, 32),
        value_count: u32_at(payload, 36),
        value_list: u32_at(payload, 40),
        security: u32_at(payload, 44),
        class: u32_at(payload, 48),
        greatest_child_name: u32_at(payload, 52),
        greatest_child_class: u32_at(payload, 56),
        greatest_value_name: u32_at(payload, 60),
        greatest_value_size: u32_at(payload, 64),
        class_length: u16_at(payload, 74),
        name,
    }
}

impl NkSlice<'_> {
    /// The same with a name of its own.
    pub fn owned(&self, alloc: Global) -> Result<NkForm, AllocError>
        ensures { IfOk result (λ f. key_node_of f ≡ node_seen self.now) }
    {
        let name = self.name.units(alloc)?;
        Ok(NkForm {
            flags: self.flags,
            stamp: self.stamp,
            parent: self.parent,
            child_count: self.child_count,
            volatile_count: self.volatile_count,
            child_list: self.child_list,
            volatile_list: self.volatile_list,
            value_count: self.value_count,
            value_list: self.value_list,
            security: self.security,
            class: self.class,
            greatest_child_name: self.greatest_child_name,
            greatest_child_class: self.greatest_child_class,
            greatest_value_name: self.greatest_value_name,
            greatest_value_size: self.greatest_value_size,
            class_length: self.class_length,
            name,
        })
    }
}

/// Reads a key node as `see_nk` does, with a name of its own.
pub fn read_nk(alloc: Global, payload: &[u8], at: u32) -> Result<NkForm, ReadStop>
    ensures { Gives key_node_of at result (key_node_at payload.now) }
{
    let seen = see_nk(payload, at)?;
    Ok(seen.owned(alloc)?)
}

/// Appends the parent, the counts of children and of values, and where their lists are.
fn put_lists(bytes: &mut Bytes, form: &NkForm) -> Result<(), AllocError>
    ensures { OnOk result (bytes.new ≡ bytes.old ++ to_le_bytes w32 form.now.parent
        ++ to_le_bytes w32 form.now.child_count ++ to_le_bytes w32 form.now.volatile_count
        ++ to_le_bytes w32 form.now.child_list ++ to_le_bytes w32 form.now.volatile_list ++ to_le_bytes w32 form.now.value_count
        ++ to_le_bytes w32 form.now.value_list) }
{
    bytes.put_u32(form.parent)?;
    bytes.put_u32(form.child_count)?;
    bytes.put_u32(form.volatile_count)?;
    bytes.put_u32(form.child_list)?;
    bytes.put_u32(form.volatile_list)?;
    bytes.put_u32(form.value_count)?;
    bytes.put_u32(form.value_list)
}

/// Appends the rest of the numbers before the two lengths.
fn put_greatest(bytes: &mut Bytes, form: &NkForm) -> Result<(), AllocError>
    ensures { OnOk result (bytes.new ≡ bytes.old ++ to_le_bytes w32 form.now.security ++ to_le_bytes w32 form.now.class
        ++ to_le_bytes w32 form.now.greatest_child_name ++ to_le_bytes w32 form.now.greatest_child_class
        ++ to_le_bytes w32 form.now.greatest_value_name ++ to_le_bytes w32 form.now.greatest_value_size ++ to_le_bytes w32 0) }
{
    bytes.put_u32(form.security)?;
    bytes.put_u32(form.class)?;
    bytes.put_u32(form.greatest_child_name)?;
    bytes.put_u32(form.greatest_child_class)?;
    bytes.put_u32(form.greatest_value_name)?;
    bytes.put_u32(form.greatest_value_size)?;
    bytes.put_u32(0)
}

/// The signature, the flags, the stamp and a field without a name.
fn head_bytes(alloc: Global, form: &NkForm) -> Result<Bytes, AllocError>
    ensures { IfOk result (λ b. b ≡ 0x6e ∷ 0x6b ∷ (to_le_bytes w16 form.now.flags ++ to_le_bytes w64 form.now.stamp ++ to_le_bytes w32 0)) }
{
    let mut bytes = Bytes::new(alloc);
    bytes.push(0x6e)?;
    bytes.push(0x6b)?;
    bytes.put_u16(form.flags)?;
    bytes.append(&form.stamp.to_le_bytes())?;
    bytes.put_u32(0)?;
    Ok(bytes)
}

/// Appends the two lengths and the name.
fn put_name(bytes: &mut Bytes, form: &NkForm) -> Result<(), AllocError>
    requires short { length form.now.name ≤ longest_key_name }
    requires narrow { is_narrow_key form.now.flags ≡ true → (k : ℕ) → slice_index form.now.name k < 256 }
    ensures { OnOk result (bytes.new ≡ bytes.old ++ to_le_bytes w16 (length (name_text (is_narrow_key form.now.flags) form.now.name))
        ++ to_le_bytes w16 form.now.class_length ++ name_text (is_narrow_key form.now.flags) form.now.name) }
{
    let name = form.name.as_slice();
    let is_narrow = is_narrow(form.flags);
    bytes.put_u16(name_size(is_narrow, name) as u16)?;
    bytes.put_u16(form.class_length)?;
    append_name(bytes, is_narrow, name)
}

/// The payload that a key node is spelled as. The two fields without a name are zero.
#[tactic(auto, unfolding(hive_model::specs::KeyNode::key_node_text))]
pub fn nk_bytes(alloc: Global, form: &NkForm) -> Result<Bytes, AllocError>
    requires short { length form.now.name ≤ longest_key_name }
    requires narrow { is_narrow_key form.now.flags ≡ true → (k : ℕ) → slice_index form.now.name k < 256 }
    ensures { IfOk result (λ b. b ≡ key_node_text (key_node_of form.now)) }
{
    let mut bytes = head_bytes(alloc, form)?;
    put_lists(&mut bytes, form)?;
    put_greatest(&mut bytes, form)?;
    put_name(&mut bytes, form)?;
    Ok(bytes)
}
