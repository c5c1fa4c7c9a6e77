//! Cells of big data.

ghost use Rattle.std.specs.Prelude.{◌≡◌, IfOk};
ghost use Rattle.hive_model.specs.Forms.{Gives};
ghost use Rattle.hive_model.specs.BigData.{big_data_at, big_data_text};
ghost use Rattle.cell_forms.specs.Views.{big_data_of};

use crate::names::fault;
use nt_bytes::{Bytes, HiveFaultKind, ReadStop, u16_at, u32_at};
use std::alloc::{AllocError, Global};

/// A cell of big data: how many segments hold the data, and the offset of the list of their offsets
/// in the bins data.
#[derive(Clone, Copy, Debug, PartialEq, Eq)]
pub struct DbForm {
    pub segments: u16,
    pub list: u32,
}

/// Reads a cell of big data. `FormShort` where the payload is shorter than its eight bytes,
/// `FormSign` where it does not begin with `db`; each at `at`.
#[tactic(auto, unfolding(hive_model::specs::BigData::big_data_at))]
pub fn read_db(payload: &[u8], at: u32) -> Result<DbForm, ReadStop>
    ensures { Gives big_data_of at result (big_data_at payload.now) }
{
    if payload.len() < 2 {
        return Err(fault(HiveFaultKind::FormShort, at));
    }
    if u16_at(payload, 0) != 0x6264 {
        return Err(fault(HiveFaultKind::FormSign, at));
    }
    if payload.len() < 8 {
        return Err(fault(HiveFaultKind::FormShort, at));
    }
    Ok(DbForm {
        segments: u16_at(payload, 2),
        list: u32_at(payload, 4),
    })
}

/// The payload that a cell of big data is spelled as.
#[tactic(auto, unfolding(hive_model::specs::BigData::big_data_text))]
pub fn db_bytes(alloc: Global, form: &DbForm) -> Result<Bytes, AllocError>
    ensures { IfOk result (λ b. b ≡ big_data_text (big_data_of form.now)) }
{
    let mut bytes = Bytes::new(alloc);
    bytes.push(0x64)?;
    bytes.push(0x62)?;
    bytes.put_u16(form.segments)?;
    bytes.put_u32(form.list)?;
    Ok(bytes)
}
