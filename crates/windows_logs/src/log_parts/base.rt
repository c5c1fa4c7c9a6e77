//! Reading the base block of a large hive, or of a log.

ghost use Rattle.std.specs.Prelude.{◌≡◌, Some, None, IfOk, IfErr, OnOk, true};
ghost use Rattle.nt_bytes.specs.Fields.{u32_in};
ghost use Rattle.hive_model.specs.Base.{first_failing, fields_of, is_minor};
ghost use Rattle.windows_logs.specs.log_parts.Wide as wide;
ghost use Rattle.windows_logs.specs.log_parts.Wide.{is_type, wide_checks, wide_base_of};

use nt_bytes::{HiveFault, HiveFaultKind, u32_at, u64_at};
use regf_base::{BaseBlock, checksum};

/// Whose base block it is.
#[derive(Clone, Copy, Debug, PartialEq, Eq)]
pub enum FileRole {
    Hive,
    Log,
}

/// Reads sector 0 of a hive or of a log. Refuses with the first check that fails and the byte at which it stands.
pub fn read_wide(sector: &[u8; 512], role: FileRole) -> Result<BaseBlock, HiveFault>
    ensures exact { result ≡ wide_base_of sector.now role }
    ensures sized { IfOk result (λ base. wide.is_wide_size base.size ≡ true) }
{
    check(sector, role)?;
    Ok(fields(sector))
}

fn check(sector: &[u8; 512], role: FileRole) -> Result<(), HiveFault>
    ensures ok { OnOk result (first_failing (wide_checks sector.now role) ≡ None) }
    ensures err { IfErr result (λ fault. first_failing (wide_checks sector.now role) ≡ Some fault) }
    ensures sized { OnOk result (wide.is_wide_size (u32_in sector.now 40) ≡ true) }
{
    if !sector.starts_with(b"regf") {
        return Err(fault(HiveFaultKind::NotRegf, 0));
    }
    if u32_at(sector, 508) != checksum(sector) {
        return Err(fault(HiveFaultKind::Checksum, 508));
    }
    if u32_at(sector, 20) != 1 {
        return Err(fault(HiveFaultKind::Version, 20));
    }
    if !is_minor(u32_at(sector, 24)) {
        return Err(fault(HiveFaultKind::Version, 24));
    }
    if !is_type(role, u32_at(sector, 28)) {
        return Err(fault(HiveFaultKind::FileType, 28));
    }
    if u32_at(sector, 32) != 1 {
        return Err(fault(HiveFaultKind::FileType, 32));
    }
    if !is_wide_size(u32_at(sector, 40)) {
        return Err(fault(HiveFaultKind::Size, 40));
    }
    Ok(())
}

fn is_minor(minor: u32) -> bool
    ensures { result ≡ is_minor minor }
{
    minor == 3 || minor == 5
}

fn is_type(role: FileRole, kind: u32) -> bool
    ensures { result ≡ is_type role kind }
{
    match role {
        FileRole::Hive => kind == 0,
        FileRole::Log => kind == 1 || kind == 2 || kind == 6,
    }
}

/// Whether bins data may have this size in bytes: whole bins of 4096, up to 268,431,360.
pub fn is_wide_size(size: u32) -> bool
    ensures { result ≡ wide.is_wide_size size }
{
    size % 4096 == 0 && 4096 <= size && size <= 268_431_360
}

fn fault(kind: HiveFaultKind, at: u32) -> HiveFault
    ensures { result ≡ record { kind = kind; at = at } }
{
    HiveFault { kind, at }
}

fn fields(sector: &[u8; 512]) -> BaseBlock
    ensures { result ≡ fields_of sector.now }
{
    let mut name = [0; 64];
    name.copy_from_slice(&sector[48..112]);
    let mut rest = [0; 396];
    rest.copy_from_slice(&sector[112..508]);
    BaseBlock {
        first: u32_at(sector, 4),
        second: u32_at(sector, 8),
        stamp: u64_at(sector, 12),
        minor: u32_at(sector, 24),
        kind: u32_at(sector, 28),
        root: u32_at(sector, 36),
        size: u32_at(sector, 40),
        cluster: u32_at(sector, 44),
        name,
        rest,
    }
}
