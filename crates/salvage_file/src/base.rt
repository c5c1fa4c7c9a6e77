//! The checks of a base block, and its fields.

ghost use Rattle.std.specs.Prelude.{◌≡◌, ◌++◌, ◌≤◌, take, drop, IfOk, OnOk};
ghost use Rattle.hive_model.specs.Base.{fields_of, is_minor};
ghost use Rattle.salvage_file.specs.Faults.{base_faults, bins_length, bins_of, checks_of, failing, has_signature, head_of, unless};

use nt_bytes::{Bytes, HiveFault, HiveFaultKind, Row, u32_at, u64_at};
use regf_base::{BaseBlock, checksum};
use std::alloc::{AllocError, Global};
use windows_logs::log_parts::is_wide_size;

/// Sector 0 of a file of whole sectors, or zeros where there is none.
pub(crate) fn head_of(file: &[u8]) -> [u8; 512]
    ensures { result ≡ head_of file.now }
{
    let mut head = [0; 512];
    if file.len() >= 512 {
        head.copy_from_slice(&file[..512]);
    }
    head
}

/// Appends this fault, unless the check holds.
pub(crate) fn push_unless(
    faults: &mut Row<HiveFault>,
    holds: bool,
    kind: HiveFaultKind,
    at: u32,
) -> Result<(), AllocError>
    ensures { OnOk result (faults.new ≡ faults.old ++ unless holds (record { kind = kind; at = at })) }
{
    if holds {
        return Ok(());
    }
    faults.push(HiveFault { kind, at })
}

fn is_minor(minor: u32) -> bool
    ensures { result ≡ is_minor minor }
{
    minor == 3 || minor == 5
}

// The faults of a sector that has the signature.
fn failing(alloc: Global, sector: &[u8; 512], kind: u32) -> Result<Row<HiveFault>, AllocError>
    ensures { IfOk result (λ faults. faults ≡ failing (checks_of sector.now kind)) }
{
    let mut faults = Row::new(alloc);
    let sum = u32_at(sector, 508) == checksum(sector);
    push_unless(&mut faults, sum, HiveFaultKind::Checksum, 508)?;
    let major = u32_at(sector, 20) == 1;
    push_unless(&mut faults, major, HiveFaultKind::Version, 20)?;
    let minor = is_minor(u32_at(sector, 24));
    push_unless(&mut faults, minor, HiveFaultKind::Version, 24)?;
    let file_type = u32_at(sector, 28) == kind;
    push_unless(&mut faults, file_type, HiveFaultKind::FileType, 28)?;
    let format = u32_at(sector, 32) == 1;
    push_unless(&mut faults, format, HiveFaultKind::FileType, 32)?;
    let size = is_wide_size(u32_at(sector, 40));
    push_unless(&mut faults, size, HiveFaultKind::Size, 40)?;
    Ok(faults)
}

/// Does a sector 0 have the signature?
pub(crate) fn has_signature(sector: &[u8; 512]) -> bool
    ensures { result ≡ has_signature sector.now }
{
    sector.starts_with(b"regf")
}

/// The faults of a sector 0 in a file of this kind, 0 for a hive and 1 for its log.
#[tactic(auto, unfolding(crate::specs::Faults::base_faults))]
pub(crate) fn base_faults(
    alloc: Global,
    sector: &[u8; 512],
    kind: u32,
) -> Result<Row<HiveFault>, AllocError>
    ensures { IfOk result (λ faults. faults ≡ base_faults sector.now kind) }
{
    if has_signature(sector) {
        return failing(alloc, sector, kind);
    }
    let mut faults = Row::new(alloc);
    push_unless(&mut faults, false, HiveFaultKind::NotRegf, 0)?;
    Ok(faults)
}

/// The fields at their places.
pub(crate) fn fields(sector: &[u8; 512]) -> BaseBlock
    ensures { result ≡ fields_of sector.now }
{
    let mut name = [0; 64];
    name.copy_from_slice(&sector[48..112]);
    let mut rest = [0; 396];
    rest.copy_from_slice(&sector[112..508]);
    BaseBlock {
        first: u32_at(sector, 4),
        second: u32_at(sector, 8),
        stamp: u64_at(sector, 12),
        minor: u32_at(sector, 24),
        kind: u32_at(sector, 28),
        root: u32_at(sector, 36),
        size: u32_at(sector, 40),
        cluster: u32_at(sector, 44),
        name,
        rest,
    }
}

fn bins_length(size: u32) -> usize
    ensures exact { result ≡ bins_length size }
    ensures small { result ≤ 268431360 }
{
    if is_wide_size(size) {
        size as usize
    } else {
        268_431_360
    }
}

// The bytes from one on.
fn from_byte(bytes: &[u8], at: usize) -> &[u8]
    ensures { result.now ≡ drop at bytes.now }
{
    if bytes.len() <= at {
        return &[];
    }
    &bytes[at..]
}

// The first bytes, at most that many.
fn first_bytes(bytes: &[u8], count: usize) -> &[u8]
    ensures { result.now ≡ take count bytes.now }
{
    if bytes.len() <= count {
        return bytes;
    }
    &bytes[..count]
}

/// The bins data of a file, for this size.
pub(crate) fn bins_of(alloc: Global, file: &[u8], size: u32) -> Result<Bytes, AllocError>
    ensures { IfOk result (λ b. b ≡ bins_of file.now size) }
{
    Bytes::from_slice(alloc, first_bytes(from_byte(file, 4096), bins_length(size)))
}
