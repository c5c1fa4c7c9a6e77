//! Reading a base block.

ghost use Rattle.std.specs.Prelude.{◌≡◌, Result, Ok, Err, Some, None, OnOk, IfErr};
ghost use Rattle.hive_model.specs.Base.{Base, base_of, base_checks, first_failing, fields_of, is_bins_size, is_minor, version_of};

use crate::sum::checksum;
use nt_bytes::{HiveFault, HiveFaultKind, HiveVersion, u32_at, u64_at};
use std::marker::Model;

/// The greatest size of bins data, in bytes: 16 MiB.
const MOST_BINS: u32 = 16_777_216;

/// The fields of a base block.
#[derive(Clone, Copy, Debug, PartialEq, Eq)]
pub struct BaseBlock {
    /// Primary sequence number, raised before a commit writes the bins.
    pub first: u32,
    /// Secondary sequence number, equal to the first once all is written.
    pub second: u32,
    /// Last-written stamp.
    pub stamp: u64,
    /// Minor version, 3 or 5 where it was read.
    pub minor: u32,
    /// File type: 0 primary, 1 log.
    pub kind: u32,
    /// Offset of the root cell in the bins data.
    pub root: u32,
    /// Size of the bins data in bytes.
    pub size: u32,
    /// Clustering factor.
    pub cluster: u32,
    /// File name.
    pub name: [u8; 64],
    /// The bytes from 112 on, kept as they are.
    pub rest: [u8; 396],
}

impl Model for BaseBlock {
    ghost use Rattle.hive_model.specs.Base.{Base};

    ghost Value = { Base };

    ghost view = { λ a. record {
      first = a.first;
      second = a.second;
      stamp = a.stamp;
      minor = a.minor;
      kind = a.kind;
      root = a.root;
      size = a.size;
      cluster = a.cluster;
      name = a.name;
      rest = a.rest;
    } };

    ghost inverse = { λ b. record {
      first = b.first;
      second = b.second;
      stamp = b.stamp;
      minor = b.minor;
      kind = b.kind;
      root = b.root;
      size = b.size;
      cluster = b.cluster;
      name = b.name;
      rest = b.rest;
    } };
}

impl BaseBlock {
    /// The version of the format that the minor version is.
    pub fn version(&self) -> HiveVersion
        ensures { result ≡ version_of self.now.minor }
    {
        if self.minor == 5 {
            HiveVersion::V5
        } else {
            HiveVersion::V3
        }
    }
}

/// Reads sector 0 of a file of this kind: 0 for a primary, 1 for a log. Refuses with the first check
/// that fails and the byte at which it stands.
pub fn read_base(sector: &[u8; 512], kind: u32) -> Result<BaseBlock, HiveFault>
    ensures { result ≡ base_of sector.now kind }
{
    check(sector, kind)?;
    Ok(fields(sector))
}

fn check(sector: &[u8; 512], kind: u32) -> Result<(), HiveFault>
    ensures ok { OnOk result (first_failing (base_checks sector.now kind) ≡ None) }
    ensures err { IfErr result (λ fault. first_failing (base_checks sector.now kind) ≡ Some fault) }
{
    if !sector.starts_with(b"regf") {
        return Err(fault(HiveFaultKind::NotRegf, 0));
    }
    if u32_at(sector, 508) != checksum(sector) {
        return Err(fault(HiveFaultKind::Checksum, 508));
    }
    if u32_at(sector, 20) != 1 {
        return Err(fault(HiveFaultKind::Version, 20));
    }
    if !is_minor(u32_at(sector, 24)) {
        return Err(fault(HiveFaultKind::Version, 24));
    }
    if u32_at(sector, 28) != kind {
        return Err(fault(HiveFaultKind::FileType, 28));
    }
    if u32_at(sector, 32) != 1 {
        return Err(fault(HiveFaultKind::FileType, 32));
    }
    if !is_size(u32_at(sector, 40)) {
        return Err(fault(HiveFaultKind::Size, 40));
    }
    Ok(())
}

fn is_minor(minor: u32) -> bool
    ensures { result ≡ is_minor minor }
{
    minor == 3 || minor == 5
}

fn is_size(size: u32) -> bool
    ensures { result ≡ is_bins_size size }
{
    size % 4096 == 0 && 4096 <= size && size <= MOST_BINS
}

fn fault(kind: HiveFaultKind, at: u32) -> HiveFault
    ensures { result ≡ record { kind = kind; at = at } }
{
    HiveFault { kind, at }
}

fn fields(sector: &[u8; 512]) -> BaseBlock
    ensures { result ≡ fields_of sector.now }
{
    let mut name = [0; 64];
    name.copy_from_slice(&sector[48..112]);
    let mut rest = [0; 396];
    rest.copy_from_slice(&sector[112..508]);
    BaseBlock {
        first: u32_at(sector, 4),
        second: u32_at(sector, 8),
        stamp: u64_at(sector, 12),
        minor: u32_at(sector, 24),
        kind: u32_at(sector, 28),
        root: u32_at(sector, 36),
        size: u32_at(sector, 40),
        cluster: u32_at(sector, 44),
        name,
        rest,
    }
}
