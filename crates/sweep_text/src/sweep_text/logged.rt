//! The sectors that a log lists.

ghost use Rattle.std.specs.Prelude.{◌≡◌, ◌≤◌, ◌<◌, ◌+◌, ◌++◌, [], ◌∷◌, if◌then◌else◌, drop, IfOk, OnOk};
ghost use Rattle.hive_model.specs.Recovery.{bit};
ghost use Rattle.sweep_text.specs.sweep_text.Logged.{size_in, listed, logged_of, AreFew};

use hive_log::has_bit;
use nt_bytes::{Row, u32_at};
use std::alloc::{AllocError, Global};

/// What a log lists.
#[derive(Drop)]
pub struct Logged {
    /// How many sectors of the log its bits take.
    pub bitmap: u32,
    /// The sectors of the hive's file whose contents the log has, in rising order.
    pub sectors: Row<u32>,
}

/// The size of the bins data, in bytes.
fn size_in(log: &[u8]) -> u32
    ensures { result ≡ size_in log.now }
{
    if log.len() < 44 { 0 } else { u32_at(log, 40) }
}

/// The bits, and all after them.
fn bits_in(log: &[u8]) -> &[u8]
    ensures { result.now ≡ drop 516 log.now }
{
    if log.len() < 516 {
        &[]
    } else {
        log.split_at(516).1
    }
}

/// Puts a sector at the end where its bit is on.
fn put(sectors: &mut Row<u32>, bits: &[u8], i: u32) -> Result<(), AllocError>
    requires { i < 8388608 }
    ensures { OnOk result (sectors.new ≡ sectors.old ++ (if bit bits.now i then (8 + i) ∷ [] else [])) }
{
    if has_bit(bits, i as usize) {
        sectors.push(8 + i)?;
    }
    Ok(())
}

/// The number of sectors that this number of bits takes.
fn listed(alloc: Global, bits: &[u8], count: u32) -> Result<Row<u32>, AllocError>
    requires { count ≤ 8388608 }
    ensures { IfOk result (λ sectors. sectors ≡ listed (bit bits.now) 0 count) }
{
    let mut sectors = Row::new(alloc);
    for i in 0..count {
        put(&mut sectors, bits, i)?;
    }
    Ok(sectors)
}

/// What a log lists, by its bytes. It asks nothing of them.
#[tactic(auto, unfolding(crate::specs::sweep_text::Logged::logged_of))]
pub fn sectors_of(alloc: Global, log: &[u8]) -> Result<Logged, AllocError>
    ensures exact { IfOk result (λ l. l ≡ logged_of log.now) }
    ensures few { IfOk result AreFew }
{
    let size = size_in(log);
    let sectors = listed(alloc, bits_in(log), size / 512)?;
    let bitmap = (size / 4096 + 515) / 512;
    Ok(Logged { bitmap, sectors })
}
