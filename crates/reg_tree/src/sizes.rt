//! How many bytes packed cells take. Sums stay at the greatest number.

ghost use Rattle.std.specs.Prelude.{◌≡◌, ◌+◌, ◌*◌, ◌∷◌};
ghost use Rattle.hive_model.specs.Size.{cell, cells_sum, class_size, data_sizes, is_big, is_narrow, list_size, name_bytes, security_size, segment_count, segment_sizes};
ghost use Rattle.nt_bytes.specs.Counts.{capped};

use nt_bytes::HiveVersion;

/// The cell of a payload of that many bytes.
pub fn cell_size(payload: u64) -> u64
    ensures { result ≡ capped (cell payload) }
{
    match payload.checked_add(11) {
        Some(p) => p / 8 * 8,
        None => u64::MAX,
    }
}

fn is_narrow(name: &[u16]) -> bool
    ensures { result ≡ is_narrow name.now }
{
    name.iter().all(|u| *u < 256)
}

fn name_len(name: &[u16]) -> u64
    ensures { result ≡ capped (name_bytes name.now) }
{
    let len = name.len() as u64;
    if is_narrow(name) {
        len
    } else {
        len.saturating_mul(2)
    }
}

/// The cell of a form of that many bytes and a name after them.
#[tactic(auto, using(crate::proofs::Sums::sums))]
pub fn named_size(form: u64, name: &[u16]) -> u64
    ensures { result ≡ capped (cell (form + name_bytes name.now)) }
{
    cell_size(name_len(name).saturating_add(form))
}

/// Are that many bytes of data written in segments?
fn is_big(version: HiveVersion, len: u64) -> bool
    ensures { result ≡ is_big version len }
{
    match version {
        HiveVersion::V3 => false,
        HiveVersion::V5 => len > 16_344,
    }
}

/// The cells of the segments of big data of `len` bytes.
fn segments_size(len: u64) -> u64
    ensures { result ≡ capped (cells_sum (segment_sizes (segment_count len) len)) }
{
    let full = (len / 16_344).saturating_mul(16_352);
    let rest = len % 16_344;
    if rest == 0 {
        full
    } else {
        full.saturating_add(cell_size(rest))
    }
}

/// The cells of big data of `len` bytes: `db`, the list of the segments, and the segments.
fn big_size(len: u64) -> u64
    ensures { result ≡ capped (cells_sum (8 ∷ 4 * segment_count len ∷ segment_sizes (segment_count len) len)) }
{
    let rest = len % 16_344;
    let count = len / 16_344 + u64::from(rest > 0);
    cell_size(8)
        .saturating_add(cell_size(4 * count))
        .saturating_add(segments_size(len))
}

/// The cells of a value's data of `len` bytes.
pub fn data_size(version: HiveVersion, len: u64) -> u64
    ensures { result ≡ capped (cells_sum (data_sizes version len)) }
{
    if is_big(version, len) {
        return big_size(len);
    }
    if 4 < len { cell_size(len) } else { 0 }
}

/// The cell of a class.
#[tactic(auto, using(crate::proofs::Sums::sums))]
pub fn class_size(class: &[u8]) -> u64
    ensures { result ≡ capped (class_size class.now) }
{
    if class.is_empty() {
        return 0;
    }
    cell_size(class.len() as u64)
}

/// The cell of a descriptor under a key with another one.
#[tactic(auto, using(crate::proofs::Sums::sums))]
pub fn security_size(shared: &[u8], security: &[u8]) -> u64
    ensures { result ≡ capped (security_size shared.now security.now) }
{
    if security.is_empty() {
        return 0;
    }
    if shared == security {
        return 0;
    }
    cell_size((security.len() as u64).saturating_add(20))
}

/// The lists of that many children.
#[tactic(auto, using(crate::proofs::Sums::sums))]
pub fn list_size(n: u64) -> u64
    ensures { result ≡ capped (list_size n) }
{
    if n == 0 {
        return 0;
    }
    if n < 501 {
        return cell_size(4 + 8 * n);
    }
    let full = n / 500;
    let rest = n % 500;
    if rest == 0 {
        let lists = cell_size(4 + 4 * full);
        return lists.saturating_add(full.saturating_mul(4008));
    }
    let lists = cell_size(4 + 4 * (full + 1));
    lists
        .saturating_add(full.saturating_mul(4008))
        .saturating_add(cell_size(4 + 8 * rest))
}
