//! How many bytes cells take.

ghost use Rattle.std.specs.Prelude.{◌≡◌, ◌≤◌, ◌<◌, ◌+◌, length};
ghost use Rattle.hive_model.specs.Limits.{most_bins};
ghost use Rattle.hive_model.specs.Tree.{head};
ghost use Rattle.hive_model.specs.Size.{cell, is_narrow, name_bytes, is_big, segment_count, cells_sum, data_sizes, item_size, items_size, class_size, has_own, security_size, node_size, part_count, list_size};
ghost use Rattle.hive_pack.specs.Writes.{big_size};

use nt_bytes::HiveVersion;
use reg_tree::{Key, Value};

/// How many bytes a full segment of big data holds.
pub(crate) const SEGMENT: usize = 16344;

/// How many bytes the cell of a full segment takes.
pub(crate) const SEGMENT_CELL: usize = 16352;

/// How many bytes a cell takes, by those of its payload.
pub fn cell_size(payload: usize) -> usize
    requires { payload < 2147483648 }
    ensures { result ≡ cell payload }
{
    (payload + 11) / 8 * 8
}

/// Whether one byte is enough for each unit.
pub fn is_narrow(name: &[u16]) -> bool
    ensures { result ≡ is_narrow name.now }
{
    name.iter().all(|u| *u < 256)
}

/// How many bytes a name is stored in.
pub fn name_len(name: &[u16]) -> usize
    requires { length name.now ≤ most_bins }
    ensures { result ≡ name_bytes name.now }
{
    if is_narrow(name) {
        name.len()
    } else {
        2 * name.len()
    }
}

pub(crate) fn node_len(key: &Key) -> usize
    requires { node_size (head key.now) ≤ most_bins }
    ensures { result ≡ node_size (head key.now) }
{
    cell_size(76 + name_len(key.name()))
}

pub(crate) fn class_len(class: &[u8]) -> usize
    requires { class_size class.now ≤ most_bins }
    ensures { result ≡ class_size class.now }
{
    if class.len() == 0 {
        0
    } else {
        cell_size(class.len())
    }
}

/// Whether a descriptor has a cell of its own under a key with the other one.
pub(crate) fn is_own(shared: &[u8], security: &[u8]) -> bool
    ensures { result ≡ has_own shared.now security.now }
{
    if security.is_empty() {
        return false;
    }
    shared != security
}

pub(crate) fn security_len(shared: &[u8], security: &[u8]) -> usize
    requires { security_size shared.now security.now ≤ most_bins }
    ensures { result ≡ security_size shared.now security.now }
{
    if is_own(shared, security) {
        cell_size(20 + security.len())
    } else {
        0
    }
}

/// Whether data of that many bytes are in segments.
pub fn is_big(version: HiveVersion, n: usize) -> bool
    ensures { result ≡ is_big version n }
{
    match version {
        HiveVersion::V3 => false,
        HiveVersion::V5 => n > SEGMENT,
    }
}

/// How many segments that many bytes fill.
pub(crate) fn segment_count(n: usize) -> usize
    requires { n < 2147483648 }
    ensures { result ≡ segment_count n }
{
    (n + 16343) / SEGMENT
}

/// How many bytes the cells of that many bytes in segments take: of `db`, of the list, and of segments
/// that are full but for the last.
#[tactic(auto, using(crate::proofs::Rows::segments_size))]
fn big_len(n: usize) -> usize
    requires some { 0 < n }
    requires few { n < 2147483648 }
    ensures { result ≡ big_size n }
{
    let count = segment_count(n);
    let full = count - 1;
    16 + cell_size(4 * count) + full * SEGMENT_CELL + cell_size(n - full * SEGMENT)
}

/// How many bytes the cells of that many bytes of data take: none where these are in the value.
pub fn data_len(version: HiveVersion, n: usize) -> usize
    requires { n < 2147483648 }
    ensures len { result ≡ cells_sum (data_sizes version n) }
    ensures few { result ≤ 4294967296 }
{
    if is_big(version, n) {
        return big_len(n);
    }
    if n <= 4 {
        return 0;
    }
    cell_size(n)
}

fn value_len(version: HiveVersion, value: &Value) -> usize
    requires { item_size version value.now ≤ most_bins }
    ensures { result ≡ item_size version value.now }
{
    cell_size(20 + name_len(value.name())) + data_len(version, value.data().len())
}

pub(crate) fn values_len(version: HiveVersion, values: &[Value]) -> usize
    requires { items_size version values.now ≤ most_bins }
    ensures { result ≡ items_size version values.now }
{
    if values.is_empty() {
        return 0;
    }
    let mut total = cell_size(4 * values.len());
    let mut rest = values;
    'values: loop {
        let [value, more @ ..] = rest else {
            return total;
        };
        total += value_len(version, value);
        rest = more;
    }
}

/// How many lists that many children fill.
pub fn part_count(n: usize) -> usize
    requires { n ≤ most_bins }
    ensures { result ≡ part_count n }
{
    (n + 499) / 500
}

/// How many bytes the lists of that many children take.
pub fn list_len(n: usize) -> usize
    requires { n ≤ most_bins }
    ensures { result ≡ list_size n }
{
    if n == 0 {
        return 0;
    }
    if n < 501 {
        return cell_size(4 + 8 * n);
    }
    let lists = cell_size(4 + 4 * part_count(n)) + n / 500 * 4008;
    if n % 500 == 0 {
        lists
    } else {
        lists + cell_size(4 + 8 * (n % 500))
    }
}
