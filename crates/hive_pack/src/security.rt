//! Security cells: which descriptors have one, how many keys use it, and their ring.

ghost use Rattle.std.specs.Prelude.{◌≡◌, ◌≤◌, ◌+◌, ◌++◌, length, OnOk};
ghost use Rattle.hive_model.specs.Limits.{most_bins};
ghost use Rattle.hive_model.specs.Tree.{head, trees};
ghost use Rattle.hive_model.specs.Size.{node_size, class_size, security_size};
ghost use Rattle.hive_model.specs.Packed.{below, security_place_of, security_cells, sharers, sharers_of_all, text, forward, backward};
ghost use Rattle.hive_pack.specs.Writes.{above, IsRising};

use crate::forms::NOWHERE;
use crate::sizes::{class_len, is_own, node_len};
use crate::values::put_cell;
use cell_forms::{SkForm, sk_bytes};
use nt_bytes::Bytes;
use reg_tree::Key;
use std::alloc::{AllocError, Global};

/// What is passed to the children of a key: where it stands, its descriptor, where that stands, and
/// the places of all security cells in rising order.
#[derive(Clone, Copy)]
pub(crate) struct Up<'a> {
    pub place: u32,
    pub security: &'a [u8],
    pub security_place: u32,
    pub ring: &'a [u32],
}

/// Where the descriptor of a key stands, which would have its own cell at this place.
pub(crate) fn security_place(up: Up<'_>, place: u32, security: &[u8]) -> u32
    ensures { result ≡ security_place_of (above up.entry) place security.now }
{
    if security.is_empty() {
        return NOWHERE;
    }
    if is_own(up.security, security) {
        place
    } else {
        up.security_place
    }
}

/// What a key passes to its children whose cells begin here.
pub(crate) fn below_up<'a>(up: Up<'a>, at: usize, key: &'a Key) -> Up<'a>
    requires { at + node_size (head key.now) + class_size (head key.now).class ≤ most_bins }
    ensures { above result ≡ below (above up.entry) at (head key.entry.now) }
{
    let own_at = at + node_len(key) + class_len(key.class());
    Up {
        place: at as u32,
        security: key.security(),
        security_place: security_place(up, own_at as u32, key.security()),
        ring: up.ring,
    }
}

/// How many keys use this descriptor with the key above them.
#[cycle(sharers)]
pub(crate) fn sharers(security: &[u8], key: &Key) -> u32
    requires { sharers security.now key.now ≤ most_bins }
    ensures { result ≡ sharers security.now key.now }
{
    if security == key.security() {
        1 + sharers_of_all(security, key.subkeys())
    } else {
        0
    }
}

#[cycle(sharers)]
fn sharers_of_all(security: &[u8], keys: &[Key]) -> u32
    requires { sharers_of_all security.now (trees keys.now) ≤ most_bins }
    ensures { result ≡ sharers_of_all security.now (trees keys.now) }
{
    let mut found = 0;
    let mut rest = keys;
    'keys: loop {
        let [key, more @ ..] = rest else {
            return found;
        };
        found += sharers(security, key);
        rest = more;
    }
}

/// The security cell after the one at this place, in the ring.
fn forward(ring: &[u32], at: u32) -> u32
    requires { IsRising ring.now }
    ensures { result ≡ forward ring.now at }
{
    if ring.len() == 0 {
        return 0;
    }
    match ring.binary_search(&at) {
        Ok(i) => {
            if i + 1 < ring.len() {
                ring[i + 1]
            } else {
                ring[0]
            }
        }
        Err(_) => ring[0],
    }
}

/// The security cell before the one at this place, in the ring.
fn backward(ring: &[u32], at: u32) -> u32
    requires { IsRising ring.now }
    ensures { result ≡ backward ring.now at }
{
    if ring.len() == 0 {
        return 0;
    }
    let last = ring[ring.len() - 1];
    match ring.binary_search(&at) {
        Ok(i) => { if i > 0 { ring[i - 1] } else { last } }
        Err(_) => last,
    }
}

/// Writes the security cell of a key, if it has its own.
#[tactic(auto, unfolding(hive_model::specs::Packed::security_cells), using(crate::proofs::Rows::lengths))]
pub(crate) fn write_security(
    alloc: Global,
    out: &mut Bytes,
    up: Up<'_>,
    security: &[u8],
    keys: &[Key],
) -> Result<(), AllocError>
    requires rising { IsRising up.ring.now }
    requires room { length out.old + security_size up.security.now security.now ≤ most_bins }
    requires few { sharers_of_all security.now (trees keys.now) ≤ most_bins }
    ensures { OnOk result (out.new ≡ out.old
        ++ text (security_cells (above up.entry) (length out.old) security.now (sharers_of_all security.now (trees keys.now)))) }
{
    if is_own(up.security, security) {
        let at = out.len() as u32;
        let form = SkForm {
            forward: forward(up.ring, at),
            backward: backward(up.ring, at),
            uses: 1 + sharers_of_all(security, keys),
            descriptor: Bytes::from_slice(alloc, security)?,
        };
        let cell = sk_bytes(alloc, &form)?;
        put_cell(out, cell.as_slice())?;
    }
    Ok(())
}
