//! Stops that were ordered.

ghost use Rattle.std.specs.Prelude.{◌≡◌, true, false};
ghost use Rattle.mem_edge.specs.Orders.{pending, same_call, is_due, counted_down, keep_at as keep_after};

use nt_edge::{DiskCall, Keep};

/// An order, as it was given.
#[derive(Clone, Copy, Debug)]
pub enum Arming {
    Cut(DiskCall, u32, Keep),
    Fault(DiskCall, u32),
}

/// A stop that is still to come, at the `left`-th call of its kind from now on. What is kept is asked of a cut
/// alone.
#[derive(Clone, Copy, Debug)]
pub struct Armed {
    pub call: DiskCall,
    pub left: u32,
    pub keep: Keep,
}

/// Whether both are one kind.
fn same(a: DiskCall, b: DiskCall) -> bool
    ensures { result ≡ same_call a b }
{
    match (a, b) {
        (DiskCall::Read, DiskCall::Read) => true,
        (DiskCall::Write, DiskCall::Write) => true,
        (DiskCall::Sync, DiskCall::Sync) => true,
        _ => false,
    }
}

/// What remains of the writes in flight after this call: where a cut comes in it, what that was ordered with.
pub fn keep_at(cut: &Option<Armed>, call: DiskCall, keep: Keep) -> Keep
    ensures { result ≡ keep_after cut.now call keep }
{
    match cut {
        Some(a) if same(a.call, call) && a.left <= 1 => a.keep,
        _ => keep,
    }
}

/// Counts a call, and shows whether the stop is due at it, which is then no longer armed.
pub fn comes(armed: &mut Option<Armed>, call: DiskCall) -> bool
    ensures due { result ≡ is_due armed.old call }
    ensures counted { armed.new ≡ counted_down armed.old call }
    ensures came { result ≡ true → (pending armed.old ≡ 1) × (pending armed.new ≡ 0) }
    ensures stays { result ≡ false → pending armed.new ≡ pending armed.old }
{
    match armed {
        Some(a) if same(a.call, call) => {
            if a.left <= 1 {
                *armed = None;
                true
            } else {
                a.left -= 1;
                false
            }
        }
        _ => false,
    }
}
