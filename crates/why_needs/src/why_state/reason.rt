//! Why no phase takes a name.

ghost use Rattle.std.specs.Prelude.{◌≡◌};
ghost use Rattle.std.specs.Option.{option_copied};
ghost use Rattle.start_model.specs.Entries.{is_driver, is_service};
ghost use Rattle.why_needs.specs.why_state.States.{reason_at, reason_with, reason_in, key_named, reason_of};

use answer_lines::why_lines::Reason;
use nt_names::startup_names::{SERVICES, START, TYPE};
use reg_tree::Key;

/// Whether this Type is that of a driver.
pub(crate) fn is_driver(kind: u32) -> bool
    ensures { result ≡ is_driver kind }
{
    kind & 0x0b != 0
}

/// Whether this Type is that of a service.
pub(crate) fn is_service(kind: u32) -> bool
    ensures { result ≡ is_service kind }
{
    kind & 0x30 != 0 && kind & 0x0b == 0
}

/// Of a key with this Start and this Type.
fn reason_at(start: u32, kind: u32) -> Reason
    ensures { result ≡ reason_at start kind }
{
    if !(is_driver(kind) || is_service(kind)) {
        Reason::Kind
    } else if start == 4 {
        Reason::Disabled
    } else if 4 < start {
        Reason::Beyond
    } else if is_service(kind) && start < 2 {
        Reason::TooEarly
    } else {
        Reason::Demand
    }
}

fn reason_with(start: Option<u32>, kind: Option<u32>) -> Reason
    ensures { result ≡ reason_with start kind }
{
    match start {
        None => Reason::NoStart,
        Some(start) => match kind {
            None => Reason::NoType,
            Some(kind) => reason_at(start, kind),
        },
    }
}

fn reason_in(key: &Key) -> Reason
    ensures { result ≡ reason_in key.now }
{
    reason_with(key.dword(&START), key.dword(&TYPE))
}

/// The key of the services that has the name.
pub fn key_named<'a>(set: &'a Key, name: &[u16]) -> Option<&'a Key>
    ensures { option_copied result ≡ key_named set.now name.now }
{
    set.child(&SERVICES)?.child(name)
}

/// Of a name in a set.
pub(crate) fn reason_of(set: &Key, name: &[u16]) -> Reason
    ensures { result ≡ reason_of set.now name.now }
{
    match key_named(set, name) {
        Some(key) => reason_in(key),
        None => Reason::NoKey,
    }
}
