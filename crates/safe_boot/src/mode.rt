//! The safe modes, and which of them an entry of boot.ini asks for.

ghost use Rattle.std.specs.Prelude.{◌≡◌, ◌||◌, codes};
ghost use Rattle.nt_bytes.specs.Text.{names_same};
ghost use Rattle.safe_boot.specs.Modes.{mode_of, mode_asked};

use boot_ini::boot_ini::Switches;
use nt_bytes::is_named;

/// A safe mode of the machine.
#[derive(Clone, Copy, Debug, PartialEq, Eq)]
pub enum SafeMode {
    /// `/SAFEBOOT:MINIMAL`, with or without another shell.
    Minimal,
    /// `/SAFEBOOT:NETWORK`.
    Network,
}

/// The mode of the first switch that asks for one, its letters in either case. None exactly where no
/// switch asks for one.
pub fn safe_mode(switches: &Switches) -> Option<SafeMode>
    ensures { result ≡ mode_asked switches.now }
{
    let mut rest = switches.as_slice();
    'switch: loop {
        let [switch, more @ ..] = rest else {
            return None;
        };
        match mode_of(switch.as_slice()) {
            Some(mode) => return Some(mode),
            None => rest = more,
        }
    }
}

fn mode_of(switch: &[u8]) -> Option<SafeMode>
    ensures { result ≡ mode_of switch.now }
{
    if asks_for_minimal(switch) {
        Some(SafeMode::Minimal)
    } else if is_named(switch, b"/SAFEBOOT:NETWORK") {
        Some(SafeMode::Network)
    } else {
        None
    }
}

fn asks_for_minimal(switch: &[u8]) -> bool
    ensures { result ≡ (names_same switch.now (codes "/SAFEBOOT:MINIMAL") || names_same switch.now (codes "/SAFEBOOT:MINIMAL(ALTERNATESHELL)")) }
{
    is_named(switch, b"/SAFEBOOT:MINIMAL") || is_named(switch, b"/SAFEBOOT:MINIMAL(ALTERNATESHELL)")
}
