//! What a start in safe mode says.

use boot_phases::boot_phases::Phase;
use nt_bytes::{Row, Units};

/// A line of a start in which each attempt goes well. Names are spelled as in the registry.
#[derive(Debug, Drop)]
pub enum SafeLine {
    /// A phase begins.
    Phase(Phase),
    /// This driver or service is started.
    Started(Units),
    /// At the end of a phase this one was never ready.
    Unmet(Units),
}

/// Lines in the order in which they are printed.
pub type SafeLines = Row<SafeLine>;
