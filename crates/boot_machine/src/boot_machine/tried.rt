//! What came of an attempt.

use boot_phases::error_control::Judgement;
use nt_bytes::Units;

/// What came of an attempt.
#[derive(Debug, Drop)]
pub struct Tried {
    /// The entry's name, as the registry spells it.
    pub name: Units,
    /// Whether it was started.
    pub ok: bool,
    /// What follows from a failure; Ignore where there was none.
    pub judgement: Judgement,
}
