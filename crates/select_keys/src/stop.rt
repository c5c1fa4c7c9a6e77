//! Why there is no plan.

ghost use Rattle.std.specs.Prelude.{◌≡◌};
ghost use Rattle.select_keys.specs.declared.stop.SelectStop.TheVariants.{Memory};

use std::alloc::{AllocError, AllocFailed};
use thiserror::Error;

/// Why a beginning or a save has no plan. Nothing was changed.
#[derive(Clone, Copy, Debug, PartialEq, Eq, Error)]
pub enum SelectStop {
    /// Default is to be taken, and names no set.
    #[error("NoControlSet")]
    NoControlSet,
    /// LastKnownGood is to be taken, and names no set.
    #[error("NoLastKnownGood")]
    NoLastKnownGood,
    /// A set is to be copied or added, and each number from 1 to 999 names one.
    #[error("NoFreeNumber")]
    NoFreeNumber,
    /// There is a plan, but no memory for it.
    #[error("Memory")]
    Memory,
}

impl From<AllocError> for SelectStop {
    ghost from_gives = { λ _ e. e ≡ Memory };

    fn from(_e: AllocError) -> SelectStop {
        SelectStop::Memory
    }
}
