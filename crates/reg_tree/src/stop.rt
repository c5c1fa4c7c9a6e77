//! Why an edit is refused.

ghost use Rattle.std.specs.Prelude.{◌≡◌};
ghost use Rattle.reg_tree.specs.declared.stop.EditStop.TheVariants.{Memory};

use std::alloc::{AllocError, AllocFailed};
use thiserror::Error;

/// Why steps were not made. The tree is then as it was before all of them.
#[derive(Clone, Copy, Debug, PartialEq, Eq, Error)]
pub enum EditStop {
    /// No key is at the path, no child has the name that is to be copied, or the root was to go.
    #[error("NoKey")]
    NoKey,
    /// The key has no value of this name.
    #[error("NoValue")]
    NoValue,
    /// A key's new name is empty or has a backslash.
    #[error("BadName")]
    BadName,
    /// The root has a child of this name.
    #[error("Exists")]
    Exists,
    /// A key's name is over 255 units, or a value's over 16,383.
    #[error("NameTooLong")]
    NameTooLong,
    /// A key would lie deeper than 512 levels, the root's level being 1.
    #[error("TooDeep")]
    TooDeep,
    /// A value's data are over 1,048,576 bytes.
    #[error("DataTooLong")]
    DataTooLong,
    /// The tree after all steps would have a bulk over 16,773,120 bytes.
    #[error("Full")]
    Full,
    /// There was no memory.
    #[error("Memory")]
    Memory,
}

impl From<AllocError> for EditStop {
    ghost from_gives = { λ _ e. e ≡ Memory };

    fn from(_e: AllocError) -> EditStop {
        EditStop::Memory
    }
}

impl<T: Drop> From<AllocFailed<T>> for EditStop {
    ghost from_gives = { λ _ e. e ≡ Memory };

    fn from(_e: AllocFailed<T>) -> EditStop {
        EditStop::Memory
    }
}
