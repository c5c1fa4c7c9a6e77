//! Why a draft stops.

ghost use Rattle.std.specs.Prelude.{◌≡◌};
ghost use Rattle.reg_tree.specs.declared.stop.EditStop.TheVariants.{Memory};
ghost use Rattle.tree_draft.specs.declared.stop.DraftStop.TheVariants.{Refused};

use reg_tree::EditStop;
use std::alloc::{AllocError, AllocFailed};

/// Why a step isn't made on a draft.
pub(crate) enum DraftStop {
    Refused(EditStop),
    /// Names of siblings do not rise, or two values have one name, so that no draft serves the tree.
    Disorder,
}

impl From<AllocError> for DraftStop {
    ghost from_gives = { λ _ e. e ≡ Refused Memory };

    fn from(_e: AllocError) -> DraftStop {
        DraftStop::Refused(EditStop::Memory)
    }
}

impl<T: Drop> From<AllocFailed<T>> for DraftStop {
    ghost from_gives = { λ _ e. e ≡ Refused Memory };

    fn from(_e: AllocFailed<T>) -> DraftStop {
        DraftStop::Refused(EditStop::Memory)
    }
}
