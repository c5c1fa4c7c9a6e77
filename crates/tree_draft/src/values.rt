//! The values of a key.

ghost use Rattle.std.specs.Prelude.{◌≡◌, IfErr, IfOk};
ghost use Rattle.tree_draft.specs.Values.{values_in};
ghost use Rattle.tree_draft.specs.Stops.{RefusesNothing};

use crate::open_values::OpenValues;
use crate::stop::DraftStop;
use reg_tree::Values;
use std::alloc::{AllocError, Global};

/// The values of a key: as they were until a step names one.
#[derive(Drop)]
pub(crate) enum DraftValues {
    Kept(Values),
    Open(OpenValues),
}

impl DraftValues {
    /// The values opened. `Disorder` where two names fold to one.
    pub(crate) fn opened(self, alloc: Global) -> Result<OpenValues, DraftStop>
        ensures opened { IfOk result (λ o. o ≡ values_in self) }
        ensures stopped { IfErr result RefusesNothing }
    {
        match self {
            DraftValues::Kept(values) => OpenValues::of(alloc, values),
            DraftValues::Open(values) => Ok(values),
        }
    }

    /// The values closed again.
    pub(crate) fn closed(self, alloc: Global) -> Result<Values, AllocError>
        ensures { IfOk result (λ v. v ≡ values_in self) }
    {
        match self {
            DraftValues::Kept(values) => Ok(values),
            DraftValues::Open(values) => values.into_values(alloc),
        }
    }
}
