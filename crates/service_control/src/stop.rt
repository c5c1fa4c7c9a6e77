//! Why a service is not started or stopped.

ghost use Rattle.std.specs.Prelude.{◌≡◌};
ghost use Rattle.service_control.specs.declared.stop.ControlStop.TheVariants as stops;

use nt_bytes::Units;
use std::alloc::AllocError;

/// Why a call did nothing. Names are spelled as in the registry.
#[derive(Debug, Drop)]
pub enum ControlStop {
    /// No driver or service of the set has this name.
    NoService,
    /// The service that is to be started has Start 4.
    Disabled,
    /// The service that is to be started is started.
    Running,
    /// The service that is to be stopped is not started.
    NotStarted,
    /// A name that is needed is no driver or service: the least of them by fold, as it is first spelled in the
    /// DependOnService of what is needed and not started, in the order of the registry.
    Missing(Units),
    /// A service that is needed and not started has Start 4: the least of them by fold.
    NeedDisabled(Units),
    /// Another one leans on the service that is to be stopped: the first of them that was started.
    InUse(Units),
    /// Not all that is needed starts: services need one another in a circle, or a group has no started member.
    Unmet,
    /// There was no memory.
    Memory,
}

impl From<AllocError> for ControlStop {
    ghost from_gives = { λ _ e. e ≡ stops.Memory };

    fn from(_e: AllocError) -> ControlStop {
        ControlStop::Memory
    }
}
