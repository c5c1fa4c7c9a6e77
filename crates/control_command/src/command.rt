//! What a line asks for.

use nt_bytes::{Row, Units};

/// A command.
#[derive(Debug, Drop)]
pub enum ControlCommand {
    /// Start this service and all that it needs.
    Start(Units),
    /// Stop this service.
    Stop(Units),
    /// Stop this service and all that lean on it.
    StopAll(Units),
    /// Name the services that are started.
    Listing,
}

/// Commands, in the order of their lines.
pub type Commands = Row<ControlCommand>;
