//! Why an event is refused.

/// Why an event is refused before it is looked at any further.
#[derive(Clone, Copy, Debug, PartialEq, Eq)]
pub enum EventRefusal {
    /// No start runs.
    Off,
    /// A start runs already.
    Running,
    /// A logon before the automatic phase.
    Early,
    /// A second logon in a start.
    Again,
    /// All phases are over.
    Idle,
    /// An edit of `Select`, of a set by its number, or that makes or removes the taken set.
    Protected,
}
