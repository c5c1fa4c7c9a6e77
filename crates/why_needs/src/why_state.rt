//! Where a name is in a start, and how a need stood at the end of a phase.
//!
//! `viewed` looks at what a script left of its last start: each phase with its plan, and what phases take after it. `state_of` says what
//! became of a name, `need_of` how a need stood at the end of a phase, and `push_head` the first lines about the start.
//! Rules: Windows Internals, 4th edition, startup; docs/startup.md. Definitions: `specs/`.

mod heads;
mod reason;
mod states;
mod views;

pub use heads::push_head;
pub use reason::key_named;
pub use states::{attempt_upto, need_of, placed_of, placed_upto, state_of};
pub use views::{ComingNames, PhaseView, PhaseViews, ViewedRun, viewed};
