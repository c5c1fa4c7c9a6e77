//! Which unmet entries an unmet entry's needs lead to.
//!
//! `needs_run` prepares a run for look-ups; `lacks_services`, `lacks_groups` and `members_at` say what an entry lacked, and `items` finds all
//! entries that an entry leads to, breadth first; `all_leads` is where names lead. Definitions: `specs/`.

mod finding;
mod needs;
mod vertices;

pub(crate) use finding::first_place;
pub use finding::{all_leads, items};
pub(crate) use needs::has_members;
pub use needs::{NeedsRun, lacks_groups, lacks_services, members_at, needs_run};
pub(crate) use vertices::add;
pub use vertices::{number_of, places_of};
