//! Laws of the boots of two control sets that agree.
//!
//! Where there is no line on services and groups, the boots are the same. Definitions: `specs/Follow.antt`. This project's own.

mod laws;

pub use laws::{a_set_is_the_same_as_itself, boots_agree_where_services_and_groups_do};
