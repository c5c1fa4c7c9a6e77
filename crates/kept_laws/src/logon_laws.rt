//! When a set is saved for LastKnownGood, and which set that is.

mod clones;
mod saves;

pub use clones::a_clone_is_a_set_that_the_disk_woke_up_with;
pub use saves::a_set_is_saved_after_a_good_logon;
