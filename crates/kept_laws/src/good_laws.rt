//! LastKnownGood over whole runs, and what a save is refused for, by the book of startup alone.

mod good;
mod saving;
mod unguarded;

pub use good::last_known_good_names_a_good_set;
pub use saving::a_save_is_refused_only_for_number_or_size;
pub use unguarded::without_the_guard_the_promise_is_broken;
