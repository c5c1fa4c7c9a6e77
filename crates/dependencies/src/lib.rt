//! Which entries need which, and which of them may be started now.
#![tactic(auto)]

mod demand;
mod meeting;
mod need;
mod next;
mod order;
mod place_set;
mod runs;
mod started;
mod table;
mod test_count;
mod waiting;
mod wants;

pub use demand::{automatic, automatic_in, taken_is_the_least_closed_set};
pub use need::{Need, Needs, Places};
pub use next::{both_ways_try_the_same, services_met};
pub use started::Started;
pub use table::NeedTable;
pub use test_count::TestCount;
pub use waiting::{Waiting, folded_group};
