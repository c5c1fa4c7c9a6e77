//! What holds of a report on devices: its blocks, the stacks, the findings.
#![tactic(auto)]

mod laws;

pub use laws::{
    a_start_takes_drivers_by_their_states, each_device_has_its_block,
    findings_are_those_of_the_set, nothing_else_is_read, stacks_are_what_the_values_name,
    what_is_lost_with_a_driver, what_is_repaired_is_sound,
};
