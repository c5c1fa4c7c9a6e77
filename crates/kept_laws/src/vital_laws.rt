//! What holds of vital names by the book of startup, apart from any code.
//!
//! `vital NAME` in a script asks of each start that it has started NAME when its boot phase ends. Who was started is
//! read off the lines of the report, and which names are in force off the events of the script.

mod names;
mod passing;
mod without;

pub use names::{a_vital_line_only_notes, the_vital_names_are_those_of_the_script};
pub use passing::{
    a_phase_goes_on_where_nothing_vital_is_missing,
    no_start_passes_its_boot_phase_without_a_vital_name,
};
pub use without::a_script_whose_starts_pass_reads_the_same_without_vital_lines;
