//! The top call: words in; a report, a tree or a line out; and what the disk then holds saved.
//!
//! `ntboot` reads the command line, and runs a script on a disk (`run`), prints a hive's tree (`show`), or starts a generated hive once
//! (`make`); or it prints the one line of the first obstacle.
//!
//! These commands are in crates of their own:
//! - `safe` (`safe_command`): what a start in safe mode would attempt.
//! - `control` (`control_command`): services started and stopped, one command after the other.
//! - `twin` (`twin_command`): a hive with a second copy, loaded, repaired, and given another default set.
//! - `import` (`text_commands`): the edits of a registry text, made in a hive.
//! - `export` (`text_commands`): the registry text of a key.
//!
//! From `main` of the crate `ntboot` to the last line of a report, ten steps:
//!
//! 1. `main` makes a disk in memory, and hands the command line, the real host and the disk to the top call (`ntboot/src/main.rt`).
//! 2. The top call reads the command line (`command_words/src/words.rt`), and does what it asks for (`top.rt`): `running.rt`, `showing.rt` or
//!    `making.rt`, or the crate of another command (`safe_command` and so on).
//! 3. The inputs of a run are asked for in sequence, up to the first obstacle (`inputs.rt`), which is printed in one line and has
//!    its status (`command_parts/src/refusal.rt`, `kinds.rt`, `status.rt`).
//! 4. The hive and its log are checked whole, and placed on the disk (`command_parts/src/placing.rt`).
//! 5. The run plays the script event by event, and then closes it (`boot_run/src/whole.rt`, `turning.rt`).
//! 6. A `boot` chooses the entry, loads the hive, takes the set, and begins the start (`boot_run/src/booting.rt`, `beginning.rt`).
//! 7. A `go` attempts entries and changes phases (`boot_run/src/starter.rt`).
//! 8. A logon, a flush or an end commits (`boot_run/src/saving.rt`, `closing.rt`, `committing.rt`).
//! 9. Each line is printed after the step that it reports, to the last one, `end` (`boot_run/src/saying.rt`).
//! 10. The two files of the disk are saved under the names that the command line has for them (`command_parts/src/saving.rt`).
#![tactic(auto)]

mod inputs;
mod laws;
mod making;
mod running;
mod showing;
mod top;

pub use command_parts::command_parts::Status;
pub use laws::{
    a_run_keeps_last_known_good, a_run_places_and_takes_the_named_files, a_well_formed_hive_is_run,
    make_has_no_obstacle, no_file_changes_before_a_report_is_whole,
    what_a_quiet_run_saved_loads_as_its_last_tree, what_was_saved_loads_as_the_run_says,
};
pub use top::ntboot;
