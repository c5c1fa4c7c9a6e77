//! What the commands share: the files that they read, how they end, and the files that they save.
//!
//! - `inputs`: the files that words name, each asked for once, up to the first obstacle.
//! - `refusal`, `kinds`, `status`: how the first obstacle is printed, and which status the program then has.
//! - `answering`: how a command ends that answers by what a hive loads as.
//! - `placing`: a hive with its log, read whole or judged, and placed on a disk.
//! - `reporting`: how a command ends that prints a report and then puts a file.
//! - `lines`: a line that counts something.
//! - `saving`: the two files of a disk, saved under the names that the command line has for them.

mod answering;
mod inputs;
mod kinds;
mod lines;
mod placing;
mod refusal;
mod reporting;
mod saving;
mod status;

pub use answering::{Told, answer};
pub use inputs::{HiveFiles, bytes_in, file_in, hive_in, ini_in, no_memory, system_in};
pub use kinds::hive_kind;
pub use lines::push_count;
pub use placing::{MOST_FILE, judge, judge_cells, place, read};
pub use refusal::{Obstacle, Refusal, refuse, stopped, tell};
pub use reporting::{FileReport, report};
pub use saving::{Saves, finish, save, saved};
pub use status::Status;
