//! A change of a hive on a disk: whole or not at all, regardless of power loss.
//!
//! `commit` has four stages, one function each, and each is ended by one sync: the log of the sectors that
//! differ is written, the base block is opened, these sectors are written, the base block is closed. A cut may
//! leave any sector in flight as it was, as written, or unreadable. In stage 1 these are sectors of the log,
//! which a clean primary doesn't need; in stages 2 and 4 it is the base block alone, which the log rebuilds;
//! in stage 3 they are sectors that the log has. Rules: docs/format.md, "Commit and recovery".
#![tactic(auto)]

mod blocks;
mod change;
mod kept_marks;
mod laws;
mod loading;
mod marks;
mod paged;
mod parts;
mod restoring;
mod stages;
mod stops;

pub use blocks::{closed_block, opened_block};
pub use change::commit;
pub use hive_log::{LoadStop, Recovered};
pub use laws::{
    a_cut_while_the_base_block_is_closed_leaves_the_new,
    a_cut_while_the_base_block_is_opened_leaves_the_old_or_the_new,
    a_cut_while_the_bins_are_written_leaves_the_new, a_cut_while_the_log_is_written_leaves_the_old,
};
pub use loading::{look, recover};
pub use paged::commit_kept;
pub use parts::{put_sector, settle};
pub use restoring::restore;
pub use stops::CommitStop;
