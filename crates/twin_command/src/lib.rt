//! The command `twin`: what two files stand for, repaired, with another default set.
//!
//! The files are a hive and a second copy of it, or a hive and its log. They are checked and placed on a disk; then one
//! load repairs them, and one commit changes `Select\Default` where that is asked for. Rules: docs/texts.md, "twin".
#![tactic(auto)]

mod report;
mod top;
mod twinning;

pub use top::twin;
