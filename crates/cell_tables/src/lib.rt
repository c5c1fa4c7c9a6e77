//! Tables beside the cells of a hive: free cells by size, pages as they were before a change.
#![tactic(auto)]

pub mod free_index;
pub mod saved_pages;
