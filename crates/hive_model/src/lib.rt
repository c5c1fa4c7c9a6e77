//! The book of hives: every definition of the format, the tree and the log. No code: the definitions
//! are in `specs/`, and the crates above cite them in their contracts.
#![tactic(auto)]
