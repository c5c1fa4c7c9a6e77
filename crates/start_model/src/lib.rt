//! The book of startup: every rule from the boot event to the verdict. No code: the definitions stand
//! in `specs/`, and the crates above cite them in their contracts.
#![tactic(auto)]
