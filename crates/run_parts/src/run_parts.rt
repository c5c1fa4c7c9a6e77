//! What was done to a disk in a part of a run, and when what was printed is the report of a run.
//!
//! The relations of `specs/Parts` say by the notes of the book of startup what was done to the disk; `specs/Reports` says when a text, or a
//! prefix of it, is the report of what was done. Of code there is none: the run's crate has it.
