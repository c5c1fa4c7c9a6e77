//! What `why` promises of the lacks that it lists: whether they are enough, by its definitions and the course of the start, apart from any code.

mod enough;

pub use enough::an_entry_would_be_attempted_where_there_is_no_cycle;
