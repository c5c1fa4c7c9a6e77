//! The reasons of refusals whose texts are those of single commands, apart from any code.

mod faults;

pub use faults::{a_faulty_registry_text_has_its_reason, a_faulty_second_hive_has_its_reason};
