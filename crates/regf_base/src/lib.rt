//! The base block of a hive file or of its log: sector 0, 512 bytes.
//!
//! `read_base` answers the fields, or the first check that fails with the byte at which it stands; it
//! asks nothing of the bytes. `base_bytes` spells the fields with their checksum; `numbers_fit` and
//! `texts_fit` say that each fits its place. Rules: regf format 1.3 and 1.5, "Base block";
//! docs/format.md.
#![tactic(auto)]

mod base;
mod fitting;
mod spelling;
mod sum;

pub use base::{BaseBlock, read_base};
pub use fitting::{numbers_fit, texts_fit};
pub use spelling::{base_bytes, what_is_spelled_is_read_back};
pub use sum::checksum;
