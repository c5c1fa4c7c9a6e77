//! boot.ini: the timeout, the entries, and which of them a start takes.
//!
//! `read_boot_ini` answers what a text says; it refuses one that is too long or has too many
//! entries and asks nothing of the bytes. `choose` answers the entry of a start, or why there is
//! none. Rules: Microsoft's documentation of boot.ini; docs/texts.md, "boot.ini".

mod choosing;
mod entries;
mod ini;
mod keys;
mod laws;
mod places;
mod reading;

pub use choosing::{Chosen, choose, wants_last_known_good};
pub use ini::{BootIni, IniStop, OsEntries, OsEntry, Switches};
pub use laws::a_boot_ini_reads_as_what_it_spells;
pub use reading::read_boot_ini;
