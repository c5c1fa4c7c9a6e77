//! The run of a log.

ghost use Rattle.std.specs.Prelude.{◌≡◌, ◌≤◌, ◌*◌, ◌/◌, length, IfOk};
ghost use Rattle.windows_logs.specs.entry_log.Runs.{run_of};

use crate::entry_log::entry::{Entry, Found, found_at};
use crate::log_parts::LogFault;
use nt_bytes::Row;
use std::alloc::{AllocError, Global};

/// The entries that count, and the fault that ends them, if one does.
#[derive(Drop)]
pub struct Run {
    pub entries: Row<Entry>,
    pub fault: Option<LogFault>,
}

/// Reads the run of a log of whole sectors.
pub fn read_run(alloc: Global, log: &[u8]) -> Result<Run, AllocError>
    requires whole { 512 * (length log.now / 512) ≡ length log.now }
    requires first { 512 ≤ length log.now }
    ensures { IfOk result (λ run. run ≡ run_of log.now) }
{
    let mut entries = Row::new(alloc);
    let mut sector = 1;
    let mut before = None;
    for done in 0..log.len() / 512 {
        match found_at(log, sector, before) {
            Found::NoEntry => {
                return Ok(Run {
                    entries,
                    fault: None,
                });
            }
            Found::Broken(kind) => {
                let at = 512 * sector;
                return Ok(Run {
                    entries,
                    fault: Some(LogFault { kind, at }),
                });
            }
            Found::Whole(entry) => {
                entries.push(entry)?;
                sector += entry.length as usize / 512;
                before = Some(entry.number);
            }
        }
    }
    Ok(Run {
        entries,
        fault: None,
    })
}
