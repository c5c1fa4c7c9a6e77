//! The files that a caller gives.

ghost use Rattle.std.specs.Prelude.{◌≡◌, [], ℕ, List, IfOk, OnOk};
ghost use Rattle.mem_edge.specs.Hosts.{quiet_files_of};
ghost use Rattle.ntboot_c.specs.Inputs.{files_in, with_file};

use mem_edge::QuietHost;
use std::alloc::{AllocError, Global};

/// Which of the four files are there.
#[repr(C)]
#[derive(Clone, Copy, Debug, Drop)]
pub struct Given {
    pub hive: bool,
    pub log: bool,
    pub boot_ini: bool,
    pub text: bool,
}

/// The bytes of the four files. Of one that is not there, they count for nothing.
#[derive(Clone, Copy)]
pub(crate) struct Inputs<'a> {
    pub(crate) given: Given,
    pub(crate) hive: &'a [u8],
    pub(crate) log: &'a [u8],
    pub(crate) boot_ini: &'a [u8],
    pub(crate) text: &'a [u8],
}

fn add_where(
    host: &mut QuietHost,
    is_there: bool,
    name: &str,
    bytes: &[u8],
) -> Result<(), AllocError>
    ensures put { OnOk result ((q : List ℕ)
        → quiet_files_of host.new q ≡ with_file is_there name.now bytes.now (quiet_files_of host.old) q) }
    ensures said { host.new.said ≡ host.old.said }
{
    if !is_there {
        return Ok(());
    }
    host.add(name, bytes)
}

/// A host with the files that are there, under their names.
pub(crate) fn host_with(alloc: Global, inputs: &Inputs<'_>) -> Result<QuietHost, AllocError>
    ensures files { IfOk result (λ host. (q : List ℕ) → quiet_files_of host q ≡ files_in inputs.now q) }
    ensures said { IfOk result (λ host. host.said.items ≡ []) }
{
    let mut host = QuietHost::new(alloc);
    add_where(&mut host, inputs.given.hive, "hive", inputs.hive)?;
    add_where(&mut host, inputs.given.log, "log", inputs.log)?;
    add_where(
        &mut host,
        inputs.given.boot_ini,
        "boot.ini",
        inputs.boot_ini,
    )?;
    add_where(&mut host, inputs.given.text, "text", inputs.text)?;
    Ok(host)
}
