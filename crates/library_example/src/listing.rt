//! The services of a control set, and those that the boot phase takes.

ghost use Rattle.hive_model.specs.Valid.{HoldsKeys};

use boot_phases::boot_phases::{Phase, plan};
use boot_phases::service_entries::{Entry, entries};
use reg_tree::Key;
use select_keys::{select_numbers, set_of};
use standard_host::say_out;

/// Says a word and a name, `?` for each unit that is no byte.
fn say_name(rt: &HostRuntime, word: &[u8], name: &[u16]) -> Option<()> {
    let mut line = Vec::from_slice(rt.alloc(), word).ok()?;
    for unit in name {
        line.push(u8::try_from(*unit).unwrap_or(b'?')).ok()?;
    }
    line.push(b'\n').ok()?;
    say_out(rt, line.as_slice()).ok()
}

fn say_names(rt: &HostRuntime, word: &[u8], entries: &[Entry]) -> Option<()> {
    for entry in entries {
        say_name(rt, word, entry.name.as_slice())?;
    }
    Some(())
}

/// Says the services of the set, in the order of the registry.
fn say_services(rt: &HostRuntime, set: &Key) -> Option<()>
    requires { HoldsKeys set.now }
{
    let table = entries(rt.alloc(), set).ok()?;
    let services = table.into_entries(rt.alloc()).ok()?;
    say_names(rt, b"service ", services.as_slice())
}

/// Says those that the boot phase takes, in its order.
fn say_boot(rt: &HostRuntime, set: &Key) -> Option<()>
    requires { HoldsKeys set.now }
{
    let planned = plan(rt.alloc(), set, Phase::Boot, &[]).ok()?;
    say_names(rt, b"boot ", planned.as_slice())
}

fn say_set(rt: &HostRuntime, set: &Key) -> Option<()>
    requires { HoldsKeys set.now }
{
    say_services(rt, set)?;
    say_boot(rt, set)
}

/// Says both of the set that `Select` names as the default one.
pub fn say_default(rt: &HostRuntime, tree: &Key) -> Option<()>
    requires { HoldsKeys tree.now }
{
    match set_of(tree, select_numbers(tree).default) {
        Some(set) => say_set(rt, set),
        None => None,
    }
}
