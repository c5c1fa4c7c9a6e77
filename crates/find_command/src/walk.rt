//! The hits of a part of a tree, each said as soon as it is found.

ghost use Rattle.std.specs.Prelude.{◌≡◌, [], ◌∷◌, ◌++◌, IfErr, OnOk};
ghost use Rattle.hive_model.specs.Tree.{head, trees};
ghost use Rattle.nt_edge.specs.declared.host.HostStop.TheVariants.{Memory};
ghost use Rattle.find_rule.specs.Hits.{KeyName, places, places_below, values_places};
ghost use Rattle.find_command.specs.Tells.{Tells};

use crate::printing::{tell_key_name, tell_value};
use find_rule::Wanted;
use nt_bytes::Units;
use nt_edge::{Host, HostStop};
use reg_tree::{Key, Value};
use report_text::line_text::ReportForm;
use std::alloc::Global;

/// Says what is hit of the values of the key at this path, in order.
fn tell_values<H: Host>(
    alloc: Global,
    host: &mut H,
    form: ReportForm,
    wanted: &Wanted,
    found: &mut u64,
    path: &[Units],
    values: &[Value],
) -> Result<(), HostStop>
    ensures { Tells form wanted.now (values_places path.now values.now) result (H.state host.old) (H.state host.new) found.old found.new }
{
    let mut rest = values;
    'values: loop {
        let [value, more @ ..] = rest else {
            return Ok(());
        };
        tell_value(alloc, host, form, wanted, found, path, value)?;
        rest = more;
    }
}

/// Says what is hit of the key at this path, without those below it: its name, and then its values.
fn tell_own<H: Host>(
    alloc: Global,
    host: &mut H,
    form: ReportForm,
    wanted: &Wanted,
    found: &mut u64,
    path: &[Units],
    key: &Key,
) -> Result<(), HostStop>
    ensures { Tells form wanted.now (KeyName path.now (head key.now).name ∷ values_places path.now (head key.now).values) result
        (H.state host.old) (H.state host.new) found.old found.new }
{
    match tell_key_name(alloc, host, form, wanted, found, path, key.name()) {
        Ok(()) => tell_values(alloc, host, form, wanted, found, path, key.items()),
        Err(stop) => Err(stop),
    }
}

/// Puts a name at the end of a path.
fn push_name(alloc: Global, path: &mut Vec<Units>, name: &[u16]) -> Result<(), HostStop>
    ensures pushed { OnOk result (path.new.items ≡ path.old.items ++ name.now ∷ []) }
    ensures memory { IfErr result (λ stop. stop ≡ Memory) }
{
    let Ok(name) = Units::from_slice(alloc, name) else {
        return Err(HostStop::Memory);
    };
    match path.push(name) {
        Ok(_) => Ok(()),
        Err(_) => Err(HostStop::Memory),
    }
}

/// Says what is hit of the key at this path and of all below it. The path grows on the way down, so that each name is copied once.
#[cycle(tell_key)]
pub(crate) fn tell_key<H: Host>(
    alloc: Global,
    host: &mut H,
    form: ReportForm,
    wanted: &Wanted,
    found: &mut u64,
    path: &mut Vec<Units>,
    key: &Key,
) -> Result<(), HostStop>
    ensures tells { Tells form wanted.now (places path.old.items key.now) result (H.state host.old) (H.state host.new) found.old found.new }
    ensures path { OnOk result (path.new.items ≡ path.old.items) }
{
    match tell_own(alloc, host, form, wanted, found, path.as_slice(), key) {
        Ok(()) => tell_keys(
            alloc,
            host,
            form,
            wanted,
            found,
            path,
            key.children.as_slice(),
        ),
        Err(stop) => Err(stop),
    }
}

/// Says what is hit of the children of the key at this path and of all below them, in order.
#[cycle(tell_key)]
fn tell_keys<H: Host>(
    alloc: Global,
    host: &mut H,
    form: ReportForm,
    wanted: &Wanted,
    found: &mut u64,
    path: &mut Vec<Units>,
    keys: &[Key],
) -> Result<(), HostStop>
    ensures tells { Tells form wanted.now (places_below path.old.items (trees keys.now)) result (H.state host.old) (H.state host.new)
        found.old found.new }
    ensures path { OnOk result (path.new.items ≡ path.old.items) }
{
    let above = path.len();
    let mut rest = keys;
    'keys: loop {
        let [key, more @ ..] = rest else {
            return Ok(());
        };
        push_name(alloc, path, key.name())?;
        tell_key(alloc, host, form, wanted, found, path, key)?;
        path.truncate(above);
        rest = more;
    }
}
