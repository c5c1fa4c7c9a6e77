//! The lines of a key and of those below it. All go into one buffer, in their order.

ghost use Rattle.std.specs.Prelude.{◌≡◌, ◌++◌, map, OnOk};
ghost use Rattle.hive_model.specs.Tree.{head, children, trees};
ghost use Rattle.key_text.specs.Lines.{printed, printed_lines};
ghost use Rattle.key_text.specs.Blocks.{title_line, flags_lines, class_lines, security_lines, head_lines, subkey_line, block_lines, key_lines, keys_lines};

use crate::line::{
    push_class, push_class_bytes, push_flags, push_key_at, push_root, push_security, push_stamp,
    push_subkey,
};
use crate::values::push_values;
use nt_bytes::{Units, wide};
use reg_tree::Key;
use report_text::line_text::ReportForm;
use std::alloc::{AllocError, Global};

fn push_title(
    alloc: Global,
    out: &mut Vec<u8>,
    form: ReportForm,
    path: &[Units],
    name: &[u16],
) -> Result<(), AllocError>
    ensures { OnOk result (out.new.items ≡ out.old.items ++ printed form (title_line path.now name.now)) }
{
    match path {
        [] => push_root(out, form, name),
        _ => push_key_at(alloc, out, form, path),
    }
}

fn push_flags_lines(
    alloc: Global,
    out: &mut Vec<u8>,
    form: ReportForm,
    flags: u16,
) -> Result<(), AllocError>
    ensures { OnOk result (out.new.items ≡ out.old.items ++ printed_lines form (flags_lines flags)) }
{
    if flags == 0 {
        return Ok(());
    }
    push_flags(alloc, out, form, flags)
}

fn push_class_lines(
    alloc: Global,
    out: &mut Vec<u8>,
    form: ReportForm,
    class: &[u8],
) -> Result<(), AllocError>
    ensures { OnOk result (out.new.items ≡ out.old.items ++ printed_lines form (class_lines class.now)) }
{
    if class.is_empty() {
        return Ok(());
    }
    if class.len() % 2 != 0 {
        return push_class_bytes(alloc, out, form, class);
    }
    let units = wide(alloc, class)?;
    push_class(out, form, units.as_slice())
}

fn push_security_lines(
    alloc: Global,
    out: &mut Vec<u8>,
    form: ReportForm,
    asked: bool,
    security: &[u8],
) -> Result<(), AllocError>
    ensures { OnOk result (out.new.items ≡ out.old.items ++ printed_lines form (security_lines asked security.now)) }
{
    if asked && !security.is_empty() {
        return push_security(alloc, out, form, security);
    }
    Ok(())
}

/// Appends the lines of what a key has but its name and children.
#[tactic(auto, unfolding(crate::specs::Blocks::head_lines))]
fn push_head(
    alloc: Global,
    out: &mut Vec<u8>,
    form: ReportForm,
    security: bool,
    key: &Key,
) -> Result<(), AllocError>
    ensures { OnOk result (out.new.items ≡ out.old.items ++ printed_lines form (head_lines security (head key.now))) }
{
    push_stamp(alloc, out, form, key.stamp)?;
    push_flags_lines(alloc, out, form, key.flags)?;
    push_class_lines(alloc, out, form, key.class.as_slice())?;
    push_security_lines(alloc, out, form, security, key.security.as_slice())?;
    push_values(alloc, out, form, key.values.as_slice())
}

fn push_subkeys(out: &mut Vec<u8>, form: ReportForm, keys: &[Key]) -> Result<(), AllocError>
    ensures { OnOk result (out.new.items ≡ out.old.items ++ printed_lines form (map subkey_line keys.now)) }
{
    for key in keys {
        push_subkey(out, form, key.name())?;
    }
    Ok(())
}

/// Appends the lines of a key without those below it.
fn push_block(
    alloc: Global,
    out: &mut Vec<u8>,
    form: ReportForm,
    security: bool,
    path: &[Units],
    key: &Key,
) -> Result<(), AllocError>
    ensures { OnOk result (out.new.items ≡ out.old.items ++ printed_lines form (block_lines security path.now (head key.now) (children key.now))) }
{
    push_title(alloc, out, form, path, key.name())?;
    push_head(alloc, out, form, security, key)?;
    push_subkeys(out, form, key.subkeys())
}

/// Appends the lines of a key and of that many levels below it. The path grows on the way down, so that each name is copied once.
#[cycle(push_key)]
pub(crate) fn push_key(
    alloc: Global,
    out: &mut Vec<u8>,
    form: ReportForm,
    security: bool,
    depth: u32,
    path: &mut Vec<Units>,
    key: &Key,
) -> Result<(), AllocError>
    ensures lines { OnOk result (out.new.items ≡ out.old.items ++ printed_lines form (key_lines security depth path.old.items key.now)) }
    ensures path { OnOk result (path.new.items ≡ path.old.items) }
{
    push_block(alloc, out, form, security, path.as_slice(), key)?;
    if depth == 0 {
        return Ok(());
    }
    push_keys(
        alloc,
        out,
        form,
        security,
        depth - 1,
        path,
        key.children.as_slice(),
    )
}

/// Appends the lines of children, in sequence.
#[cycle(push_key)]
fn push_keys(
    alloc: Global,
    out: &mut Vec<u8>,
    form: ReportForm,
    security: bool,
    depth: u32,
    path: &mut Vec<Units>,
    keys: &[Key],
) -> Result<(), AllocError>
    ensures lines { OnOk result (out.new.items ≡ out.old.items ++ printed_lines form (keys_lines security depth path.old.items (trees keys.now))) }
    ensures path { OnOk result (path.new.items ≡ path.old.items) }
{
    let above = path.len();
    let mut rest = keys;
    'keys: loop {
        let [key, more @ ..] = rest else {
            return Ok(());
        };
        path.push(key.name.copy(alloc)?)?;
        push_key(alloc, out, form, security, depth, path, key)?;
        path.truncate(above);
        rest = more;
    }
}
