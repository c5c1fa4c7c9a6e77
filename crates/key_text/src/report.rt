//! The report of `key`.

ghost use Rattle.std.specs.Prelude.{◌≡◌, ◌++◌, IfOk, OnOk};
ghost use Rattle.std.specs.Option.{option_copied};
ghost use Rattle.hive_model.specs.Valid.{HoldsKeys};
ghost use Rattle.key_text.specs.Lines.{printed_lines};
ghost use Rattle.key_text.specs.Found.{no_key_lines, found_lines, path_lines, lines_of};

use crate::finding::{spelled, true_path};
use crate::line::{push_end, push_no_key};
use crate::walk::push_key;
use nt_bytes::{Bytes, Names, Units};
use reg_tree::Key;
use report_text::line_text::ReportForm;
use std::alloc::{AllocError, Global};

fn push_nothing(out: &mut Vec<u8>, form: ReportForm) -> Result<(), AllocError>
    ensures { OnOk result (out.new.items ≡ out.old.items ++ printed_lines form no_key_lines) }
{
    push_no_key(out, form)?;
    push_end(out, form)
}

fn push_found(
    alloc: Global,
    out: &mut Vec<u8>,
    form: ReportForm,
    security: bool,
    depth: u32,
    path: Vec<Units>,
    key: Option<&Key>,
) -> Result<(), AllocError>
    ensures { OnOk result (out.new.items ≡ out.old.items ++ printed_lines form (found_lines security depth path.items (option_copied key.entry))) }
{
    let mut path = path;
    match key {
        Some(key) => {
            push_key(alloc, out, form, security, depth, &mut path, key)?;
            push_end(out, form)
        }
        None => push_nothing(out, form),
    }
}

fn push_path_lines(
    alloc: Global,
    out: &mut Vec<u8>,
    form: ReportForm,
    security: bool,
    depth: u32,
    root: &Key,
    path: Option<Names>,
) -> Result<(), AllocError>
    ensures { OnOk result (out.new.items ≡ out.old.items ++ printed_lines form (path_lines security depth root.now path)) }
{
    match path {
        Some(path) => {
            let names = spelled(alloc, root, &path)?;
            push_found(alloc, out, form, security, depth, names, root.find(&path))
        }
        None => push_nothing(out, form),
    }
}

/// The lines of the key that a path means, and of that many levels below it, or that there is no such key. Each key of the tree
/// must be one that a hive can hold.
pub fn key_report(
    alloc: Global,
    form: ReportForm,
    root: &Key,
    path: &Names,
    depth: u32,
    security: bool,
) -> Result<Bytes, AllocError>
    requires held { HoldsKeys root.now }
    ensures exact { IfOk result (λ text. text ≡ printed_lines form (lines_of root.now path.now depth security)) }
{
    let mut out = Vec::new(alloc);
    let found = true_path(alloc, root, path)?;
    push_path_lines(alloc, &mut out, form, security, depth, root, found)?;
    Ok(Bytes::from_vec(out))
}
