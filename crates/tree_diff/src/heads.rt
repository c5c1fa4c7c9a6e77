//! What two keys have but values and children.

ghost use Rattle.std.specs.Prelude.{◌≡◌, ◌++◌, not, bytes_eq, OnOk};
ghost use Rattle.hive_model.specs.Tree.{head};
ghost use Rattle.set_diff.specs.Shown.{line_when};
ghost use Rattle.tree_diff.specs.Heads.{name_lines, order_lines, heads_lines};

use answer_lines::diff_lines::{DiffLine, DiffLines, KeyField};
use nt_bytes::{Names, Units};
use nt_names::name_places::NamePlaces;
use reg_tree::Key;
use set_diff::{names_same, shared};
use std::alloc::{AllocError, Global};

/// Whether the two lists of units are one.
pub(crate) fn same_units(a: &[u16], b: &[u16]) -> bool
    ensures { result ≡ bytes_eq a.now b.now }
{
    a == b
}

/// Whether the two lists of bytes are one.
pub(crate) fn same_bytes(a: &[u8], b: &[u8]) -> bool
    ensures { result ≡ bytes_eq a.now b.now }
{
    a == b
}

/// Appends a line on a field where it isn't the same in both keys.
fn put_unless(
    alloc: Global,
    same: bool,
    field: KeyField,
    path: &[Units],
    lines: &mut DiffLines,
) -> Result<(), AllocError>
    ensures { OnOk result (lines.new ≡ lines.old ++ line_when (not same) (DiffLine.KeyDiffers field path.now)) }
{
    if same {
        return Ok(());
    }
    lines.push(DiffLine::KeyDiffers {
        field,
        path: Names::from_slice(alloc, path)?,
    })
}

fn put_name(
    alloc: Global,
    top: bool,
    path: &[Units],
    a: &[u16],
    b: &[u16],
    lines: &mut DiffLines,
) -> Result<(), AllocError>
    ensures { OnOk result (lines.new ≡ lines.old ++ name_lines top path.now a.now b.now) }
{
    if top {
        return Ok(());
    }
    put_unless(alloc, same_units(a, b), KeyField::Name, path, lines)
}

/// Appends which of name, class and security differ.
pub(crate) fn put_heads(
    alloc: Global,
    top: bool,
    path: &[Units],
    a: &Key,
    b: &Key,
    lines: &mut DiffLines,
) -> Result<(), AllocError>
    ensures { OnOk result (lines.new ≡ lines.old ++ heads_lines top path.now (head a.now) (head b.now)) }
{
    let class = same_bytes(a.class(), b.class());
    let security = same_bytes(a.security(), b.security());
    put_name(alloc, top, path, a.name(), b.name(), lines)?;
    put_unless(alloc, class, KeyField::Class, path, lines)?;
    put_unless(alloc, security, KeyField::Security, path, lines)
}

/// Appends that the names that both lists have are in another order. Takes n log n time.
pub(crate) fn put_order(
    alloc: Global,
    field: KeyField,
    path: &[Units],
    a: &NamePlaces,
    b: &NamePlaces,
    lines: &mut DiffLines,
) -> Result<(), AllocError>
    ensures { OnOk result (lines.new ≡ lines.old ++ order_lines field path.now a.now b.now) }
{
    let of_a = shared(alloc, a.as_slice(), b)?;
    let of_b = shared(alloc, b.as_slice(), a)?;
    let same = names_same(of_a.as_slice(), of_b.as_slice());
    put_unless(alloc, same, field, path, lines)
}
