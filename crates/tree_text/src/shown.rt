//! A tree as a text after a line on its hive.

ghost use Rattle.std.specs.Prelude.{◌≡◌, IfOk};
ghost use Rattle.tree_text.specs.TreeObjects.{lines_json, shown_lines, shown_in};
ghost use Rattle.tree_text.specs.TreeText.{shown_text};

use crate::object::push_hive;
use crate::objects;
use crate::walk::push_key;
use nt_bytes::Bytes;
use reg_tree::Key;
use report_text::line_text::ReportForm;
use std::alloc::{AllocError, Global};

/// What `show` prints of a hive as text: a line with its sequence number and the bulk of its tree in bytes, and
/// the lines of the tree.
#[tactic(auto, unfolding(crate::specs::TreeText::shown_text))]
pub fn shown_text(alloc: Global, sequence: u32, bulk: u64, root: &Key) -> Result<Bytes, AllocError>
    ensures exact { IfOk result (λ b. b ≡ shown_text sequence bulk root.now) }
{
    let mut out = format!(in alloc; "sequence {sequence} bulk {bulk}\n")?.into_bytes();
    push_key(&mut out, &mut Vec::new(alloc), root)?;
    Ok(Bytes::from_vec(out))
}

/// The same lines as objects of JSON.
fn shown_objects(alloc: Global, sequence: u32, bulk: u64, root: &Key) -> Result<Bytes, AllocError>
    ensures { IfOk result (λ b. b ≡ lines_json (shown_lines sequence bulk root.now)) }
{
    let mut out = Vec::new(alloc);
    push_hive(&mut out, sequence, bulk)?;
    objects::push_key(alloc, &mut out, 0, root)?;
    Ok(Bytes::from_vec(out))
}

/// What `show` prints of a hive in one of the two forms.
pub fn shown_in(
    alloc: Global,
    form: ReportForm,
    sequence: u32,
    bulk: u64,
    root: &Key,
) -> Result<Bytes, AllocError>
    ensures exact { IfOk result (λ b. b ≡ shown_in form sequence bulk root.now) }
{
    match form {
        ReportForm::Text => shown_text(alloc, sequence, bulk, root),
        ReportForm::Json => shown_objects(alloc, sequence, bulk, root),
    }
}
