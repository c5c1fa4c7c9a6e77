//! The line on a fault of a registry text.

ghost use Rattle.std.specs.Prelude.{◌≡◌, ◌++◌, codes, IfOk};
ghost use Rattle.std.specs.Fmt.{decimal};
ghost use Rattle.text_commands.specs.Exported.{kind_word, fault_text};

use reg_text::{RegFault, RegFaultKind};
use std::alloc::{AllocError, Global};

fn kind_word(kind: RegFaultKind) -> &'static str
    ensures { result.now ≡ kind_word kind }
{
    match kind {
        RegFaultKind::Mark => "mark",
        RegFaultKind::Header => "header",
        RegFaultKind::Root => "root",
        RegFaultKind::Line => "line",
        RegFaultKind::NotText => "not-text",
    }
}

fn line_of(alloc: Global, line: u32, word: &str) -> Result<Vec<u8>, AllocError>
    ensures { IfOk result (λ l. l.items ≡ codes "reg fault " ++ decimal line ++ codes " " ++ word.now ++ codes "\n") }
{
    Ok(format!(in alloc; "reg fault {line} {word}\n")?.into_bytes())
}

/// The line.
#[tactic(auto, unfolding(crate::specs::Exported::fault_text))]
pub fn fault_line(alloc: Global, fault: RegFault) -> Result<Vec<u8>, AllocError>
    ensures { IfOk result (λ l. l.items ≡ fault_text fault) }
{
    line_of(alloc, fault.line, kind_word(fault.kind))
}
