//! What boot.ini has for the plain start.

ghost use Rattle.std.specs.Prelude.{◌≡◌, IfOk};
ghost use Rattle.start_commands.specs.whatif_command.Answer.{is_on_good, choice_by, choice_in};

use crate::whatif_command::inputs::WhatifInputs;
use boot_ini::boot_ini::{BootIni, Chosen, choose, wants_last_known_good};
use failure_effects::StartChoice;
use report_text::boot_report::Verdict;
use std::alloc::{AllocError, Global};

/// What boot.ini has for the plain start of the system.
pub(crate) fn choice_in(alloc: Global, inputs: &WhatifInputs) -> Result<StartChoice, AllocError>
    ensures { IfOk result (λ choice. choice ≡ choice_in inputs.now) }
{
    let chosen = choose(alloc, &inputs.ini, None, &inputs.system)?;
    Ok(choice_by(&inputs.ini, chosen))
}

fn choice_by(ini: &BootIni, chosen: Chosen) -> StartChoice
    ensures { result ≡ choice_by ini.now chosen }
{
    match chosen {
        Chosen::Entry(number) => StartChoice::OnSet(is_on_good(ini, number)),
        Chosen::NoEntry => StartChoice::Ends(Verdict::NoEntry),
        Chosen::OtherLoader(_) => StartChoice::Ends(Verdict::OtherLoader),
        Chosen::NoSystem(_) => StartChoice::Ends(Verdict::NoSystem),
    }
}

/// Whether the entry of this number asks for LastKnownGood.
fn is_on_good(ini: &BootIni, number: u32) -> bool
    ensures { result ≡ is_on_good ini.now number }
{
    match ini.entry(number) {
        Some(entry) => wants_last_known_good(entry),
        None => false,
    }
}
