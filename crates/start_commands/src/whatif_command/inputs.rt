//! What `whatif` reads: one step after the other, up to the first obstacle.

ghost use Rattle.std.specs.Prelude.{◌≡◌, Err};
ghost use Rattle.command_parts.specs.command_parts.Leaves.{Looks, IsBadUsage};
ghost use Rattle.command_words.specs.Views.{whatif_seen};
ghost use Rattle.command_parts.specs.input_search.Search.{AsksFor};
ghost use Rattle.start_commands.specs.whatif_command.Inputs.{arguments_in, inputs_in, whatif_search};

use boot_ini::arc_path::Arc;
use boot_ini::boot_ini::BootIni;
use command_parts::command_parts::{HiveFiles, Obstacle, Refusal};
use command_parts::input_search::{boot_files, system_at};
use command_words::WhatifWords;
use nt_edge::Host;
use std::alloc::Global;

/// All that `whatif` reads.
#[derive(Drop)]
pub struct WhatifInputs {
    pub system: Arc,
    pub ini: BootIni,
    pub hive: HiveFiles,
}

/// What options and files have, or the first obstacle. Nothing is printed.
#[tactic(auto, unfolding(command_parts::specs::input_search::Search::searched))]
pub(crate) fn inputs_in<H: Host>(
    alloc: Global,
    words: WhatifWords<'_>,
    host: &mut H,
) -> Result<WhatifInputs, Obstacle>
    ensures looks { Looks (inputs_in (whatif_seen words.entry) (H.state host.old).files) result (H.state host.old) (H.state host.new) }
    ensures asks { AsksFor (whatif_search (whatif_seen words.entry)) result (H.state host.old) (H.state host.new) }
    ensures usage { result ≡ Err (Obstacle.Refused Refusal.Usage) → arguments_in (whatif_seen words.entry) ≡ Err Refusal.Usage }
    ensures refused { arguments_in (whatif_seen words.entry) ≡ Err Refusal.Usage → IsBadUsage result }
{
    let system = system_at(alloc, words.system)?;
    let boot = boot_files(
        alloc,
        host,
        words.boot_ini,
        words.system,
        words.hive,
        words.log,
    )?;
    Ok(WhatifInputs {
        system,
        ini: boot.ini,
        hive: boot.hive,
    })
}
