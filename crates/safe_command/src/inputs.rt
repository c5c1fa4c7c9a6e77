//! What `safe` reads: one step after the other, up to the first obstacle.

ghost use Rattle.std.specs.Prelude.{◌≡◌, Err};
ghost use Rattle.command_parts.specs.command_parts.Leaves.{Looks, IsBadUsage};
ghost use Rattle.command_words.specs.Views.{safe_seen};
ghost use Rattle.command_parts.specs.input_search.Search.{AsksFor};
ghost use Rattle.safe_command.specs.Inputs.{arguments_in, inputs_in, named_mode, safe_search};

use boot_ini::arc_path::Arc;
use boot_ini::boot_ini::BootIni;
use command_parts::command_parts::{HiveFiles, Obstacle, Refusal};
use command_parts::input_search::{boot_files, system_at};
use command_words::{AskedMode, SafeWords};
use nt_edge::Host;
use safe_boot::SafeMode;
use std::alloc::Global;

/// All that `safe` reads, the mode that is asked for, and whether images count.
#[derive(Drop)]
pub struct SafeInputs {
    pub system: Arc,
    pub ini: BootIni,
    pub hive: HiveFiles,
    pub mode: Option<SafeMode>,
    pub images: bool,
}

/// The mode that is asked for, if any.
fn named_mode(asked: Option<AskedMode>) -> Option<SafeMode>
    ensures { result ≡ named_mode asked }
{
    match asked {
        Some(AskedMode::Minimal) => Some(SafeMode::Minimal),
        Some(AskedMode::Network) => Some(SafeMode::Network),
        None => None,
    }
}

/// What options and files have, or the first obstacle. Nothing is printed.
#[tactic(auto, unfolding(command_parts::specs::input_search::Search::searched))]
pub(crate) fn inputs_in<H: Host>(
    alloc: Global,
    words: SafeWords<'_>,
    host: &mut H,
) -> Result<SafeInputs, Obstacle>
    ensures looks { Looks (inputs_in (safe_seen words.entry) (H.state host.old).files) result (H.state host.old) (H.state host.new) }
    ensures asks { AsksFor (safe_search (safe_seen words.entry)) result (H.state host.old) (H.state host.new) }
    ensures usage { result ≡ Err (Obstacle.Refused Refusal.Usage) → arguments_in (safe_seen words.entry) ≡ Err Refusal.Usage }
    ensures refused { arguments_in (safe_seen words.entry) ≡ Err Refusal.Usage → IsBadUsage result }
{
    let system = system_at(alloc, words.system)?;
    let boot = boot_files(
        alloc,
        host,
        words.boot_ini,
        words.system,
        words.hive,
        words.log,
    )?;
    Ok(SafeInputs {
        system,
        ini: boot.ini,
        hive: boot.hive,
        mode: named_mode(words.mode),
        images: words.images,
    })
}
