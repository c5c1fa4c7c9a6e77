//! What a run reads: one step after the other, up to the first obstacle.

ghost use Rattle.std.specs.Prelude.{◌≡◌, false, Err, IfOk};
ghost use Rattle.std.specs.List.{All};
ghost use Rattle.boot_script.specs.boot_script.Script.{script_of, HasCounts};
ghost use Rattle.command_parts.specs.command_parts.Leaves.{Looks, Reads, IsBadUsage};
ghost use Rattle.command_words.specs.Words as book;
ghost use Rattle.command_words.specs.Views.{run_seen};
ghost use Rattle.command_parts.specs.input_search.Search.{AsksFor};
ghost use Rattle.ntboot_cli.specs.Inputs.{arguments_in, inputs_in, events_in, run_search};

use boot_ini::arc_path::Arc;
use boot_ini::boot_ini::BootIni;
use boot_script::boot_script::{Script, ScriptStop, read_script};
use command_parts::command_parts::{HiveFiles, Obstacle, Refusal, file_in, no_memory};
use command_parts::input_search::{boot_files, system_at};
use command_words::RunWords;
use nt_bytes::Bytes;
use nt_edge::Host;
use std::alloc::Global;

/// All that a run reads.
#[derive(Drop)]
pub struct Inputs {
    pub system: Arc,
    pub ini: BootIni,
    pub script: Script,
    pub hive: HiveFiles,
}

/// The events of a script's text.
fn events_in(alloc: Global, text: &Bytes) -> Result<Script, Obstacle>
    ensures read { Reads (events_in (script_of text.now)) result }
    ensures counts { IfOk result (λ script. All HasCounts script) }
{
    match read_script(alloc, text.as_slice()) {
        Ok(script) => Ok(script),
        Err(ScriptStop::Fault(fault)) => Err(Obstacle::Refused(Refusal::ScriptFault(fault))),
        Err(ScriptStop::Memory) => Err(no_memory()),
    }
}

/// What options and files have for a run, or the first obstacle. Nothing is printed.
#[tactic(auto, unfolding(command_parts::specs::input_search::Search::searched))]
pub(crate) fn inputs_in<H: Host>(
    alloc: Global,
    words: RunWords<'_>,
    host: &mut H,
) -> Result<Inputs, Obstacle>
    ensures looks { Looks (inputs_in (run_seen words.entry) (H.state host.old).files) result (H.state host.old) (H.state host.new) }
    ensures asks { AsksFor (run_search (run_seen words.entry)) result (H.state host.old) (H.state host.new) }
    ensures counts { IfOk result (λ inputs. All HasCounts inputs.script) }
    ensures usage { result ≡ Err (Obstacle.Refused Refusal.Usage) → arguments_in (book.asks (book.run (run_seen words.entry)) false) ≡ Err Refusal.Usage }
    ensures refused { arguments_in (book.asks (book.run (run_seen words.entry)) false) ≡ Err Refusal.Usage → IsBadUsage result }
{
    let system = system_at(alloc, words.system)?;
    let script = file_in(alloc, host, words.script)?;
    let script = events_in(alloc, &script)?;
    let boot = boot_files(
        alloc,
        host,
        words.boot_ini,
        words.system,
        words.hive,
        words.log,
    )?;
    Ok(Inputs {
        system,
        ini: boot.ini,
        script,
        hive: boot.hive,
    })
}
