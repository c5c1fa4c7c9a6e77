//! What `replay` reads: one file after the other, up to the first obstacle.

ghost use Rattle.std.specs.Prelude.{◌≡◌, ◌++◌, Err, IfOk, OnOk};
ghost use Rattle.command_parts.specs.command_parts.Leaves.{Looks};
ghost use Rattle.command_words.specs.Views.{replay_seen};
ghost use Rattle.command_parts.specs.input_search.Search.{AsksFor};
ghost use Rattle.repair_commands.specs.replay_command.Inputs.{inputs_in, given, replay_search};

use command_parts::command_parts::{Obstacle, Refusal, hive_in};
use command_parts::input_search::file_if_named;
use command_words::ReplayWords;
use log_replay::{LogFile, LogName};
use nt_bytes::{Bytes, Row};
use nt_edge::Host;
use std::alloc::{AllocError, Global};

/// All that `replay` reads.
#[derive(Drop)]
pub struct ReplayInputs {
    pub hive: Bytes,
    pub log: Option<Bytes>,
    pub log1: Option<Bytes>,
    pub log2: Option<Bytes>,
}

/// What the files have, or the first obstacle. Nothing is printed.
#[tactic(auto, unfolding(command_parts::specs::input_search::Search::searched))]
pub(crate) fn inputs_in<H: Host>(
    alloc: Global,
    words: ReplayWords<'_>,
    host: &mut H,
) -> Result<ReplayInputs, Obstacle>
    ensures looks { Looks (inputs_in (replay_seen words.entry) (H.state host.old).files) result (H.state host.old) (H.state host.new) }
    ensures asks { AsksFor (replay_search (replay_seen words.entry)) result (H.state host.old) (H.state host.new) }
    ensures kept { result ≡ Err (Obstacle.Refused Refusal.Usage) → ⊥ }
{
    let files = hive_in(alloc, host, words.hive, words.log)?;
    let log1 = file_if_named(alloc, host, words.log1)?;
    let log2 = file_if_named(alloc, host, words.log2)?;
    Ok(ReplayInputs {
        hive: files.primary,
        log: files.log,
        log1,
        log2,
    })
}

/// Appends a log, where the command line names one.
fn push_log(files: &mut Row<LogFile>, name: LogName, bytes: Option<Bytes>) -> Result<(), AllocError>
    ensures { OnOk result (files.new ≡ files.old ++ given name bytes) }
{
    match bytes {
        Some(bytes) => files.push(LogFile { name, bytes }),
        None => Ok(()),
    }
}

/// The logs that the command line names, in their order.
pub(crate) fn logs_in(
    alloc: Global,
    log: Option<Bytes>,
    log1: Option<Bytes>,
    log2: Option<Bytes>,
) -> Result<Row<LogFile>, AllocError>
    ensures { IfOk result (λ files. files ≡ (given LogName.Log log ++ given LogName.Log1 log1) ++ given LogName.Log2 log2) }
{
    let mut files = Row::new(alloc);
    push_log(&mut files, LogName::Log, log)?;
    push_log(&mut files, LogName::Log1, log1)?;
    push_log(&mut files, LogName::Log2, log2)?;
    Ok(files)
}
