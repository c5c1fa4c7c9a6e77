//! The command: a hive in, the lines of a key or the first obstacle out.

ghost use Rattle.std.specs.Prelude.{◌≡◌, Err};
ghost use Rattle.command_parts.specs.command_parts.Inputs.{AsksHive, AsksSoMany};
ghost use Rattle.command_parts.specs.command_parts.OnHive.{AnswersOnHive, SeeksAnswer, DecidesOnHive};
ghost use Rattle.command_words.specs.Views.{key_seen};
ghost use Rattle.key_command.specs.key_command.Answer.{question_at, question_on, question_in, asks_key};

use crate::key_command::text::text_at;
use command_parts::command_parts::{
    HiveFiles, Obstacle, Refusal, Status, Told, answer, hive_in, no_memory,
};
use command_words::KeyWords;
use key_text::path_in;
use nt_bytes::{Names, ReadStop};
use nt_edge::Host;
use report_text::line_text::ReportForm;
use std::alloc::Global;

/// The lines of the key at a path, or the hive's first fault.
fn report_at(
    alloc: Global,
    files: &HiveFiles,
    form: ReportForm,
    path: &Names,
    depth: u32,
    security: bool,
) -> Result<Told, Obstacle>
    ensures { AnswersOnHive (question_at form path.now depth security files.now) result }
{
    match text_at(alloc, files, form, path, depth, security) {
        Ok(text) => Ok(Told::done(text)),
        Err(ReadStop::Fault(fault)) => Err(Obstacle::Refused(Refusal::HiveFault(fault))),
        Err(ReadStop::Memory) => Err(no_memory()),
    }
}

/// The lines of the key that the command line names, or the hive's first fault.
fn report_on(
    alloc: Global,
    files: &HiveFiles,
    words: KeyWords<'_>,
    form: ReportForm,
) -> Result<Told, Obstacle>
    ensures { AnswersOnHive (question_on form (key_seen words.entry) files.now) result }
{
    match path_in(alloc, words.key) {
        Ok(path) => report_at(alloc, files, form, &path, words.depth, words.security),
        Err(_) => Err(no_memory()),
    }
}

/// Gets the hive that the command line names, and makes the lines of its key. Nothing is printed.
fn seek<H: Host>(
    alloc: Global,
    words: KeyWords<'_>,
    form: ReportForm,
    host: &mut H,
) -> Result<Told, Obstacle>
    ensures seeks { SeeksAnswer (question_in form (key_seen words.entry) (H.state host.old).files) result (H.state host.old) (H.state host.new) }
    ensures asks { AsksHive (key_seen words.entry).hive (key_seen words.entry).log result (H.state host.old) (H.state host.new) }
    ensures kept { result ≡ Err (Obstacle.Refused Refusal.Usage) → ⊥ }
{
    match hive_in(alloc, host, words.hive, words.log) {
        Ok(files) => report_on(alloc, &files, words, form),
        Err(obstacle) => Err(obstacle),
    }
}

/// Gets the hive that the command line names, and prints the key that they name in one of the two forms; or prints the first obstacle.
/// Nothing is written.
pub fn key<H: Host>(alloc: Global, words: KeyWords<'_>, form: ReportForm, host: &mut H) -> Status
    ensures decides { DecidesOnHive (question_in form (key_seen words.entry) (H.state host.old).files) result (H.state host.old) (H.state host.new) }
    ensures asked { AsksSoMany (asks_key (key_seen words.entry)) result (H.state host.old) (H.state host.new) }
    ensures kept { result ≡ Status.Usage → ⊥ }
{
    let told = seek(alloc, words, form, host);
    answer(alloc, host, told)
}
