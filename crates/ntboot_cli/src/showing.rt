//! `show`: the tree of a hive, in one of the two forms.

ghost use Rattle.std.specs.Prelude.{◌≡◌, Err};
ghost use Rattle.command_words.specs.Views.{show_seen};
ghost use Rattle.command_parts.specs.command_parts.Inputs.{AsksHive, AsksSoMany};
ghost use Rattle.command_parts.specs.command_parts.OnHive.{AnswersOnHive, DecidesOnHive, SeeksAnswer};
ghost use Rattle.ntboot_cli.specs.Answer.{show_question_in, shown_on};
ghost use Rattle.ntboot_cli.specs.Inputs.{asks_show};

use command_parts::command_parts::{
    HiveFiles, Obstacle, Refusal, Status, Told, answer, hive_in, no_memory, read,
};
use command_words::ShowWords;
use nt_bytes::ReadStop;
use nt_edge::Host;
use report_text::line_text::ReportForm;
use std::alloc::Global;
use std::mem::forget;
use tree_text::shown_in;

/// The text of a hive's tree, or the hive's first fault.
fn text_of(alloc: Global, files: &HiveFiles, form: ReportForm) -> Result<Told, Obstacle>
    ensures { AnswersOnHive (shown_on form files.now) result }
{
    match read(alloc, files) {
        Ok((root, sequence, version)) => {
            match shown_in(alloc, form, sequence, root.bulk(version), &root) {
                Ok(text) => {
                    // The command ends next, and the system takes the whole memory at once: a tenth of the work was to free the tree.
                    forget(root);
                    Ok(Told::done(text))
                }
                Err(_) => Err(no_memory()),
            }
        }
        Err(ReadStop::Fault(fault)) => Err(Obstacle::Refused(Refusal::HiveFault(fault))),
        Err(ReadStop::Memory) => Err(no_memory()),
    }
}

/// Gets the hive that the command line names, and makes the text of its tree. Nothing is printed.
fn seek<H: Host>(
    alloc: Global,
    words: ShowWords<'_>,
    form: ReportForm,
    host: &mut H,
) -> Result<Told, Obstacle>
    ensures seeks { SeeksAnswer (show_question_in form (show_seen words.entry) (H.state host.old).files) result (H.state host.old) (H.state host.new) }
    ensures asks { AsksHive (show_seen words.entry).hive (show_seen words.entry).log result (H.state host.old) (H.state host.new) }
    ensures kept { result ≡ Err (Obstacle.Refused Refusal.Usage) → ⊥ }
{
    match hive_in(alloc, host, words.hive, words.log) {
        Ok(files) => text_of(alloc, &files, form),
        Err(obstacle) => Err(obstacle),
    }
}

/// Gets the hive that the command line names, and prints its tree in one of the two forms; or prints the first obstacle.
pub(crate) fn show<H: Host>(
    alloc: Global,
    words: ShowWords<'_>,
    form: ReportForm,
    host: &mut H,
) -> Status
    ensures decides { DecidesOnHive (show_question_in form (show_seen words.entry) (H.state host.old).files) result (H.state host.old) (H.state host.new) }
    ensures asked { AsksSoMany (asks_show (show_seen words.entry)) result (H.state host.old) (H.state host.new) }
    ensures kept { result ≡ Status.Usage → ⊥ }
{
    let told = seek(alloc, words, form, host);
    answer(alloc, host, told)
}
