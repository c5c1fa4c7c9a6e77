//! The top call.

ghost use Rattle.std.specs.Prelude.{◌≡◌, Err, false, true, map, string_bytes};
ghost use Rattle.nt_edge.specs.Disk.{new_state};
ghost use Rattle.command_words.specs.Reading.{reading_of};
ghost use Rattle.ntboot_cli.specs.Answer.{AsksAs, EndsWords, LeavesFiles, TopDecides, form_of};
ghost use Rattle.ntboot_cli.specs.Inputs.{arguments_in};
ghost use Rattle.command_parts.specs.command_parts.Leaves.{Leaves};
ghost use Rattle.command_parts.specs.command_parts.Placed.{IsUntouchedBy};
ghost use Rattle.command_parts.specs.command_parts.Refusals.{IsToldAs};

use crate::making::make;
use crate::running::run;
use crate::showing::show;
use command_parts::command_parts::{Refusal, Status, refuse, tell};
use command_words::{Command, Reading, read_words, texts};
use control_command::control;
use device_command::devices;
use find_command::find;
use help_text::{page_of, version_text};
use key_command::key_command::key;
use nt_edge::{Bench, Host};
use repair_commands::replay_command::replay;
use repair_commands::salvage_command::salvage;
use report_text::line_text::ReportForm;
use safe_command::safe;
use services_command::services;
use set_commands::check_command::check;
use set_commands::diff_command::diff;
use start_commands::graph_command::graph;
use start_commands::whatif_command::whatif;
use start_commands::why_command::why;
use std::alloc::Global;
use sweep_command::sweep_command::sweep;
use text_commands::{export, import};
use twin_command::twin;

/// The form of a report, by whether its lines are to be JSON.
fn form(json: bool) -> ReportForm
    ensures { result ≡ form_of json }
{
    if json {
        ReportForm::Json
    } else {
        ReportForm::Text
    }
}

/// Reads the command line, and does what it asks for.
fn obey<H: Host, B: Bench>(alloc: Global, words: &[&str], host: &mut H, bench: &mut B) -> Status
    requires fresh { B.state bench.old ≡ new_state }
    ensures { TopDecides (reading_of (map (λ w. w.now) words.now)) result (H.state host.old) (H.state host.new) (B.state bench.new) }
{
    match read_words(alloc, words) {
        Reading::Help(page) => tell(host, page_of(page), Status::Done),
        Reading::Version => tell(host, version_text(), Status::Done),
        Reading::Command(Command::Run(words), json) => run(alloc, words, form(json), host, bench),
        Reading::Command(Command::Show(words), json) => show(alloc, words, form(json), host),
        Reading::Command(Command::Make(words), json) => make(alloc, words, form(json), host, bench),
        Reading::Command(Command::Safe(words), json) => safe(alloc, words, form(json), host),
        Reading::Command(Command::Control(words), json) => control(alloc, words, form(json), host),
        Reading::Command(Command::Twin(words), json) => twin(alloc, words, form(json), host, bench),
        Reading::Command(Command::Import(words), json) => {
            import(alloc, words, form(json), host, bench)
        }
        Reading::Command(Command::Export(words), json) => export(alloc, words, form(json), host),
        Reading::Command(Command::Key(words), json) => key(alloc, words, form(json), host),
        Reading::Command(Command::Replay(words), json) => replay(alloc, words, form(json), host),
        Reading::Command(Command::Check(words), json) => check(alloc, words, form(json), host),
        Reading::Command(Command::Whatif(words), json) => whatif(alloc, words, form(json), host),
        Reading::Command(Command::Salvage(words), json) => {
            salvage(alloc, words, form(json), host)
        }
        Reading::Command(Command::Diff(words), json) => diff(alloc, words, form(json), host),
        Reading::Command(Command::Why(words), json) => why(alloc, words, form(json), host),
        Reading::Command(Command::Graph(words), json) => graph(alloc, words, form(json), host),
        Reading::Command(Command::Sweep(words), json) => sweep(alloc, words, form(json), host),
        Reading::Command(Command::Devices(words), json) => devices(alloc, words, form(json), host),
        Reading::Command(Command::Find(words), json) => find(alloc, words, form(json), host),
        Reading::Command(Command::Services(words), json) => {
            services(alloc, words, form(json), host)
        }
        Reading::Refused(_) => refuse(alloc, host, &Refusal::Usage),
    }
}

/// Reads the command line, then the files that it names, and prints the report, the tree or the line that the command has, or the one line
/// of the first obstacle; then it saves the files that the command line names. A run is on the disk, to which nothing was done yet, and
/// which is off afterwards.
pub fn ntboot<H: Host, B: Bench>(
    alloc: Global,
    words: &[String],
    host: &mut H,
    bench: &mut B,
) -> Status
    requires fresh { B.state bench.old ≡ new_state }
    ensures answer { Leaves (EndsWords (reading_of (map string_bytes words.now)) (H.state host.old).files (H.state host.new).files (B.state bench.new)) result
        (H.state host.old) (H.state host.new) }
    ensures files { (H.state host.old).tells ≡ true → LeavesFiles (reading_of (map string_bytes words.now)) result (B.state bench.new)
        (H.state host.old).files (H.state host.new).files }
    ensures off { (B.state bench.new).on ≡ false }
    ensures untouched { IsUntouchedBy result (B.state bench.new) }
    ensures asked { AsksAs (reading_of (map string_bytes words.now)) result (H.state host.old) (H.state host.new) }
    ensures usage { result ≡ Status.Usage → arguments_in (reading_of (map string_bytes words.now)) ≡ Err Refusal.Usage }
    ensures refused { arguments_in (reading_of (map string_bytes words.now)) ≡ Err Refusal.Usage → IsToldAs Status.Usage result }
{
    match texts(alloc, words) {
        Ok(words) => obey(alloc, words.as_slice(), host, bench),
        Err(_) => Status::Memory,
    }
}
