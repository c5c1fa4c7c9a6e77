//! `make`: a generated hive, started once, and what that came to.

ghost use Rattle.std.specs.Prelude.{◌≡◌, ◌≤◌, [], ◌∷◌, ◌++◌, codes, Ok, false, IfOk, OnErr, OnOk};
ghost use Rattle.nt_edge.specs.Crash.{EachCrash};
ghost use Rattle.nt_edge.specs.Disk.{new_state};
ghost use Rattle.hive_model.specs.Image.{Image};
ghost use Rattle.hive_model.specs.Load.{Loads};
ghost use Rattle.boot_run.specs.Agrees.{IsDown};
ghost use Rattle.boot_run.specs.Views.{summary_in};
ghost use Rattle.start_model.specs.Possible.{Woken};
ghost use Rattle.start_model.specs.Summary.{summary_of};
ghost use Rattle.report_text.specs.line_text.Objects.{Number, Text, fields_text, object_text};
ghost use Rattle.command_words.specs.Views.{make_seen};
ghost use Rattle.ntboot_cli.specs.Answer.{MakesAlone};
ghost use Rattle.command_parts.specs.command_parts.Leaves.{Reads};
ghost use Rattle.ntboot_cli.specs.Made.{usual_in, summary_text, summary_fields, summary_line, last_word, made_run, PlaysMade, IsMade, IsPartMade};

use boot_ini::arc_path::Arc;
use boot_ini::boot_ini::BootIni;
use boot_run::Summary;
use boot_script::boot_script::Event;
use command_parts::command_parts::{
    HiveFiles, Obstacle, Saves, Status, finish, ini_in, place, push_count, refuse, stopped,
    system_in,
};
use command_words::{MakeWords, USUAL_SYSTEM};
use generated_hive::generated_hive;
use mem_edge::QuietHost;
use nt_edge::{Bench, Host};
use report_text::boot_report::{Verdict, verdict_text};
use report_text::line_text::{
    ReportForm, close_object, open_object, push_number_field, push_word_field,
};
use std::alloc::{AllocError, Global};

/// The system and the boot.ini of a machine where nothing else is printed.
#[derive(Drop)]
pub struct Usual {
    pub system: Arc,
    pub ini: BootIni,
}

/// The usual system, and a boot.ini without text.
fn usual_in(alloc: Global) -> Result<Usual, Obstacle>
    ensures { Reads usual_in result }
{
    let path = USUAL_SYSTEM.as_bytes();
    let system = system_in(alloc, path)?;
    let ini = ini_in(alloc, &[], path)?;
    Ok(Usual { system, ini })
}

/// Runs what is placed once, up to a good logon, on a host of its own.
fn play<B: Bench>(alloc: Global, usual: &Usual, bench: &mut B) -> Result<Summary, AllocError>
    requires down { IsDown (B.state bench.old) }
    ensures played { (placed : Woken) → EachCrash (B.state bench.old) (λ (c : Image). Loads c placed.state placed.dirty)
        → PlaysMade usual.now placed (B.state bench.old) (B.state bench.new) result }
    ensures off { (B.state bench.new).on ≡ false }
{
    let script = [
        Event::Boot {
            entry: None,
            last_known_good: false,
        },
        Event::Go { steps: None },
        Event::Logon,
        Event::Off,
    ];
    let mut host = QuietHost::new(alloc);
    match boot_run::run(
        alloc,
        &script,
        &usual.ini,
        &usual.system,
        ReportForm::Text,
        &mut host,
        bench,
        None,
    ) {
        Ok(summary) => Ok(summary),
        Err(_) => Err(AllocError),
    }
}

/// Generates a hive, places it on a new disk, and runs it once.
fn generate<B: Bench>(
    alloc: Global,
    count: u32,
    usual: &Usual,
    bench: &mut B,
) -> Result<Summary, AllocError>
    requires some { 1 ≤ count }
    requires few { count ≤ 10000 }
    requires fresh { B.state bench.old ≡ new_state }
    ensures summary { IfOk result (λ s. summary_in s ≡ summary_of (made_run usual.now count).lines) }
    ensures made { IfOk result (λ s. IsMade usual.now count 0 (B.state bench.new)) }
    ensures part { OnErr result (IsPartMade 0 (B.state bench.new)) }
    ensures off { (B.state bench.new).on ≡ false }
{
    let primary = generated_hive(alloc, count)?;
    let files = HiveFiles { primary, log: None };
    match place(&files, bench) {
        Ok(()) => play(alloc, usual, bench),
        Err(_) => Err(AllocError),
    }
}

/// The word of the last verdict.
fn last_word(verdict: Option<Verdict>) -> &'static str
    ensures { result.now ≡ last_word verdict }
{
    match verdict {
        Some(verdict) => verdict_text(verdict),
        None => "none",
    }
}

/// The one line on a made hive, as text.
fn summary_text(alloc: Global, count: u32, summary: &Summary) -> Result<Vec<u8>, AllocError>
    ensures { IfOk result (λ l. l.items ≡ summary_text count (summary_in summary.now)) }
{
    let mut line = Vec::new(alloc);
    push_count(alloc, &mut line, "made ", count)?;
    push_count(alloc, &mut line, " started ", summary.started)?;
    push_count(alloc, &mut line, " failed ", summary.failed)?;
    push_count(alloc, &mut line, " unmet ", summary.unmet)?;
    line.extend_from_slice(b" verdict ")?;
    line.extend_from_slice(last_word(summary.verdict).as_bytes())?;
    push_count(alloc, &mut line, " sequence ", summary.sequence)?;
    line.push(b'\n')?;
    Ok(line)
}

fn push_tried(out: &mut Vec<u8>, count: u32, started: u32) -> Result<(), AllocError>
    ensures { OnOk result (out.new.items ≡ out.old.items ++ fields_text ((codes "services", Number count) ∷ (codes "started", Number started) ∷ [])) }
{
    push_number_field(out, b"services", u64::from(count))?;
    push_number_field(out, b"started", u64::from(started))
}

fn push_lost(out: &mut Vec<u8>, failed: u32, unmet: u32) -> Result<(), AllocError>
    ensures { OnOk result (out.new.items ≡ out.old.items ++ fields_text ((codes "failed", Number failed) ∷ (codes "unmet", Number unmet) ∷ [])) }
{
    push_number_field(out, b"failed", u64::from(failed))?;
    push_number_field(out, b"unmet", u64::from(unmet))
}

fn push_counts(out: &mut Vec<u8>, count: u32, summary: &Summary) -> Result<(), AllocError>
    ensures { OnOk result (out.new.items ≡ out.old.items ++ fields_text ((codes "services", Number count) ∷ (codes "started", Number summary.now.started)
        ∷ (codes "failed", Number summary.now.failed) ∷ (codes "unmet", Number summary.now.unmet) ∷ [])) }
{
    push_tried(out, count, summary.started)?;
    push_lost(out, summary.failed, summary.unmet)
}

fn push_end(out: &mut Vec<u8>, verdict: &[u8], sequence: u32) -> Result<(), AllocError>
    ensures { OnOk result (out.new.items ≡ out.old.items ++ fields_text ((codes "verdict", Text verdict.now) ∷ (codes "sequence", Number sequence) ∷ [])) }
{
    push_word_field(out, b"verdict", verdict)?;
    push_number_field(out, b"sequence", u64::from(sequence))
}

fn push_outcome(
    out: &mut Vec<u8>,
    verdict: Option<Verdict>,
    sequence: u32,
) -> Result<(), AllocError>
    ensures { OnOk result (out.new.items ≡ out.old.items ++ fields_text ((codes "verdict", Text (last_word verdict))
        ∷ (codes "sequence", Number sequence) ∷ [])) }
{
    push_end(out, last_word(verdict).as_bytes(), sequence)
}

fn push_fields(out: &mut Vec<u8>, count: u32, summary: &Summary) -> Result<(), AllocError>
    ensures { OnOk result (out.new.items ≡ out.old.items ++ fields_text (summary_fields count (summary_in summary.now))) }
{
    push_counts(out, count, summary)?;
    push_outcome(out, summary.verdict, summary.sequence)
}

fn push_summary(out: &mut Vec<u8>, count: u32, summary: &Summary) -> Result<(), AllocError>
    ensures { OnOk result (out.new.items ≡ out.old.items ++ object_text (codes "made") (summary_fields count (summary_in summary.now))) }
{
    open_object(out, b"made")?;
    push_fields(out, count, summary)?;
    close_object(out)
}

/// The same line as an object.
fn summary_object(alloc: Global, count: u32, summary: &Summary) -> Result<Vec<u8>, AllocError>
    ensures { IfOk result (λ l. l.items ≡ object_text (codes "made") (summary_fields count (summary_in summary.now))) }
{
    let mut line = Vec::new(alloc);
    push_summary(&mut line, count, summary)?;
    Ok(line)
}

/// The one line on a made hive.
fn summary_line(
    alloc: Global,
    form: ReportForm,
    count: u32,
    summary: &Summary,
) -> Result<Vec<u8>, AllocError>
    ensures { IfOk result (λ l. l.items ≡ summary_line form count (summary_in summary.now)) }
{
    match form {
        ReportForm::Text => summary_text(alloc, count, summary),
        ReportForm::Json => summary_object(alloc, count, summary),
    }
}

/// Generates a hive and runs it, says what that came to, and saves what the disk holds.
fn make_with<H: Host, B: Bench>(
    alloc: Global,
    words: MakeWords<'_>,
    form: ReportForm,
    usual: &Usual,
    host: &mut H,
    bench: &mut B,
) -> Status
    requires some { 1 ≤ words.count }
    requires few { words.count ≤ 10000 }
    requires fresh { B.state bench.old ≡ new_state }
    ensures { MakesAlone form (Ok usual.now) (make_seen words.entry) result (H.state host.old) (H.state host.new) (B.state bench.new) }
{
    let Ok(summary) = generate(alloc, words.count, usual, bench) else {
        return Status::Memory;
    };
    let Ok(line) = summary_line(alloc, form, words.count, &summary) else {
        return Status::Memory;
    };
    let saves = Saves {
        hive: words.save_hive,
        log: None,
    };
    finish(line.as_slice(), saves, host, bench)
}

/// Makes a hive of that many services, and says what one start of it amounts to, in one of the two forms.
pub(crate) fn make<H: Host, B: Bench>(
    alloc: Global,
    words: MakeWords<'_>,
    form: ReportForm,
    host: &mut H,
    bench: &mut B,
) -> Status
    requires some { 1 ≤ words.count }
    requires few { words.count ≤ 10000 }
    requires fresh { B.state bench.old ≡ new_state }
    ensures { MakesAlone form usual_in (make_seen words.entry) result (H.state host.old) (H.state host.new) (B.state bench.new) }
{
    match usual_in(alloc) {
        Ok(usual) => make_with(alloc, words, form, &usual, host, bench),
        Err(Obstacle::Refused(why)) => refuse(alloc, host, &why),
        Err(Obstacle::Stopped(stop)) => stopped(stop),
    }
}
