//! The command: a hive in, what is found in it or the first obstacle out.

ghost use Rattle.std.specs.Prelude.{◌≡◌, ◌==◌, not, if◌then◌else◌, length, None, Some, Ok, IfOk, OnOk};
ghost use Rattle.std.specs.Option.{option_copied};
ghost use Rattle.nt_edge.specs.Disk.{new_state};
ghost use Rattle.hive_model.specs.Valid.{HoldsKeys};
ghost use Rattle.key_text.specs.Words.{path_in};
ghost use Rattle.line_parts.specs.Parts.{printed_lines};
ghost use Rattle.command_words.specs.Views.{find_seen};
ghost use Rattle.command_parts.specs.command_parts.Decides.{DecidesAlone};
ghost use Rattle.command_parts.specs.command_parts.Inputs.{AsksSoMany};
ghost use Rattle.command_parts.specs.command_parts.Leaves.{stop_in};
ghost use Rattle.command_parts.specs.command_parts.OnHive.{DecidesOnHive, EndsOnHive};
ghost use Rattle.command_parts.specs.command_parts.Saves.{no_saves};
ghost use Rattle.find_rule.specs.Hits.{hits, part_hits, path_hits};
ghost use Rattle.find_rule.specs.Lines.{report_lines};
ghost use Rattle.find_command.specs.Asked.{wanted_by};
ghost use Rattle.find_command.specs.Answer.{answer_of, tree_answer, question_on, question_in, asks_find};
ghost use Rattle.find_command.specs.Prints.{Answers, Prints};

use crate::asking::wanted_by;
use crate::saying::{say_closing, say_no_key};
use crate::walk::tell_key;
use command_parts::command_parts::{
    HiveFiles, Refusal, Status, answer, hive_in, read, refuse, stopped,
};
use command_words::FindWords;
use find_rule::Wanted;
use key_text::{path_in, spelled, true_path};
use nt_bytes::{Names, ReadStop, Units};
use nt_edge::{Host, HostStop};
use reg_tree::Key;
use report_text::line_text::ReportForm;
use std::alloc::{AllocError, Global};

/// The status of a report of so many hits.
fn status_of(found: u64) -> Status
    ensures same { result ≡ (if not (found == 0) then Status.Done else Status.Found) }
    ensures ends { stop_in result ≡ None }
    ensures used { result ≡ Status.Usage → ⊥ }
{
    if found == 0 {
        Status::Found
    } else {
        Status::Done
    }
}

/// Says the hits in the key at this path and in all below it, and how many there are.
fn tell_part<H: Host>(
    alloc: Global,
    host: &mut H,
    form: ReportForm,
    wanted: &Wanted,
    found: &mut u64,
    path: Vec<Units>,
    key: &Key,
) -> Result<(), HostStop>
    requires none { found.old ≡ 0 }
    ensures prints { Prints (printed_lines form (report_lines (Some (hits wanted.now path.items key.now)))) result
        (H.state host.old) (H.state host.new) }
    ensures count { OnOk result (found.new ≡ length (hits wanted.now path.items key.now)) }
{
    let mut path = path;
    match tell_key(alloc, host, form, wanted, found, &mut path, key) {
        Ok(()) => say_closing(alloc, host, form, *found),
        Err(stop) => Err(stop),
    }
}

/// Finds in the key at this path.
fn find_there<H: Host>(
    alloc: Global,
    host: &mut H,
    form: ReportForm,
    wanted: &Wanted,
    path: Vec<Units>,
    key: &Key,
) -> Status
    ensures { Answers (answer_of form (Some (hits wanted.now path.items key.now))) result (H.state host.old) (H.state host.new) }
{
    let mut found = 0;
    match tell_part(alloc, host, form, wanted, &mut found, path, key) {
        Ok(()) => status_of(found),
        Err(stop) => stopped(stop),
    }
}

/// Says that there is no such key.
fn find_nothing<H: Host>(alloc: Global, host: &mut H, form: ReportForm) -> Status
    ensures { Answers (answer_of form None) result (H.state host.old) (H.state host.new) }
{
    match say_no_key(alloc, host, form) {
        Ok(()) => Status::Found,
        Err(stop) => stopped(stop),
    }
}

/// Finds in the key at this path, if it is there.
fn find_part<H: Host>(
    alloc: Global,
    host: &mut H,
    form: ReportForm,
    wanted: &Wanted,
    path: Vec<Units>,
    key: Option<&Key>,
) -> Status
    ensures { Answers (answer_of form (part_hits wanted.now path.items (option_copied key.entry))) result (H.state host.old) (H.state host.new) }
{
    match key {
        Some(key) => find_there(alloc, host, form, wanted, path, key),
        None => find_nothing(alloc, host, form),
    }
}

/// Finds at a path from the root.
fn find_below<H: Host>(
    alloc: Global,
    host: &mut H,
    form: ReportForm,
    wanted: &Wanted,
    root: &Key,
    path: &Names,
) -> Status
    ensures { Answers (answer_of form (path_hits wanted.now root.now (Some path.now))) result (H.state host.old) (H.state host.new) }
{
    match spelled(alloc, root, path) {
        Ok(names) => find_part(alloc, host, form, wanted, names, root.find(path)),
        Err(_) => Status::Memory,
    }
}

/// Finds at a path from the root, if it is one.
fn find_path<H: Host>(
    alloc: Global,
    host: &mut H,
    form: ReportForm,
    wanted: &Wanted,
    root: &Key,
    path: Option<Names>,
) -> Status
    ensures { Answers (answer_of form (path_hits wanted.now root.now path)) result (H.state host.old) (H.state host.new) }
{
    match path {
        Some(path) => find_below(alloc, host, form, wanted, root, &path),
        None => find_nothing(alloc, host, form),
    }
}

/// Finds at a path as it was asked for.
fn find_at<H: Host>(
    alloc: Global,
    host: &mut H,
    form: ReportForm,
    wanted: &Wanted,
    root: &Key,
    path: &Names,
) -> Status
    requires { HoldsKeys root.now }
    ensures { Answers (tree_answer form wanted.now path.now root.now) result (H.state host.old) (H.state host.new) }
{
    match true_path(alloc, root, path) {
        Ok(path) => find_path(alloc, host, form, wanted, root, path),
        Err(_) => Status::Memory,
    }
}

/// What the words look for, and the path where.
fn asked_of(alloc: Global, words: &FindWords<'_>) -> Result<(Wanted, Names), AllocError>
    ensures wanted { IfOk result (λ x. x.0 ≡ wanted_by (find_seen words.now)) }
    ensures path { IfOk result (λ x. x.1 ≡ path_in (find_seen words.now).key) }
{
    let wanted = wanted_by(alloc, words)?;
    let path = path_in(alloc, words.key)?;
    Ok((wanted, path))
}

/// Finds in a tree what the words look for. Each key of the tree must be one that a hive can hold.
fn find_on<H: Host>(
    alloc: Global,
    host: &mut H,
    form: ReportForm,
    words: &FindWords<'_>,
    root: &Key,
) -> Status
    requires { HoldsKeys root.now }
    ensures { Answers (tree_answer form (wanted_by (find_seen words.now)) (path_in (find_seen words.now).key) root.now) result
        (H.state host.old) (H.state host.new) }
{
    match asked_of(alloc, words) {
        Ok((wanted, path)) => find_at(alloc, host, form, &wanted, root, &path),
        Err(_) => Status::Memory,
    }
}

/// Finds in a hive what the words look for, or prints its first fault.
fn find_in<H: Host>(
    alloc: Global,
    host: &mut H,
    form: ReportForm,
    words: &FindWords<'_>,
    files: &HiveFiles,
) -> Status
    ensures { DecidesAlone (EndsOnHive (Ok (question_on form (find_seen words.now) files.now))) no_saves result
        (H.state host.old) (H.state host.new) new_state }
{
    match read(alloc, files) {
        Ok((root, _, _)) => find_on(alloc, host, form, words, &root),
        Err(ReadStop::Fault(fault)) => refuse(alloc, host, &Refusal::HiveFault(fault)),
        Err(ReadStop::Memory) => Status::Memory,
    }
}

/// Gets the hive that the command line names, and prints where what they look for stands in the part that they name, in one of the two
/// forms, with a status that says whether it does anywhere; or prints the first obstacle. Nothing is written.
pub fn find<H: Host>(alloc: Global, words: FindWords<'_>, form: ReportForm, host: &mut H) -> Status
    ensures decides { DecidesOnHive (question_in form (find_seen words.entry) (H.state host.old).files) result (H.state host.old) (H.state host.new) }
    ensures asked { AsksSoMany (asks_find (find_seen words.entry)) result (H.state host.old) (H.state host.new) }
    ensures kept { result ≡ Status.Usage → ⊥ }
{
    match hive_in(alloc, host, words.hive, words.log) {
        Ok(files) => find_in(alloc, host, form, &words, &files),
        Err(obstacle) => answer(alloc, host, Err(obstacle)),
    }
}
