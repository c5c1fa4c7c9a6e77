//! The command: a hive in, the drivers and services of a set or the first obstacle out.

ghost use Rattle.std.specs.Prelude.{◌≡◌, ℕ, Result, Err, IfOk, option_map};
ghost use Rattle.nt_edge.specs.Host.{HostState};
ghost use Rattle.command_parts.specs.command_parts.Inputs.{AsksHive, AsksSoMany};
ghost use Rattle.command_parts.specs.command_parts.Leaves.{AsksBy, AsksUntil, stop_in};
ghost use Rattle.command_parts.specs.command_parts.OnHive.{AnswersOnHive, DecidesOnHive, Question, SeeksAnswer};
ghost use Rattle.command_words.specs.Views.{services_seen};
ghost use Rattle.service_list.specs.Listing.{service_lines};
ghost use Rattle.services_command.specs.Answer.{kind_asked, sort_asked, selection_of, set_asked, tree_lines, question_at, question_on, question_in, asks_services, told_result};

use crate::saying::tell_lines;
use answer_lines::why_lines::EntryKind;
use command_parts::command_parts::{
    HiveFiles, Obstacle, Refusal, Status, hive_in, judge_cells, no_memory, refuse, stopped,
};
use command_words::{AskedKind, AskedSort, ServicesWords};
use hive_edit::HiveBytes;
use nt_bytes::ReadStop;
use nt_edge::Host;
use reg_tree::Key;
use report_text::line_text::ReportForm;
use service_list::{Selection, ServiceLines, SortBy};
use set_commands::hive_sets::{part, select_numbers};
use std::alloc::{AllocError, Global};

// ---- the words

fn kind_asked(kind: AskedKind) -> EntryKind
    ensures { result ≡ kind_asked kind }
{
    match kind {
        AskedKind::Driver => EntryKind::Driver,
        AskedKind::Service => EntryKind::Service,
    }
}

fn some_kind(kind: Option<AskedKind>) -> Option<EntryKind>
    ensures { result ≡ option_map kind_asked kind }
{
    match kind {
        Some(kind) => Some(kind_asked(kind)),
        None => None,
    }
}

fn sort_asked(sort: AskedSort) -> SortBy
    ensures { result ≡ sort_asked sort }
{
    match sort {
        AskedSort::Name => SortBy::Name,
        AskedSort::Written => SortBy::Written,
        AskedSort::Order => SortBy::Order,
    }
}

fn some_sort(sort: Option<AskedSort>) -> Option<SortBy>
    ensures { result ≡ option_map sort_asked sort }
{
    match sort {
        Some(sort) => Some(sort_asked(sort)),
        None => None,
    }
}

fn selection_of(words: ServicesWords<'_>) -> Selection
    ensures { result ≡ selection_of (services_seen words.entry) }
{
    Selection {
        start: words.start,
        kind: some_kind(words.kind),
        since: words.since,
        sort: some_sort(words.sort),
    }
}

// ---- the hive

/// The number of the set.
fn set_asked(alloc: Global, hive: &HiveBytes, set: Option<u32>) -> Result<u32, AllocError>
    ensures { IfOk result (λ n. n ≡ set_asked set hive.now.tree) }
{
    match set {
        Some(number) => Ok(number),
        None => Ok(select_numbers(alloc, hive)?.default),
    }
}

/// The lines by the part of a hive's tree that its set of a number needs.
fn lines_by(
    alloc: Global,
    hive: &HiveBytes,
    number: u32,
    selection: Selection,
) -> Result<ServiceLines, AllocError>
    ensures { IfOk result (λ lines. lines ≡ service_lines hive.now.tree number selection) }
{
    let root = part(alloc, hive, &[number])?;
    service_list::services(alloc, &root, number, selection)
}

/// The lines of a hive. Of its tree only the part that they need is made.
fn lines_of(
    alloc: Global,
    hive: &HiveBytes,
    set: Option<u32>,
    selection: Selection,
) -> Result<ServiceLines, AllocError>
    ensures { IfOk result (λ lines. lines ≡ tree_lines set selection hive.now.tree) }
{
    let number = set_asked(alloc, hive, set)?;
    lines_by(alloc, hive, number, selection)
}

/// The lines of a hive, or its first fault.
fn found_at(
    alloc: Global,
    files: &HiveFiles,
    set: Option<u32>,
    selection: Selection,
) -> Result<ServiceLines, Obstacle>
    ensures { (form : ReportForm) → AnswersOnHive (question_at form set selection files.now) (told_result form result) }
{
    match judge_cells(alloc, files) {
        Ok((hive, _, _)) => match lines_of(alloc, &hive, set, selection) {
            Ok(lines) => Ok(lines),
            Err(_) => Err(no_memory()),
        },
        Err(ReadStop::Fault(fault)) => Err(Obstacle::Refused(Refusal::HiveFault(fault))),
        Err(ReadStop::Memory) => Err(no_memory()),
    }
}

/// The same with what the command line asks for.
fn found_on(
    alloc: Global,
    files: &HiveFiles,
    words: ServicesWords<'_>,
) -> Result<ServiceLines, Obstacle>
    ensures { (form : ReportForm) → AnswersOnHive (question_on form (services_seen words.entry) files.now) (told_result form result) }
{
    found_at(alloc, files, words.set, selection_of(words))
}

/// Gets the hive that the command line names, and makes the lines. Nothing is printed.
fn seek<H: Host>(
    alloc: Global,
    words: ServicesWords<'_>,
    host: &mut H,
) -> Result<ServiceLines, Obstacle>
    ensures seeks { (form : ReportForm) → SeeksAnswer (question_in form (services_seen words.entry) (H.state host.old).files) (told_result form result) (H.state host.old) (H.state host.new) }
    ensures asks { AsksHive (services_seen words.entry).hive (services_seen words.entry).log result (H.state host.old) (H.state host.new) }
    ensures kept { result ≡ Err (Obstacle.Refused Refusal.Usage) → ⊥ }
{
    match hive_in(alloc, host, words.hive, words.log) {
        Ok(files) => found_on(alloc, &files, words),
        Err(obstacle) => Err(obstacle),
    }
}

/// Prints lines, each as soon as it is made, or the line of the first obstacle, or nothing where the host or the memory stopped the search.
fn answer<H: Host>(
    alloc: Global,
    host: &mut H,
    form: ReportForm,
    found: Result<ServiceLines, Obstacle>,
) -> Status
    ensures decides { (wanted : Result Question Refusal) (before : HostState)
        → SeeksAnswer wanted (told_result form found) before (H.state host.old) → DecidesOnHive wanted result before (H.state host.new) }
    ensures asked { (n before : ℕ) → AsksUntil n found before (H.state host.old).gets
        → AsksBy n (stop_in result) before (H.state host.new).gets }
    ensures usage { result ≡ Status.Usage → found ≡ Err (Obstacle.Refused Refusal.Usage) }
{
    match found {
        Ok(lines) => tell_lines(alloc, host, form, lines.as_slice()),
        Err(Obstacle::Refused(why)) => refuse(alloc, host, &why),
        Err(Obstacle::Stopped(stop)) => stopped(stop),
    }
}

/// Gets the hive that the command line names, and prints the drivers and services of a set in one of the two forms; or prints the first obstacle.
/// Nothing is written, and what was found is never held as a whole text.
pub fn services<H: Host>(
    alloc: Global,
    words: ServicesWords<'_>,
    form: ReportForm,
    host: &mut H,
) -> Status
    ensures decides { DecidesOnHive (question_in form (services_seen words.entry) (H.state host.old).files) result (H.state host.old) (H.state host.new) }
    ensures asked { AsksSoMany (asks_services (services_seen words.entry)) result (H.state host.old) (H.state host.new) }
    ensures kept { result ≡ Status.Usage → ⊥ }
{
    let found = seek(alloc, words, host);
    answer(alloc, host, form, found)
}
