//! What the values of a command's options ask for.

ghost use Rattle.std.specs.Prelude.{◌≡◌, codes, option_and_then, option_map, Some};
ghost use Rattle.command_words.specs.Table.{count_of, depth_of, encoding_of, mode_of};
ghost use Rattle.command_words.specs.Commands.{needed_in, system_in, set_in, scheme_of, counted, asks_of};
ghost use Rattle.command_words.specs.Commands.{run_by, show_by, make_by, safe_by, control_by, twin_by, export_by, import_by};
ghost use Rattle.command_words.specs.Commands.{flag_in, levels_in, encoding_in, current_in, paired};
ghost use Rattle.command_words.specs.Commands.{key_by, replay_by, check_by, whatif_by, salvage_by, diff_by};
ghost use Rattle.command_words.specs.Commands.{why_by, graph_by, sweep_by};
ghost use Rattle.std.specs.Prelude.{map};
ghost use Rattle.command_words.specs.Walk.{value_named};
ghost use Rattle.command_words.specs.Views.{Sees, command_seen, look_of, option_seen, values_seen};

use crate::asked::{
    AskedEncoding, AskedMode, AskedScheme, AskedSet, CheckWords, Command, CommandName,
    ControlWords, DiffWords, ExportWords, GraphWords, ImportWords, KeyWords, MakeWords,
    ReplayWords, RunWords, SafeWords, SalvageWords, ShowWords, SweepWords, TwinWords, USUAL_SYSTEM,
    WhatifWords, WhyWords,
};
use crate::count::{count_in, depth_in, encoding_named, mode_named, set_named, set_number_in};
use crate::listings::{devices_words, find_words, services_words};
use crate::parsing::value_of;
use crate::reason::Reason;
use crate::table::{CommandOption, option_named};
use crate::walk::{Values, value_at};
use clap::ArgMatches;

/// The values that were given: those of `clap`, where it read them, or else of our walk, by the options of the command.
#[derive(Clone, Copy)]
pub struct Given<'b, 'a> {
    pub options: &'static [CommandOption],
    pub values: Values<'a>,
    pub parsed: Option<&'b ArgMatches<'a>>,
}

fn walked_value<'a>(options: &[CommandOption], values: &Values<'a>, name: &str) -> Option<&'a str>
    ensures { option_map (λ t. t.now) result ≡ value_named (map option_seen options.now) (values_seen values.now) name.now }
{
    match option_named(name, options) {
        Some(found) => value_at(values, found.place),
        None => None,
    }
}

/// The value of the option, where one was given.
pub fn value<'a>(given: &Given<'_, 'a>, name: &str) -> Option<&'a str>
    ensures { option_map (λ t. t.now) result ≡ look_of given.now name.now }
{
    match given.parsed {
        Some(matches) => value_of(matches, name),
        None => walked_value(given.options, &given.values, name),
    }
}

/// The value that has to be there.
pub fn needed<'a>(given: &Given<'_, 'a>, name: &'static str) -> Result<&'a str, Reason<'a>>
    ensures { Sees (λ t. t.now) result (needed_in (look_of given.now) name.now) }
{
    match value(given, name) {
        Some(value) => Ok(value),
        None => Err(Reason::Missing(name)),
    }
}

/// The system that is named, or the usual one.
fn system<'a>(given: &Given<'_, 'a>) -> &'a str
    ensures { result.now ≡ system_in (look_of given.now) }
{
    match value(given, "--system") {
        Some(system) => system,
        None => USUAL_SYSTEM,
    }
}

/// The number of a set, where one is given.
pub fn set_number<'a>(given: &Given<'_, 'a>, name: &str) -> Option<u32>
    ensures { result ≡ set_in (look_of given.now) name.now }
{
    match value(given, name) {
        Some(text) => set_number_in(text.as_bytes()),
        None => None,
    }
}

/// Whether the flag is given.
pub fn flag<'a>(given: &Given<'_, 'a>, name: &str) -> bool
    ensures { result ≡ flag_in (look_of given.now) name.now }
{
    value(given, name).is_some()
}

fn run_words<'a>(given: &Given<'_, 'a>) -> Result<Command<'a>, Reason<'a>>
    ensures { Sees command_seen result (run_by (look_of given.now)) }
{
    let hive = needed(given, "--hive")?;
    let script = needed(given, "--script")?;
    Ok(Command::Run(RunWords {
        hive,
        log: value(given, "--log"),
        script,
        boot_ini: value(given, "--boot-ini"),
        system: system(given),
        save_hive: value(given, "--save-hive"),
        save_log: value(given, "--save-log"),
    }))
}

fn show_words<'a>(given: &Given<'_, 'a>) -> Result<Command<'a>, Reason<'a>>
    ensures { Sees command_seen result (show_by (look_of given.now)) }
{
    let hive = needed(given, "--hive")?;
    Ok(Command::Show(ShowWords {
        hive,
        log: value(given, "--log"),
    }))
}

fn counted<'a>(text: &'a str) -> Result<u32, Reason<'a>>
    ensures { Sees (λ n. n) result (counted text.now (count_of text.now)) }
{
    match count_in(text.as_bytes()) {
        Some(count) => Ok(count),
        None => Err(Reason::BadValue("N", text)),
    }
}

fn make_words<'a>(given: &Given<'_, 'a>) -> Result<Command<'a>, Reason<'a>>
    ensures { Sees command_seen result (make_by (look_of given.now)) }
{
    let number = needed(given, "N")?;
    let count = counted(number)?;
    Ok(Command::Make(MakeWords {
        count,
        save_hive: value(given, "--save-hive"),
    }))
}

/// The mode that is named, where one is.
fn mode<'a>(given: &Given<'_, 'a>) -> Option<AskedMode>
    ensures { result ≡ option_and_then mode_of (look_of given.now (codes "--mode")) }
{
    match value(given, "--mode") {
        Some(text) => mode_named(text),
        None => None,
    }
}

fn safe_words<'a>(given: &Given<'_, 'a>) -> Result<Command<'a>, Reason<'a>>
    ensures { Sees command_seen result (safe_by (look_of given.now)) }
{
    let hive = needed(given, "--hive")?;
    Ok(Command::Safe(SafeWords {
        hive,
        log: value(given, "--log"),
        boot_ini: value(given, "--boot-ini"),
        system: system(given),
        mode: mode(given),
        images: flag(given, "--images"),
    }))
}

fn control_words<'a>(given: &Given<'_, 'a>) -> Result<Command<'a>, Reason<'a>>
    ensures { Sees command_seen result (control_by (look_of given.now)) }
{
    let hive = needed(given, "--hive")?;
    let commands = needed(given, "--commands")?;
    Ok(Command::Control(ControlWords {
        hive,
        log: value(given, "--log"),
        commands,
    }))
}

fn scheme_named(text: &str) -> AskedScheme
    ensures { result ≡ scheme_of (Some text.now) }
{
    if text == "log" {
        AskedScheme::Log
    } else {
        AskedScheme::Alt
    }
}

/// What keeps the hive: a second copy, where it is not said.
fn scheme(text: Option<&str>) -> AskedScheme
    ensures { result ≡ scheme_of (option_map (λ t. t.now) text.entry) }
{
    match text {
        Some(text) => scheme_named(text),
        None => AskedScheme::Alt,
    }
}

fn twin_words<'a>(given: &Given<'_, 'a>) -> Result<Command<'a>, Reason<'a>>
    ensures { Sees command_seen result (twin_by (look_of given.now)) }
{
    let hive = needed(given, "--hive")?;
    Ok(Command::Twin(TwinWords {
        hive,
        alt: value(given, "--alt"),
        scheme: scheme(value(given, "--scheme")),
        default: set_number(given, "--default"),
        save_hive: value(given, "--save-hive"),
        save_alt: value(given, "--save-alt"),
    }))
}

fn export_words<'a>(given: &Given<'_, 'a>) -> Result<Command<'a>, Reason<'a>>
    ensures { Sees command_seen result (export_by (look_of given.now)) }
{
    let hive = needed(given, "--hive")?;
    let reg = needed(given, "--reg")?;
    Ok(Command::Export(ExportWords {
        hive,
        log: value(given, "--log"),
        reg,
        key: value(given, "--key"),
    }))
}

/// How the text is encoded that the command line names: in UTF-16, where it is not said.
fn encoding<'a>(given: &Given<'_, 'a>) -> AskedEncoding
    ensures { result ≡ encoding_in (look_of given.now) }
{
    match encoding_said(given) {
        Some(encoding) => encoding,
        None => AskedEncoding::Utf16,
    }
}

fn encoding_said<'a>(given: &Given<'_, 'a>) -> Option<AskedEncoding>
    ensures { result ≡ option_and_then encoding_of (look_of given.now (codes "--encoding")) }
{
    match value(given, "--encoding") {
        Some(text) => encoding_named(text),
        None => None,
    }
}

/// The set that `CurrentControlSet` stands for, where one is named.
fn current<'a>(given: &Given<'_, 'a>) -> Option<AskedSet>
    ensures { result ≡ current_in (look_of given.now) }
{
    match value(given, "--current") {
        Some(text) => set_named(text),
        None => None,
    }
}

fn import_words<'a>(given: &Given<'_, 'a>) -> Result<Command<'a>, Reason<'a>>
    ensures { Sees command_seen result (import_by (look_of given.now)) }
{
    let hive = needed(given, "--hive")?;
    let reg = needed(given, "--reg")?;
    Ok(Command::Import(ImportWords {
        hive,
        log: value(given, "--log"),
        reg,
        save_hive: value(given, "--save-hive"),
        save_log: value(given, "--save-log"),
        encoding: encoding(given),
        current: current(given),
        lenient: flag(given, "--lenient"),
    }))
}

/// The number of levels, where one is given.
fn levels_said<'a>(given: &Given<'_, 'a>) -> Option<u32>
    ensures { result ≡ option_and_then depth_of (look_of given.now (codes "--depth")) }
{
    match value(given, "--depth") {
        Some(text) => depth_in(text.as_bytes()),
        None => None,
    }
}

/// The number of levels, none where it isn't said.
fn levels<'a>(given: &Given<'_, 'a>) -> u32
    ensures { result ≡ levels_in (look_of given.now) }
{
    match levels_said(given) {
        Some(levels) => levels,
        None => 0,
    }
}

fn key_words<'a>(given: &Given<'_, 'a>) -> Result<Command<'a>, Reason<'a>>
    ensures { Sees command_seen result (key_by (look_of given.now)) }
{
    let hive = needed(given, "--hive")?;
    Ok(Command::Key(KeyWords {
        hive,
        log: value(given, "--log"),
        key: value(given, "--key"),
        depth: levels(given),
        security: flag(given, "--security"),
    }))
}

fn replay_words<'a>(given: &Given<'_, 'a>) -> Result<Command<'a>, Reason<'a>>
    ensures { Sees command_seen result (replay_by (look_of given.now)) }
{
    let hive = needed(given, "--hive")?;
    Ok(Command::Replay(ReplayWords {
        hive,
        log: value(given, "--log"),
        log1: value(given, "--log1"),
        log2: value(given, "--log2"),
        save_hive: value(given, "--save-hive"),
    }))
}

fn check_words<'a>(given: &Given<'_, 'a>) -> Result<Command<'a>, Reason<'a>>
    ensures { Sees command_seen result (check_by (look_of given.now)) }
{
    let hive = needed(given, "--hive")?;
    Ok(Command::Check(CheckWords {
        hive,
        log: value(given, "--log"),
        set: set_number(given, "--set"),
        order: flag(given, "--order"),
    }))
}

fn whatif_words<'a>(given: &Given<'_, 'a>) -> Result<Command<'a>, Reason<'a>>
    ensures { Sees command_seen result (whatif_by (look_of given.now)) }
{
    let hive = needed(given, "--hive")?;
    Ok(Command::Whatif(WhatifWords {
        hive,
        log: value(given, "--log"),
        boot_ini: value(given, "--boot-ini"),
        system: system(given),
        of: value(given, "--of"),
    }))
}

fn salvage_words<'a>(given: &Given<'_, 'a>) -> Result<Command<'a>, Reason<'a>>
    ensures { Sees command_seen result (salvage_by (look_of given.now)) }
{
    let hive = needed(given, "--hive")?;
    Ok(Command::Salvage(SalvageWords {
        hive,
        log: value(given, "--log"),
        save_hive: value(given, "--save-hive"),
        by_parent: flag(given, "--by-parent"),
    }))
}

/// The second hive, where one is named, and one has to be where its log is.
fn paired<'a>(with: Option<&'a str>, log: Option<&'a str>) -> Result<Option<&'a str>, Reason<'a>>
    ensures { Sees (λ w. option_map (λ t. t.now) w) result (paired (option_map (λ t. t.now) with.entry) (option_map (λ t. t.now) log.entry)) }
{
    match (with, log) {
        (None, Some(_)) => Err(Reason::Missing("--with")),
        (None, None) => Ok(None),
        (Some(with), _) => Ok(Some(with)),
    }
}

fn diff_words<'a>(given: &Given<'_, 'a>) -> Result<Command<'a>, Reason<'a>>
    ensures { Sees command_seen result (diff_by (look_of given.now)) }
{
    let hive = needed(given, "--hive")?;
    let with = paired(value(given, "--with"), value(given, "--with-log"))?;
    Ok(Command::Diff(DiffWords {
        hive,
        log: value(given, "--log"),
        set: set_number(given, "--set"),
        with,
        with_log: value(given, "--with-log"),
        with_set: set_number(given, "--with-set"),
        all: flag(given, "--all"),
    }))
}

fn why_words<'a>(given: &Given<'_, 'a>) -> Result<Command<'a>, Reason<'a>>
    ensures { Sees command_seen result (why_by (look_of given.now)) }
{
    let hive = needed(given, "--hive")?;
    let name = needed(given, "NAME")?;
    Ok(Command::Why(WhyWords {
        hive,
        log: value(given, "--log"),
        boot_ini: value(given, "--boot-ini"),
        system: system(given),
        script: value(given, "--script"),
        name,
    }))
}

fn graph_words<'a>(given: &Given<'_, 'a>) -> Result<Command<'a>, Reason<'a>>
    ensures { Sees command_seen result (graph_by (look_of given.now)) }
{
    let hive = needed(given, "--hive")?;
    Ok(Command::Graph(GraphWords {
        hive,
        log: value(given, "--log"),
        boot_ini: value(given, "--boot-ini"),
        system: system(given),
        script: value(given, "--script"),
        of: value(given, "--of"),
    }))
}

fn sweep_words<'a>(given: &Given<'_, 'a>) -> Result<Command<'a>, Reason<'a>>
    ensures { Sees command_seen result (sweep_by (look_of given.now)) }
{
    let hive = needed(given, "--hive")?;
    let script = needed(given, "--script")?;
    Ok(Command::Sweep(SweepWords {
        hive,
        log: value(given, "--log"),
        script,
        boot_ini: value(given, "--boot-ini"),
        system: system(given),
    }))
}

/// What the values ask of the command, or the first that it needs and lacks.
pub fn command_asked<'a>(
    name: CommandName,
    given: &Given<'_, 'a>,
) -> Result<Command<'a>, Reason<'a>>
    ensures { Sees command_seen result (asks_of name (look_of given.now)) }
{
    match name {
        CommandName::Run => run_words(given),
        CommandName::Show => show_words(given),
        CommandName::Make => make_words(given),
        CommandName::Safe => safe_words(given),
        CommandName::Control => control_words(given),
        CommandName::Twin => twin_words(given),
        CommandName::Export => export_words(given),
        CommandName::Import => import_words(given),
        CommandName::Key => key_words(given),
        CommandName::Replay => replay_words(given),
        CommandName::Check => check_words(given),
        CommandName::Whatif => whatif_words(given),
        CommandName::Salvage => salvage_words(given),
        CommandName::Diff => diff_words(given),
        CommandName::Why => why_words(given),
        CommandName::Graph => graph_words(given),
        CommandName::Sweep => sweep_words(given),
        CommandName::Devices => devices_words(given),
        CommandName::Find => find_words(given),
        CommandName::Services => services_words(given),
    }
}
