//! What the command line asks for.

ghost use Rattle.std.specs.Prelude.{◌≡◌, [], false, Some, map, None, option_map};
ghost use Rattle.std.specs.List.{list_any};
ghost use Rattle.command_words.specs.Commands.{row_named};
ghost use Rattle.command_words.specs.Reading.{page_of_row};
ghost use Rattle.command_words.specs.Reading.{is_about, is_verbose, wants_reason};
ghost use Rattle.command_words.specs.Reading.{is_help, asks_help, page_named, page_read, alone, help_topic, help_read, version_read};
ghost use Rattle.command_words.specs.Reading.{asked_with, asked_of, asked_read, command_read, first_read, reading_of};
ghost use Rattle.command_words.specs.Views.{Sees, asked_seen, entry_seen, look_of, reading_seen};
ghost use Rattle.std.specs.Prelude.{true};
ghost use Rattle.clap.specs.Words.{first_of, found_of, rows_of};
ghost use Rattle.command_words.specs.Clap.{is_told};

use crate::asked::{Command, Page, Reading};
use crate::commands::{Given, command_asked, flag};
use crate::parsing::{read, told_named};
use crate::reason::Reason;
use crate::table::{CommandEntry, entry_named};
use crate::walk::{PLACES, walked};
use clap::ArgMatches;
use std::alloc::Global;

fn is_help(word: &str) -> bool
    ensures { result ≡ is_help word.now }
{
    word == "--help" || word == "-h"
}

fn asks_help(words: &[&str]) -> bool
    ensures { result ≡ asks_help (map (λ w. w.now) words.now) }
{
    let mut rest = words;
    'words: while let [word, more @ ..] = rest {
        if is_help(word) {
            return true;
        }
        rest = more;
    }
    false
}

fn is_verbose(word: &str) -> bool
    ensures { result ≡ is_verbose word.now }
{
    word == "-v" || word == "--verbose"
}

fn asks_verbose(words: &[&str]) -> bool
    ensures { result ≡ list_any is_verbose (map (λ w. w.now) words.now) }
{
    let mut rest = words;
    'words: while let [word, more @ ..] = rest {
        if is_verbose(word) {
            return true;
        }
        rest = more;
    }
    false
}

fn is_about(first: &str) -> bool
    ensures { result ≡ is_about first.now }
{
    is_help(first) || first == "help" || first == "version" || first == "--version"
}

/// Whether the reason of a refusal is to be printed: a word after the first is `-v` or `--verbose`, also where the command line
/// cannot be parsed; but never where the first one asks for help or the version.
#[tactic(auto, unfolding(crate::specs::Reading::wants_reason))]
pub fn wants_reason(words: &[&str]) -> bool
    ensures exact { result ≡ wants_reason (map (λ w. w.now) words.now) }
{
    match words {
        [] => false,
        [first, more @ ..] => !is_about(first) && asks_verbose(more),
    }
}

fn command_page(name: &str) -> Option<Page>
    ensures { result ≡ option_map page_of_row (row_named name.now) }
{
    match entry_named(name) {
        Some(entry) => Some(Page::Command(entry.command)),
        None => None,
    }
}

/// The page of `help`, `version`, a topic or a command.
fn page_named(name: &str) -> Option<Page>
    ensures { result ≡ page_named name.now }
{
    if name == "help" {
        return Some(Page::Help);
    }
    if name == "version" {
        return Some(Page::Version);
    }
    if name == "exits" {
        return Some(Page::Exits);
    }
    if name == "script" {
        return Some(Page::Script);
    }
    if name == "report" {
        return Some(Page::Report);
    }
    command_page(name)
}

fn page_read<'a>(page: Option<Page>) -> Reading<'a>
    ensures { reading_seen result ≡ page_read page }
{
    match page {
        Some(page) => Reading::Help(page),
        None => Reading::Refused(None),
    }
}

fn alone<'a>(reading: Reading<'a>, words: &[&str]) -> Reading<'a>
    ensures { reading_seen result ≡ alone (reading_seen reading.entry) (map (λ w. w.now) words.now) }
{
    match words {
        [] => reading,
        [_, ..] => Reading::Refused(None),
    }
}

fn help_topic<'a>(words: &[&str]) -> Reading<'a>
    ensures { reading_seen result ≡ help_topic (map (λ w. w.now) words.now) }
{
    match words {
        [] => Reading::Help(Page::Overview),
        [name, more @ ..] => alone(page_read(page_named(name)), more),
    }
}

fn help_read<'a>(words: &[&str]) -> Reading<'a>
    ensures { reading_seen result ≡ help_read (map (λ w. w.now) words.now) }
{
    if asks_help(words) {
        return Reading::Help(Page::Help);
    }
    help_topic(words)
}

fn version_read<'a>(words: &[&str]) -> Reading<'a>
    ensures { reading_seen result ≡ version_read (map (λ w. w.now) words.now) }
{
    if asks_help(words) {
        return Reading::Help(Page::Version);
    }
    alone(Reading::Version, words)
}

fn asked_by<'a>(
    entry: CommandEntry,
    given: &Given<'_, 'a>,
) -> Result<(Command<'a>, bool), Reason<'a>>
    ensures { Sees asked_seen result (asked_with entry.command (look_of given.now)) }
{
    let command = command_asked(entry.command, given)?;
    Ok((command, flag(given, "--json")))
}

/// By our walk, which names the first reason.
fn asked_walking<'a>(
    alloc: Global,
    entry: CommandEntry,
    words: &'a [&'a str],
) -> Result<(Command<'a>, bool), Reason<'a>>
    ensures { Sees asked_seen result (asked_of (entry_seen entry) (map (λ w. w.now) words.now)) }
{
    let walk = walked(alloc, entry.options, words)?;
    let given = Given {
        options: entry.options,
        values: walk.values,
        parsed: None,
    };
    asked_by(entry, &given)
}

/// By the values of `clap`.
fn asked_parsed<'a>(
    entry: CommandEntry,
    matches: &ArgMatches<'a>,
) -> Result<(Command<'a>, bool), Reason<'a>>
    ensures { Sees asked_seen result (asked_with entry.command (λ n. first_of n (rows_of (found_of matches.now)))) }
{
    let given = Given {
        options: entry.options,
        values: [None; PLACES],
        parsed: Some(matches),
    };
    asked_by(entry, &given)
}

fn asked_of<'a>(
    alloc: Global,
    entry: CommandEntry,
    words: &'a [&'a str],
) -> Result<(Command<'a>, bool), Reason<'a>>
    requires { is_told (entry_seen entry) ≡ true }
    ensures { Sees asked_seen result (asked_of (entry_seen entry) (map (λ w. w.now) words.now)) }
{
    match read(alloc, entry, words) {
        Some(matches) => asked_parsed(entry, &matches),
        None => asked_walking(alloc, entry, words),
    }
}

fn asked_read<'a>(alloc: Global, entry: CommandEntry, words: &'a [&'a str]) -> Reading<'a>
    requires { is_told (entry_seen entry) ≡ true }
    ensures { reading_seen result ≡ asked_read (asked_of (entry_seen entry) (map (λ w. w.now) words.now)) }
{
    match asked_of(alloc, entry, words) {
        Ok((command, json)) => Reading::Command(command, json),
        Err(reason) => Reading::Refused(Some(reason)),
    }
}

fn entry_read<'a>(alloc: Global, entry: CommandEntry, words: &'a [&'a str]) -> Reading<'a>
    requires { is_told (entry_seen entry) ≡ true }
    ensures { reading_seen result ≡ command_read [] (map (λ w. w.now) words.now) (Some (entry_seen entry)) }
{
    if asks_help(words) {
        return Reading::Help(Page::Command(entry.command));
    }
    asked_read(alloc, entry, words)
}

fn command_read<'a>(alloc: Global, first: &'a str, words: &'a [&'a str]) -> Reading<'a>
    ensures { reading_seen result ≡ command_read first.now (map (λ w. w.now) words.now) (row_named first.now) }
{
    match told_named(first) {
        Some(entry) => entry_read(alloc, entry, words),
        None => Reading::Refused(Some(Reason::UnknownCommand(first))),
    }
}

fn first_read<'a>(alloc: Global, first: &'a str, words: &'a [&'a str]) -> Reading<'a>
    ensures { reading_seen result ≡ first_read first.now (map (λ w. w.now) words.now) }
{
    if first == "help" {
        return help_read(words);
    }
    if first == "version" {
        return version_read(words);
    }
    if is_help(first) {
        return alone(Reading::Help(Page::Overview), words);
    }
    if first == "--version" {
        return alone(Reading::Version, words);
    }
    command_read(alloc, first, words)
}

/// What the command line asks for, the program's name left out, or the first reason from the left why they cannot be parsed.
#[tactic(auto, unfolding(crate::specs::Reading::reading_of))]
pub fn read_words<'a>(alloc: Global, words: &'a [&'a str]) -> Reading<'a>
    ensures { reading_seen result ≡ reading_of (map (λ w. w.now) words.now) }
{
    match words {
        [] => Reading::Refused(None),
        [first, more @ ..] => first_read(alloc, first, more),
    }
}
