//! The arguments of a command as `clap` reads them.

ghost use Rattle.std.specs.Prelude.{◌≡◌, ◌∷◌, [], None, IfOk, IfSome, true, false, map, option_map, Some};
ghost use Rattle.clap.specs.Words.{FailsBy, HasMatchesOf, app_of, fault_of, rule_of, first_of, found_of, rows_of};
ghost use Rattle.clap.specs.declared.builder.command.Command.TheViews.{out-Command};
ghost use Rattle.command_words.specs.Clap.{all_accepted, app_for, bare_name, flag_rule, free_rule, is_told, option_rule, plain_app, rule_for, without_hyphen};
ghost use Rattle.std.specs.Prelude.{Ok};
ghost use Rattle.command_words.specs.Clap.{Reads};
ghost use Rattle.command_words.specs.Commands.{row_named};
ghost use Rattle.command_words.specs.Views.{entry_seen, option_seen};

use crate::refusing::any_refused;
use crate::table::{CommandEntry, CommandOption, entry_named, is_flag, is_free};
use crate::walk::accepts;
use clap::{Arg, ArgAction, ArgMatches, Command, Error};
use std::alloc::{AllocError, Global};

fn without_hyphen<'a>(name: &'a str) -> &'a str
    ensures { result.now ≡ without_hyphen name.now }
{
    match name.strip_prefix('-') {
        Some(rest) => rest,
        None => name,
    }
}

fn bare_name<'a>(name: &'a str) -> &'a str
    ensures { result.now ≡ bare_name name.now }
{
    without_hyphen(without_hyphen(name))
}

fn free_arg<'a>(alloc: Global, name: &'a str) -> Arg<'a>
    ensures rule { rule_of result ≡ free_rule name.now }
    ensures local { result.global ≡ false }
{
    Arg::new(alloc, name).action(ArgAction::Set)
}

fn option_arg<'a>(alloc: Global, name: &'a str) -> Arg<'a>
    ensures rule { rule_of result ≡ option_rule name.now }
    ensures local { result.global ≡ false }
{
    Arg::new(alloc, name)
        .long(bare_name(name))
        .action(ArgAction::Set)
}

/// An option that takes no value, and is seen as if it had one.
fn long_flag_arg<'a>(alloc: Global, name: &'a str) -> Arg<'a>
    ensures rule { rule_of result ≡ record (flag_rule name.now) { short = None } }
    ensures local { result.global ≡ false }
{
    option_arg(alloc, name)
        .num_args(0)
        .default_missing_value("true")
}

fn flag_arg<'a>(alloc: Global, name: &'a str) -> Arg<'a>
    ensures rule { rule_of result ≡ flag_rule name.now }
    ensures local { result.global ≡ false }
{
    let arg = long_flag_arg(alloc, name);
    if name == "--verbose" {
        arg.short('v')
    } else {
        arg
    }
}

fn arg<'a>(alloc: Global, option: CommandOption) -> Arg<'a>
    ensures rule { rule_of result ≡ rule_for (option_seen option) }
    ensures local { result.global ≡ false }
{
    if is_free(option.takes) {
        return free_arg(alloc, option.name);
    }
    if is_flag(option.takes) {
        return flag_arg(alloc, option.name);
    }
    option_arg(alloc, option.name)
}

fn plain_command<'a>(alloc: Global, name: &'a str) -> Command<'a>
    ensures app { app_of result ≡ plain_app name.now }
    ensures local { (out-Command result).has_globals ≡ false }
{
    Command::new(alloc, name)
        .no_binary_name(true)
        .disable_help_flag(true)
        .disable_version_flag(true)
}

/// The command with its options.
fn command<'a>(alloc: Global, entry: CommandEntry) -> Result<Command<'a>, AllocError>
    ensures app { IfOk result (λ c. app_of c ≡ app_for (entry_seen entry)) }
{
    let mut command = plain_command(alloc, entry.name);
    let mut rest = entry.options;
    'options: while let [option, more @ ..] = rest {
        command = command.arg(arg(alloc, *option))?;
        rest = more;
    }
    Ok(command)
}

/// What `clap` makes of the arguments.
pub fn parse<'a>(
    alloc: Global,
    entry: CommandEntry,
    words: &'a [&'a str],
) -> Result<ArgMatches<'a>, Error>
    requires { is_told (entry_seen entry) ≡ true }
    ensures kinds { FailsBy (fault_of (app_for (entry_seen entry)) (map (λ w. w.now) words.now)) result }
    ensures matches { IfOk result (HasMatchesOf (app_for (entry_seen entry)) (map (λ w. w.now) words.now)) }
{
    let command = command(alloc, entry)?;
    command.try_get_matches_from(words)
}

/// The value of an option, where one was given.
pub fn value_of<'a>(matches: &ArgMatches<'a>, name: &str) -> Option<&'a str>
    ensures { option_map (λ t. t.now) result ≡ first_of name.now (rows_of (found_of matches.now)) }
{
    matches.get_str(name)
}

fn accepts_given(alloc: Global, matches: &ArgMatches<'_>, option: CommandOption) -> bool
    ensures { result ≡ all_accepted (λ n. first_of n (rows_of (found_of matches.now))) (option_seen option ∷ []) }
{
    match value_of(matches, option.name) {
        Some(value) => accepts(alloc, option.takes, value),
        None => true,
    }
}

/// Whether each value is one that its option takes.
pub fn accepts_all(alloc: Global, matches: &ArgMatches<'_>, options: &[CommandOption]) -> bool
    ensures { result ≡ all_accepted (λ n. first_of n (rows_of (found_of matches.now))) (map option_seen options.now) }
{
    let mut rest = options;
    'options: while let [option, more @ ..] = rest {
        if !accepts_given(alloc, matches, *option) {
            return false;
        }
        rest = more;
    }
    true
}

fn accepted<'a>(
    alloc: Global,
    entry: CommandEntry,
    matches: ArgMatches<'a>,
) -> Option<ArgMatches<'a>>
    ensures same { IfSome result (λ m. m ≡ matches.entry) }
    ensures fits { IfSome result (λ m. all_accepted (λ n. first_of n (rows_of (found_of m))) (map option_seen entry.options.now) ≡ true) }
{
    if accepts_all(alloc, &matches, entry.options) {
        Some(matches)
    } else {
        None
    }
}

/// What `clap` reads, where it takes the words and each value is one that its option takes. Where it does not, or there is no memory,
/// our walk names the reason.
pub fn read<'a>(alloc: Global, entry: CommandEntry, words: &'a [&'a str]) -> Option<ArgMatches<'a>>
    requires { is_told (entry_seen entry) ≡ true }
    ensures { IfSome result (λ m. Reads (map option_seen entry.options.now) (map (λ w. w.now) words.now) (rows_of (found_of m))) }
{
    if any_refused(words) {
        return None;
    }
    match parse(alloc, entry, words) {
        Ok(matches) => accepted(alloc, entry, matches),
        Err(_) => None,
    }
}

/// The command of this name, which can be given to `clap`.
pub fn told_named(name: &str) -> Option<CommandEntry>
    ensures same { option_map entry_seen result ≡ row_named name.now }
    ensures told { IfSome result (λ e. is_told (entry_seen e) ≡ true) }
{
    match entry_named(name) {
        Some(entry) => Some(entry),
        None => None,
    }
}
