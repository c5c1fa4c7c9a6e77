//! The arguments of a command, read from left to right.

ghost use Rattle.std.specs.Prelude.{◌≡◌, ◌||◌, is_ok, map, None, option_map, slice_set, Some};
ghost use Rattle.std.specs.Prelude.{List, Ok, ℕ};
ghost use Rattle.std.specs.List.{before_first};
ghost use Rattle.nt_bytes.specs.Text.{is_equals};
ghost use Rattle.boot_ini.specs.arc_path.Reading.{arc_of};
ghost use Rattle.command_words.specs.Words.{begins_with_hyphen, is_empty_text};
ghost use Rattle.command_words.specs.Table.{accepts, is_either};
ghost use Rattle.command_words.specs.Walk.{attached_in, long_name, no_values, value_at};
ghost use Rattle.command_words.specs.Walk.{walked, with_value, with_taken, with_word, with_option, with_known, with_free, with_next, with_step, finished};
ghost use Rattle.command_words.specs.Views.{Sees, found_seen, option_seen, values_seen, walk_seen};

use crate::count::{
    count_in, depth_in, dword_in, encoding_named, is_hex, kind_named, mode_named, set_named,
    set_number_in, sort_named,
};
use crate::reason::Reason;
use crate::table::{CommandOption, Found, Takes, free_word, is_flag, option_named};
use crate::time::time_in;
use boot_ini::arc_path::{ArcStop, read_arc};
use std::alloc::Global;

/// No command has more options.
pub const PLACES: usize = 12;

/// The value of each option of a command, by its place, where it was given.
pub type Values<'a> = [Option<&'a str>; PLACES];

/// The values so far, and the option whose value is the next word.
#[derive(Clone, Copy)]
pub struct Walk<'a> {
    pub values: [Option<&'a str>; PLACES],
    pub waiting: Option<Found>,
}

/// Whether it has no byte.
pub fn is_empty(text: &[u8]) -> bool
    ensures { result ≡ is_empty_text text.now }
{
    match text {
        [] => true,
        [_, ..] => false,
    }
}

pub fn begins_with_hyphen(text: &[u8]) -> bool
    ensures { result ≡ begins_with_hyphen text.now }
{
    match text {
        [] => false,
        [first, ..] => *first == b'-',
    }
}

fn is_either(text: &str, one: &str, other: &str) -> bool
    ensures { result ≡ is_either one.now other.now text.now }
{
    text == one || text == other
}

/// Whether the text is an ARC path. That there is no memory is found out only where it is.
fn is_arc_path(alloc: Global, text: &[u8]) -> bool
    ensures { result ≡ is_ok (arc_of text.now) }
{
    match read_arc(alloc, text) {
        Err(ArcStop::Fault(_)) => false,
        Err(ArcStop::Memory) => true,
        Ok(_) => true,
    }
}

pub fn accepts(alloc: Global, takes: Takes, value: &str) -> bool
    ensures { result ≡ accepts takes value.now }
{
    match takes {
        Takes::Flag => true,
        Takes::Any => true,
        Takes::Count => count_in(value.as_bytes()).is_some(),
        Takes::Name => true,
        Takes::System => is_arc_path(alloc, value.as_bytes()),
        Takes::Scheme => is_either(value, "alt", "log"),
        Takes::SetNumber => set_number_in(value.as_bytes()).is_some(),
        Takes::Depth => depth_in(value.as_bytes()).is_some(),
        Takes::Mode => mode_named(value).is_some(),
        Takes::Encoding => encoding_named(value).is_some(),
        Takes::Set => set_named(value).is_some(),
        Takes::Hex => is_hex(value.as_bytes()),
        Takes::Number => dword_in(value.as_bytes()).is_some(),
        Takes::Kind => kind_named(value).is_some(),
        Takes::Time => time_in(value.as_bytes()).is_some(),
        Takes::Sort => sort_named(value).is_some(),
    }
}

/// The value at this place.
pub fn value_at<'a>(values: &Values<'a>, place: usize) -> Option<&'a str>
    ensures { option_map (λ t. t.now) result ≡ value_at place (values_seen values.now) }
{
    if place < PLACES { values[place] } else { None }
}

/// With this value at this place.
fn placed<'a>(values: Values<'a>, place: usize, value: &'a str) -> Values<'a>
    ensures { values_seen result ≡ slice_set (values_seen values.entry) place (Some value.now) }
{
    if PLACES <= place {
        return values;
    }
    let mut values = values;
    values[place] = Some(value);
    values
}

fn with_value<'a>(values: Values<'a>, found: Found, value: &'a str) -> Walk<'a>
    ensures { walk_seen result ≡ with_value (values_seen values.entry) (found_seen found) value.now }
{
    Walk {
        values: placed(values, found.place, value),
        waiting: None,
    }
}

fn with_taken<'a>(
    alloc: Global,
    values: Values<'a>,
    found: Found,
    value: &'a str,
) -> Result<Walk<'a>, Reason<'a>>
    ensures { Sees walk_seen result (with_taken (values_seen values.entry) (found_seen found) value.now) }
{
    if accepts(alloc, found.option.takes, value) {
        Ok(with_value(values, found, value))
    } else {
        Err(Reason::BadValue(found.option.name, value))
    }
}

/// The value in a word of its own.
fn with_word<'a>(
    alloc: Global,
    values: Values<'a>,
    found: Found,
    word: &'a str,
) -> Result<Walk<'a>, Reason<'a>>
    ensures { Sees walk_seen result (with_word (values_seen values.entry) (found_seen found) word.now) }
{
    if is_empty(word.as_bytes()) || begins_with_hyphen(word.as_bytes()) {
        return Err(Reason::NoValue(found.option.name));
    }
    with_taken(alloc, values, found, word)
}

/// The value in the option's own word.
fn with_attached<'a>(
    alloc: Global,
    values: Values<'a>,
    found: Found,
    word: &'a str,
    value: &'a str,
) -> Result<Walk<'a>, Reason<'a>>
    ensures { Sees walk_seen result (with_option (values_seen values.entry) (found_seen found) word.now (Some value.now)) }
{
    if is_empty(value.as_bytes()) {
        return Err(Reason::NoValue(found.option.name));
    }
    with_taken(alloc, values, found, value)
}

/// A flag, or an option that waits for its value.
fn with_bare<'a>(values: Values<'a>, found: Found) -> Walk<'a>
    ensures { (word : List ℕ) → with_option (values_seen values.entry) (found_seen found) word None ≡ Ok (walk_seen result) }
{
    if is_flag(found.option.takes) {
        return with_value(values, found, "true");
    }
    Walk {
        values,
        waiting: Some(found),
    }
}

fn with_option<'a>(
    alloc: Global,
    values: Values<'a>,
    found: Found,
    word: &'a str,
    attached: Option<&'a str>,
) -> Result<Walk<'a>, Reason<'a>>
    ensures { Sees walk_seen result
        (with_option (values_seen values.entry) (found_seen found) word.now (option_map (λ t. t.now) attached.entry)) }
{
    match attached {
        Some(value) => with_attached(alloc, values, found, word, value),
        None => Ok(with_bare(values, found)),
    }
}

/// An option of the command, which was not given before.
fn with_found<'a>(
    alloc: Global,
    values: Values<'a>,
    word: &'a str,
    attached: Option<&'a str>,
    found: Found,
) -> Result<Walk<'a>, Reason<'a>>
    ensures { Sees walk_seen result
        (with_known (values_seen values.entry) word.now (option_map (λ t. t.now) attached.entry) (Some (found_seen found))) }
{
    if is_flag(found.option.takes) && attached.is_some() {
        return Err(Reason::UnknownOption(word));
    }
    if value_at(&values, found.place).is_some() {
        return Err(Reason::Twice(found.option.name));
    }
    with_option(alloc, values, found, word, attached)
}

fn with_known<'a>(
    alloc: Global,
    values: Values<'a>,
    word: &'a str,
    attached: Option<&'a str>,
    found: Option<Found>,
) -> Result<Walk<'a>, Reason<'a>>
    ensures { Sees walk_seen result
        (with_known (values_seen values.entry) word.now (option_map (λ t. t.now) attached.entry) (option_map found_seen found)) }
{
    match found {
        Some(found) => with_found(alloc, values, word, attached, found),
        None => Err(Reason::UnknownOption(word)),
    }
}

/// A word without an option, which is the first.
fn with_first<'a>(
    alloc: Global,
    values: Values<'a>,
    word: &'a str,
    found: Found,
) -> Result<Walk<'a>, Reason<'a>>
    ensures { Sees walk_seen result (with_free (values_seen values.entry) word.now (Some (found_seen found))) }
{
    if is_empty(word.as_bytes()) || value_at(&values, found.place).is_some() {
        return Err(Reason::LeftOver(word));
    }
    with_taken(alloc, values, found, word)
}

fn with_free<'a>(
    alloc: Global,
    values: Values<'a>,
    word: &'a str,
    found: Option<Found>,
) -> Result<Walk<'a>, Reason<'a>>
    ensures { Sees walk_seen result (with_free (values_seen values.entry) word.now (option_map found_seen found)) }
{
    match found {
        Some(found) => with_first(alloc, values, word, found),
        None => Err(Reason::LeftOver(word)),
    }
}

/// What stands before the first `=`, and what stands after it if there is one.
fn split(word: &str) -> (&str, Option<&str>)
    ensures name { result.0.now ≡ before_first is_equals word.now }
    ensures value { option_map (λ t. t.now) result.1 ≡ attached_in word.now }
{
    match word.split_once('=') {
        Some((name, value)) => (name, Some(value)),
        None => (word, None),
    }
}

/// The name of an option by the way it is written.
fn long_name<'a>(name: &'a str) -> &'a str
    ensures { result.now ≡ long_name name.now }
{
    if name == "-v" { "--verbose" } else { name }
}

/// A word where no option waits for its value.
fn with_next<'a>(
    alloc: Global,
    options: &[CommandOption],
    values: Values<'a>,
    word: &'a str,
) -> Result<Walk<'a>, Reason<'a>>
    ensures { Sees walk_seen result (with_next (map option_seen options.now) (values_seen values.entry) word.now) }
{
    if !begins_with_hyphen(word.as_bytes()) {
        return with_free(alloc, values, word, free_word(options));
    }
    let (name, attached) = split(word);
    with_known(
        alloc,
        values,
        word,
        attached,
        option_named(long_name(name), options),
    )
}

fn with_step<'a>(
    alloc: Global,
    options: &[CommandOption],
    walk: Walk<'a>,
    word: &'a str,
) -> Result<Walk<'a>, Reason<'a>>
    ensures { Sees walk_seen result
        (with_step (map option_seen options.now) (values_seen walk.entry.values) word.now (option_map found_seen walk.entry.waiting)) }
{
    match walk.waiting {
        Some(found) => with_word(alloc, walk.values, found, word),
        None => with_next(alloc, options, walk.values, word),
    }
}

fn finished<'a>(walk: Walk<'a>) -> Result<Walk<'a>, Reason<'a>>
    ensures { Sees (λ w. values_seen w.values) result (finished (values_seen walk.entry.values) (option_map found_seen walk.entry.waiting)) }
{
    match walk.waiting {
        Some(found) => Err(Reason::NoValue(found.option.name)),
        None => Ok(walk),
    }
}

/// The values that the command line gives, or the first reason from the left why they cannot be parsed.
pub fn walked<'a>(
    alloc: Global,
    options: &[CommandOption],
    words: &'a [&'a str],
) -> Result<Walk<'a>, Reason<'a>>
    ensures { Sees (λ w. values_seen w.values) result
        (walked (map option_seen options.now) (record { values = no_values; waiting = None }) (map (λ w. w.now) words.now)) }
{
    let mut walk = Walk {
        values: [None; PLACES],
        waiting: None,
    };
    let mut rest = words;
    'words: while let [word, more @ ..] = rest {
        walk = with_step(alloc, options, walk, word)?;
        rest = more;
    }
    finished(walk)
}
