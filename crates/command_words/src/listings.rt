//! What the values ask of the commands that list what is in a hive.

ghost use Rattle.std.specs.Prelude.{◌≡◌, codes, option_and_then, option_map};
ghost use Rattle.command_words.specs.Table.{dword_of, kind_of, sort_of};
ghost use Rattle.command_words.specs.Times.{time_of};
ghost use Rattle.command_words.specs.Commands.{devices_by, find_by, hexed, services_by, sought};
ghost use Rattle.command_words.specs.Views.{Sees, command_seen, look_of};

use crate::asked::{AskedKind, AskedSort, Command, DevicesWords, FindWords, ServicesWords};
use crate::commands::{Given, flag, needed, set_number, value};
use crate::count::{dword_in, is_hex, kind_named, sort_named};
use crate::reason::Reason;
use crate::time::time_in;

pub fn devices_words<'a>(given: &Given<'_, 'a>) -> Result<Command<'a>, Reason<'a>>
    ensures { Sees command_seen result (devices_by (look_of given.now)) }
{
    let hive = needed(given, "--hive")?;
    Ok(Command::Devices(DevicesWords {
        hive,
        log: value(given, "--log"),
        set: set_number(given, "--set"),
        of: value(given, "--of"),
        findings: flag(given, "--findings"),
        ids: flag(given, "--ids"),
        critical: flag(given, "--critical"),
    }))
}

/// The bytes that are sought, where there are any: pairs of hexadecimal digits.
fn hexed<'a>(hex: Option<&'a str>) -> Result<Option<&'a str>, Reason<'a>>
    ensures { Sees (λ w. option_map (λ t. t.now) w) result (hexed (option_map (λ t. t.now) hex.entry)) }
{
    match hex {
        None => Ok(None),
        Some(text) => {
            if is_hex(text.as_bytes()) {
                Ok(Some(text))
            } else {
                Err(Reason::BadValue("--hex", text))
            }
        }
    }
}

/// The text that is sought, which has to be there where no bytes are.
fn sought<'a>(text: Option<&'a str>, hex: Option<&'a str>) -> Result<Option<&'a str>, Reason<'a>>
    ensures { Sees (λ w. option_map (λ t. t.now) w) result (sought (option_map (λ t. t.now) text.entry) (option_map (λ t. t.now) hex.entry)) }
{
    match (text, hex) {
        (None, None) => Err(Reason::Missing("--text")),
        (None, Some(_)) => Ok(None),
        (Some(text), _) => Ok(Some(text)),
    }
}

pub fn find_words<'a>(given: &Given<'_, 'a>) -> Result<Command<'a>, Reason<'a>>
    ensures { Sees command_seen result (find_by (look_of given.now)) }
{
    let hive = needed(given, "--hive")?;
    let hex = hexed(value(given, "--hex"))?;
    let text = sought(value(given, "--text"), hex)?;
    Ok(Command::Find(FindWords {
        hive,
        log: value(given, "--log"),
        text,
        hex,
        names: flag(given, "--names"),
        data: flag(given, "--data"),
        exact: flag(given, "--exact"),
        key: value(given, "--key"),
    }))
}

/// The Start that is named, where one is.
fn start<'a>(given: &Given<'_, 'a>) -> Option<u32>
    ensures { result ≡ option_and_then dword_of (look_of given.now (codes "--start")) }
{
    match value(given, "--start") {
        Some(text) => dword_in(text.as_bytes()),
        None => None,
    }
}

/// The kind of entries that is named, where one is.
fn kind<'a>(given: &Given<'_, 'a>) -> Option<AskedKind>
    ensures { result ≡ option_and_then kind_of (look_of given.now (codes "--kind")) }
{
    match value(given, "--kind") {
        Some(text) => kind_named(text),
        None => None,
    }
}

/// The stamp from which on entries have to be written, where one is given.
fn since<'a>(given: &Given<'_, 'a>) -> Option<u64>
    ensures { result ≡ option_and_then time_of (look_of given.now (codes "--since")) }
{
    match value(given, "--since") {
        Some(text) => time_in(text.as_bytes()),
        None => None,
    }
}

/// By what entries are sorted, where that is asked for.
fn sort<'a>(given: &Given<'_, 'a>) -> Option<AskedSort>
    ensures { result ≡ option_and_then sort_of (look_of given.now (codes "--sort")) }
{
    match value(given, "--sort") {
        Some(text) => sort_named(text),
        None => None,
    }
}

pub fn services_words<'a>(given: &Given<'_, 'a>) -> Result<Command<'a>, Reason<'a>>
    ensures { Sees command_seen result (services_by (look_of given.now)) }
{
    let hive = needed(given, "--hive")?;
    Ok(Command::Services(ServicesWords {
        hive,
        log: value(given, "--log"),
        set: set_number(given, "--set"),
        start: start(given),
        kind: kind(given),
        since: since(given),
        sort: sort(given),
    }))
}
