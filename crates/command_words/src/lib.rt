//! The command line: which command it names, and with which options.
//!
//! The commands are
//! `run --hive F --script F [--log F] [--boot-ini F] [--system ARC] [--save-hive F] [--save-log F]`,
//! `show --hive F [--log F]`, `make N [--save-hive F]`,
//! `safe --hive F [--log F] [--boot-ini F] [--system ARC] [--mode minimal|network] [--images]`,
//! `control --hive F [--log F] --commands F`,
//! `twin --hive F [--alt F] [--scheme alt|log] [--default N] [--save-hive F] [--save-alt F]`,
//! `export --hive F [--log F] --reg F [--key PATH]`,
//! `import --hive F [--log F] --reg F [--save-hive F] [--save-log F] [--encoding utf-16|utf-8] [--current N|default] [--lenient]`,
//! `key --hive F [--log F] [--key PATH] [--depth N] [--security]`,
//! `replay --hive F [--log F] [--log1 F] [--log2 F] [--save-hive F]`, `check --hive F [--log F] [--set N] [--order]`,
//! `whatif --hive F [--log F] [--boot-ini F] [--system ARC] [--of NAME]`,
//! `salvage --hive F [--log F] [--save-hive F] [--by-parent]`,
//! `diff --hive F [--log F] [--set N] [--with F] [--with-log F] [--with-set N] [--all]`,
//! `why --hive F [--log F] [--boot-ini F] [--system ARC] [--script F] NAME`,
//! `graph --hive F [--log F] [--boot-ini F] [--system ARC] [--script F] [--of NAME]`,
//! `sweep --hive F --script F [--log F] [--boot-ini F] [--system ARC]`,
//! `devices --hive F [--log F] [--set N] [--of NAME] [--findings] [--ids] [--critical]`,
//! `find --hive F [--log F] [--text T] [--hex BYTES] [--names] [--data] [--exact] [--key PATH]`,
//! `services --hive F [--log F] [--set N] [--start N] [--kind driver|service] [--since TIME] [--sort name|written|order]`.
//! Each also has the flags `--json` and `--verbose`, which is written `-v` too. Options come in any order after
//! the command, also around N or NAME, as `--name value` or as `--name=value`.
//!
//! The command line cannot be parsed exactly where one of these holds, and the reason is the first from the left: there is no command,
//! or another one; an option is one that the command does not have, is given twice, has no value, or is missing though the
//! command needs it, as `diff` needs `--with` where `--with-log` is given and `find` needs `--text` where `--hex` isn't; a word is left over; a word is empty or is `--`; a value is empty; a value in a word of its own begins
//! with `-`; the N of `make` or the NAME of `why` is missing; an N is not one to five decimal digits with a value from 1 to 10000, or
//! elsewhere one to three with a value from 1 to 999, or from 0 for `--depth`, or one to ten from 0 to 4294967295 for `--start` (leading zeros are read); a scheme, a
//! mode, an encoding, a kind or a sort is none of those named above; BYTES are not an even number of hexadecimal digits, from two on; a TIME is
//! none (`specs/Times.antt`); a set of `--current` is neither such a number nor `default`; a system is no ARC path.
//! These rules are this project's own; `specs/Reading.antt` states them by the command line alone.
//!
//! `help`, `--help` and `-h` ask for a page of help, `version` and `--version` for the version. `wants_reason` is whether
//! the reason of a refusal is to be printed, `reason_line` the line that says why it cannot be parsed.
#![tactic(auto)]

mod asked;
mod commands;
mod count;
mod laws;
mod listings;
mod parsing;
mod reading;
mod reason;
mod reason_texts;
mod refusing;
mod table;
mod time;
mod walk;
mod word_texts;

pub use asked::{
    AskedEncoding, AskedKind, AskedMode, AskedScheme, AskedSet, AskedSort, CheckWords, Command,
    CommandName, ControlWords, DevicesWords, DiffWords, ExportWords, FindWords, GraphWords,
    ImportWords, KeyWords, MakeWords, Page, Reading, ReplayWords, RunWords, SafeWords,
    SalvageWords, ServicesWords, ShowWords, SweepWords, TwinWords, USUAL_SYSTEM, WhatifWords,
    WhyWords,
};
pub use laws::{
    clap_faults_where_there_is_a_reason, clap_reads_what_is_read, each_option_has_a_place,
    find_is_asked_for_something, no_command_takes_a_refused_word, the_first_fault_decides,
    unnamed_options_ask_nothing, unnamed_options_change_nothing, verbose_changes_nothing,
};
pub use reading::{read_words, wants_reason};
pub use reason::Reason;
pub use reason_texts::reason_line;
pub use word_texts::texts;
