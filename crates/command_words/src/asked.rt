//! What is asked for.

use crate::reason::Reason;

/// The system that a machine has where the command line names none.
pub const USUAL_SYSTEM: &str = "multi(0)disk(0)rdisk(0)partition(1)\\WINDOWS";

/// What `run` is asked for: the names of the files that it reads and saves, and the ARC path of the system.
///
/// That the path is one is for the caller to judge.
#[derive(Clone, Copy, Debug, PartialEq, Eq)]
pub struct RunWords<'a> {
    pub hive: &'a str,
    pub log: Option<&'a str>,
    pub script: &'a str,
    pub boot_ini: Option<&'a str>,
    pub system: &'a str,
    pub save_hive: Option<&'a str>,
    pub save_log: Option<&'a str>,
}

/// What `show` is asked for: the names of the files that it reads.
#[derive(Clone, Copy, Debug, PartialEq, Eq)]
pub struct ShowWords<'a> {
    pub hive: &'a str,
    pub log: Option<&'a str>,
}

/// What `make` is asked for: the number N, from 1 to 10000, and the file to save.
#[derive(Clone, Copy, Debug, PartialEq, Eq)]
pub struct MakeWords<'a> {
    pub count: u32,
    pub save_hive: Option<&'a str>,
}

/// A mode of a start in safe mode.
#[derive(Clone, Copy, Debug, PartialEq, Eq)]
pub enum AskedMode {
    Minimal,
    Network,
}

/// What `safe` is asked for: the names of the files that it reads, the ARC path of the system, the mode where one is named, and
/// whether drivers are listed by their images too.
///
/// That the path is one is for the caller to judge.
#[derive(Clone, Copy, Debug, PartialEq, Eq)]
pub struct SafeWords<'a> {
    pub hive: &'a str,
    pub log: Option<&'a str>,
    pub boot_ini: Option<&'a str>,
    pub system: &'a str,
    pub mode: Option<AskedMode>,
    pub images: bool,
}

/// What `control` is asked for: the names of the files that it reads.
#[derive(Clone, Copy, Debug, PartialEq, Eq)]
pub struct ControlWords<'a> {
    pub hive: &'a str,
    pub log: Option<&'a str>,
    pub commands: &'a str,
}

/// What keeps the hive: a second whole copy, or a log.
#[derive(Clone, Copy, Debug, PartialEq, Eq)]
pub enum AskedScheme {
    Alt,
    Log,
}

/// What `twin` is asked for: the files that it reads and saves, what keeps the hive, and the number of a set, from 1 to 999.
#[derive(Clone, Copy, Debug, PartialEq, Eq)]
pub struct TwinWords<'a> {
    pub hive: &'a str,
    pub alt: Option<&'a str>,
    pub scheme: AskedScheme,
    pub default: Option<u32>,
    pub save_hive: Option<&'a str>,
    pub save_alt: Option<&'a str>,
}

/// What `export` is asked for: the names of the files that it reads and puts, and the path of the key.
#[derive(Clone, Copy, Debug, PartialEq, Eq)]
pub struct ExportWords<'a> {
    pub hive: &'a str,
    pub log: Option<&'a str>,
    pub reg: &'a str,
    pub key: Option<&'a str>,
}

/// How a registry text is encoded.
#[derive(Clone, Copy, Debug, PartialEq, Eq)]
pub enum AskedEncoding {
    Utf16,
    Utf8,
}

/// A control set: by its number, from 1 to 999, or the one that Default names.
#[derive(Clone, Copy, Debug, PartialEq, Eq)]
pub enum AskedSet {
    Number(u32),
    Default,
}

/// What `import` is asked for: the names of the files that it reads and saves, how the text is encoded, the set that
/// `CurrentControlSet` stands for where one is named, and whether steps that delete what isn't there are passed over.
#[derive(Clone, Copy, Debug, PartialEq, Eq)]
pub struct ImportWords<'a> {
    pub hive: &'a str,
    pub log: Option<&'a str>,
    pub reg: &'a str,
    pub save_hive: Option<&'a str>,
    pub save_log: Option<&'a str>,
    pub encoding: AskedEncoding,
    pub current: Option<AskedSet>,
    pub lenient: bool,
}

/// What `key` is asked for: the names of the files that it reads, the path of the key, and how many levels below it.
#[derive(Clone, Copy, Debug, PartialEq, Eq)]
pub struct KeyWords<'a> {
    pub hive: &'a str,
    pub log: Option<&'a str>,
    pub key: Option<&'a str>,
    pub depth: u32,
    pub security: bool,
}

/// What `replay` is asked for: the names of the files that it reads and saves.
#[derive(Clone, Copy, Debug, PartialEq, Eq)]
pub struct ReplayWords<'a> {
    pub hive: &'a str,
    pub log: Option<&'a str>,
    pub log1: Option<&'a str>,
    pub log2: Option<&'a str>,
    pub save_hive: Option<&'a str>,
}

/// What `check` is asked for: the names of the files that it reads, the number of a set, from 1 to 999, and whether what hangs on
/// the order of a start is judged too.
#[derive(Clone, Copy, Debug, PartialEq, Eq)]
pub struct CheckWords<'a> {
    pub hive: &'a str,
    pub log: Option<&'a str>,
    pub set: Option<u32>,
    pub order: bool,
}

/// What `whatif` is asked for: the names of the files that it reads, the ARC path of the system, and the name of an entry as it was
/// given.
///
/// That the path is one is for the caller to judge.
#[derive(Clone, Copy, Debug, PartialEq, Eq)]
pub struct WhatifWords<'a> {
    pub hive: &'a str,
    pub log: Option<&'a str>,
    pub boot_ini: Option<&'a str>,
    pub system: &'a str,
    pub of: Option<&'a str>,
}

/// What `salvage` is asked for: the names of the files that it reads and saves, and whether keys are found by the parent that they
/// state.
#[derive(Clone, Copy, Debug, PartialEq, Eq)]
pub struct SalvageWords<'a> {
    pub hive: &'a str,
    pub log: Option<&'a str>,
    pub save_hive: Option<&'a str>,
    pub by_parent: bool,
}

/// What `diff` is asked for: the names of the files of two hives, the numbers of two sets, from 1 to 999, and whether whole trees
/// are compared.
#[derive(Clone, Copy, Debug, PartialEq, Eq)]
pub struct DiffWords<'a> {
    pub hive: &'a str,
    pub log: Option<&'a str>,
    pub set: Option<u32>,
    pub with: Option<&'a str>,
    pub with_log: Option<&'a str>,
    pub with_set: Option<u32>,
    pub all: bool,
}

/// What `why` is asked for: the names of the files that it reads, the ARC path of the system, and the name of an entry as it was given.
///
/// That the path is one is for the caller to judge.
#[derive(Clone, Copy, Debug, PartialEq, Eq)]
pub struct WhyWords<'a> {
    pub hive: &'a str,
    pub log: Option<&'a str>,
    pub boot_ini: Option<&'a str>,
    pub system: &'a str,
    pub script: Option<&'a str>,
    pub name: &'a str,
}

/// What `graph` is asked for: as `why`, and a name only where one was given.
///
/// That the path is one is for the caller to judge.
#[derive(Clone, Copy, Debug, PartialEq, Eq)]
pub struct GraphWords<'a> {
    pub hive: &'a str,
    pub log: Option<&'a str>,
    pub boot_ini: Option<&'a str>,
    pub system: &'a str,
    pub script: Option<&'a str>,
    pub of: Option<&'a str>,
}

/// What `sweep` is asked for: the names of the files that it reads, and the ARC path of the system.
///
/// That the path is one is for the caller to judge.
#[derive(Clone, Copy, Debug, PartialEq, Eq)]
pub struct SweepWords<'a> {
    pub hive: &'a str,
    pub log: Option<&'a str>,
    pub script: &'a str,
    pub boot_ini: Option<&'a str>,
    pub system: &'a str,
}

/// What `devices` is asked for: the names of the files that it reads, the number of a set, from 1 to 999, the name of a driver as it
/// was given, and whether devices without findings are left out, entries of devices and critical entries are printed too.
#[derive(Clone, Copy, Debug, PartialEq, Eq)]
pub struct DevicesWords<'a> {
    pub hive: &'a str,
    pub log: Option<&'a str>,
    pub set: Option<u32>,
    pub of: Option<&'a str>,
    pub findings: bool,
    pub ids: bool,
    pub critical: bool,
}

/// What `find` is asked for: the names of the files that it reads, a text as it was given, bytes as pairs of hexadecimal digits, whether
/// only names or only data are searched, whether what is sought has to be the whole, and the path of the key that is searched.
///
/// A text or bytes are there, and the bytes are at least one pair of digits.
#[derive(Clone, Copy, Debug, PartialEq, Eq)]
pub struct FindWords<'a> {
    pub hive: &'a str,
    pub log: Option<&'a str>,
    pub text: Option<&'a str>,
    pub hex: Option<&'a str>,
    pub names: bool,
    pub data: bool,
    pub exact: bool,
    pub key: Option<&'a str>,
}

/// A kind of entry of `Services`.
#[derive(Clone, Copy, Debug, PartialEq, Eq)]
pub enum AskedKind {
    Driver,
    Service,
}

/// By what entries are sorted: by their names, by when they were written, or by their places in the start.
#[derive(Clone, Copy, Debug, PartialEq, Eq)]
pub enum AskedSort {
    Name,
    Written,
    Order,
}

/// What `services` is asked for: the names of the files that it reads, the number of a set, from 1 to 999, a Start and a kind, the time
/// stamp (in steps of 100 ns since 1601-01-01) from which on an entry has to be written, and by what entries are sorted.
#[derive(Clone, Copy, Debug, PartialEq, Eq)]
pub struct ServicesWords<'a> {
    pub hive: &'a str,
    pub log: Option<&'a str>,
    pub set: Option<u32>,
    pub start: Option<u32>,
    pub kind: Option<AskedKind>,
    pub since: Option<u64>,
    pub sort: Option<AskedSort>,
}

/// A command by its name.
#[derive(Clone, Copy, Debug, PartialEq, Eq)]
pub enum CommandName {
    Run,
    Show,
    Make,
    Safe,
    Control,
    Twin,
    Export,
    Import,
    Key,
    Replay,
    Check,
    Whatif,
    Salvage,
    Diff,
    Why,
    Graph,
    Sweep,
    Devices,
    Find,
    Services,
}

/// A page of help: of all commands, of one, of `help`, of `version`, or of a topic.
#[derive(Clone, Copy, Debug, PartialEq, Eq)]
pub enum Page {
    Overview,
    Command(CommandName),
    Help,
    Version,
    Exits,
    Script,
    Report,
}

/// A command with what it is asked for.
#[derive(Clone, Copy, Debug, PartialEq, Eq)]
pub enum Command<'a> {
    Run(RunWords<'a>),
    Show(ShowWords<'a>),
    Make(MakeWords<'a>),
    Safe(SafeWords<'a>),
    Control(ControlWords<'a>),
    Twin(TwinWords<'a>),
    Export(ExportWords<'a>),
    Import(ImportWords<'a>),
    Key(KeyWords<'a>),
    Replay(ReplayWords<'a>),
    Check(CheckWords<'a>),
    Whatif(WhatifWords<'a>),
    Salvage(SalvageWords<'a>),
    Diff(DiffWords<'a>),
    Why(WhyWords<'a>),
    Graph(GraphWords<'a>),
    Sweep(SweepWords<'a>),
    Devices(DevicesWords<'a>),
    Find(FindWords<'a>),
    Services(ServicesWords<'a>),
}

/// What words are read as.
#[derive(Clone, Copy, Debug, PartialEq, Eq)]
pub enum Reading<'a> {
    /// A page of help is asked for.
    Help(Page),
    /// The version is asked for.
    Version,
    /// A command is asked for, and whether each line of its report is to be a JSON object.
    Command(Command<'a>, bool),
    /// The command line cannot be parsed. There is no reason where it is empty, or the first one asks for help or the version.
    Refused(Option<Reason<'a>>),
}
