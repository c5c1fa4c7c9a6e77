//! A hive repaired where it lies: `ntmend HIVE LOG`.
//!
//! The program opens both files, holds a lock on each, and makes the top call of `mend_command` over them. A lone `--help` or `--version` asks
//! for a page.
#![tactic(auto)]

ghost use Rattle.std.specs.Prelude.{◌≡◌, ◌⊎◌, true};
ghost use Rattle.std.specs.Fs.{new_options, with_read, with_write};
ghost use Rattle.std.specs.Process.{exit_status};

mod pages;

use file_disk::FileDisk;
use mend_command::mend_command::mend_hive;
use nt_edge::Host;
use pages::page_of;
use standard_host::{NoFiles, StandardHost, take_standard_descriptors};
use std::env;
use std::fs::{File, OpenOptions};
use std::io::ErrorKind;
use std::process::ExitCode;

/// Standard output, without files.
type Output<'a> = StandardHost<'a, NoFiles>;

/// There was no memory.
const MEMORY: u8 = 9;

/// A line could not be said.
const WRITE_FAULT: u8 = 7;

/// What the command line asks for.
enum Asked {
    /// That the hive of the first name be repaired, whose log has the second.
    Mend(String, String),
    /// That this be printed.
    Page(&'static [u8]),
}

/// Why nothing is asked for.
enum NoWords {
    /// There are not two words, nor one that asks for a page; or one is no UTF-8.
    Usage,
    Memory,
}

/// Why a file is not open.
enum Unopened {
    /// It is absent, is a folder, can't be read and written, or is locked.
    Refused,
    Memory,
}

/// What a word asks for that is alone.
fn alone(word: &str) -> Result<Asked, NoWords> {
    match page_of(word) {
        Some(page) => Ok(Asked::Page(page)),
        None => Err(NoWords::Usage),
    }
}

/// What the words after the program's name ask for.
fn words(rt: &HostRuntime) -> Result<Asked, NoWords> {
    let mut args = match env::args(rt) {
        Ok(args) => args,
        Err(e) if e.kind() == ErrorKind::InvalidData => return Err(NoWords::Usage),
        Err(_) => return Err(NoWords::Memory),
    };
    let _program = args.next();
    let Some(hive) = args.next() else {
        return Err(NoWords::Usage);
    };
    let Some(log) = args.next() else {
        return alone(hive.as_str());
    };
    match args.next() {
        None => Ok(Asked::Mend(hive, log)),
        Some(_) => Err(NoWords::Usage),
    }
}

/// A file is read and written; it has to be there, and is not shortened.
fn read_and_write() -> OpenOptions
    ensures { result ≡ with_write (with_read new_options true) true }
{
    let mut options = OpenOptions::new();
    options.read(true).write(true);
    options
}

/// Opens a file that is there, to be read and written, and takes it for this run alone.
fn open(rt: &HostRuntime, name: &str) -> Result<File, Unopened> {
    let file = match read_and_write().open(rt, name) {
        Ok(file) => file,
        Err(e) if e.kind() == ErrorKind::OutOfMemory => return Err(Unopened::Memory),
        Err(_) => return Err(Unopened::Refused),
    };
    match file.try_lock() {
        Ok(()) => Ok(file),
        Err(_) => Err(Unopened::Refused),
    }
}

/// Says a line, and answers this exit.
fn say(output: &mut Output<'_>, line: &[u8], exit: u8) -> u8
    ensures { (result ≡ exit) ⊎ (result ≡ 7) }
{
    match output.say(line) {
        Ok(()) => exit,
        Err(_) => WRITE_FAULT,
    }
}

/// Says that there is no such file.
fn no_file(rt: &HostRuntime, output: &mut Output<'_>, name: &str) -> u8
    ensures { (result ≡ 2) ⊎ ((result ≡ 7) ⊎ (result ≡ 9)) }
{
    match format!(in rt.alloc(); "no file {name}\n") {
        Ok(line) => say(output, line.as_bytes(), 2),
        Err(_) => MEMORY,
    }
}

/// Ends where a file of this name is not open.
fn end_without(rt: &HostRuntime, output: &mut Output<'_>, name: &str, why: Unopened) -> u8
    ensures ends { (result ≡ 2) ⊎ ((result ≡ 7) ⊎ (result ≡ 9)) }
    ensures memory { why ≡ Unopened.Memory → result ≡ 9 }
{
    match why {
        Unopened::Refused => no_file(rt, output, name),
        Unopened::Memory => MEMORY,
    }
}

/// Repairs the hive of these names.
fn mend(rt: &HostRuntime, output: &mut Output<'_>, hive: &str, log: &str) -> u8 {
    let primary = match open(rt, hive) {
        Ok(file) => file,
        Err(why) => return end_without(rt, output, hive, why),
    };
    let logged = match open(rt, log) {
        Ok(file) => file,
        Err(why) => return end_without(rt, output, log, why),
    };
    let mut disk = FileDisk::new(primary, logged);
    mend_hive(rt.alloc(), output, &mut disk).code()
}

/// Says that the words are not two, or that one is no UTF-8; or there was no memory for them.
fn end_unread(output: &mut Output<'_>, why: NoWords) -> u8
    ensures usage { why ≡ NoWords.Usage → (result ≡ 1) ⊎ (result ≡ 7) }
    ensures memory { why ≡ NoWords.Memory → result ≡ 9 }
{
    match why {
        NoWords::Usage => say(output, b"bad usage\n", 1),
        NoWords::Memory => MEMORY,
    }
}

/// The exit code of the program.
fn exit(code: u8) -> ExitCode
    ensures { exit_status result ≡ code }
{
    ExitCode::from(code)
}

fn main(rt: HostRuntime) -> ExitCode {
    if take_standard_descriptors(&rt).is_err() {
        return exit(WRITE_FAULT);
    }
    let mut output = StandardHost::new(&rt, NoFiles);
    let code = match words(&rt) {
        Ok(Asked::Page(page)) => say(&mut output, page, 0),
        Ok(Asked::Mend(hive, log)) => mend(&rt, &mut output, hive.as_str(), log.as_str()),
        Err(why) => end_unread(&mut output, why),
    };
    exit(code)
}
