//! The pages that a lone word asks for, which names no hive.

ghost use Rattle.std.specs.Prelude.{◌≡◌, option_map};
ghost use Rattle.ntmend.specs.Pages.{page_named};

/// How the program is called.
pub const HELP: &[u8] = b"Usage: ntmend HIVE LOG

Repair a registry hive in place: recover it by its log, where its last commit
was cut off; then pack it, where that makes it shorter. Both files have to be
there; an absent log is first created by hand, as an empty file.

  ntmend --help      print this page
  ntmend --version   print the name of the program and its version

Exit status: 0 done, 1 bad usage, 2 a file is absent, locked or can't be
opened, 5 the hive has a fault, 7 output failed, 9 out of memory, 11 a read,
a write or a sync failed.
";

/// The name of the program and its version.
pub const VERSION: &[u8] = b"ntmend 1.0.0\n";

/// The page that this word asks for, where it is the only one.
pub fn page_of(word: &str) -> Option<&'static [u8]>
    ensures exact { option_map (λ page. page.now) result ≡ page_named word.now }
{
    if word == "--help" {
        return Some(HELP);
    }
    if word == "--version" {
        return Some(VERSION);
    }
    None
}
