//! The one call of the library.

ghost use Rattle.std.specs.Prelude.{◌⊎◌};
ghost use Rattle.ntboot_c.specs.Answers.{HasNoMemory, IsAnswered};
ghost use Rattle.ntboot_c.specs.Inputs.{files_of};

use crate::answer::obey;
use crate::inputs::{Given, Inputs};
use crate::outputs::give;
use std::alloc::Global;

/// Out of memory, as the program's exit status.
const NO_MEMORY: u8 = 9;

/// Does what the words ask for on files in memory: `hive`, `log`, `boot.ini` and `text`, as far as they are given. It gives back the program's
/// exit status, and as much as there is room for of what was printed and of the files `saved` and `saved.log`, each with its whole length in
/// bytes (0 for a file that was not saved). Out of memory is the status 9.
#[unsafe(no_mangle)]
pub extern "C" fn ntboot_call(
    alloc: Global,
    words: &[u8],
    given: &Given,
    hive: &[u8],
    log: &[u8],
    boot_ini: &[u8],
    text: &[u8],
    said: &mut [u8],
    said_length: &mut usize,
    saved_hive: &mut [u8],
    saved_hive_length: &mut usize,
    saved_log: &mut [u8],
    saved_log_length: &mut usize,
) -> u8
    ensures { IsAnswered words.now (files_of given.now hive.now log.now boot_ini.now text.now) result
        (record { before = said.old; after = said.new; told = said_length.new })
        (record { before = saved_hive.old; after = saved_hive.new; told = saved_hive_length.new })
        (record { before = saved_log.old; after = saved_log.new; told = saved_log_length.new })
        ⊎ HasNoMemory result said_length.new saved_hive_length.new saved_log_length.new }
{
    let inputs = Inputs {
        given: *given,
        hive,
        log,
        boot_ini,
        text,
    };
    match obey(alloc, words, &inputs) {
        Ok(answer) => {
            give(answer.said.as_slice(), said, said_length);
            give(answer.saved_hive.as_slice(), saved_hive, saved_hive_length);
            give(answer.saved_log.as_slice(), saved_log, saved_log_length);
            answer.status.code()
        }
        Err(_) => {
            (*said_length, *saved_hive_length, *saved_log_length) = (0, 0, 0);
            NO_MEMORY
        }
    }
}
