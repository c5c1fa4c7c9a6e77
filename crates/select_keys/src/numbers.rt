//! The four numbers of the key `Select`.

ghost use Rattle.std.specs.Prelude.{◌≡◌};
ghost use Rattle.std.specs.Option.{option_copied};
ghost use Rattle.start_model.specs.Sets.{select_number, numbers_in, four_of, has_number, taken_number, begun};
ghost use Rattle.select_keys.specs.Plans.{gives_up};

use nt_names::startup_names::{CURRENT, DEFAULT, FAILED, LAST_KNOWN_GOOD};
use reg_tree::Key;
use std::marker::Model;

/// The numbers of the sets that `Select` names, each 0 where it names none.
#[derive(Clone, Copy, Debug, PartialEq, Eq)]
pub struct SelectNumbers {
    /// The set that the last start took.
    pub current: u32,
    /// The set that the next start takes.
    pub default: u32,
    /// The set that failed last.
    pub failed: u32,
    /// LastKnownGood: the set that a fallback takes.
    pub good: u32,
}

impl Model for SelectNumbers {
    ghost use Rattle.start_model.specs.Sets.{SelectNumbers as Numbers};

    ghost Value = { Numbers };

    ghost view = { λ a. record { current = a.current; default = a.default; failed = a.failed; good = a.good } };

    ghost inverse = { λ n. record { current = n.current; default = n.default; failed = n.failed; good = n.good } };
}

/// The numbers in the key `Select`. Each is 0 where it is absent or no DWORD, or where there is no such key.
pub fn read_select(select: Option<&Key>) -> SelectNumbers
    ensures { result ≡ numbers_in (option_copied select.entry) }
{
    SelectNumbers {
        current: number_in(&CURRENT, select),
        default: number_in(&DEFAULT, select),
        failed: number_in(&FAILED, select),
        good: number_in(&LAST_KNOWN_GOOD, select),
    }
}

/// A number of the key, 0 where it is absent or no DWORD.
fn number_in(name: &[u16], select: Option<&Key>) -> u32
    ensures { result ≡ select_number name.now (option_copied select.entry) }
{
    match select {
        None => 0,
        Some(key) => match key.dword(name) {
            Some(number) => number,
            None => 0,
        },
    }
}

impl SelectNumbers {
    /// Whether one of the four is this number.
    pub(crate) fn has(self, number: u32) -> bool
        ensures { result ≡ has_number (four_of self) number }
    {
        self.current == number
            || self.default == number
            || self.failed == number
            || self.good == number
    }

    /// Whether one of the four is this number, and none of the new ones is.
    pub(crate) fn gives_up(self, new: SelectNumbers, number: u32) -> bool
        ensures { result ≡ gives_up self new number }
    {
        self.has(number) && !new.has(number)
    }

    /// The number of the set that a start takes: LastKnownGood or Default.
    pub fn taken(self, last_known_good: bool) -> u32
        ensures { result ≡ taken_number self last_known_good }
    {
        if last_known_good {
            self.good
        } else {
            self.default
        }
    }

    /// The numbers as a start begins, before the guard.
    pub(crate) fn begun(self, last_known_good: bool) -> SelectNumbers
        ensures { result ≡ begun self last_known_good }
    {
        let number = self.taken(last_known_good);
        let has_failed = last_known_good && self.default != number;
        SelectNumbers {
            current: number,
            default: number,
            failed: if has_failed {
                self.default
            } else {
                self.failed
            },
            good: self.good,
        }
    }
}
