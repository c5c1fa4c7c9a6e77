//! What holds of the walk over the command line, and of the table of commands.

ghost use Rattle.std.specs.Prelude.{◌≡◌, ◌∷◌, ◌++◌, Err, false, List, Ok, true};
ghost use Rattle.std.specs.List.{list_all, list_any};
ghost use Rattle.std.specs.Prelude.{[], codes, is_ok, None, Some};
ghost use Rattle.std.specs.Prelude.{Bool};
ghost use Rattle.command_words.specs.Words.{FindAsked, Reason, Text, asks, find};
ghost use Rattle.command_words.specs.Table.{OptionRow, is_free};
ghost use Rattle.command_words.specs.Walk.{State, no_values, walked, with_step};
ghost use Rattle.command_words.specs.Commands.{CommandRow, commands, flag, has_places, row_named};
ghost use Rattle.command_words.specs.Reading.{asked_of, command_read, is_verbose, reading_of};
ghost use Rattle.command_words.specs.declared.asked.CommandName.{CommandName};
ghost use Rattle.command_words.specs.Laws.{IsSought, names_one, steps};
ghost use Rattle.command_words.specs.Clap.{Tells, TellsTaken, is_refused, loosened};

/// The first fault from the left decides: where the words before a word have none and the word is wrong, what follows it
/// doesn't matter.
pub fn the_first_fault_decides()
    ensures { (rows : List OptionRow) (state reached : State) (before after : List Text) (word : Text) (reason : Reason)
        → steps rows state before ≡ Ok reached → with_step rows reached.values word reached.waiting ≡ Err reason
        → walked rows state (before ++ word ∷ after) ≡ Err reason }
{}

/// More options change nothing for words that name none of them: a command reads those as it did without them.
pub fn unnamed_options_change_nothing()
    ensures { (rows extra : List OptionRow) (state : State) (words : List Text) → list_any (names_one extra) words ≡ false
        → list_any (λ row. is_free row.takes) extra ≡ false → walked (rows ++ extra) state words ≡ walked rows state words }
{}

/// More options ask nothing of words that name none of them: a command is asked what it would be asked without them.
pub fn unnamed_options_ask_nothing()
    ensures { (name : Text) (command : CommandName) (rows extra : List OptionRow) (words : List Text)
        → list_any (names_one extra) words ≡ false → list_any (λ row. is_free row.takes) extra ≡ false
        → asked_of (record { name = name; command = command; options = rows ++ extra }) words
        ≡ asked_of (record { name = name; command = command; options = rows }) words }
{}

/// `find` is asked for a text or for bytes, and the bytes are pairs of hexadecimal digits.
pub fn find_is_asked_for_something()
    ensures { (words : List Text) (asked : FindAsked) (json : Bool) → reading_of words ≡ asks (find asked) json → IsSought asked }
{}

/// The value of each option of each command has a place of its own.
pub fn each_option_has_a_place()
    ensures { list_all has_places commands ≡ true }
{}

/// `--verbose` changes nothing of what is asked: a word that gives it, where no option waits for its value and no other word gives it,
/// can be left out.
pub fn verbose_changes_nothing()
    ensures { (first : Text) (row : CommandRow) (reached : State) (before after : List Text) (word : Text)
        → row_named first ≡ Some row
        → steps row.options (record { values = no_values; waiting = None }) before ≡ Ok reached → reached.waiting ≡ None
        → is_verbose word ≡ true → list_any (names_one (flag (codes "--verbose") ∷ [])) (before ++ after) ≡ false
        → command_read first (before ++ word ∷ after) (Some row) ≡ command_read first (before ++ after) (Some row) }
{}

/// The faults of `clap` are none exactly where the command, taking any value, reads the words, and then it finds the values that are read.
pub fn clap_faults_where_there_is_a_reason()
    ensures { (name : Text) (c : CommandRow) (words : List Text) → row_named name ≡ Some c → list_any is_refused words ≡ false
        → Tells c words (walked (loosened c.options) (record { values = no_values; waiting = None }) words) }
{}

/// The command reads the words exactly where `clap` has no fault and each value is one that its option takes.
pub fn clap_reads_what_is_read()
    ensures { (name : Text) (c : CommandRow) (words : List Text) → row_named name ≡ Some c → list_any is_refused words ≡ false
        → TellsTaken c words (walked c.options (record { values = no_values; waiting = None }) words) }
{}

/// A word that is refused before `clap` is asked is one that no command takes.
pub fn no_command_takes_a_refused_word()
    ensures { (name : Text) (c : CommandRow) (words : List Text) → row_named name ≡ Some c → list_any is_refused words ≡ true
        → is_ok (walked c.options (record { values = no_values; waiting = None }) words) ≡ false }
{}
