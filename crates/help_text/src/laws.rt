//! What holds of the pages.

ghost use Rattle.std.specs.Prelude.{◌≡◌, true};
ghost use Rattle.std.specs.List.{list_all};
ghost use Rattle.command_words.specs.Commands.{commands};
ghost use Rattle.help_text.specs.Options.{lists_options};

/// The page of each command has a line for each option that `clap` is given, with the name of a value exactly where the option takes
/// one, and for no other; the flags of every command stand on the page of all commands.
pub fn each_page_lists_the_options()
    ensures { list_all lists_options commands ≡ true }
{}
