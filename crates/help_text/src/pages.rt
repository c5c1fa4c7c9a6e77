//! The text of each page.

ghost use Rattle.std.specs.Prelude.{◌≡◌, codes};
ghost use Rattle.help_text.specs.Constants.{command_constant, page_constant};
ghost use Rattle.help_text.specs.Pages.{page_text};

use crate::texts::{
    CHECK, CONTROL, DEVICES, DIFF, EXITS, EXPORT, FIND, GRAPH, HELP, IMPORT, KEY, MAKE, OVERVIEW,
    REPLAY, REPORT, RUN, SAFE, SALVAGE, SCRIPT, SERVICES, SHOW, SWEEP, TWIN, VERSION, WHATIF, WHY,
};
use command_words::{CommandName, Page};

/// The constant of a command's page.
fn command_page(command: CommandName) -> &'static [u8]
    ensures { result.now ≡ command_constant command }
{
    match command {
        CommandName::Run => RUN,
        CommandName::Show => SHOW,
        CommandName::Make => MAKE,
        CommandName::Safe => SAFE,
        CommandName::Control => CONTROL,
        CommandName::Twin => TWIN,
        CommandName::Export => EXPORT,
        CommandName::Import => IMPORT,
        CommandName::Key => KEY,
        CommandName::Replay => REPLAY,
        CommandName::Check => CHECK,
        CommandName::Whatif => WHATIF,
        CommandName::Salvage => SALVAGE,
        CommandName::Diff => DIFF,
        CommandName::Why => WHY,
        CommandName::Graph => GRAPH,
        CommandName::Sweep => SWEEP,
        CommandName::Devices => DEVICES,
        CommandName::Find => FIND,
        CommandName::Services => SERVICES,
    }
}

/// The constant of a page.
fn page_constant(page: Page) -> &'static [u8]
    ensures { result.now ≡ page_constant page }
{
    match page {
        Page::Overview => OVERVIEW,
        Page::Command(command) => command_page(command),
        Page::Help => HELP,
        Page::Version => VERSION,
        Page::Exits => EXITS,
        Page::Script => SCRIPT,
        Page::Report => REPORT,
    }
}

/// The text of a page: at most 36 lines of at most 80 characters of ASCII, each ended by a line feed.
pub fn page_of(page: Page) -> &'static [u8]
    ensures { result.now ≡ page_text page }
{
    page_constant(page)
}

/// The name of the program and its version, ended by a line feed.
pub fn version_text() -> &'static [u8]
    ensures { result.now ≡ codes "ntboot 1.0.0\n" }
{
    b"ntboot 1.0.0\n".as_slice()
}
