//! The laws. Each has its statement in `specs/`.

ghost use Rattle.command_laws.specs.safe_laws.Images.{MoreEntriesLoseNone, ImagesLoseNone};
ghost use Rattle.command_laws.specs.safe_laws.Modes.{SwitchesAsk, NamedIsAsked, NamedEndsAsAsked};

/// Each name that is started in a safe mode where images don't count is started where they count (`images`). More is true: what is started of
/// a set is started of every set that has all its entries (`more`). The keys of the sets must be those that a hive can hold.
pub fn images_lose_no_start()
    ensures more { MoreEntriesLoseNone }
    ensures images { ImagesLoseNone }
{}

/// The report where the command line names a mode is the one without that option on the same boot.ini, but that the first switch for a mode of
/// its chosen entry is that mode's (`report`), which is the mode that such switches ask for (`asked`). The answer of the command is so too,
/// on what it has read (`answer`).
pub fn a_named_mode_is_as_if_the_entry_asked_for_it()
    ensures asked { SwitchesAsk }
    ensures report { NamedIsAsked }
    ensures answer { NamedEndsAsAsked }
{}
