//! Laws of safe starts.

ghost use Rattle.safe_boot.specs.Laws.{UnlistedChangesNoLine, FirstIsInFront, LateIsListed, ImagesLeaveMore, ImagesNeedMode};

/// Whether there is an entry with a Start other than 0 that isn't listed changes no line.
pub fn an_unlisted_entry_changes_no_line()
    ensures { UnlistedChangesNoLine }
{}

/// Each name that is started in the system phase or the automatic one is that of a listed entry (`listed`). These are the lines
/// after those of the boot phase, with which each start begins (`front`).
pub fn what_starts_late_is_listed()
    ensures front { FirstIsInFront }
    ensures listed { LateIsListed }
{}

/// Each service that stays where images don't count stays where they count (`more`). Without a mode they change nothing (`needs`).
pub fn images_leave_more()
    ensures more { ImagesLeaveMore }
    ensures needs { ImagesNeedMode }
{}
