//! What holds of crash images, on any disk.

ghost use Rattle.std.specs.Prelude.{◌≡◌, ◌++◌, Bool, List, []};
ghost use Rattle.hive_model.specs.Image.{Address, Image, Write, overlaid, IsCrashImage};
ghost use Rattle.nt_edge.specs.Crash.{EachWrite, AgreeOutside, torn};

/// With nothing in flight a loss of power leaves what is held, and nothing else.
pub fn nothing_in_flight_leaves_what_is_held()
    ensures stays { (held : Image) → IsCrashImage held [] held }
    ensures alone { (held left : Image) → IsCrashImage held [] left → left ≡ held }
{}

/// Of the writes in flight a loss of power may lose all or keep all, or leave the sector of each unreadable.
pub fn all_may_be_lost_or_kept()
    ensures lost { (held : Image) (flight : List Write) → IsCrashImage held flight held }
    ensures kept { (held : Image) (flight : List Write)
        → IsCrashImage held flight (overlaid held flight) }
    ensures torn { (held : Image) (flight : List Write) → IsCrashImage held flight (torn held flight) }
{}

/// A longer flight allows every crash image that a shorter one allows.
pub fn a_longer_flight_allows_more()
    ensures { (held left : Image) (flight more : List Write)
        → IsCrashImage held flight left → IsCrashImage held (flight ++ more) left }
{}

/// Where no write is in flight, what remains is what is held, and so is what a read finds.
pub fn only_what_is_in_flight_changes()
    ensures left { (p : Address → Bool) (held left : Image) (flight : List Write) → EachWrite p flight
        → IsCrashImage held flight left → AgreeOutside p held left }
    ensures now { (p : Address → Bool) (held : Image) (flight : List Write) → EachWrite p flight
        → AgreeOutside p held (overlaid held flight) }
{}
