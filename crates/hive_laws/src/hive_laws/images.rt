//! What a loss of power may leave of a write.

ghost use Rattle.std.specs.Prelude.{List, [], ◌∷◌, ◌++◌};
ghost use Rattle.hive_model.specs.Image.{Image, Write, put, IsCrashImage};
ghost use Rattle.nt_edge.specs.Crash.{unreadable_at};

/// A write that is last in flight is kept, is lost or leaves its sector unreadable by itself, whatever became of those
/// before it.
pub fn a_write_is_kept_or_lost_by_itself()
    ensures kept { (held left : Image) (flight : List Write) (write : Write) → IsCrashImage held flight left
        → IsCrashImage held (flight ++ write ∷ []) (put left write) }
    ensures lost { (held left : Image) (flight : List Write) (write : Write) → IsCrashImage held flight left → IsCrashImage held (flight ++ write ∷ []) left }
    ensures torn { (held left : Image) (flight : List Write) (write : Write) → IsCrashImage held flight left
        → IsCrashImage held (flight ++ write ∷ []) (unreadable_at write.0 left) }
{}
