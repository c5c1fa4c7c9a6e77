//! Where recovery looks, that nothing else counts, and which sectors it asks for.

ghost use Rattle.std.specs.Prelude.{◌≡◌, [], ◌∷◌};
ghost use Rattle.hive_model.specs.Image.{image_of};
ghost use Rattle.hive_model.specs.Log.{dirty, log_of};
ghost use Rattle.hive_model.specs.Asked.{primary_at, log_at, asked_of};
ghost use Rattle.hive_examples.specs.OneDriver.{driver_with};
ghost use Rattle.hive_laws.specs.hive_laws.Samples.{block, before, after, file_of};
ghost use Rattle.nt_edge.specs.Crash.{unreadable_at};

/// What recovery asks for, in its order: of the clean hive of one driver, of no files, and of a hive with the
/// numbers 6 and 5 without a log, and with one that has its sector 1. It asks for the same where the base block can't be
/// read, and for no more after a sector of the log that can't.
pub fn sectors_that_recovery_asks_for()
    ensures clean { asked_of (driver_with []) ≡ primary_at 0 ∷ primary_at 8 ∷ primary_at 9 ∷ primary_at 10 ∷ primary_at 11
        ∷ primary_at 12 ∷ primary_at 13 ∷ primary_at 14 ∷ primary_at 15 ∷ [] }
    ensures no_primary { asked_of (image_of [] []) ≡ primary_at 0 ∷ [] }
    ensures no_log { asked_of (image_of (file_of 6 5 before) []) ≡ primary_at 0 ∷ log_at 0 ∷ [] }
    ensures logged { asked_of (image_of (file_of 6 5 before) (log_of (dirty before after) after (block 6 6 0)))
        ≡ primary_at 0 ∷ log_at 0 ∷ log_at 1 ∷ log_at 2 ∷ primary_at 8 ∷ primary_at 10 ∷ primary_at 11
        ∷ primary_at 12 ∷ primary_at 13 ∷ primary_at 14 ∷ primary_at 15 ∷ [] }
    ensures unreadable_block { asked_of (unreadable_at (primary_at 0) (image_of (file_of 6 5 before) (log_of (dirty before after) after (block 6 6 0))))
        ≡ asked_of (image_of (file_of 6 5 before) (log_of (dirty before after) after (block 6 6 0))) }
    ensures unreadable_log { asked_of (unreadable_at (log_at 2) (image_of (file_of 6 5 before) (log_of (dirty before after) after (block 6 6 0))))
        ≡ primary_at 0 ∷ log_at 0 ∷ log_at 1 ∷ log_at 2 ∷ [] }
{}
