//! Which sectors the table lists.

ghost use Rattle.std.specs.Prelude.{◌≡◌, ◌/◌, ◌++◌, ℕ, Bool, List, length};
ghost use Rattle.hive_model.specs.Base.{Base};
ghost use Rattle.hive_model.specs.Image.{Image, Log, IsFileOf};
ghost use Rattle.hive_model.specs.Carries.{HasLog};
ghost use Rattle.hive_model.specs.Log.{log_of};
ghost use Rattle.hive_model.specs.Recovery.{bit, bitmap_sectors};
ghost use Rattle.hive_log.specs.Found.{Found};
ghost use Rattle.hive_commit.specs.Cuts.{IsChange};
ghost use Rattle.hive_commit.specs.Stages.{closed_of};
ghost use Rattle.sweep_text.specs.sweep_text.Logged.{listed, logged_of};
ghost use Rattle.sweep_text.specs.sweep_text.Stages.{recovery_stages, commit_stages};
ghost use Rattle.sweep_laws.specs.Leaving.{recovery_writes, commit_writes, held_after};
ghost use Rattle.sweep_laws.specs.Listing.{listed_in, written_in};

/// Stage by stage, the sectors that the table lists are those that are written, in the same order: of a commit, with the sectors of bits that its
/// new bins data take and the sectors whose bit is on, and of a recovery, with the sectors whose bit is on.
pub fn the_table_lists_what_is_written()
    ensures commit { (before : Image) (base : Base) (old new : List ℕ) (root : ℕ) (bits : ℕ → Bool)
        → IsChange before base old new root bits
        → listed_in (commit_stages (bitmap_sectors (length new)) (listed bits 0 (length new / 512))) ≡ written_in (commit_writes base bits new root) }
    ensures recovery { (closed : Base) (bits : ℕ → Bool) (bins : List ℕ)
        → listed_in (recovery_stages (listed bits 0 (length bins / 512))) ≡ written_in (recovery_writes closed bits bins) }
{}

/// This is read from a log that a commit wrote, with anything in its file after it: how many sectors its bits take, and the sectors whose bit is on.
pub fn a_log_tells_the_table()
    ensures bitmap { (before : Image) (base : Base) (old new : List ℕ) (root : ℕ) (bits : ℕ → Bool) (rest : List ℕ)
        → IsChange before base old new root bits
        → (logged_of (log_of bits new (closed_of base new root) ++ rest)).bitmap ≡ bitmap_sectors (length new) }
    ensures sectors { (before : Image) (base : Base) (old new : List ℕ) (root : ℕ) (bits : ℕ → Bool) (rest : List ℕ)
        → IsChange before base old new root bits
        → (logged_of (log_of bits new (closed_of base new root) ++ rest)).sectors ≡ listed bits 0 (length new / 512) }
{}

/// The table of a commit's writes is read from the log's file of a disk that holds its log: once the commit is done (`left`), and of every image
/// that has this log (`log`).
pub fn the_log_of_a_commit_tells_its_table()
    ensures log { (before image : Image) (base : Base) (old new bytes : List ℕ) (root : ℕ) (bits : ℕ → Bool)
        → IsChange before base old new root bits
        → HasLog image (log_of bits new (closed_of base new root)) → IsFileOf image Log bytes
        → listed_in (commit_stages (logged_of bytes).bitmap (logged_of bytes).sectors) ≡ written_in (commit_writes base bits new root) }
    ensures left { (before : Image) (base : Base) (old new bytes : List ℕ) (root : ℕ) (bits : ℕ → Bool)
        → IsChange before base old new root bits
        → IsFileOf (held_after before (commit_writes base bits new root)) Log bytes
        → listed_in (commit_stages (logged_of bytes).bitmap (logged_of bytes).sectors) ≡ written_in (commit_writes base bits new root) }
{}

/// The table of a recovery's writes is read from the log's file that it takes.
pub fn the_log_of_a_recovery_tells_its_table()
    ensures { (held : Image) (closed : Base) (bitmap bins bytes : List ℕ)
        → Found held closed bitmap bins → IsFileOf held Log bytes
        → listed_in (recovery_stages (logged_of bytes).sectors) ≡ written_in (recovery_writes closed (bit bitmap) bins) }
{}
