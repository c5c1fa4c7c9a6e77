//! The log of a change of one byte, and what it leaves out.

ghost use Rattle.std.specs.Prelude.{◌≡◌, ◌↔◌, ◌≤◌, ◌+◌, ◌*◌, ℕ, List, false, length};
ghost use Rattle.hive_model.specs.Log.{dirty};
ghost use Rattle.hive_model.specs.Recovery.{sector};

/// A sector is left out of the log exactly where all its bytes are there in the old data, and equal.
pub fn a_log_leaves_out_what_is_there()
    ensures { (old new : List ℕ) (i : ℕ) → (dirty old new i ≡ false) ↔ ((512 * i + 512 ≤ length old) × (sector old i ≡ sector new i)) }
{}
