//! What an edit in place keeps of the cells of security.

ghost use Rattle.std.specs.Prelude.{◌≡◌, ℕ, [], None};
ghost use Rattle.hive_model.specs.Bins.{Cells};
ghost use Rattle.hive_model.specs.Walk.{first_fault};
ghost use Rattle.hive_model.specs.InPlace.{KeepsSecurity};

/// Cells without a fault keep their security where nothing changes.
pub fn cells_keep_themselves()
    ensures { (cells : Cells) (root : ℕ) → first_fault cells root ≡ None → KeepsSecurity root (λ at. []) cells cells }
{}
