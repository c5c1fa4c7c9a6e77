//! Laws of the trees that are in cells.

ghost use Rattle.std.specs.Prelude.{◌≡◌, ℕ, Bool, None};
ghost use Rattle.nt_bytes.specs.declared.fault.HiveFault.{HiveFault as HiveFaultModel};
ghost use Rattle.hive_model.specs.Image.{Image};
ghost use Rattle.hive_model.specs.State.{HiveState};
ghost use Rattle.hive_model.specs.Load.{Loads, LoadFault};
ghost use Rattle.hive_model.specs.Bins.{Cells};
ghost use Rattle.hive_model.specs.Tree.{Tree};
ghost use Rattle.hive_model.specs.Walk.{first_fault};
ghost use Rattle.hive_model.specs.Stands.{Stands, IsWellFormed};

use hive_cells::{list_or_fault, one_list};

/// At most one tree is at an offset.
pub fn one_stands()
    ensures { (cells : Cells) (at : ℕ) (t u : Tree) → Stands cells at t → Stands cells at u → t ≡ u }
{}

/// Well-formed cells have no first fault.
pub fn well_formed_passes()
    ensures { (cells : Cells) (root : ℕ) (t : Tree) → IsWellFormed cells root t → first_fault cells root ≡ None }
{}

/// Where there is no first fault, the cells are well-formed and a tree is in them.
pub fn stands_where_none_fails()
    ensures { (cells : Cells) (root : ℕ) → first_fault cells root ≡ None → (t : Tree) × IsWellFormed cells root t }
{}

/// An image loads as at most one state, and is dirty or not.
pub fn one_load()
    ensures { (image : Image) (s u : HiveState) (d e : Bool) → Loads image s d → Loads image u e → (s ≡ u) × (d ≡ e) }
{
    one_list();
}

/// An image that loads has no first fault.
pub fn load_or_fault()
    ensures { (image : Image) (s : HiveState) (d : Bool) (fault : HiveFaultModel) → Loads image s d → LoadFault image fault → ⊥ }
{
    one_list();
    list_or_fault();
}
