//! The tree that is in cells, or their first fault.

ghost use Rattle.std.specs.Prelude.{◌≡◌, ◌<◌, ◌↔◌, ◌⊎◌, ℕ, Bool, List, None, slice_index};
ghost use Rattle.nt_bytes.specs.declared.fault.HiveFault.{HiveFault as HiveFaultModel};
ghost use Rattle.hive_model.specs.Bins.{Cells};
ghost use Rattle.hive_model.specs.Image.{Image, image_of};
ghost use Rattle.hive_model.specs.Tree.{Tree};
ghost use Rattle.hive_model.specs.State.{HiveState};
ghost use Rattle.hive_model.specs.Walk.{first_fault};
ghost use Rattle.hive_model.specs.Stands.{Stands, IsWellFormed};
ghost use Rattle.hive_model.specs.Load.{Loads, LoadFault};
ghost use Rattle.hive_laws.specs.hive_laws.Whole.{HasWholeSectors, HasBytes};

/// At most one tree is at an offset.
pub fn one_tree_stands()
    ensures { (cells : Cells) (at : ℕ) (t u : Tree) → Stands cells at t → Stands cells at u → t ≡ u }
{}

/// Cells are well-formed at a root, with some tree, exactly where they have no first fault.
pub fn well_formed_cells_have_no_fault()
    ensures { (cells : Cells) (root : ℕ) → ((t : Tree) × IsWellFormed cells root t) ↔ (first_fault cells root ≡ None) }
{}

/// An image loads as one state at most, dirty or not, and never beside a first fault. Where its sectors have 512 bytes, it has
/// one first fault at most, and always loads or has one.
pub fn an_image_loads_or_has_a_fault()
    ensures one_state { (image : Image) (state other : HiveState) (dirty was : Bool) → Loads image state dirty → Loads image other was
        → (state ≡ other) × (dirty ≡ was) }
    ensures not_both { (image : Image) (state : HiveState) (dirty : Bool) (fault : HiveFaultModel) → Loads image state dirty → LoadFault image fault → ⊥ }
    ensures one_fault { (image : Image) (fault other : HiveFaultModel) → HasWholeSectors image → LoadFault image fault → LoadFault image other → fault ≡ other }
    ensures one_of_the_two { (image : Image) → HasWholeSectors image → HasBytes image
        → ((state : HiveState) × (dirty : Bool) × Loads image state dirty) ⊎ ((fault : HiveFaultModel) × LoadFault image fault) }
{}

/// The image of two files has sectors of 512 bytes.
pub fn sectors_of_files_are_whole()
    ensures whole { (primary log : List ℕ) → HasWholeSectors (image_of primary log) }
    ensures bytes { (primary log : List ℕ) → ((k : ℕ) → slice_index primary k < 256) → ((k : ℕ) → slice_index log k < 256) → HasBytes (image_of primary log) }
{}
