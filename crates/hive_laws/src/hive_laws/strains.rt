//! How long the bins data may become by an edit in place.

ghost use Rattle.std.specs.Prelude.{◌≡◌, ◌≤◌, ◌+◌, ℕ, List, [], ◌∷◌, ◌++◌, codes, Ok, Err};
ghost use Rattle.nt_bytes.specs.declared.version.HiveVersion.{HiveVersion as Version};
ghost use Rattle.hive_model.specs.Tree.{Tree};
ghost use Rattle.hive_model.specs.Size.{list_size};
ghost use Rattle.hive_model.specs.Edit.{Step, Refusal, delete_value, copy_child, after_step, after_steps};
ghost use Rattle.hive_model.specs.Footprint.{strain_of, list_strain_of};
ghost use Rattle.hive_laws.specs.hive_laws.Both.{StrainIs};
ghost use Rattle.hive_laws.specs.hive_laws.Trees.{one_driver, disk_path};

/// The strain of lists is at least the old length and the size of the lists.
pub fn lists_have_room()
    ensures old_length { (bytes n : ℕ) → bytes ≤ list_strain_of bytes n }
    ensures lists { (bytes n : ℕ) → bytes + list_size n ≤ list_strain_of bytes n }
{}

/// The strain is at least the old length, and further steps make it no less.
pub fn strain_never_falls()
    ensures old_length { (version : Version) (bytes : ℕ) (t : Tree) (steps : List Step) → bytes ≤ strain_of version bytes t steps }
    ensures further { (version : Version) (bytes : ℕ) (t : Tree) (steps more : List Step)
        → strain_of version bytes t steps ≤ strain_of version bytes t (steps ++ more) }
{}

/// Steps after others strain as they would alone, from the length and the tree that those before them lead to.
pub fn strain_goes_on()
    ensures { (version : Version) (bytes : ℕ) (t u : Tree) (steps more : List Step) → after_steps t steps ≡ Ok u
        → strain_of version bytes t (steps ++ more) ≡ strain_of version (strain_of version bytes t steps) u more }
{}

/// A refused step needs no room, nor does what stands after it.
pub fn a_refused_step_needs_no_room()
    ensures step { (version : Version) (bytes : ℕ) (t u : Tree) (why : Refusal) (steps more : List Step) (step : Step) → after_steps t steps ≡ Ok u
        → after_step step u ≡ Err why
        → strain_of version bytes t (steps ++ step ∷ more) ≡ strain_of version bytes t steps }
    ensures behind { (version : Version) (bytes : ℕ) (t : Tree) (why : Refusal) (steps more : List Step) → after_steps t steps ≡ Err why
        → strain_of version bytes t (steps ++ more) ≡ strain_of version bytes t steps }
    ensures a_copy_of_nothing { StrainIs one_driver (copy_child (codes "nowhere") (codes "C2") ∷ delete_value disk_path (codes "start") ∷ []) 4096 }
{}
