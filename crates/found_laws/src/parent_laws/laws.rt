//! The laws.

ghost use Rattle.std.specs.Prelude.{◌≡◌, ◌<◌, ◌≤◌, ℕ, Bool, true, false, List, Some, slice_index};
ghost use Rattle.nt_bytes.specs.declared.version.HiveVersion.{HiveVersion};
ghost use Rattle.hive_model.specs.Edit.{most_bulk};
ghost use Rattle.hive_model.specs.Size.{bulk_of};
ghost use Rattle.hive_model.specs.Tree.{Tree, find_key};
ghost use Rattle.hive_model.specs.Valid.{IsValid};
ghost use Rattle.salvage_bins.specs.declared.layout.Mark.{Mark};
ghost use Rattle.salvage_bins.specs.Ground.{Ground};
ghost use Rattle.salvage_walk.specs.Keys.{salvaged};
ghost use Rattle.salvage_parents.specs.Search.{salvaged_by_parents};
ghost use Rattle.salvage_file.specs.Salvage.{ground_in, salvaged_as};
ghost use Rattle.found_laws.specs.parent_laws.Within.{IsWithin, AddsOnly};

/// Each key and value that is salvaged by the lists of keys alone is salvaged too where keys are looked for by their parents: at the same
/// path, with the same name and data. The lines of the walk are the same.
pub fn a_search_by_parents_adds_only()
    ensures cells { (hive : Ground) (root : ℕ) → AddsOnly (salvaged hive root).0 (salvaged_by_parents hive root).tree }
    ensures files { (save : Bool) (hive log : List ℕ) → AddsOnly (salvaged_as false save hive log).tree (salvaged_as true save hive log).tree }
    ensures lines { (save : Bool) (hive log : List ℕ) → (salvaged_as true save hive log).lines ≡ (salvaged_as false save hive log).lines }
{}

/// Where a tree is within another, each key that is found in it by a path is found in the other by that path, and is within what is found
/// there.
pub fn a_key_within_a_tree_is_at_its_path()
    ensures { (t u k : Tree) (path : List (List ℕ)) → IsWithin t u → find_key path t ≡ Some k
        → (v : Tree) × (find_key path u ≡ Some v) × IsWithin k v }
{}

/// What is salvaged of bytes with the keys that are found by their parents is a tree that a hive can hold, if its bulk is at most what a
/// hive is saved of.
pub fn a_tree_with_found_keys_is_valid()
    ensures { (version : HiveVersion) (bytes : List ℕ) (marks : List Mark) (root : ℕ) (t : Tree) → ((k : ℕ) → slice_index bytes k < 256)
        → (salvaged_by_parents (ground_in version bytes marks) root).tree ≡ Some t → bulk_of version t ≤ most_bulk → IsValid t }
{}
