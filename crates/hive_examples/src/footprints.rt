//! Which cells an edit in place may change.

ghost use Rattle.std.specs.Prelude.{◌≡◌, [], ◌∷◌, codes, Some};
ghost use Rattle.nt_bytes.specs.declared.version.HiveVersion.{HiveVersion as Version};
ghost use Rattle.nt_bytes.specs.declared.version.HiveVersion.TheVariants.{V5};
ghost use Rattle.hive_model.specs.Bins.{look_up};
ghost use Rattle.hive_model.specs.Tree.{key, none};
ghost use Rattle.hive_model.specs.Edit.{set_value, delete_value, make_key, delete_key, copy_child, add_child};
ghost use Rattle.hive_model.specs.Packed.{packed_bins};
ghost use Rattle.hive_model.specs.Footprint.{key_place};
ghost use Rattle.hive_laws.specs.hive_laws.Both.{HasFootprint, FootprintIs};
ghost use Rattle.hive_laws.specs.hive_laws.Trees.{long_root, one_driver, disk_path, guarded, guarded_by};

/// In the hive of one driver `Disk` is at 360, in `Services` at 256, with its value list at 448 and `Start` at 464.
pub fn cells_of_the_start_value()
    ensures place { (version : Version) → key_place (look_up version (packed_bins version one_driver)) disk_path 32 ≡ Some 360 }
    ensures changed { FootprintIs one_driver (set_value disk_path (codes "Start") 4 (4 ∷ 0 ∷ 0 ∷ 0 ∷ []) ∷ []) (256 ∷ 360 ∷ 448 ∷ 464 ∷ []) }
{}

/// The nodes of parent and key, the value list, and the cells of a value that is there. The root's parent is
/// the root, which has no value list here.
pub fn cells_of_values()
    ensures there { FootprintIs guarded (set_value (codes "a" ∷ codes "b" ∷ []) (codes "V") 3 [] ∷ []) (168 ∷ 288 ∷ 408 ∷ 416 ∷ 448 ∷ []) }
    ensures new { FootprintIs guarded (set_value (codes "a" ∷ codes "b" ∷ []) (codes "w") 3 [] ∷ []) (168 ∷ 288 ∷ 408 ∷ []) }
    ensures deleted { FootprintIs guarded (delete_value (codes "a" ∷ codes "b" ∷ []) (codes "v") ∷ []) (168 ∷ 288 ∷ 408 ∷ 416 ∷ 448 ∷ []) }
    ensures root { FootprintIs guarded (set_value [] (codes "w") 3 [] ∷ []) (32 ∷ []) }
{}

/// A value in two segments: its list, its cell, `db`, the list of its segments, and these.
pub fn cells_of_two_segments()
    ensures { HasFootprint V5 long_root (delete_value [] (codes "A") ∷ []) (32 ∷ 120 ∷ 128 ∷ 160 ∷ 176 ∷ 192 ∷ 16544 ∷ []) }
{}

/// A new key has no node yet: the node of its parent, the descriptor that the parent uses, and its lists. `B` has
/// no list. For a key that is there only the two nodes count. A copy names two children of the root, and
/// counts each descriptor that its cells use.
pub fn cells_of_new_keys()
    ensures first { FootprintIs guarded (make_key (codes "a" ∷ codes "b" ∷ []) (codes "n") ∷ []) (288 ∷ 376 ∷ []) }
    ensures third { FootprintIs guarded (make_key (codes "a" ∷ []) (codes "n") ∷ []) (168 ∷ 120 ∷ 264 ∷ []) }
    ensures there { FootprintIs guarded (make_key (codes "a" ∷ []) (codes "b") ∷ []) (168 ∷ 288 ∷ []) }
    ensures added { FootprintIs guarded (add_child (codes "n") (key (guarded_by (7 ∷ []) (codes "q")) none) ∷ []) (32 ∷ 120 ∷ 152 ∷ []) }
    ensures copied { FootprintIs guarded (copy_child (codes "a") (codes "x") ∷ []) (32 ∷ 152 ∷ 168 ∷ 120 ∷ 376 ∷ 120 ∷ []) }
{}

/// The node of the parent and its list, and all cells of the key and below it, with the descriptor
/// that keys outside use too. What is made again is looked up where it was.
pub fn cells_of_removed_keys()
    ensures below { FootprintIs guarded (delete_key (codes "a" ∷ []) ∷ [])
        (32 ∷ 152 ∷ 168 ∷ 256 ∷ 120 ∷ 264 ∷ 288 ∷ 376 ∷ 408 ∷ 416 ∷ 448 ∷ 464 ∷ 120 ∷ []) }
    ensures inner { FootprintIs guarded (delete_key (codes "a" ∷ codes "b" ∷ []) ∷ []) (168 ∷ 264 ∷ 288 ∷ 376 ∷ 408 ∷ 416 ∷ 448 ∷ []) }
    ensures made_again { FootprintIs guarded (delete_key (codes "a" ∷ codes "b" ∷ []) ∷ make_key (codes "a" ∷ []) (codes "b") ∷ [])
        (168 ∷ 264 ∷ 288 ∷ 376 ∷ 408 ∷ 416 ∷ 448 ∷ 168 ∷ 120 ∷ 264 ∷ 288 ∷ []) }
{}
