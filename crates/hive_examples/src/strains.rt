//! How long the bins data may become by an edit in place.

ghost use Rattle.std.specs.Prelude.{◌≡◌, [], ◌∷◌, codes, replicate};
ghost use Rattle.nt_bytes.specs.declared.version.HiveVersion.TheVariants.{V3, V5};
ghost use Rattle.hive_model.specs.Edit.{set_value, delete_value, make_key, delete_key, copy_child, add_child};
ghost use Rattle.hive_model.specs.Footprint.{strain_of, list_strain_of};
ghost use Rattle.hive_laws.specs.hive_laws.Both.{StrainIs};
ghost use Rattle.hive_laws.specs.hive_laws.Trees.{one_driver, disk_key, services_path, disk_path};

/// Each cell needs 4096 bytes here, but one of 16,344 or 16,345 bytes 16,384: of a value that is set the value list and its own, of
/// over four bytes those of its data too; where one of two values is deleted, the list of the other.
pub fn room_for_values()
    ensures set { StrainIs one_driver (set_value disk_path (codes "Start") 4 (4 ∷ 0 ∷ 0 ∷ 0 ∷ []) ∷ []) 12288 }
    ensures with_data { StrainIs one_driver (set_value disk_path (codes "Start") 3 (1 ∷ 2 ∷ 3 ∷ 4 ∷ 5 ∷ []) ∷ []) 16384 }
    ensures one_long { strain_of V3 4096 one_driver (set_value disk_path (codes "Start") 3 (replicate 16345 0) ∷ []) ≡ 28672 }
    ensures two_segments { strain_of V5 4096 one_driver (set_value disk_path (codes "Start") 3 (replicate 16345 0) ∷ []) ≡ 40960 }
    ensures deleted { StrainIs one_driver (delete_value disk_path (codes "start") ∷ []) 8192 }
{}

/// A new key needs its node and its parent's list, and one that is there nothing. The last child that goes
/// leaves no list; made again it needs its node and the list. A copy or an added key needs each of its cells and the root's list.
pub fn room_for_keys()
    ensures made { StrainIs one_driver (make_key services_path (codes "Disk2") ∷ []) 12288 }
    ensures there { StrainIs one_driver (make_key services_path (codes "disk") ∷ []) 4096 }
    ensures removed { StrainIs one_driver (delete_key disk_path ∷ []) 4096 }
    ensures made_again { StrainIs one_driver (delete_key disk_path ∷ make_key services_path (codes "Disk") ∷ []) 12288 }
    ensures copied { StrainIs one_driver (copy_child (codes "controlset001") (codes "C2") ∷ []) 40960 }
    ensures added { StrainIs one_driver (add_child (codes "New") disk_key ∷ []) 24576 }
{}

/// One list holds 500 children. For more there is a list of lists too.
pub fn room_for_lists()
    ensures none { list_strain_of 4096 0 ≡ 4096 }
    ensures one { list_strain_of 4096 1 ≡ 8192 }
    ensures full { list_strain_of 4096 500 ≡ 8192 }
    ensures two { list_strain_of 4096 501 ≡ 16384 }
    ensures two_full { list_strain_of 4096 1000 ≡ 16384 }
{}
