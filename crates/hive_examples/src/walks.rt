//! The first fault of a root with two children, and the tree that stands there; data in segments.

ghost use Rattle.std.specs.Prelude.{◌≡◌, ◌*◌, [], ◌∷◌, ◌++◌, codes, replicate, None, Some, Ok, Err};
ghost use Rattle.nt_bytes.specs.declared.fault.HiveFaultKind.TheVariants.{OutOfRange, FreeCell, Shared, DoubleName, Count, FormShort, FormSign, FormLength, TooDeep};
ghost use Rattle.nt_bytes.specs.declared.version.HiveVersion.{HiveVersion as Version};
ghost use Rattle.nt_bytes.specs.declared.version.HiveVersion.TheVariants.{V3, V5};
ghost use Rattle.hive_model.specs.Base.{fault_at};
ghost use Rattle.hive_model.specs.Bins.{look_up};
ghost use Rattle.hive_model.specs.Walk.{data_checks, first_fault};
ghost use Rattle.hive_model.specs.Stands.{data_of, Stands};
ghost use Rattle.hive_model.specs.Footprint.{used_in};
ghost use Rattle.hive_laws.specs.hive_laws.Both.{FaultIs};
ghost use Rattle.hive_examples.specs.SmallCells.{family, kin, endless, long_value, segmented, data_fault};
ghost use Rattle.hive_laws.specs.hive_laws.Trees.{folder};

/// The children are at 144 and 232, as the list says.
pub fn a_family_stands()
    ensures sound { FaultIs (family 2 144 232 (codes "B")) 32 None }
    ensures tree { (version : Version) → Stands (look_up version (family 2 144 232 (codes "B"))) 32
        (folder (codes "R") (folder (codes "A") [] ∷ folder (codes "B") [] ∷ [])) }
{}

/// A list that names a cell twice, the root, the free cell after the last key, a place in a cell, or
/// itself; names that differ by case alone; and a count of three.
pub fn faults_of_a_family()
    ensures twice { FaultIs (family 2 144 144 (codes "B")) 32 (Some (fault_at Shared 144)) }
    ensures root { FaultIs (family 2 32 232 (codes "B")) 32 (Some (fault_at Shared 32)) }
    ensures free { FaultIs (family 2 144 320 (codes "B")) 32 (Some (fault_at FreeCell 320)) }
    ensures inside { FaultIs (family 2 144 148 (codes "B")) 32 (Some (fault_at OutOfRange 148)) }
    ensures itself { FaultIs (family 2 144 120 (codes "B")) 32 (Some (fault_at Shared 120)) }
    ensures double { FaultIs (family 2 144 232 (codes "a")) 32 (Some (fault_at DoubleName 232)) }
    ensures count { FaultIs (family 3 144 232 (codes "B")) 32 (Some (fault_at Count 32)) }
{}

/// A cell may serve several keys as security. It is shared where it serves as a class too.
pub fn a_descriptor_serves_twice()
    ensures twice { FaultIs (kin 224 224 256) 32 None }
    ensures as_class { FaultIs (kin 224 224 224) 32 (Some (fault_at Shared 224)) }
    ensures other_class { FaultIs (kin 256 224 224) 32 (Some (fault_at FormSign 256)) }
{}

/// A key at level 513 is too deep, before its cell is looked at. The root is at 0.
pub fn keys_without_end()
    ensures { (version : Version) → first_fault (endless version) 0 ≡ Some (fault_at TooDeep (16 * 512)) }
{}

/// A root that is nowhere, and one that is a list.
pub fn roots_that_are_no_keys()
    ensures nowhere { FaultIs (family 2 144 232 (codes "B")) 0xFFFFFFFF (Some (fault_at OutOfRange 0xFFFFFFFF)) }
    ensures list { FaultIs (family 2 144 232 (codes "B")) 120 (Some (fault_at FormSign 120)) }
{}

/// Data of 16,345 bytes in two segments, of which the second has room to spare. In version 1.3 they are to be in the one cell.
pub fn big_data_are_read()
    ensures joined { data_of (segmented V5 2 (32 ∷ 48 ∷ []) (replicate 16344 1) (2 ∷ 9 ∷ [])) long_value ≡ Ok (replicate 16344 1 ++ 2 ∷ []) }
    ensures uses { used_in (data_checks (segmented V5 2 (32 ∷ 48 ∷ []) (replicate 16344 1) (2 ∷ 9 ∷ [])) long_value) ≡ 0 ∷ 16 ∷ 32 ∷ 48 ∷ [] }
    ensures one_cell { data_of (segmented V3 2 (32 ∷ 48 ∷ []) (replicate 16344 1) (2 ∷ 9 ∷ [])) long_value ≡ Err FormShort }
    ensures one_use { used_in (data_checks (segmented V3 2 (32 ∷ 48 ∷ []) (replicate 16344 1) (2 ∷ 9 ∷ [])) long_value) ≡ 0 ∷ [] }
{}

/// The cell of big data says three segments, or one; their list is too short; the first or the last segment is; or one cell is both.
pub fn faults_of_big_data()
    ensures none { data_fault (segmented V5 2 (32 ∷ 48 ∷ []) (replicate 16344 1) (2 ∷ 9 ∷ [])) ≡ None }
    ensures more { data_fault (segmented V5 3 (32 ∷ 48 ∷ []) (replicate 16344 1) (2 ∷ 9 ∷ [])) ≡ Some (fault_at FormLength 0) }
    ensures less { data_fault (segmented V5 1 (32 ∷ []) (replicate 16344 1) (2 ∷ 9 ∷ [])) ≡ Some (fault_at FormLength 0) }
    ensures list { data_fault (segmented V5 2 (32 ∷ []) (replicate 16344 1) (2 ∷ 9 ∷ [])) ≡ Some (fault_at FormShort 16) }
    ensures first { data_fault (segmented V5 2 (32 ∷ 48 ∷ []) (replicate 16343 1) (2 ∷ 9 ∷ [])) ≡ Some (fault_at FormShort 32) }
    ensures last { data_fault (segmented V5 2 (32 ∷ 48 ∷ []) (replicate 16344 1) []) ≡ Some (fault_at FormShort 48) }
    ensures twice { data_fault (segmented V5 2 (32 ∷ 32 ∷ []) (replicate 16344 1) (2 ∷ 9 ∷ [])) ≡ Some (fault_at Shared 32) }
    ensures one_cell { data_fault (segmented V3 2 (32 ∷ 48 ∷ []) (replicate 16344 1) (2 ∷ 9 ∷ [])) ≡ Some (fault_at FormShort 0) }
{}
