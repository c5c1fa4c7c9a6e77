//! The packed form of small trees, each byte of it, and their bulk.

ghost use Rattle.std.specs.Prelude.{◌≡◌, [], ◌∷◌, codes, replicate, drop};
ghost use Rattle.nt_bytes.specs.declared.version.HiveVersion.{HiveVersion as Version};
ghost use Rattle.nt_bytes.specs.declared.version.HiveVersion.TheVariants.{V3, V5};
ghost use Rattle.hive_model.specs.Size.{bulk_of};
ghost use Rattle.hive_model.specs.KeyValue.{key_value_text};
ghost use Rattle.hive_model.specs.BigData.{big_data_text};
ghost use Rattle.hive_model.specs.Lists.{offsets_text};
ghost use Rattle.hive_model.specs.Packed.{packed_cells, packed};
ghost use Rattle.hive_laws.specs.hive_laws.Samples.{root_alone, changed};
ghost use Rattle.hive_examples.specs.OneDriver.{driver_bin, hashed_lists};
ghost use Rattle.hive_examples.specs.Rings.{two_descriptors_bin, ring_of_three_bin};
ghost use Rattle.hive_laws.specs.hive_laws.Trees.{long_bytes, long_root, only_root, one_driver, two_descriptors, ring_of_three};

/// One bin of 4096 bytes: the root's cell of 88 bytes at 32, and a free cell of the rest at 120.
pub fn a_root_alone_is_packed()
    ensures bulk { (version : Version) → bulk_of version only_root ≡ 120 }
    ensures bytes { (version : Version) → packed version only_root ≡ root_alone }
{}

/// The set of one driver and `Select`: the last cell in use ends at 776. In version 1.3 the bytes are those that another
/// program wrote; in version 1.5 the lists of subkeys are other.
pub fn one_driver_is_packed()
    ensures bulk { (version : Version) → bulk_of version one_driver ≡ 776 }
    ensures bytes { packed V3 one_driver ≡ driver_bin }
    ensures hashed { packed V5 one_driver ≡ changed hashed_lists driver_bin }
{}

/// Three keys and two descriptors: a child with the root's descriptor shares its cell, which counts two, and each of
/// the two cells is the next and the one before of the other. A class stands after its key.
pub fn two_descriptors_are_packed()
    ensures bulk { (version : Version) → bulk_of version two_descriptors ≡ 392 }
    ensures bytes { packed V3 two_descriptors ≡ two_descriptors_bin }
{}

/// Three cells of descriptors in the order of their places, in a ring both ways. A descriptor that is not the one of the
/// key above has a cell of its own, though the root has the same.
pub fn a_ring_of_three_is_packed()
    ensures bulk { (version : Version) → bulk_of version ring_of_three ≡ 520 }
    ensures bytes { packed V3 ring_of_three ≡ ring_of_three_bin }
{}

/// A value of 16,345 bytes in version 1.5: its list at 120 and its cell at 128, then `db` at 160, the list of its two segments at 176, and
/// the segments at 192 and 16,544. In version 1.3 its data are in one cell.
pub fn two_segments_are_packed()
    ensures cells { drop 1 (packed_cells V5 long_root)
        ≡ offsets_text (128 ∷ []) ∷ key_value_text (record { size = 16345; offset = 160; kind = 3; flags = 1; name = codes "A" })
        ∷ big_data_text (record { segments = 2; list = 176 }) ∷ offsets_text (192 ∷ 16544 ∷ []) ∷ replicate 16344 7 ∷ (9 ∷ []) ∷ [] }
    ensures one_cell { drop 1 (packed_cells V3 long_root)
        ≡ offsets_text (128 ∷ []) ∷ key_value_text (record { size = 16345; offset = 160; kind = 3; flags = 1; name = codes "A" }) ∷ long_bytes ∷ [] }
{}
