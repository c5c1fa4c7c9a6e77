//! The first check of a cell's form that fails.

ghost use Rattle.std.specs.Prelude.{◌≡◌, [], ◌∷◌, codes, replicate, take, slice_set, Ok, Err, true, false};
ghost use Rattle.nt_bytes.specs.declared.fault.HiveFaultKind.TheVariants.{FormShort, FormSign, FormLength, FormName, FormKind, BinSign, BinOffset, BinSize, CellSize, CellPastBin};
ghost use Rattle.hive_model.specs.Bins.{header_at, size_at};
ghost use Rattle.hive_model.specs.KeyNode.{key_node_at, key_node_text};
ghost use Rattle.hive_model.specs.KeyValue.{key_value_at, key_value_text};
ghost use Rattle.hive_model.specs.BigData.{big_data_at, big_data_text};
ghost use Rattle.hive_model.specs.Security.{security_at, security_text};
ghost use Rattle.hive_model.specs.Lists.{list_at, li_text, lf_text, lh_text, ri_text, offsets_in};
ghost use Rattle.hive_model.specs.Walk.{node_at, big_data_of, leaf_at};
ghost use Rattle.hive_laws.specs.hive_laws.Samples.{root_alone};
ghost use Rattle.hive_examples.specs.SmallCells.{plain_node, plain_value, plain_security};

/// A key node has 76 bytes before its name, and a value 20; a cell of big data has eight.
pub fn cut_short()
    ensures no_sign { key_node_at (0x6E ∷ []) ≡ Err FormShort }
    ensures node { key_node_at (take 75 (key_node_text (plain_node 32 (codes "Disk") 0 0))) ≡ Err FormShort }
    ensures name { key_node_at (take 79 (key_node_text (plain_node 32 (codes "Disk") 0 0))) ≡ Err FormShort }
    ensures whole { key_node_at (key_node_text (plain_node 32 (codes "Disk") 0 0)) ≡ Ok (plain_node 32 (codes "Disk") 0 0) }
    ensures value { key_value_at (take 19 (key_value_text (plain_value 0 (codes "Start")))) ≡ Err FormShort }
    ensures big_data { big_data_at (take 7 (big_data_text (record { segments = 2; list = 16 }))) ≡ Err FormShort }
    ensures descriptor { security_at (take 22 (security_text (plain_security (1 ∷ 2 ∷ 3 ∷ [])))) ≡ Err FormShort }
{}

/// A list has four or eight bytes for each entry that it counts.
pub fn lists_cut_short()
    ensures list { list_at (take 7 (li_text (32 ∷ []))) ≡ Err FormShort }
    ensures hinted_list { list_at (take 11 (lf_text (32 ∷ []) ((0 ∷ 0 ∷ 0 ∷ 0 ∷ []) ∷ []))) ≡ Err FormShort }
    ensures hashed_list { list_at (take 11 (lh_text (32 ∷ []) ((0 ∷ 0 ∷ 0 ∷ 0 ∷ []) ∷ []))) ≡ Err FormShort }
    ensures values { offsets_in 2 (32 ∷ 0 ∷ 0 ∷ 0 ∷ 64 ∷ 0 ∷ 0 ∷ []) ≡ Err FormShort }
{}

/// The signature is judged before the rest of the length.
pub fn other_signatures()
    ensures node { key_node_at (codes "vk") ≡ Err FormSign }
    ensures value { key_value_at (codes "nk") ≡ Err FormSign }
    ensures security { security_at (codes "nk") ≡ Err FormSign }
    ensures list { list_at (codes "lx") ≡ Err FormSign }
    ensures big_data { big_data_at (codes "nk") ≡ Err FormSign }
{}

/// A name of 255 units is the longest of a key, one of 16,383 the longest of a value. Only the root's may be
/// empty.
pub fn faults_of_names()
    ensures half_unit { key_node_at (slice_set (key_node_text (plain_node 0 (codes "AB") 0 0)) 72 3) ≡ Err FormLength }
    ensures backslash { key_node_at (key_node_text (plain_node 32 (0x41 ∷ 0x5C ∷ []) 0 0)) ≡ Err FormName }
    ensures longest { key_node_at (key_node_text (plain_node 32 (replicate 255 0x41) 0 0)) ≡ Ok (plain_node 32 (replicate 255 0x41) 0 0) }
    ensures longer { key_node_at (key_node_text (plain_node 32 (replicate 256 0x41) 0 0)) ≡ Err FormName }
    ensures longer_value { key_value_at (key_value_text (plain_value 0 (replicate 16384 0x41))) ≡ Err FormName }
    ensures root { node_at true (key_node_text (plain_node 32 [] 0 0)) ≡ Ok (plain_node 32 [] 0 0) }
    ensures below_root { node_at false (key_node_text (plain_node 32 [] 0 0)) ≡ Err FormName }
{}

/// Data in place have at most four bytes; 16,345 bytes fill two segments, and 32,688 do too; a list of lists names no list of
/// lists, but lists of the three other kinds.
pub fn faults_of_fields()
    ensures in_place { key_value_at (key_value_text (plain_value 0x80000004 (codes "Start"))) ≡ Ok (plain_value 0x80000004 (codes "Start")) }
    ensures overfull { key_value_at (key_value_text (plain_value 0x80000005 (codes "Start"))) ≡ Err FormLength }
    ensures segments { big_data_of 16345 (big_data_text (record { segments = 1; list = 16 })) ≡ Err FormLength }
    ensures two { big_data_of 16345 (big_data_text (record { segments = 2; list = 16 })) ≡ Ok (record { segments = 2; list = 16 }) }
    ensures two_full { big_data_of 32688 (big_data_text (record { segments = 2; list = 16 })) ≡ Ok (record { segments = 2; list = 16 }) }
    ensures three { big_data_of 32689 (big_data_text (record { segments = 2; list = 16 })) ≡ Err FormLength }
    ensures hashed_list { leaf_at (lh_text (32 ∷ []) ((0 ∷ 0 ∷ 0 ∷ 0 ∷ []) ∷ [])) ≡ Ok (32 ∷ []) }
    ensures inner_list { leaf_at (ri_text (32 ∷ [])) ≡ Err FormKind }
{}

/// A bin's header, and the size of a cell where 80 bytes are left: 88 bytes are past the bin, and 84 are no
/// whole eights.
pub fn faults_of_bins_and_cells()
    ensures sound { header_at 0 root_alone ≡ Ok 4096 }
    ensures sign { header_at 0 (slice_set root_alone 3 0x78) ≡ Err BinSign }
    ensures offset { header_at 4096 root_alone ≡ Err BinOffset }
    ensures size { header_at 0 (take 4095 root_alone) ≡ Err BinSize }
    ensures fits { size_at 88 (0xA8 ∷ 0xFF ∷ 0xFF ∷ 0xFF ∷ []) ≡ Ok 88 }
    ensures past { size_at 80 (0xA8 ∷ 0xFF ∷ 0xFF ∷ 0xFF ∷ []) ≡ Err CellPastBin }
    ensures uneven { size_at 88 (0xAC ∷ 0xFF ∷ 0xFF ∷ 0xFF ∷ []) ≡ Err CellSize }
    ensures small { size_at 88 (0 ∷ 0 ∷ 0 ∷ 0 ∷ []) ≡ Err CellSize }
{}
