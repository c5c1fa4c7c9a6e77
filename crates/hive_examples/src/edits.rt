//! Each kind of edit with its result, and each refusal, in both versions.

ghost use Rattle.std.specs.Prelude.{◌≡◌, ◌<◌, ℕ, List, [], ◌∷◌, ◌++◌, codes, replicate, length, Ok, Err};
ghost use Rattle.nt_bytes.specs.declared.version.HiveVersion.{HiveVersion as Version};
ghost use Rattle.nt_bytes.specs.declared.version.HiveVersion.TheVariants.{V3, V5};
ghost use Rattle.hive_model.specs.Size.{bulk_of};
ghost use Rattle.hive_model.specs.Edit.{edited, set_value, delete_value, make_key, delete_key, copy_child, add_child, most_bulk};
ghost use Rattle.hive_model.specs.Edit.{no_key, no_value, bad_name, exists, name_too_long, too_deep, data_too_long, full};
ghost use Rattle.hive_laws.specs.hive_laws.Both.{LeadTo};
ghost use Rattle.hive_laws.specs.hive_laws.Trees.{folder, number, root_with, tagged, a_key, d_key, home, chain, steps_down, full_root, new_in_home};

/// A value that is there keeps its name, whatever the case of the name that was given. A new one is the last.
pub fn a_value_is_set()
    ensures there { LeadTo home (set_value [] (codes "TAG") 4 (2 ∷ 0 ∷ 0 ∷ 0 ∷ []) ∷ []) (Ok (root_with (number (codes "Tag") 2 ∷ []) (a_key ∷ d_key ∷ []))) }
    ensures new { LeadTo home (set_value [] (codes "New") 4 (2 ∷ 0 ∷ 0 ∷ 0 ∷ []) ∷ [])
        (Ok (root_with (number (codes "Tag") 1 ∷ number (codes "New") 2 ∷ []) (a_key ∷ d_key ∷ []))) }
{}

/// A value goes by its name in any case.
pub fn a_value_is_deleted()
    ensures { LeadTo home (delete_value [] (codes "tag") ∷ []) (Ok (root_with [] (a_key ∷ d_key ∷ []))) }
{}

/// A new key stands before the first that folds greater, with the stamp and the descriptor of the key above.
/// One that is there stays as it is.
pub fn a_key_is_made()
    ensures between { LeadTo home (make_key [] (codes "b") ∷ []) (Ok (tagged (a_key ∷ new_in_home (codes "b") ∷ d_key ∷ []))) }
    ensures last { LeadTo home (make_key [] (codes "E") ∷ []) (Ok (tagged (a_key ∷ d_key ∷ new_in_home (codes "E") ∷ []))) }
    ensures there { LeadTo home (make_key (codes "a" ∷ []) (codes "c") ∷ []) (Ok home) }
{}

/// A key goes with all below it.
pub fn a_key_is_removed()
    ensures child { LeadTo home (delete_key (codes "a" ∷ []) ∷ []) (Ok (tagged (d_key ∷ []))) }
    ensures below { LeadTo home (delete_key (codes "A" ∷ codes "C" ∷ []) ∷ []) (Ok (tagged (folder (codes "A") [] ∷ d_key ∷ []))) }
{}

/// A child of the root stands there under another name too.
pub fn a_child_is_copied()
    ensures { LeadTo home (copy_child (codes "a") (codes "B") ∷ []) (Ok (tagged (a_key ∷ folder (codes "B") (folder (codes "C") [] ∷ []) ∷ d_key ∷ []))) }
{}

/// A whole key becomes a child of the root, under the name that is given.
pub fn a_child_is_added()
    ensures { LeadTo home (add_child (codes "B") (folder (codes "X") (d_key ∷ [])) ∷ []) (Ok (tagged (a_key ∷ folder (codes "B") (d_key ∷ []) ∷ d_key ∷ []))) }
{}

/// Steps go in order, and one that is refused refuses all.
pub fn no_step_or_all()
    ensures in_order { LeadTo home (delete_value [] (codes "Tag") ∷ set_value [] (codes "tag") 4 (3 ∷ 0 ∷ 0 ∷ 0 ∷ []) ∷ [])
        (Ok (root_with (number (codes "tag") 3 ∷ []) (a_key ∷ d_key ∷ []))) }
    ensures refused { LeadTo home (delete_value [] (codes "Tag") ∷ delete_value [] (codes "Tag") ∷ []) (Err no_value) }
{}

/// No key is there, or no value of this name. The root is never removed.
pub fn missing_keys()
    ensures set { LeadTo home (set_value (codes "Z" ∷ []) (codes "Tag") 4 [] ∷ []) (Err no_key) }
    ensures deleted { LeadTo home (delete_value (codes "Z" ∷ []) (codes "Tag") ∷ []) (Err no_key) }
    ensures made { LeadTo home (make_key (codes "Z" ∷ []) (codes "New") ∷ []) (Err no_key) }
    ensures removed { LeadTo home (delete_key (codes "Z" ∷ []) ∷ []) (Err no_key) }
    ensures root { LeadTo home (delete_key [] ∷ []) (Err no_key) }
    ensures copied { LeadTo home (copy_child (codes "Z") (codes "B") ∷ []) (Err no_key) }
    ensures no_value { LeadTo home (delete_value (codes "A" ∷ []) (codes "Tag") ∷ []) (Err no_value) }
{}

/// An empty name, or one with a backslash.
pub fn bad_names()
    ensures made { LeadTo home (make_key [] [] ∷ []) (Err bad_name) }
    ensures backslash { LeadTo home (make_key [] (0x41 ∷ 0x5C ∷ 0x43 ∷ []) ∷ []) (Err bad_name) }
    ensures copied { LeadTo home (copy_child (codes "A") [] ∷ []) (Err bad_name) }
    ensures added { LeadTo home (add_child (0x5C ∷ []) d_key ∷ []) (Err bad_name) }
{}

/// A copy or an added key under a name that a child has, in any case.
pub fn keys_that_are_there()
    ensures copied { LeadTo home (copy_child (codes "A") (codes "d") ∷ []) (Err exists) }
    ensures added { LeadTo home (add_child (codes "a") d_key ∷ []) (Err exists) }
{}

/// A key's name has at most 255 units, and a value's 16,383.
pub fn too_long_names()
    ensures made { LeadTo home (make_key [] (replicate 256 0x41) ∷ []) (Err name_too_long) }
    ensures copied { LeadTo home (copy_child (codes "A") (replicate 256 0x41) ∷ []) (Err name_too_long) }
    ensures added { LeadTo home (add_child (replicate 256 0x41) d_key ∷ []) (Err name_too_long) }
    ensures set { LeadTo home (set_value [] (replicate 16384 0x41) 4 [] ∷ []) (Err name_too_long) }
{}

/// The root's level is 1, and 512 is the last.
pub fn too_deep_a_key()
    ensures deepest { LeadTo (chain 511) (make_key (steps_down 510) (codes "k") ∷ []) (Ok (chain 511)) }
    ensures made { LeadTo (chain 511) (make_key (steps_down 511) (codes "K") ∷ []) (Err too_deep) }
    ensures added { LeadTo home (add_child (codes "B") (chain 511) ∷ []) (Err too_deep) }
{}

/// A root with 15 values of 1,048,576 bytes has room for one more of 1,043,652 in version 1.3, and of no byte more: the bulk
/// has at most 16,773,120.
pub fn a_full_hive()
    ensures bulk { (block : List ℕ) → length block ≡ 1048576 → bulk_of V3 (full_root (replicate 15 block)) ≡ 15729424 }
    ensures fits { (block last : List ℕ) → length block ≡ 1048576 → length last ≡ 1043652
        → edited V3 (full_root (replicate 15 block)) (set_value [] (codes "P") 3 last ∷ []) ≡ Ok (full_root (replicate 15 block ++ last ∷ [])) }
    ensures bulk_then { (block last : List ℕ) → length block ≡ 1048576 → length last ≡ 1043652
        → bulk_of V3 (full_root (replicate 15 block ++ last ∷ [])) ≡ most_bulk }
    ensures refused { (block last : List ℕ) → length block ≡ 1048576 → length last ≡ 1043653
        → edited V3 (full_root (replicate 15 block)) (set_value [] (codes "P") 3 last ∷ []) ≡ Err full }
{}

/// The same root has room for one more value of 1,030,988 bytes in version 1.5, where each of its values is in 65 segments.
pub fn a_full_hive_of_segments()
    ensures bulk { (block : List ℕ) → length block ≡ 1048576 → bulk_of V5 (full_root (replicate 15 block)) ≡ 15741304 }
    ensures fits { (block last : List ℕ) → length block ≡ 1048576 → length last ≡ 1030988
        → edited V5 (full_root (replicate 15 block)) (set_value [] (codes "P") 3 last ∷ []) ≡ Ok (full_root (replicate 15 block ++ last ∷ [])) }
    ensures bulk_then { (block last : List ℕ) → length block ≡ 1048576 → length last ≡ 1030988
        → bulk_of V5 (full_root (replicate 15 block ++ last ∷ [])) ≡ most_bulk }
    ensures refused { (block last : List ℕ) → length block ≡ 1048576 → length last ≡ 1030989
        → edited V5 (full_root (replicate 15 block)) (set_value [] (codes "P") 3 last ∷ []) ≡ Err full }
{}

/// Data have at most 1,048,576 bytes.
pub fn too_many_bytes()
    ensures { (version : Version) (bytes : List ℕ) → 1048576 < length bytes
        → edited version home (set_value [] (codes "Tag") 3 bytes ∷ []) ≡ Err data_too_long }
{}
