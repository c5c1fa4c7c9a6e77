//! The sizes of a tree's cells, one by one.

ghost use Rattle.std.specs.Prelude.{◌≡◌, ℕ, List, [], ◌∷◌, length};
ghost use Rattle.nt_bytes.specs.declared.version.HiveVersion.{HiveVersion as Version};
ghost use Rattle.nt_bytes.specs.declared.version.HiveVersion.TheVariants.{V3, V5};
ghost use Rattle.hive_model.specs.Size.{data_sizes, bulk_of};
ghost use Rattle.hive_model.specs.Footprint.{list_sizes};
ghost use Rattle.hive_laws.specs.hive_laws.Trees.{full_root};

/// A list of two lists, one of 500 children, and one of the last.
pub fn lists_of_501_children()
    ensures { list_sizes 501 ≡ 16 ∷ 4008 ∷ 16 ∷ [] }
{}

/// Data of at most four bytes have no cell. Others have one, and in version 1.5 where they are over 16,344 bytes a cell `db`, a list
/// of the segments, and segments of 16,344 bytes and the rest.
pub fn cells_of_data()
    ensures inside { (version : Version) → data_sizes version 4 ≡ [] }
    ensures one { (version : Version) → data_sizes version 16344 ≡ 16344 ∷ [] }
    ensures one_long { data_sizes V3 16345 ≡ 16345 ∷ [] }
    ensures two { data_sizes V5 16345 ≡ 8 ∷ 8 ∷ 16344 ∷ 1 ∷ [] }
    ensures two_full { data_sizes V5 32688 ≡ 8 ∷ 8 ∷ 16344 ∷ 16344 ∷ [] }
    ensures three { data_sizes V5 32689 ≡ 8 ∷ 12 ∷ 16344 ∷ 16344 ∷ 1 ∷ [] }
{}

/// A root with one value of 16,344 bytes, and of one byte more.
pub fn a_value_of_two_segments()
    ensures one { (version : Version) (bytes : List ℕ) → length bytes ≡ 16344 → bulk_of version (full_root (bytes ∷ [])) ≡ 16512 }
    ensures one_cell { (bytes : List ℕ) → length bytes ≡ 16345 → bulk_of V3 (full_root (bytes ∷ [])) ≡ 16512 }
    ensures two_segments { (bytes : List ℕ) → length bytes ≡ 16345 → bulk_of V5 (full_root (bytes ∷ [])) ≡ 16552 }
{}
