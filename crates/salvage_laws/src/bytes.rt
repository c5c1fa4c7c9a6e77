//! Laws of the bytes that are used.

ghost use Rattle.std.specs.Prelude.{◌≡◌, ◌<◌, ◌%◌, ℕ, List, length, slice_index};
ghost use Rattle.std.specs.List.{All};
ghost use Rattle.nt_bytes.specs.declared.version.HiveVersion.{HiveVersion};
ghost use Rattle.salvage_bins.specs.Ground.{Ground};
ghost use Rattle.salvage_bins.specs.Layout.{layout_of};
ghost use Rattle.salvage_walk.specs.Keys.{salvaged};
ghost use Rattle.salvage_file.specs.Salvage.{ground_in};
ghost use Rattle.salvage_laws.specs.Bytes.{LiesInCell, UseNoByteTwice};

/// Each use is of an allocated cell and ends in it. Of bins data in whole eight bytes, whatever bins are whole, no byte is used twice.
pub fn no_byte_is_used_twice()
    ensures cells { (hive : Ground) (root : ℕ) → All (LiesInCell hive) (salvaged hive root).1.claims }
    ensures bytes { (version : HiveVersion) (bytes : List ℕ) (root : ℕ) → ((k : ℕ) → slice_index bytes k < 256) → length bytes % 8 ≡ 0
        → UseNoByteTwice (salvaged (ground_in version bytes (layout_of bytes).marks) root).1.claims }
{}
