//! The base block of a hive of one key, and checksums.

ghost use Rattle.std.specs.Prelude.{◌≡◌, Ok};
ghost use Rattle.hive_model.specs.Base.{checksum_of, summed_text, base_text, base_of};
ghost use Rattle.hive_laws.specs.hive_laws.Samples.{block};

/// The words of the block cancel out but for `regf`, 1, 3, 1, 32, 4096 and 1. Equal sequence numbers change
/// nothing.
pub fn the_checksum_of_a_root_alone()
    ensures sum { checksum_of (summed_text (block 5 5 0)) ≡ 0x66677550 }
    ensures later { checksum_of (summed_text (block 6 6 0)) ≡ 0x66677550 }
    ensures opened { checksum_of (summed_text (block 6 5 0)) ≡ 0x66677553 }
    ensures read { base_of (base_text (block 5 5 0)) 0 ≡ Ok (block 5 5 0) }
{}
