//! The log of a change of one byte, and what it leaves out.

ghost use Rattle.std.specs.Prelude.{◌≡◌, ◌+◌, ◌*◌, [], ◌∷◌, ◌++◌, codes, replicate, length, take, slice_range};
ghost use Rattle.hive_model.specs.Base.{base_text};
ghost use Rattle.hive_model.specs.Log.{dirty, bytes_of_bits, log_of};
ghost use Rattle.hive_laws.specs.hive_laws.Samples.{block, before, after, longer};

/// Two lists of 4096 bytes differ at byte 600 alone: only sector 1 has to be logged. The log is a base
/// block of file type 1 with its own checksum, a sector of bits, and the sectors whose bit is on.
pub fn a_log_of_one_sector()
    ensures bits { bytes_of_bits (dirty before after) 0 1 ≡ 0x02 ∷ [] }
    ensures head { take 48 (log_of (dirty before after) after (block 6 6 0))
        ≡ codes "regf" ++ (6 ∷ 0 ∷ 0 ∷ 0 ∷ 6 ∷ 0 ∷ 0 ∷ 0 ∷ []) ++ replicate 8 0
        ++ (1 ∷ 0 ∷ 0 ∷ 0 ∷ 3 ∷ 0 ∷ 0 ∷ 0 ∷ 1 ∷ 0 ∷ 0 ∷ 0 ∷ 1 ∷ 0 ∷ 0 ∷ 0 ∷ 32 ∷ 0 ∷ 0 ∷ 0 ∷ 0 ∷ 0x10 ∷ 0 ∷ 0 ∷ 1 ∷ 0 ∷ 0 ∷ 0 ∷ []) }
    ensures checksum { slice_range (log_of (dirty before after) after (block 6 6 0)) 508 512 ≡ 0x51 ∷ 0x75 ∷ 0x67 ∷ 0x66 ∷ [] }
    ensures whole { log_of (dirty before after) after (block 6 6 0)
        ≡ base_text (block 6 6 1) ++ codes "DIRT" ++ 0x02 ∷ replicate 507 0 ++ slice_range after 512 1024 }
    ensures long { length (log_of (dirty before after) after (block 6 6 0)) ≡ 1536 }
{}

/// Sectors past the old end are new too.
pub fn a_log_of_longer_data()
    ensures bits { bytes_of_bits (dirty before longer) 0 2 ≡ 0x02 ∷ 0xFF ∷ [] }
    ensures sectors { length (log_of (dirty before longer) longer (block 6 6 0)) ≡ 512 * (2 + 9) }
{}
