//! What a hive is recovered as: one that is clean, one whose log is read back, one that was saved as files, and the two
//! files of a small one, with sectors that can't be read among them.

ghost use Rattle.std.specs.Prelude.{◌≡◌, [], ◌∷◌, ◌++◌, codes, take, slice_set, Ok, Err, true, false};
ghost use Rattle.nt_bytes.specs.declared.fault.HiveFaultKind.TheVariants.{NotRegf, Checksum, Version, FileType, Size, Unreadable, LogAbsent, LogBase, LogSequence, LogShort, LogDirt, LogUnreadable};
ghost use Rattle.hive_model.specs.Base.{fault_at, base_text};
ghost use Rattle.hive_model.specs.Image.{image_of};
ghost use Rattle.hive_model.specs.Asked.{primary_at, log_at};
ghost use Rattle.hive_model.specs.Recovery.{recovered_of};
ghost use Rattle.hive_model.specs.Log.{dirty, log_of};
ghost use Rattle.hive_laws.specs.hive_laws.Samples.{block, before, after, file_of, changed};
ghost use Rattle.nt_edge.specs.Crash.{unreadable_at};

/// Equal sequence numbers: the primary stands by itself, whatever the log is.
pub fn a_clean_hive()
    ensures alone { recovered_of (image_of (file_of 5 5 before) []) ≡ Ok (record { base = block 5 5 0; bins = before; dirty = false }) }
    ensures beside_a_log { recovered_of (image_of (file_of 5 5 before) (log_of (dirty before after) after (block 6 6 0)))
        ≡ Ok (record { base = block 5 5 0; bins = before; dirty = false }) }
{}

/// A cut after the first number rose to 6: the log has sector 1, and the primary all others.
pub fn a_hive_with_its_log()
    ensures { recovered_of (image_of (file_of 6 5 before) (log_of (dirty before after) after (block 6 6 0)))
        ≡ Ok (record { base = block 6 6 0; bins = after; dirty = true }) }
{}

/// The same where the base block can't be read, and where the sector that is in the log can't. Of a clean hive nobody reads sectors
/// 1 to 7.
pub fn a_hive_with_unreadable_sectors()
    ensures block { recovered_of (unreadable_at (primary_at 0) (image_of (file_of 6 5 before) (log_of (dirty before after) after (block 6 6 0))))
        ≡ Ok (record { base = block 6 6 0; bins = after; dirty = true }) }
    ensures logged { recovered_of (unreadable_at (primary_at 9) (image_of (file_of 6 5 before) (log_of (dirty before after) after (block 6 6 0))))
        ≡ Ok (record { base = block 6 6 0; bins = after; dirty = true }) }
    ensures left_alone { recovered_of (unreadable_at (primary_at 7) (image_of (file_of 5 5 before) []))
        ≡ Ok (record { base = block 5 5 0; bins = before; dirty = false }) }
{}

/// Faults of sectors that can't be read: of a clean primary; of a log that is needed, its base block, its bits and a sector whose bit is
/// on; and of a sector whose bit is off, after all of the log's. A log alone needs numbers that are equal.
pub fn faults_of_unreadable_sectors()
    ensures bins { recovered_of (unreadable_at (primary_at 10) (image_of (file_of 5 5 before) [])) ≡ Err (fault_at Unreadable 5120) }
    ensures base { recovered_of (unreadable_at (log_at 0) (image_of (file_of 6 5 before) (log_of (dirty before after) after (block 6 6 0))))
        ≡ Err (fault_at LogUnreadable 0) }
    ensures bits { recovered_of (unreadable_at (log_at 1) (image_of (file_of 6 5 before) (log_of (dirty before after) after (block 6 6 0))))
        ≡ Err (fault_at LogUnreadable 512) }
    ensures marked { recovered_of (unreadable_at (log_at 2)
        (unreadable_at (primary_at 8) (image_of (file_of 6 5 before) (log_of (dirty before after) after (block 6 6 0)))))
        ≡ Err (fault_at LogUnreadable 1024) }
    ensures unmarked { recovered_of (unreadable_at (primary_at 8) (image_of (file_of 6 5 before) (log_of (dirty before after) after (block 6 6 0))))
        ≡ Err (fault_at Unreadable 4096) }
    ensures no_log { recovered_of (unreadable_at (primary_at 0) (image_of (file_of 6 5 before) [])) ≡ Err (fault_at LogAbsent 0) }
    ensures numbers { recovered_of (unreadable_at (primary_at 0) (image_of (file_of 6 5 before) (log_of (dirty before after) after (block 6 5 0))))
        ≡ Err (fault_at LogSequence 4) }
{}

/// Faults of the primary.
pub fn faults_of_a_primary()
    ensures empty { recovered_of (image_of [] []) ≡ Err (fault_at NotRegf 0) }
    ensures sign { recovered_of (image_of (slice_set (file_of 5 5 before) 0 0x52) []) ≡ Err (fault_at NotRegf 0) }
    ensures sum { recovered_of (image_of (slice_set (file_of 5 5 before) 508 0x51) []) ≡ Err (fault_at Checksum 508) }
    ensures short { recovered_of (image_of (take 7680 (file_of 5 5 before)) []) ≡ Err (fault_at Size 40) }
{}

/// Faults of the fields of a primary whose checksum goes with them: versions 2.3 and 1.6, a log in the primary's
/// place, no bins data, and more bins data than there are.
pub fn faults_of_a_base_block()
    ensures major { recovered_of (image_of (changed ((20, 2) ∷ (508, 0x53) ∷ []) (file_of 5 5 before)) []) ≡ Err (fault_at Version 20) }
    ensures minor { recovered_of (image_of (changed ((24, 6) ∷ (508, 0x55) ∷ []) (file_of 5 5 before)) []) ≡ Err (fault_at Version 24) }
    ensures kind { recovered_of (image_of (changed ((28, 1) ∷ (508, 0x51) ∷ []) (file_of 5 5 before)) []) ≡ Err (fault_at FileType 28) }
    ensures no_bins { recovered_of (image_of (changed ((41, 0) ∷ (509, 0x65) ∷ []) (file_of 5 5 before)) []) ≡ Err (fault_at Size 40) }
    ensures more_bins { recovered_of (image_of (changed ((41, 0x20) ∷ (509, 0x45) ∷ []) (file_of 5 5 before)) []) ≡ Err (fault_at Size 40) }
{}

/// Faults of the log that a primary needs whose numbers are 6 and 5.
pub fn faults_of_a_log()
    ensures absent { recovered_of (image_of (file_of 6 5 before) []) ≡ Err (fault_at LogAbsent 0) }
    ensures sign { recovered_of (image_of (file_of 6 5 before) (slice_set (base_text (block 6 6 1)) 0 0x78)) ≡ Err (fault_at LogBase 0) }
    ensures kind { recovered_of (image_of (file_of 6 5 before) (base_text (block 6 6 0))) ≡ Err (fault_at LogBase 28) }
    ensures numbers { recovered_of (image_of (file_of 6 5 before) (log_of (dirty before after) after (block 7 7 0))) ≡ Err (fault_at LogSequence 4) }
    ensures no_bits { recovered_of (image_of (file_of 6 5 before) (base_text (block 6 6 1))) ≡ Err (fault_at LogShort 512) }
    ensures dirt { recovered_of (image_of (file_of 6 5 before) (base_text (block 6 6 1) ++ codes "DIRt")) ≡ Err (fault_at LogDirt 512) }
    ensures short { recovered_of (image_of (file_of 6 5 before) (take 1024 (log_of (dirty before after) after (block 6 6 0)))) ≡ Err (fault_at LogShort 1024) }
    ensures last { recovered_of (image_of (file_of 6 5 before) (take 4608 (log_of (λ _. true) after (block 6 6 0)))) ≡ Err (fault_at LogShort 4608) }
{}
