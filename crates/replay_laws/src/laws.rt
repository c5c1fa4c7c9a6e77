//! The laws.

ghost use Rattle.std.specs.Prelude.{◌≡◌, ◌⊎◌, ◌<◌, ℕ, List, length, map, get_or, true, false, [], ◌∷◌, None, Ok, IfOk};
ghost use Rattle.regf_base.specs.Fitting.{NumbersFit, TextsFit};
ghost use Rattle.hive_model.specs.Base.{Base, base_text, is_minor};
ghost use Rattle.hive_model.specs.Image.{image_of};
ghost use Rattle.hive_model.specs.Load.{Loads};
ghost use Rattle.hive_model.specs.Recovery.{Recovered, recovered_of};
ghost use Rattle.hive_model.specs.State.{HiveState};
ghost use Rattle.windows_logs.specs.log_parts.Filled.{filled};
ghost use Rattle.windows_logs.specs.log_parts.Pages.{Page, put_pages};
ghost use Rattle.windows_logs.specs.log_parts.Wide.{is_wide_size, wide_base_of};
ghost use Rattle.windows_logs.specs.declared.log_parts.base.FileRole.TheVariants as roles;
ghost use Rattle.windows_logs.specs.entry_log.Runs.{run_of};
ghost use Rattle.log_replay.specs.Entries.{chosen, replay_by, replayed_by};
ghost use Rattle.log_replay.specs.Replay.{begun, given, hive_base_of, replay_of};
ghost use Rattle.log_replay.specs.declared.entries.HiveNow.{HiveNow};
ghost use Rattle.log_replay.specs.declared.line.LogName.{LogName};
ghost use Rattle.log_replay.specs.declared.reading.GivenLog.{GivenLog};
ghost use Rattle.log_replay.specs.declared.replaying.LogFile.{LogFile};
ghost use Rattle.replay_laws.specs.Applied.{EndsForGood, EndsSo, IsFold};
ghost use Rattle.replay_laws.specs.Outside.{AreWithin, IsOutside};
ghost use Rattle.replay_laws.specs.Results.{AreBytes, AreByteFiles, IsAgain, IsMade, IsTold, stayed};
ghost use Rattle.replay_laws.specs.Runs.{RunsSo};
ghost use Rattle.replay_laws.specs.Sectors.{sectors_of};

/// The result is the hive's file as it was; or the fold of entries, each one of a log's run and whole, with the hive's second number and
/// the numbers after it; or, where no entry was applied, an old log's sectors. But for the first sector and the pages that were applied, no
/// byte of the hive's file is another.
pub fn a_result_is_made_of_whole_entries()
    ensures { (file : List ℕ) (files : List LogFile) (hive : Base) → AreBytes file → AreByteFiles files → hive_base_of (filled file) ≡ Ok hive
        → IfOk (replay_of file files) (IsMade file files hive) }
{}

/// The last line has how many were applied, and the result's numbers. Where it is none, the hive comes out byte for byte with its own
/// numbers; else the result is clean.
pub fn the_last_line_is_what_was_done()
    ensures { (file : List ℕ) (files : List LogFile) (hive : Base) → hive_base_of (filled file) ≡ Ok hive
        → IfOk (replay_of file files) (IsTold file hive) }
{}

/// The result is the hive's file byte for byte with its own numbers, or both its numbers are the same.
pub fn a_changed_hive_is_clean()
    ensures { (file : List ℕ) (files : List LogFile) (hive : Base) → hive_base_of (filled file) ≡ Ok hive
        → IfOk (replay_of file files) (λ o. ((o.file ≡ file) × ((o.first ≡ hive.first) × (o.second ≡ hive.second))) ⊎ (o.first ≡ o.second)) }
{}

/// To replay twice is to replay once: with the same logs a result comes out as the same file, with the same numbers (`again`). One that is
/// clean stays with any logs: nothing is applied (`clean`).
pub fn a_replayed_hive_stays()
    ensures again { (file : List ℕ) (files : List LogFile) → AreBytes file → AreByteFiles files
        → IfOk (replay_of file files) (λ o. IsAgain o (replay_of o.file files)) }
    ensures clean { (file : List ℕ) (files others : List LogFile) → AreBytes file → AreByteFiles files
        → IfOk (replay_of file files) (λ o. o.first ≡ o.second → replay_of o.file others ≡ Ok (stayed o)) }
{}

/// Of a clean hive no log is looked at: with any other logs all is answered the same.
pub fn the_logs_of_a_clean_hive_change_nothing()
    ensures { (file : List ℕ) (files others : List LogFile) (hive : Base) → hive_base_of (filled file) ≡ Ok hive → hive.first ≡ hive.second
        → replay_of file files ≡ replay_of file others }
{}

/// The hive after the entries is the fold of entries over the hive before: each is the one that has the next number, of the first log that has
/// one, and its new sectors are in its pages.
pub fn whole_entries_are_folded()
    ensures { (n : ℕ) (logs : List GivenLog) (hive : HiveNow) → IsFold logs hive (replay_by n logs hive).hive }
{}

/// Where it ends, no log has an entry of the next number, or the one that has it makes a sector that is not in its pages; or that many
/// entries were applied.
pub fn entries_are_applied_as_far_as_they_go()
    ensures { (n : ℕ) (logs : List GivenLog) (hive : HiveNow) → EndsSo n logs hive (replay_by n logs hive).hive }
{}

/// The same of logs of fewer than 2^32 sectors: no log has an entry of the next number, or the one that has it makes a sector that is not in
/// its pages.
pub fn entries_are_applied_to_the_last()
    ensures { (file : List ℕ) (files : List LogFile) (hive : Base) → AreBytes file → AreByteFiles files → hive_base_of (filled file) ≡ Ok hive
        → sectors_of files < 4294967296
        → EndsForGood (map (given hive (length (filled file))) files)
        (replayed_by (map (given hive (length (filled file))) files) (begun (filled file) hive)).hive }
{}

/// A run has the whole entries from sector 1 on, each where the one before ends, up to the first place where no entry goes on, or where one
/// is broken, which is its fault: neither that one nor anything after it is in the run.
pub fn a_broken_entry_ends_its_run()
    ensures { (log : List ℕ) → RunsSo log 1 None (run_of log).entries (run_of log).fault }
{}

/// Pages that are written, each within the file, change no other byte of it.
pub fn pages_change_no_other_byte()
    ensures { (pages : List Page) (file : List ℕ) (q d : ℕ) → AreWithin (length file) pages → IsOutside q pages
        → get_or (put_pages file pages) q d ≡ get_or file q d }
{}

/// An old log as this project writes it gives what a load takes of hive and log: where the two load by the log, the log has the hive's
/// stamp, and no other log has an entry that comes next, the result has the base block and the bins data that the load recovers, clean and by
/// itself (`recovers`), and loads as the same state (`loads`).
pub fn an_old_log_gives_what_a_load_recovers()
    ensures recovers { (file log : List ℕ) (name : LogName) (others : List LogFile) (hive : Base) (r : Recovered) → AreBytes file
        → AreByteFiles (record { name = name; bytes = log } ∷ others) → hive_base_of (filled file) ≡ Ok hive
        → recovered_of (image_of file log) ≡ Ok r → r.dirty ≡ true → r.base.stamp ≡ hive.stamp
        → chosen (map (given hive (length (filled file))) others) hive.second ≡ None
        → IfOk (replay_of file (record { name = name; bytes = log } ∷ others))
        (λ o. recovered_of (image_of o.file []) ≡ Ok (record { base = r.base; bins = r.bins; dirty = false })) }
    ensures loads { (file log : List ℕ) (name : LogName) (others : List LogFile) (hive : Base) (state : HiveState)
        (loads : Loads (image_of file log) state true) → AreBytes file → AreByteFiles (record { name = name; bytes = log } ∷ others)
        → hive_base_of (filled file) ≡ Ok hive → loads.recovered.base.stamp ≡ hive.stamp
        → chosen (map (given hive (length (filled file))) others) hive.second ≡ None
        → IfOk (replay_of file (record { name = name; bytes = log } ∷ others)) (λ o. Loads (image_of o.file []) state false) }
{}

/// A base block whose fields fit, as one of a large hive may be, is read back from its spelling.
pub fn a_large_base_block_is_read_back()
    ensures { (base : Base) → NumbersFit base → TextsFit base → base.kind ≡ 0 → is_minor base.minor ≡ true → is_wide_size base.size ≡ true
        → wide_base_of (base_text base) roles.Hive ≡ Ok base }
{}
