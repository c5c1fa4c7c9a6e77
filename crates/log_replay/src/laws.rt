//! What the definitions mean, in the subject's words.

ghost use Rattle.std.specs.Prelude.{◌≡◌, ◌<◌, ◌^◌, ℕ, List, Some, Ok, IfOk};
ghost use Rattle.windows_logs.specs.declared.entry_log.entry.Entry.{Entry};
ghost use Rattle.windows_logs.specs.entry_log.Runs.{run_of};
ghost use Rattle.log_replay.specs.Entries.{numbered};
ghost use Rattle.hive_model.specs.Base.{Base};
ghost use Rattle.windows_logs.specs.log_parts.Filled.{filled};
ghost use Rattle.log_replay.specs.declared.replaying.LogFile.{LogFile};
ghost use Rattle.log_replay.specs.Replay.{hive_base_of, replay_of};
ghost use Rattle.log_replay.specs.Laws.{FirstFits};

/// The entry of a log that is found by its place in the run has the number that was asked for.
pub fn an_entry_has_the_number_that_was_asked_for()
    ensures { (log : List ℕ) (n : ℕ) (e : Entry) → n < 2 ^ 32 → FirstFits (run_of log).entries
        → numbered (run_of log).entries n ≡ Some e → e.number ≡ n }
{}

/// Of a clean hive the file comes out byte for byte, whatever the logs hold.
pub fn a_clean_hive_stays()
    ensures { (file : List ℕ) (files : List LogFile) (hive : Base) → hive_base_of (filled file) ≡ Ok hive → hive.first ≡ hive.second
        → IfOk (replay_of file files) (λ outcome. outcome.file ≡ file) }
{}
