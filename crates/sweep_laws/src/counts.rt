//! How many calls and words there are.

ghost use Rattle.std.specs.Prelude.{◌≡◌, ◌↔◌, ◌<◌, ◌+◌, ◌-◌, ◌*◌, ◌^◌, ◌++◌, ℕ, Bool, List, [], length, not, true, false};
ghost use Rattle.std.specs.List.{count_by};
ghost use Rattle.hive_model.specs.Base.{Base, is_bins_size};
ghost use Rattle.hive_model.specs.Image.{Address, Log, IsFileOf};
ghost use Rattle.hive_model.specs.Log.{dirty};
ghost use Rattle.hive_model.specs.Recovery.{bit};
ghost use Rattle.nt_edge.specs.Calls.{Made, reads_of};
ghost use Rattle.nt_edge.specs.Disk.{DiskState};
ghost use Rattle.mem_edge.specs.declared.store.MemDisk.{MemDisk as MemDiskModel};
ghost use Rattle.regf_base.specs.Fitting.{NumbersFit, TextsFit};
ghost use Rattle.hive_log.specs.Found.{Found};
ghost use Rattle.hive_commit.specs.Calls.{change_calls, closing_calls};
ghost use Rattle.hive_commit.specs.Cuts.{IsChange};
ghost use Rattle.sweep_text.specs.declared.sweep_text.logged.Logged.{Logged as LoggedModel};
ghost use Rattle.sweep_text.specs.sweep_text.Logged.{logged_of};
ghost use Rattle.sweep_text.specs.sweep_text.Report.{stages_by};
ghost use Rattle.sweep_text.specs.sweep_text.Stages.{Stage, recovery_stages, commit_stages, calls_in, afters_in};
ghost use Rattle.sweep_laws.specs.Columns.{after_calls};
ghost use Rattle.sweep_laws.specs.Counted.{words_in};
ghost use Rattle.sweep_laws.specs.Counting.{WereMade, CountsMore};

/// A commit makes two calls for each sector that it writes, one for each sector of bits in its log, and seven more. Four words for each sector and
/// fifteen more are `after`, and the others are `before`.
pub fn the_calls_of_a_commit_are_counted()
    ensures calls { (bitmap : ℕ) (sectors : List ℕ) → calls_in (commit_stages bitmap sectors) ≡ 2 * length sectors + bitmap + 7 }
    ensures after { (bitmap : ℕ) (sectors : List ℕ) → afters_in (commit_stages bitmap sectors) ≡ 4 * length sectors + 15 }
    ensures before { (bitmap : ℕ) (sectors : List ℕ) → 4 * calls_in (commit_stages bitmap sectors) - afters_in (commit_stages bitmap sectors)
        ≡ 4 * (length sectors + bitmap) + 13 }
{}

/// A recovery makes a call for each sector that it takes, and three more, and no word is `after`.
pub fn the_calls_of_a_recovery_are_counted()
    ensures calls { (sectors : List ℕ) → calls_in (recovery_stages sectors) ≡ length sectors + 3 }
    ensures after { (sectors : List ℕ) → afters_in (recovery_stages sectors) ≡ 0 }
{}

/// The line `calls` counts none exactly where the event neither recovered the hive nor committed it.
pub fn no_calls_are_counted_exactly_where_nothing_is_written()
    ensures { (recovered committed : Bool) (recovery commit : LoggedModel)
        → (calls_in (stages_by recovered committed recovery commit) ≡ 0) ↔ ((recovered ≡ false) × (committed ≡ false)) }
{}

/// Any stages have four words for each call. Those that count as `after` are `after`, and all others are `before`.
pub fn each_call_has_four_words()
    ensures four { (stages : List Stage) → length (words_in stages) ≡ 4 * calls_in stages }
    ensures after { (stages : List Stage) → count_by (λ w. w) (words_in stages) ≡ afters_in stages }
    ensures before { (stages : List Stage) → count_by not (words_in stages) ≡ 4 * calls_in stages - afters_in stages }
{}

/// The number in the line `calls` is by how much the counts of writes and syncs rose that a disk in memory keeps of its own calls: where the calls
/// were those of a commit (`commit`), the writes and syncs of a recovery (`recovery`), or these and a commit's (`both`), after any reads.
pub fn the_calls_are_those_that_the_disk_counted()
    ensures commit { (disk : DiskState) (base : Base) (old new log : List ℕ) (root : ℕ) (given : LoggedModel)
        (sectors : List Address) (first last : MemDiskModel) (earlier : List Made) → disk.flight ≡ []
        → IsChange disk.held base old new root (dirty old new)
        → IsFileOf (after_calls disk (change_calls base old new root)).held Log log
        → WereMade first last earlier (reads_of sectors ++ change_calls base old new root)
        → CountsMore first last (calls_in (stages_by false true given (logged_of log))) }
    ensures recovery { (disk : DiskState) (base : Base) (bitmap bins log : List ℕ) (written : LoggedModel)
        (sectors : List Address) (first last : MemDiskModel) (earlier : List Made) → Found disk.held base bitmap bins → NumbersFit base → TextsFit base
        → IsFileOf disk.held Log log
        → WereMade first last earlier (reads_of sectors ++ closing_calls base (bit bitmap) bins)
        → CountsMore first last (calls_in (stages_by true false (logged_of log) written)) }
    ensures both { (disk : DiskState) (base : Base) (bitmap old new log left : List ℕ) (root : ℕ)
        (sectors : List Address) (first last : MemDiskModel) (earlier : List Made) → disk.flight ≡ []
        → Found disk.held base bitmap old → NumbersFit base → TextsFit base → is_bins_size (length new) ≡ true → root < 2 ^ 32
        → IsFileOf disk.held Log log
        → IsFileOf (after_calls disk (closing_calls base (bit bitmap) old ++ change_calls base old new root)).held Log left
        → WereMade first last earlier (reads_of sectors ++ (closing_calls base (bit bitmap) old ++ change_calls base old new root))
        → CountsMore first last (calls_in (stages_by true true (logged_of log) (logged_of left))) }
{}
