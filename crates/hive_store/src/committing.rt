//! A session committed to its disk.

ghost use Rattle.std.specs.Prelude.{◌≡◌, Bool, true, false, IfOk};
ghost use Rattle.hive_model.specs.State.{HiveState};
ghost use Rattle.hive_model.specs.Load.{Loads};
ghost use Rattle.nt_edge.specs.Calls.{MakesUntil};
ghost use Rattle.nt_edge.specs.Crash.{EachCrash};
ghost use Rattle.hive_commit.specs.Calls.{change_calls};
ghost use Rattle.hive_commit.specs.Commits.{IsCleanWith};
ghost use Rattle.hive_commit.specs.Cuts.{IsCutOfCommit};
ghost use Rattle.hive_commit.specs.Stages.{LoadsAsEither};
ghost use Rattle.hive_commit.specs.Stops.{EndsCommit};
ghost use Rattle.hive_store.specs.Session.{next_bins, next_root};
ghost use Rattle.hive_store.specs.Commits.{committed_state, HasCommitted};
ghost use Rattle.hive_store.specs.Changes.{IsEdited};

use crate::Hive;
use hive_commit::{CommitStop, commit_kept};
use nt_edge::Disk;

impl Hive {
    /// The session after a commit of its tree, and the new sequence number. The disk is on, has nothing in
    /// flight and carries the session's base block and bins data. No memory is taken. A refusal is the disk's
    /// own, leaves the old state or the new, and ends the session.
    pub fn commit<D: Disk>(self, disk: &mut D) -> Result<(Hive, u32), CommitStop>
        requires clean { IsCleanWith D.tells (D.state disk.old) self.base self.bins }
        // It makes the calls of one change and no other, after a refusal a prefix of them: to the bytes of the cells.
        ensures made { MakesUntil (D.calls disk.old) (D.calls disk.new)
            (change_calls self.base self.bins (next_bins self) (next_root self)) result }
        // At Ok the cells, their tree and the version stay, the number is one more modulo 2^32, and nothing is changed any more.
        // The disk is clean then, loads as the tree under this number, and carries what was written.
        ensures committed { IfOk result (HasCommitted D.tells (D.state disk.new) self) }
        // What it writes are the cells that the disk carries with the edits since the load or the last commit: each was made in place, or by
        // repacking for want of room.
        ensures change { IsEdited self }
        // At every exit a cut leaves what is recovered as before or as after, and the rest of the primary as it was.
        ensures cut { D.tells ≡ true → EachCrash (D.state disk.new)
            (IsCutOfCommit (D.state disk.old).held self.base self.bins (next_bins self) (next_root self)) }
        // At every exit a cut leaves what loads as the disk did at entry, or as after the commit, be sectors in
        // flight torn or not. At entry there is such a state, by the session itself.
        ensures before { D.tells ≡ true → (before : HiveState) × Loads (D.state disk.old).held before false }
        ensures crash { D.tells ≡ true → (before : HiveState) (dirty : Bool)
            → Loads (D.state disk.old).held before dirty
            → EachCrash (D.state disk.new) (LoadsAsEither before (committed_state self)) }
        // Each refusal has its cause, and there is no other.
        ensures ends { EndsCommit (D.state disk.old) (D.state disk.new) result }
    {
        let (base, mut cells) = (self.base, self.cells);
        let new = cells.bytes();
        let mut marks = [0; 4096];
        let closed = commit_kept(disk, &base, cells.pages(), new, cells.root(), &mut marks)?;
        cells.settle();
        let hive = Hive {
            base: closed,
            cells,
            changed: false,
        };
        Ok((hive, closed.first))
    }
}
