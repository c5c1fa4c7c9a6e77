//! A loaded hive packed where that makes it shorter.

ghost use Rattle.std.specs.Prelude.{◌≡◌, Bool, true, Some, None, IfOk, IfSome, IsErrOf};
ghost use Rattle.hive_model.specs.Base.{version_of};
ghost use Rattle.hive_model.specs.State.{HiveState};
ghost use Rattle.hive_model.specs.Load.{Loads};
ghost use Rattle.nt_edge.specs.Calls.{MakesUntil};
ghost use Rattle.nt_edge.specs.Crash.{EachCrash};
ghost use Rattle.nt_edge.specs.Frames.{GoesOn};
ghost use Rattle.hive_commit.specs.Calls.{change_calls};
ghost use Rattle.hive_commit.specs.Commits.{IsCleanWith};
ghost use Rattle.hive_commit.specs.Stages.{next_number};
ghost use Rattle.hive_commit.specs.Stops.{IsCommitOn};
ghost use Rattle.hive_commit.specs.declared.stops.CommitStop.TheVariants.{PowerLost, Device, Memory};
ghost use Rattle.hive_store.specs.Session.{HasTree};
ghost use Rattle.mend_command.specs.hive_mend.Loaded.{loaded_state};
ghost use Rattle.mend_command.specs.hive_mend.Loading.{StandsAs};
ghost use Rattle.mend_command.specs.hive_mend.Mending.{shorter, mended_by, number_by, CallsBy, LoadsAsOrNext};

use crate::hive_mend::LoadedHive;
use hive_commit::{CommitStop, commit};
use hive_pack::pack;
use nt_bytes::Bytes;
use nt_edge::Disk;
use reg_tree::MOST_BULK;
use std::alloc::{AllocError, Global};

impl LoadedHive {
    /// The packed form of the tree, where it is small enough to be packed and this is shorter than the bins data.
    fn shorter(&self, alloc: Global) -> Result<Option<Bytes>, AllocError>
        ensures exact { IfOk result (λ new. new ≡ shorter self.now) }
        ensures ready { IfOk result (λ new. IfSome new (λ b. HasTree (version_of self.now.base.minor) b 32 self.now.tree)) }
    {
        let version = self.base.version();
        if self.tree.bulk(version) > MOST_BULK {
            return Ok(None);
        }
        let packed = pack(alloc, &self.tree, version)?;
        if packed.len() < self.bins.len() {
            Ok(Some(packed))
        } else {
            Ok(None)
        }
    }

    /// Commits new bins data in which the tree is at 32.
    fn replace<D: Disk>(self, disk: &mut D, new: Bytes) -> Result<(LoadedHive, u32), CommitStop>
        requires clean { IsCleanWith D.tells (D.state disk.old) self.base self.bins }
        requires ready { HasTree (version_of self.base.minor) new 32 self.tree }
        ensures made { MakesUntil (D.calls disk.old) (D.calls disk.new) (change_calls self.base self.bins new 32) result }
        ensures answered { IfOk result (λ x. x.0 ≡ mended_by self (Some new)) }
        ensures number { IfOk result (λ x. x.1 ≡ next_number self.base.first) }
        ensures stands { IfOk result (λ x. StandsAs D.tells (D.state disk.new) x.0) }
        ensures crash { D.tells ≡ true → EachCrash (D.state disk.new) (LoadsAsOrNext (loaded_state self)) }
        ensures goes { IsCommitOn (D.state disk.old) (D.state disk.new) result }
    {
        let LoadedHive { base, bins, tree } = self;
        let mut marks = [0; 4096];
        let closed = commit(disk, &base, bins.as_slice(), new.as_slice(), 32, &mut marks)?;
        let hive = LoadedHive {
            base: closed,
            bins: new,
            tree,
        };
        Ok((hive, closed.first))
    }

    /// Packs the tree and commits the packed form, where its bulk is at most 16,773,120 bytes and its packed form is
    /// shorter than the bins data: then the new sequence number is answered. Else the hive is as it was, none is
    /// answered, and no call of the disk is made. The disk is on, has nothing in flight and carries the hive's base
    /// block and bins data. Out of memory alone is free; all of it is taken before the first call of the disk.
    pub fn mend<D: Disk>(
        self,
        alloc: Global,
        disk: &mut D,
    ) -> Result<(LoadedHive, Option<u32>), CommitStop>
        requires clean { IsCleanWith D.tells (D.state disk.old) self.base self.bins }
        // Where packing makes it shorter it makes the calls of one change to the packed form and no other, after a
        // refusal a prefix of them, and else none.
        ensures made { CallsBy (D.calls disk.old) (D.calls disk.new) self (shorter self) result }
        ensures answered { IfOk result (λ x. x.0 ≡ mended_by self (shorter self)) }
        ensures number { IfOk result (λ x. x.1 ≡ number_by self (shorter self)) }
        // The disk is clean then with the hive that is answered, and loads as its tree.
        ensures stands { IfOk result (λ x. StandsAs D.tells (D.state disk.new) x.0) }
        // At every exit a cut leaves what loads as the disk did at entry, or as the same tree under the next number.
        ensures crash { D.tells ≡ true → (s : HiveState) (dirty : Bool)
            → Loads (D.state disk.old).held s dirty
            → EachCrash (D.state disk.new) (LoadsAsOrNext s) }
        ensures goes { GoesOn (D.state disk.old) (D.state disk.new)
            (IsErrOf result PowerLost) (IsErrOf result Device) (IsErrOf result Memory) }
    {
        match self.shorter(alloc) {
            Ok(Some(new)) => {
                let (hive, number) = self.replace(disk, new)?;
                Ok((hive, Some(number)))
            }
            Ok(None) => Ok((self, None)),
            Err(_) => Err(CommitStop::Memory),
        }
    }
}
