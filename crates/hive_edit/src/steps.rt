//! Steps in order: made in the cells as they are, and undone by the pages that were kept.

ghost use Rattle.std.specs.Prelude.{◌≡◌, ◌≤◌, map, length, true, Ok, IfOk, OnErr, OnOk, MatchBool, MatchResult};
ghost use Rattle.std.specs.List.{All};
ghost use Rattle.hive_model.specs.Bins.{bins_size, spelled, IsBins};
ghost use Rattle.hive_model.specs.Edit.{after_step, after_steps, edited, most_bulk};
ghost use Rattle.hive_model.specs.Size.{bulk_of};
ghost use Rattle.reg_tree.specs.Fitting.{Fits};
ghost use Rattle.reg_tree.specs.Makes.{IsRefused, step_of};
ghost use Rattle.hive_edit.specs.Hive.{hive_of, settled, settled_as, WasHive};
ghost use Rattle.hive_edit.specs.Stepped.{LacksStepRoom};
ghost use Rattle.hive_edit.specs.Steps.{AreMadeOrNone, AreStepped, AreStrained};
ghost use Rattle.hive_edit.specs.Tells.{IsToldStep};
ghost use Rattle.cell_tables.specs.saved_pages.Overlay.{before, IsCovered};

use crate::hive::HiveBytes;
use cell_tables::saved_pages::SavedPages;
use hive_cells::MOST_BINS;
use nt_bytes::HiveVersion;
use reg_tree::{EditStop, MOST_BULK, TreeStep};
use std::alloc::{AllocError, Global};

impl HiveBytes {
    /// Makes one step, whatever the bulk of the tree then. `false` where there is no room for it. The hive is to be
    /// dropped or restored then, and after an `Err`.
    fn make_step(&mut self, alloc: Global, step: &TreeStep) -> Result<bool, EditStop>
        requires fits { Fits (step_of step.now) }
        ensures made { MatchResult result (λ done. MatchBool done (IsToldStep self.old (step_of step.now) self.new) (LacksStepRoom self.old (step_of step.now)))
            (IsRefused (after_step (step_of step.now) self.old.tree)) }
        ensures base { self.new.base ≡ self.old.base }
        ensures grown { bins_size self.old.bins ≤ bins_size self.new.bins }
    {
        match step {
            TreeStep::SetValue {
                path,
                name,
                kind,
                bytes,
            } => self.set_value_step(alloc, path, name.as_slice(), *kind, bytes.as_slice()),
            TreeStep::DeleteValue { path, name } => self.delete_value_step(path, name.as_slice()),
            TreeStep::MakeKey { parent, name } => {
                self.make_key_step(alloc, parent, name.as_slice())
            }
            TreeStep::DeleteKey { path } => self.delete_key_step(alloc, path),
            TreeStep::CopyChild { from, to } => {
                self.copy_child_step(alloc, from.as_slice(), to.as_slice())
            }
            TreeStep::AddChild { name, key } => self.add_child_step(alloc, name.as_slice(), key),
        }
    }

    /// Makes the steps in order, whatever the bulk of the tree then. `false` where one of them has no room, and where the lists
    /// that were rewritten say that the strain is over the greatest size of bins data: long lists that are written for
    /// each of many steps take longer than the whole tree packed once. The hive is to be dropped or restored then, and
    /// after an `Err`.
    fn make_steps(&mut self, alloc: Global, steps: &[TreeStep]) -> Result<bool, EditStop>
        requires fits { All Fits (map step_of steps.now) }
        ensures made { MatchResult result
            (λ done. MatchBool done (AreStepped self.old (map step_of steps.now) self.new) (AreStrained self.old (map step_of steps.now)))
            (IsRefused (after_steps self.old.tree (map step_of steps.now))) }
        ensures base { self.new.base ≡ self.old.base }
        ensures grown { bins_size self.old.bins ≤ bins_size self.new.bins }
    {
        let mut room: u64 = 0;
        for step in steps {
            let before = self.bulk();
            if !self.make_step(alloc, step)? {
                return Ok(false);
            }
            let more = self.least_room(step, before);
            room = room.saturating_add(more);
            if room > MOST_BINS {
                return Ok(false);
            }
        }
        Ok(true)
    }

    /// The same, within the greatest bulk: `Full` where the tree takes more.
    fn make_within(&mut self, alloc: Global, steps: &[TreeStep]) -> Result<bool, EditStop>
        requires fits { All Fits (map step_of steps.now) }
        ensures made { MatchResult result
            (λ done. MatchBool done (AreStepped self.old (map step_of steps.now) self.new) (AreStrained self.old (map step_of steps.now)))
            (IsRefused (edited self.old.version self.old.tree (map step_of steps.now))) }
        ensures within { result ≡ Ok true → bulk_of self.new.version self.new.tree ≤ most_bulk }
        ensures base { self.new.base ≡ self.old.base }
        ensures grown { bins_size self.old.bins ≤ bins_size self.new.bins }
    {
        if !self.make_steps(alloc, steps)? {
            return Ok(false);
        }
        if self.bulk() > MOST_BULK {
            return Err(EditStop::Full);
        }
        Ok(true)
    }

    /// The hive as it was when its cells were settled last, with the root, the version and the bulk that it had then. No memory
    /// is taken.
    fn restore(&mut self, root: u32, version: HiveVersion, bulk: u64)
        requires was { WasHive self.old.base root version bulk }
        requires long { length self.old.base ≤ bins_size self.old.bins }
        ensures { (was : WasHive self.old.base root version bulk) → self.new ≡ hive_of (settled was.bins) root version }
    {
        self.cells.restore();
        self.root = root;
        self.version = version;
        self.bulk = bulk;
    }

    /// Makes the steps in order in the cells as they are, which are settled. Where one of them is not made, the cells are restored.
    fn make_settled(&mut self, alloc: Global, steps: &[TreeStep]) -> Result<bool, EditStop>
        requires fits { All Fits (map step_of steps.now) }
        requires settled { IsBins self.old.base self.old.bins }
        ensures all { AreMadeOrNone self.old (map step_of steps.now) result self.new }
        ensures base { self.new.base ≡ self.old.base }
    {
        let root = self.root;
        let version = self.version;
        let bulk = self.bulk;
        match self.make_within(alloc, steps) {
            Ok(true) => Ok(true),
            Ok(false) => {
                self.restore(root, version, bulk);
                Ok(false)
            }
            Err(stop) => {
                self.restore(root, version, bulk);
                Err(stop)
            }
        }
    }

    /// Settles the bins data as they are. Answers the pages that were kept of what they were before, for `rejoin`. Room for new
    /// ones is taken.
    fn hold(&mut self, alloc: Global) -> Result<SavedPages, AllocError>
        ensures held { OnOk result (self.new ≡ settled_as (spelled 0 self.old.bins) self.old) }
        ensures settled { OnOk result (IsBins self.new.base self.new.bins) }
        ensures before { IfOk result (λ pages. before pages (spelled 0 self.old.bins) ≡ self.old.base) }
        ensures covered { IfOk result (λ pages. IsCovered pages (length (spelled 0 self.old.bins))) }
        ensures refused { OnErr result (self.new ≡ self.old) }
    {
        let _bytes = self.cells.bytes();
        let pages = self.cells.hold(alloc)?;
        Ok(pages)
    }

    /// The bins data were settled last as these pages say, which `hold` answered. No memory is taken.
    fn rejoin(&mut self, pages: SavedPages)
        requires { IsCovered pages (length self.old.base) }
        ensures { self.new ≡ settled_as (before pages self.old.base) self.old }
    {
        self.cells.rejoin(pages);
    }

    /// Makes the steps in order, all or none, within the greatest bulk, in the cells as they are: with no copy of them. `false`
    /// where there is no room for them, as `make_steps` says; the hive is as before then, and after an `Err`.
    pub(crate) fn make_all(&mut self, alloc: Global, steps: &[TreeStep]) -> Result<bool, EditStop>
        requires fits { All Fits (map step_of steps.now) }
        ensures all { AreMadeOrNone self.old (map step_of steps.now) result self.new }
        ensures base { self.new.base ≡ self.old.base }
    {
        let pages = self.hold(alloc)?;
        let made = self.make_settled(alloc, steps);
        self.rejoin(pages);
        made
    }
}
