//! A child of the root copied with all below it: what was read of it is added under the other name, and shares its descriptor.

ghost use Rattle.std.specs.Prelude.{◌≡◌, ◌≤◌, [], ◌∷◌, true, find, Some, Ok, IfOk, MatchBool, MatchResult};
ghost use Rattle.hive_model.specs.Limits.{most_bins};
ghost use Rattle.hive_model.specs.Bins.{bins_size};
ghost use Rattle.hive_model.specs.Tree.{children, head, is_named};
ghost use Rattle.hive_model.specs.Valid.{HoldsKeys, levels};
ghost use Rattle.hive_model.specs.Size.{size};
ghost use Rattle.hive_model.specs.Edit.{after_step, copy_child, has_child};
ghost use Rattle.reg_tree.specs.Makes.{IsRefused};
ghost use Rattle.hive_edit.specs.Children.{IsFreeName, IsGraftedIn, IsNewChild, LacksGraftRoom, MayGraft};
ghost use Rattle.hive_edit.specs.Copying.{HasSecurityOf, IsCopiedIn, SharesChild};
ghost use Rattle.hive_edit.specs.Stepped.{LacksStepRoom};
ghost use Rattle.hive_edit.specs.Tells.{IsToldStep};

use crate::adding::above_at;
use crate::adding_child::{descriptor, offset_fits, renamed, size_below};
use crate::hive::HiveBytes;
use crate::making::Above;
use crate::telling::class_len;
use hive_cells::Source;
use hive_look::child_at;
use nt_bytes::{Names, Units};
use reg_tree::{EditStop, Key};
use std::alloc::{AllocError, Global};

/// The path of a child of the root.
fn path_of(alloc: Global, name: &[u16]) -> Result<Names, AllocError>
    ensures { IfOk result (λ path. path ≡ name.now ∷ []) }
{
    let mut path = Names::new(alloc);
    path.push(Units::from_slice(alloc, name)?)?;
    Ok(path)
}

/// The same lists, with the security at another offset.
fn sharing(above: Above, place: u32) -> Above
    ensures list { result.list ≡ above.list }
    ensures count { result.count ≡ above.count }
    ensures volatile { result.volatile ≡ above.volatile }
    ensures security { result.security ≡ place }
{
    Above {
        list: above.list,
        count: above.count,
        volatile: above.volatile,
        security: place,
    }
}

impl HiveBytes {
    /// Where the security of the child of a name is.
    fn shared_of(&self, from: &[u16]) -> u32
        requires { has_child from.now self.now.tree ≡ true }
        ensures { SharesChild self.now from.now result }
    {
        let source = Source {
            heap: self.cells.cells(),
            version: self.version,
        };
        match child_at(&source, self.root, from) {
            None => unreachable!(),
            Some(at) => {
                let place = above_at(&source, at).security;
                offset_fits(place);
                place
            }
        }
    }

    /// Puts a key below the root, which shares the descriptor that it has with another.
    fn graft_sharing(
        &mut self,
        alloc: Global,
        above: Above,
        key: &Key,
        own: u32,
    ) -> Result<bool, AllocError>
        requires new { IsNewChild self.old key.now }
        requires may { MayGraft self.old above (head key.now).security }
        requires own { own ≡ size self.old.version (head self.old.tree).security key.now }
        requires few { own ≤ most_bins }
        ensures grafted { IfOk result (λ done. MatchBool done (IsGraftedIn self.old above.security (head key.now).security key.now self.new)
            (LacksGraftRoom self.old (head key.now).security key.now)) }
        ensures base { self.new.base ≡ self.old.base }
        ensures grown { bins_size self.old.bins ≤ bins_size self.new.bins }
    {
        match size_below(self.version, key.security(), key) {
            None => Ok(false),
            Some(bytes) => self.graft(alloc, above, key.security(), key, own, bytes),
        }
    }

    /// Puts a key below the root, which shares the descriptor of the child of a name, whatever the bulk then.
    fn copy_below_root(
        &mut self,
        alloc: Global,
        from: &[u16],
        key: &Key,
    ) -> Result<bool, AllocError>
        requires new { IsNewChild self.old key.now }
        requires like { HasSecurityOf self.old from.now key.now }
        ensures copied { IfOk result (λ done. MatchBool done (IsCopiedIn self.old from.now key.now self.new)
            (LacksGraftRoom self.old (head self.old.tree).security key.now)) }
        ensures base { self.new.base ≡ self.old.base }
        ensures grown { bins_size self.old.bins ≤ bins_size self.new.bins }
    {
        let place = self.shared_of(from);
        let source = Source {
            heap: self.cells.cells(),
            version: self.version,
        };
        let above = above_at(&source, self.root);
        if above.count > 2_097_150 {
            return Ok(false);
        }
        let own = descriptor(alloc, &source, above.security)?;
        match size_below(self.version, own.as_slice(), key) {
            None => Ok(false),
            Some(size) => {
                let above = sharing(above, place);
                self.graft_sharing(alloc, above, key, size)
            }
        }
    }

    /// Copies a child under a name that one may have; the root's node records no less than the lengths of the name and of the class.
    fn copy_named(
        &mut self,
        alloc: Global,
        from: &[u16],
        to: &[u16],
        key: &Key,
    ) -> Result<bool, EditStop>
        requires found { find (is_named from.now) (children self.old.tree) ≡ Some key.now }
        requires free { IsFreeName self.old to.now }
        requires holds { HoldsKeys key.now }
        requires low { levels key.now ≤ 511 }
        ensures made { MatchResult result
            (λ done. MatchBool done (IsToldStep self.old (copy_child from.now to.now) self.new) (LacksStepRoom self.old (copy_child from.now to.now)))
            (IsRefused (after_step (copy_child from.now to.now) self.old.tree)) }
        ensures base { self.new.base ≡ self.old.base }
        ensures grown { bins_size self.old.bins ≤ bins_size self.new.bins }
    {
        self.stands();
        let child = renamed(alloc, key, to)?;
        match self.copy_below_root(alloc, from, &child) {
            Ok(true) => {
                let class = class_len(key);
                self.tell_child(alloc, to, class);
                Ok(true)
            }
            Ok(false) => Ok(false),
            Err(_) => Err(EditStop::Memory),
        }
    }

    /// Gives the root a child of the name `to` that is as its child of the name `from`, with all below it, whatever the bulk of the
    /// tree then: one run of cells, new lists of the root, and that many uses more of the security of `from` as keys share it.
    /// `false` where there is no room for the run or for the lists. The hive is to be dropped or restored then, and after an `Err`.
    pub(crate) fn copy_child_step(
        &mut self,
        alloc: Global,
        from: &[u16],
        to: &[u16],
    ) -> Result<bool, EditStop>
        ensures made { MatchResult result
            (λ done. MatchBool done (IsToldStep self.old (copy_child from.now to.now) self.new) (LacksStepRoom self.old (copy_child from.now to.now)))
            (IsRefused (after_step (copy_child from.now to.now) self.old.tree)) }
        ensures base { self.new.base ≡ self.old.base }
        ensures grown { bins_size self.old.bins ≤ bins_size self.new.bins }
    {
        let path = path_of(alloc, from)?;
        match self.subtree(alloc, &path)? {
            None => Err(EditStop::NoKey),
            Some(key) => match self.judge_name(to) {
                Err(stop) => Err(stop),
                Ok(()) => self.copy_named(alloc, from, to, &key),
            },
        }
    }
}
