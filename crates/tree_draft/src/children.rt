//! The children of a key by their folded names.

ghost use Rattle.std.specs.Prelude.{◌≡◌, [], ◌∷◌, ◌++◌, List, IfErr, IfOk, OnOk, None, find, true};
ghost use Rattle.std.specs.Map.{values_of};
ghost use Rattle.std.specs.Option.{is_some};
ghost use Rattle.hive_model.specs.Tree.{Tree, head, is_named};
ghost use Rattle.hive_model.specs.Edit.{placed, without_first};
ghost use Rattle.tree_draft.specs.Change.{changed_among, changed_at, changed_here};
ghost use Rattle.tree_draft.specs.Children.{AreByName, AreOpened, IsBehind};
ghost use Rattle.tree_draft.specs.Stops.{Drafts, RefusesNothing};

use crate::change::Change;
use crate::draft::{Draft, DraftKeys};
use crate::stop::DraftStop;
use nt_bytes::Units;
use nt_names::name_places::folded;
use reg_tree::{EditStop, Key, Keys};
use std::alloc::{AllocError, Global};
use std::collections::BTreeMap;
use std::mem::replace;

impl DraftKeys {
    /// The children by their folded names. `Disorder` where those do not rise.
    fn opened(self, alloc: Global) -> Result<BTreeMap<Vec<u16>, Draft>, DraftStop>
        ensures opened { IfOk result (λ m. AreOpened self m.entries) }
        ensures stopped { IfErr result RefusesNothing }
    {
        if self.kept.len() == 0 {
            return Ok(self.named);
        }
        by_name(alloc, self.kept)
    }

    /// Children by their folded names.
    fn of_named(alloc: Global, named: BTreeMap<Vec<u16>, Draft>) -> DraftKeys
        requires { AreByName named.entries }
        ensures { result ≡ values_of named.entries }
    {
        DraftKeys {
            kept: Keys::new(alloc),
            named,
        }
    }

    /// Takes the children by their folded names. What remains has none.
    fn take_opened(&mut self, alloc: Global) -> Result<BTreeMap<Vec<u16>, Draft>, DraftStop>
        ensures opened { IfOk result (λ m. AreOpened self.old m.entries) }
        ensures stopped { IfErr result RefusesNothing }
    {
        replace(self, DraftKeys::none(alloc)).opened(alloc)
    }

    /// Whether a child has this name.
    pub(crate) fn has(&mut self, alloc: Global, name: &[u16]) -> Result<bool, DraftStop>
        ensures there { IfOk result (λ b. b ≡ is_some (find (is_named name.now) self.old)) }
        ensures same { OnOk result (self.new ≡ self.old) }
        ensures stopped { IfErr result RefusesNothing }
    {
        let opened = self.take_opened(alloc)?;
        let key = folded(alloc, name)?;
        let there = opened.contains_key(key.as_slice());
        *self = DraftKeys::of_named(alloc, opened);
        Ok(there)
    }

    /// Puts a child among the others, none of which has its name.
    pub(crate) fn place(&mut self, alloc: Global, child: Draft) -> Result<(), DraftStop>
        requires new { find (is_named (head child).name) self.old ≡ None }
        ensures placed { OnOk result (self.new ≡ placed child self.old) }
        ensures stopped { IfErr result RefusesNothing }
    {
        let mut opened = self.take_opened(alloc)?;
        let key = folded(alloc, child.name.as_slice())?;
        opened.insert(key.into_vec(), child)?;
        *self = DraftKeys::of_named(alloc, opened);
        Ok(())
    }

    /// Takes out the child of this name with all below it, and says whether it was there.
    pub(crate) fn remove(&mut self, alloc: Global, name: &[u16]) -> Result<bool, DraftStop>
        ensures there { IfOk result (λ b. b ≡ is_some (find (is_named name.now) self.old)) }
        ensures gone { OnOk result (self.new ≡ without_first (is_named name.now) self.old) }
        ensures stopped { IfErr result RefusesNothing }
    {
        let mut opened = self.take_opened(alloc)?;
        let key = folded(alloc, name)?;
        let gone = opened.remove(key.as_slice());
        *self = DraftKeys::of_named(alloc, opened);
        Ok(gone.is_some())
    }

    /// Changes the key that the path leads to from the child of this name.
    #[cycle(change_at)]
    pub(crate) fn change_at(
        &mut self,
        alloc: Global,
        name: &[u16],
        path: &[Units],
        change: Change,
    ) -> Result<(), DraftStop>
        ensures { Drafts self.new result (changed_among name.now (changed_at path.now (changed_here change)) self.old) }
    {
        let mut opened = self.take_opened(alloc)?;
        let key = folded(alloc, name)?;
        match opened.get_mut(key.as_slice()) {
            None => Err(DraftStop::Refused(EditStop::NoKey)),
            Some(child) => match child.change_at(alloc, path, change) {
                Err(stop) => Err(stop),
                Ok(()) => {
                    *self = DraftKeys::of_named(alloc, opened);
                    Ok(())
                }
            },
        }
    }
}

/// These keys by their folded names. `Disorder` where those do not rise.
fn by_name(alloc: Global, keys: Keys) -> Result<BTreeMap<Vec<u16>, Draft>, DraftStop>
    ensures opened { IfOk result (λ m. AreOpened keys m.entries) }
    ensures stopped { IfErr result RefusesNothing }
{
    let mut opened = BTreeMap::new(alloc);
    let mut rest = keys.into_vec().into_iter();
    'keys: while let Some(key) = rest.next() {
        push(alloc, &mut opened, key)?;
    }
    Ok(opened)
}

/// Puts a key after the others. `Disorder` where its name does not fold greater than theirs.
fn push(alloc: Global, opened: &mut BTreeMap<Vec<u16>, Draft>, key: Key) -> Result<(), DraftStop>
    ensures pushed { OnOk result ((keys : List Tree) → AreOpened keys opened.old.entries
        → AreOpened (keys ++ key ∷ []) opened.new.entries) }
    ensures stopped { IfErr result RefusesNothing }
{
    let name = folded(alloc, key.name())?.into_vec();
    if !is_behind(opened, name.as_slice()) {
        return Err(DraftStop::Disorder);
    }
    opened.insert(name, Draft::of(alloc, key))?;
    Ok(())
}

/// Whether all children stand under names that come before this one.
fn is_behind(opened: &BTreeMap<Vec<u16>, Draft>, name: &[u16]) -> bool
    ensures { result ≡ true → IsBehind name.now opened.now.entries }
{
    match opened.last_key_value() {
        Some((last, _)) => last.as_slice().cmp(name).is_lt(),
        None => true,
    }
}
