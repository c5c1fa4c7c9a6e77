//! How much of the strain a step takes at the least, once it is made.

ghost use Rattle.std.specs.Prelude.{◌≡◌, ◌≤◌, ◌==◌, if◌then◌else◌, map, min, Ok};
ghost use Rattle.hive_model.specs.Footprint.{list_sizes_in, parent_of, room_of, value_list_sizes_in};
ghost use Rattle.hive_model.specs.KeyNode.{KeyNode, key_node_at};
ghost use Rattle.hive_model.specs.Size.{bulk_of};
ghost use Rattle.hive_model.specs.Walk.{reading};
ghost use Rattle.reg_tree.specs.Makes.{step_of};
ghost use Rattle.hive_cells.specs.Sources.{cells_of};
ghost use Rattle.hive_look.specs.Places.{IsKeyAt};
ghost use Rattle.hive_edit.specs.Stepped.{IsStepped};
ghost use Rattle.hive_edit.specs.Steps.{IsLeastRoom, children_in, least_list_room, least_step_room, least_value_room, sets_value, values_in, values_set};
ghost use Rattle.hive_edit.specs.Hive.{HiveCells};

use crate::adding::above_at;
use crate::hive::HiveBytes;
use hive_cells::Source;
use hive_look::{key_along, key_at};
use key_index::payload;
use nt_bytes::{Names, Units, u32_at};
use reg_tree::TreeStep;

/// A page of bins data, in bytes: no cell has less room by itself.
const PAGE: u64 = 4096;

/// How many pages bins data may have.
pub(crate) const MOST_PAGES: u64 = 4096;

/// 1 where a step sets a value, else 0.
fn sets_value(step: &TreeStep) -> u64
    ensures { result ≡ sets_value (step_of step.now) }
{
    match step {
        TreeStep::SetValue { .. } => 1,
        TreeStep::DeleteValue { .. }
        | TreeStep::MakeKey { .. }
        | TreeStep::DeleteKey { .. }
        | TreeStep::CopyChild { .. }
        | TreeStep::AddChild { .. } => 0,
    }
}

/// How many of the steps set a value, at most 2^64 less one.
pub(crate) fn count_sets(steps: &[TreeStep]) -> u64
    ensures { result ≡ min (values_set (map step_of steps.now)) 18446744073709551615 }
{
    let mut sets: u64 = 0;
    for step in steps {
        let one = sets_value(step);
        sets = sets.saturating_add(one);
    }
    sets
}

/// How many values the key at an offset has.
fn values_at(cells: &Source, at: u32) -> u32
    requires { IsKeyAt (cells_of cells.now) at }
    ensures { (n : KeyNode) → reading key_node_at (cells_of cells.now) at ≡ Ok n → result ≡ n.value_count }
{
    let node = payload(cells, at);
    u32_at(node, 36)
}

impl HiveBytes {
    /// How many values the key at a path has; none where no key is.
    fn value_count(&self, path: &Names) -> u32
        ensures { result ≡ values_in path.now self.now.tree }
    {
        let source = Source {
            heap: self.cells.cells(),
            version: self.version,
        };
        match key_at(&source, self.root, path) {
            Some(at) => values_at(&source, at),
            None => 0,
        }
    }

    /// How many children the key along these names has; none where no key is.
    fn child_count(&self, path: &[Units]) -> u32
        ensures { result ≡ children_in path.now self.now.tree }
    {
        let source = Source {
            heap: self.cells.cells(),
            version: self.version,
        };
        match key_along(&source, self.root, path) {
            Some(at) => above_at(&source, at).count,
            None => 0,
        }
    }

    /// The room that the value list of the key at a path needs at the least: a page, and what it has.
    fn value_room(&self, path: &Names) -> u64
        ensures exact { result ≡ least_value_room (values_in path.now self.now.tree) }
        ensures within { result ≤ room_of (value_list_sizes_in path.now self.now.tree) }
    {
        let count = self.value_count(path);
        if count == 0 {
            return 0;
        }
        let size = 4 * u64::from(count);
        if size < PAGE { PAGE } else { size }
    }

    /// The room that the lists of the key along these names need at the least: a page, and one for each full list.
    fn list_room(&self, path: &[Units]) -> u64
        ensures exact { result ≡ least_list_room (children_in path.now self.now.tree) }
        ensures within { result ≤ room_of (list_sizes_in path.now self.now.tree) }
    {
        let count = self.child_count(path);
        if count == 0 {
            return 0;
        }
        let size = u64::from(count) / 500 * PAGE;
        if size < PAGE { PAGE } else { size }
    }

    /// The room that the lists of the key above a path need at the least.
    fn list_room_above(&self, path: &Names) -> u64
        ensures exact { result ≡ least_list_room (children_in (parent_of path.now) self.now.tree) }
        ensures within { result ≤ room_of (list_sizes_in (parent_of path.now) self.now.tree) }
    {
        let names = path.as_slice();
        let above = names.len().saturating_sub(1);
        self.list_room(&names[..above])
    }

    /// The room that making a key below this one took at the least, where the bulk before it is given: none where the key
    /// was there.
    fn made_room(&self, parent: &Names, before: u64) -> u64
        ensures none { before ≡ bulk_of self.now.version self.now.tree → result ≡ 0 }
        ensures exact { result ≡ if before == bulk_of self.now.version self.now.tree then 0 else least_list_room (children_in parent.now self.now.tree) }
        ensures within { result ≤ room_of (list_sizes_in parent.now self.now.tree) }
    {
        if self.bulk() == before {
            return 0;
        }
        self.list_room(parent.as_slice())
    }

    /// The room that a step took which was made, at the least: of the list that it wrote again. The bulk before it is given.
    pub(crate) fn least_room(&self, step: &TreeStep, before: u64) -> u64
        ensures exact { result ≡ least_step_room (step_of step.now) (before == bulk_of self.now.version self.now.tree) self.now.tree }
        ensures least { (old : HiveCells) → IsStepped old (step_of step.now) self.now → before ≡ bulk_of old.version old.tree
            → IsLeastRoom old (step_of step.now) self.now result }
    {
        match step {
            TreeStep::SetValue {
                path,
                name: _,
                kind: _,
                bytes: _,
            } => self.value_room(path),
            TreeStep::DeleteValue { path, name: _ } => self.value_room(path),
            TreeStep::MakeKey { parent, name: _ } => self.made_room(parent, before),
            TreeStep::DeleteKey { path } => self.list_room_above(path),
            TreeStep::CopyChild { from: _, to: _ } => 0,
            TreeStep::AddChild { name: _, key: _ } => 0,
        }
    }
}
