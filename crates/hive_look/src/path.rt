//! The key that a path leads to.

ghost use Rattle.std.specs.Prelude.{◌≡◌, find};
ghost use Rattle.std.specs.Option.{IfSome};
ghost use Rattle.hive_model.specs.Footprint.{child_places, is_node_named, key_place};
ghost use Rattle.hive_cells.specs.Sources.{cells_of};
ghost use Rattle.hive_look.specs.Places.{IsKeyAt};

use hive_cells::Source;
use key_index::{find_child, payload};
use nt_bytes::{Names, Units, u32_at};

/// The offset of the child that has a name, of the key at an offset. `None` where there is none.
pub fn child_at(cells: &Source, at: u32, name: &[u16]) -> Option<u32>
    requires { IsKeyAt (cells_of cells.now) at }
    ensures place { result ≡ find (is_node_named (cells_of cells.now) name.now) (child_places (cells_of cells.now) at) }
    ensures stands { IfSome result (IsKeyAt (cells_of cells.now)) }
{
    let node = payload(cells, at);
    let list = u32_at(node, 28);
    let count = u32_at(node, 20);
    find_child(cells.heap, cells.version, list, count, name)
}

/// The offset of the key that a path from the one at an offset leads to. `None` where it leads to none.
pub fn key_at(cells: &Source, root: u32, path: &Names) -> Option<u32>
    requires { IsKeyAt (cells_of cells.now) root }
    ensures place { result ≡ key_place (cells_of cells.now) path.now root }
    ensures stands { IfSome result (IsKeyAt (cells_of cells.now)) }
{
    key_along(cells, root, path.as_slice())
}

/// The same, along these names.
pub fn key_along(cells: &Source, root: u32, path: &[Units]) -> Option<u32>
    requires { IsKeyAt (cells_of cells.now) root }
    ensures place { result ≡ key_place (cells_of cells.now) path.now root }
    ensures stands { IfSome result (IsKeyAt (cells_of cells.now)) }
{
    let mut at = root;
    let mut rest = path;
    'path: loop {
        let [name, more @ ..] = rest else {
            return Some(at);
        };
        match child_at(cells, at, name.as_slice()) {
            None => return None,
            Some(child) => {
                at = child;
                rest = more;
            }
        }
    }
}
