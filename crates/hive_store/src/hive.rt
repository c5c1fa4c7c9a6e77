//! A hive in memory.

ghost use Rattle.std.specs.Prelude.{◌≡◌, false, [], Some, None, is_some, Ok, IfOk};
ghost use Rattle.hive_model.specs.Base.{version_of};
ghost use Rattle.hive_model.specs.Tree.{Tree, find_key};
ghost use Rattle.hive_store.specs.Found.{found_dword, found_names, FitsBelow};
ghost use Rattle.hive_store.specs.Session.{AreCarried};

use hive_edit::HiveBytes;
use nt_bytes::{HiveVersion, Names};
use reg_tree::Key;
use regf_base::BaseBlock;
use std::alloc::{AllocError, Global};
use std::marker::Model;

/// A hive in memory: its base block, and its cells, with the bins data as the disk carries them, to which the cells were settled
/// last. A tree that a hive can hold is in them.
#[derive(Drop)]
pub struct Hive {
    pub(crate) base: BaseBlock,
    pub(crate) cells: HiveBytes,
    /// Whether an edit gave another tree. A second edit may have undone it.
    pub(crate) changed: bool,
}

impl Model for Hive {
    ghost use Rattle.hive_store.specs.Session.{Session, coded_session, session_of, IsSession};

    ghost Value = { Session };

    ghost coded = { coded_session };

    ghost view = { λ h. session_of h.base h.cells.base h.cells h.changed };

    ghost invariant = { λ h. IsSession h.base h.cells.base h.cells h.changed };
}

impl Hive {
    /// The sequence number of the base block that the disk carries.
    pub fn sequence(&self) -> u32
        ensures { result ≡ self.now.base.first }
    {
        self.base.first
    }

    /// The version of the hive, which each commit keeps.
    pub fn version(&self) -> HiveVersion
        ensures { result ≡ version_of self.now.base.minor }
    {
        self.base.version()
    }

    /// Whether an edit since the load or the last commit gave a tree unlike the one before it.
    pub fn changed(&self) -> bool
        ensures { result ≡ self.now.changed }
    {
        self.changed
    }

    /// The hive as its cells. Until an edit gives another tree, they are those that the disk carries.
    pub fn cells(&self) -> &HiveBytes
        ensures cells { result.now ≡ self.now.cells }
        ensures tree { self.now.tree ≡ self.now.cells.tree }
        ensures version { self.now.cells.version ≡ version_of self.now.base.minor }
        ensures carried { self.now.changed ≡ false → AreCarried self.now.base self.now.bins self.now.cells }
    {
        &self.cells
    }

    /// The hive as its cells, without a copy. Of what the disk carries nothing is said.
    pub fn into_cells(self) -> HiveBytes
        ensures { result ≡ self.cells }
    {
        self.cells
    }

    /// The number under a name in the key that a path leads to, where there is such a key with a value of type 4
    /// and four bytes.
    pub fn dword(&self, path: &Names, name: &[u16]) -> Option<u32>
        ensures { result ≡ found_dword path.now name.now self.now.tree }
    {
        self.cells.dword(path, name)
    }

    /// Whether a path leads to a key.
    pub fn has(&self, path: &Names) -> bool
        ensures { result ≡ is_some (find_key path.now self.now.tree) }
    {
        self.cells.has(path)
    }

    /// The key that a path leads to, with all below it, in memory of its own. That there is none needs no memory.
    pub fn subtree(&self, alloc: Global, path: &Names) -> Result<Option<Key>, AllocError>
        ensures none { find_key path.now self.now.tree ≡ None → result ≡ Ok None }
        ensures found { IfOk result (λ key. key ≡ find_key path.now self.now.tree) }
        ensures fits { (t : Tree) → find_key path.now self.now.tree ≡ Some t → FitsBelow path.now t }
    {
        self.cells.subtree(alloc, path)
    }

    /// The names of the children of the key that a path leads to, in order. None where there is no such key, which
    /// needs no memory.
    pub fn names_below(&self, alloc: Global, path: &Names) -> Result<Names, AllocError>
        ensures none { find_key path.now self.now.tree ≡ None → result ≡ Ok [] }
        ensures names { IfOk result (λ names. names ≡ found_names path.now self.now.tree) }
    {
        self.cells.names_below(alloc, path)
    }
}
