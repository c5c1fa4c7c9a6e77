//! A hive as its cells.

ghost use Rattle.std.specs.Prelude.{◌≡◌, [], length, Some, None, is_some, Ok, IfOk};
ghost use Rattle.hive_model.specs.Bins.{IsHeap, bins_size, spelled};
ghost use Rattle.hive_model.specs.Size.{bulk_of};
ghost use Rattle.hive_model.specs.Tree.{Tree, find_key};
ghost use Rattle.hive_model.specs.Valid.{IsValid};
ghost use Rattle.hive_model.specs.Stands.{IsWellFormed};
ghost use Rattle.hive_edit.specs.Found.{found_names, FitsBelow};
ghost use Rattle.hive_look.specs.Places.{found_dword};
ghost use Rattle.hive_edit.specs.Hive.{cells_in, settled_as, Takes};
ghost use Rattle.cell_tables.specs.saved_pages.Overlay.{before, IsCovered};

use cell_tables::saved_pages::SavedPages;
use hive_cells::{CellHeap, OpenHeap, Source};
use hive_look::{child_names, dword_under, key_at};
use hive_read::{judge, read_tree};
use nt_bytes::{HiveVersion, Names, ReadStop};
use reg_tree::Key;
use std::alloc::{AllocError, Global};
use std::marker::Model;

/// A hive as its cells, in which a tree is at the root: well-formed, and one that a hive can hold.
#[derive(Drop)]
pub struct HiveBytes {
    pub(crate) cells: OpenHeap,
    pub(crate) root: u32,
    pub(crate) version: HiveVersion,
    pub(crate) bulk: u64,
}

impl Model for HiveBytes {
    ghost use Rattle.hive_edit.specs.Hive.{HiveCells, coded_hive, hive_of, IsHive};

    ghost Value = { HiveCells };

    ghost coded = { coded_hive };

    ghost view = { λ a. hive_of a.cells a.root a.version };

    ghost invariant = { λ a. IsHive a.cells.bins a.root a.version a.bulk };
}

impl HiveBytes {
    /// The hive of these cells, whose root's node is at an offset, or the first fault of its tree. The whole
    /// tree is judged, and not made. Out of memory alone is free.
    pub fn from_cells(
        alloc: Global,
        cells: CellHeap,
        root: u32,
        version: HiveVersion,
    ) -> Result<HiveBytes, ReadStop>
        ensures exact { Takes cells root version result }
        ensures valid { IfOk result (λ h. IsValid h.tree) }
    {
        let bulk = judge(alloc, &cells, root, version)?;
        let heap = cells.opened(alloc)?;
        Ok(HiveBytes {
            cells: heap,
            root,
            version,
            bulk,
        })
    }

    /// The bins data.
    pub fn bytes(&self) -> &[u8]
        ensures exact { result.now ≡ spelled 0 self.now.bins }
        ensures sound { IsHeap self.now.bins }
    {
        self.cells.bytes()
    }

    /// The pages of the bins data that were kept since these were settled last, before each was changed first.
    pub fn pages(&self) -> &SavedPages
        ensures base { before result.now (spelled 0 self.now.bins) ≡ self.now.base }
        ensures covered { IsCovered result.now (length (spelled 0 self.now.bins)) }
    {
        self.cells.pages()
    }

    /// Settles the bins data as they are. No memory is taken.
    pub fn settle(&mut self)
        ensures { self.new ≡ settled_as (spelled 0 self.old.bins) self.old }
    {
        self.cells.settle();
    }

    /// How many bytes the bins data have.
    pub fn size(&self) -> usize
        ensures { result ≡ bins_size self.now.bins }
    {
        self.cells.bytes().len()
    }

    /// The offset of the root's node. The tree stands there in well-formed cells, and a hive can hold it.
    pub fn root(&self) -> u32
        ensures root { result ≡ self.now.root }
        ensures stands { IsWellFormed (cells_in self.now) self.now.root self.now.tree }
        ensures valid { IsValid self.now.tree }
    {
        self.root
    }

    /// The version that the cells are read in.
    pub fn version(&self) -> HiveVersion
        ensures { result ≡ self.now.version }
    {
        self.version
    }

    /// How many bytes the tree takes in packed form, but for what fills the last bin.
    pub fn bulk(&self) -> u64
        ensures { result ≡ bulk_of self.now.version self.now.tree }
    {
        self.bulk
    }

    /// Whether a path leads to a key.
    pub fn has(&self, path: &Names) -> bool
        ensures { result ≡ is_some (find_key path.now self.now.tree) }
    {
        let source = Source {
            heap: self.cells.cells(),
            version: self.version,
        };
        key_at(&source, self.root, path).is_some()
    }

    /// The number under a name in the key that a path leads to, where there is such a key with a value of type 4
    /// and four bytes.
    pub fn dword(&self, path: &Names, name: &[u16]) -> Option<u32>
        ensures { result ≡ found_dword path.now name.now self.now.tree }
    {
        let source = Source {
            heap: self.cells.cells(),
            version: self.version,
        };
        match key_at(&source, self.root, path) {
            Some(at) => dword_under(&source, at, name),
            None => None,
        }
    }

    /// The names of the children of the key that a path leads to, in order. None where there is no such key, which
    /// needs no memory.
    pub fn names_below(&self, alloc: Global, path: &Names) -> Result<Names, AllocError>
        ensures none { find_key path.now self.now.tree ≡ None → result ≡ Ok [] }
        ensures names { IfOk result (λ names. names ≡ found_names path.now self.now.tree) }
    {
        let source = Source {
            heap: self.cells.cells(),
            version: self.version,
        };
        match key_at(&source, self.root, path) {
            Some(at) => child_names(alloc, &source, at),
            None => Ok(Names::new(alloc)),
        }
    }

    /// The key that a path leads to, with all below it, in memory of its own. That there is none needs no memory.
    pub fn subtree(&self, alloc: Global, path: &Names) -> Result<Option<Key>, AllocError>
        ensures none { find_key path.now self.now.tree ≡ None → result ≡ Ok None }
        ensures found { IfOk result (λ key. key ≡ find_key path.now self.now.tree) }
        ensures fits { (t : Tree) → find_key path.now self.now.tree ≡ Some t → FitsBelow path.now t }
    {
        let source = Source {
            heap: self.cells.cells(),
            version: self.version,
        };
        match key_at(&source, self.root, path) {
            Some(at) => match read_tree(alloc, source.heap, at, self.version) {
                Ok(key) => Ok(Some(key)),
                Err(ReadStop::Memory) => Err(AllocError),
                Err(ReadStop::Fault(_)) => unreachable!(),
            },
            None => Ok(None),
        }
    }
}
