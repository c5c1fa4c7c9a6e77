//! What is salvaged of a damaged hive.

ghost use Rattle.std.specs.Prelude.{◌≡◌, ◌≤◌, ◌<◌, ℕ, length, slice_index, Some, IfOk};
ghost use Rattle.hive_model.specs.Edit.{most_bulk};
ghost use Rattle.hive_model.specs.Size.{bulk_of};
ghost use Rattle.hive_model.specs.Tree.{Tree};
ghost use Rattle.hive_model.specs.Valid.{IsValid};
ghost use Rattle.salvage_file.specs.Salvage.{found_as, found_by_parents, found_in, hive_as, hive_with, salvaged_as, saving_as, version_in};

use crate::base::{fields, has_signature, head_of};
use crate::opening::{FileState, Opened, open};
use crate::recovery::LogStop;
use crate::saving::{Saving, kept_base, saving_of};
use nt_bytes::{Bytes, HiveFault, HiveVersion, Row};
use reg_tree::Key;
use regf_base::BaseBlock;
use salvage_bins::{BrokenBin, DamagedCells, lay_out};
use salvage_parents::{ParentLine, salvage_by_parents};
use salvage_walk::{WalkLine, salvage_tree};
use std::alloc::{AllocError, Global};
use windows_logs::log_parts::fill;

/// What is found in bins data: the bins that are not whole, the tree, and the lines on the way.
#[derive(Drop)]
pub struct BinsFound {
    pub broken: Row<BrokenBin>,
    pub lines: Row<WalkLine>,
    /// What is printed while keys are looked for by their parents.
    pub said: Row<ParentLine>,
    pub tree: Option<Key>,
}

/// What is salvaged of a damaged hive, and what is printed for it.
#[derive(Drop)]
pub struct SalvagedHive {
    /// The two numbers of its base block.
    pub first: u32,
    pub second: u32,
    pub state: FileState,
    /// The version in which it is read.
    pub version: HiveVersion,
    /// The faults of the base block, at bytes of the file.
    pub faults: Row<HiveFault>,
    pub log: Option<LogStop>,
    pub broken: Row<BrokenBin>,
    pub lines: Row<WalkLine>,
    /// What is printed while keys are looked for by their parents.
    pub said: Row<ParentLine>,
    pub tree: Option<Key>,
    /// What is saved, where that is asked for.
    pub saving: Option<Saving>,
}

// A proof knows that these are bytes from a read of them alone. It does nothing.
fn are_bytes(bytes: &[u8])
    ensures { (k : ℕ) → slice_index bytes.now k < 256 }
{
    let _length = bytes.len();
}

fn version_in(minor: u32) -> HiveVersion
    ensures { result ≡ version_in minor }
{
    if minor == 3 {
        HiveVersion::V3
    } else {
        HiveVersion::V5
    }
}

// What is found in bins data, whose tree a hive can hold.
#[tactic(auto, unfolding(crate::specs::Salvage::found_in))]
fn find_in(
    alloc: Global,
    version: HiveVersion,
    bytes: &[u8],
    root: u32,
) -> Result<BinsFound, AllocError>
    requires { length bytes.now ≤ 268435456 }
    ensures exact { IfOk result (λ f. f ≡ found_in version bytes.now root) }
    ensures valid { IfOk result (λ f. (t : Tree) → f.tree ≡ Some t → bulk_of version t ≤ most_bulk → IsValid t) }
{
    are_bytes(bytes);
    let layout = lay_out(alloc, bytes)?;
    let cells = DamagedCells {
        bytes,
        marks: layout.marks.as_slice(),
        version,
    };
    let salvaged = salvage_tree(alloc, &cells, root)?;
    Ok(BinsFound {
        broken: Row::from_vec(layout.broken),
        lines: Row::from_vec(salvaged.lines),
        said: Row::new(alloc),
        tree: salvaged.tree,
    })
}

// The same where keys are looked for by their parents too.
#[tactic(auto, unfolding(crate::specs::Salvage::found_by_parents))]
fn find_by_parents(
    alloc: Global,
    version: HiveVersion,
    bytes: &[u8],
    root: u32,
) -> Result<BinsFound, AllocError>
    requires { length bytes.now ≤ 268435456 }
    ensures exact { IfOk result (λ f. f ≡ found_by_parents version bytes.now root) }
    ensures valid { IfOk result (λ f. (t : Tree) → f.tree ≡ Some t → bulk_of version t ≤ most_bulk → IsValid t) }
{
    are_bytes(bytes);
    let layout = lay_out(alloc, bytes)?;
    let cells = DamagedCells {
        bytes,
        marks: layout.marks.as_slice(),
        version,
    };
    let found = salvage_by_parents(alloc, &cells, root)?;
    Ok(BinsFound {
        broken: Row::from_vec(layout.broken),
        lines: found.lines,
        said: found.said,
        tree: found.tree,
    })
}

// What is found in bins data, perhaps by parents too.
fn find(
    alloc: Global,
    by_parent: bool,
    version: HiveVersion,
    bytes: &[u8],
    root: u32,
) -> Result<BinsFound, AllocError>
    requires { length bytes.now ≤ 268435456 }
    ensures exact { IfOk result (λ f. f ≡ found_as by_parent version bytes.now root) }
    ensures valid { IfOk result (λ f. (t : Tree) → f.tree ≡ Some t → bulk_of version t ≤ most_bulk → IsValid t) }
{
    if by_parent {
        return find_by_parents(alloc, version, bytes, root);
    }
    find_in(alloc, version, bytes, root)
}

// What is saved, where that is asked for.
fn saving_as(
    alloc: Global,
    save: bool,
    base: &BaseBlock,
    version: HiveVersion,
    tree: &Option<Key>,
) -> Result<Option<Saving>, AllocError>
    requires { (t : Tree) → tree.now ≡ Some t → bulk_of version t ≤ most_bulk → IsValid t }
    ensures { IfOk result (λ s. s ≡ saving_as save base.now version tree.now) }
{
    if !save {
        return Ok(None);
    }
    Ok(Some(saving_of(alloc, base, version, tree)?))
}

// What is salvaged of a hive with this sector 0.
fn hive_with(
    alloc: Global,
    save: bool,
    head: &[u8; 512],
    opened: Opened,
    found: BinsFound,
) -> Result<SalvagedHive, AllocError>
    requires { (t : Tree) → found.tree ≡ Some t → bulk_of (version_in opened.base.minor) t ≤ most_bulk → IsValid t }
    ensures { IfOk result (λ h. h ≡ hive_with save head.now opened found) }
{
    let version = version_in(opened.base.minor);
    let kept = kept_base(has_signature(head), &opened.base);
    let saving = saving_as(alloc, save, &kept, version, &found.tree)?;
    let own = fields(head);
    Ok(SalvagedHive {
        first: own.first,
        second: own.second,
        state: opened.state,
        version,
        faults: opened.faults,
        log: opened.log,
        broken: found.broken,
        lines: found.lines,
        said: found.said,
        tree: found.tree,
        saving,
    })
}

// What is salvaged of an opened hive with this sector 0.
fn hive_as(
    alloc: Global,
    by_parent: bool,
    save: bool,
    head: &[u8; 512],
    opened: Opened,
) -> Result<SalvagedHive, AllocError>
    requires { length opened.bins ≤ 268435456 }
    ensures { IfOk result (λ h. h ≡ hive_as by_parent save head.now opened) }
{
    let version = version_in(opened.base.minor);
    let found = find(
        alloc,
        by_parent,
        version,
        opened.bins.as_slice(),
        opened.base.root,
    )?;
    hive_with(alloc, save, head, opened, found)
}

/// What is salvaged of a hive's file with its log, which is empty where there is none, perhaps with the keys that are found by their
/// parents; and, where that is asked for, what is saved of it. There is an answer for any files.
#[tactic(auto, unfolding(crate::specs::Salvage::salvaged_as))]
pub fn salvage_file(
    alloc: Global,
    by_parent: bool,
    save: bool,
    hive: Bytes,
    log: Bytes,
) -> Result<SalvagedHive, AllocError>
    ensures { IfOk result (λ h. h ≡ salvaged_as by_parent save hive log) }
{
    let mut hive = hive;
    fill(&mut hive)?;
    let mut log = log;
    fill(&mut log)?;
    let opened = open(alloc, hive.as_slice(), log.as_slice())?;
    hive_as(alloc, by_parent, save, &head_of(hive.as_slice()), opened)
}
