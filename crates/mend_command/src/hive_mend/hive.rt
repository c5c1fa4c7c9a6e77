//! A hive in memory, as its disk carries it.

ghost use Rattle.std.specs.Prelude.{◌≡◌, length};
ghost use Rattle.hive_model.specs.Base.{version_of};

use nt_bytes::{Bytes, HiveVersion};
use reg_tree::Key;
use regf_base::BaseBlock;
use std::marker::Model;

/// A hive in memory: its base block and its bins data as the disk carries them, and the tree in them. The tree
/// is one that a hive can hold.
#[derive(Drop)]
pub struct LoadedHive {
    pub(crate) base: BaseBlock,
    pub(crate) bins: Bytes,
    pub(crate) tree: Key,
}

impl Model for LoadedHive {
    ghost use Rattle.mend_command.specs.hive_mend.Loaded.{Loaded, coded_loaded, IsLoaded};

    ghost Value = { Loaded };

    ghost coded = { coded_loaded };

    ghost view = { λ h. record { base = h.base; bins = h.bins; tree = h.tree } };

    ghost invariant = { λ h. IsLoaded h.base h.bins h.tree };
}

impl LoadedHive {
    /// The sequence number of the base block that the disk carries.
    pub fn sequence(&self) -> u32
        ensures { result ≡ self.now.base.first }
    {
        self.base.first
    }

    /// The size of the bins data in bytes.
    pub fn size(&self) -> usize
        ensures { result ≡ length self.now.bins }
    {
        self.bins.len()
    }

    /// The version of the hive, which a repair keeps.
    pub fn version(&self) -> HiveVersion
        ensures { result ≡ version_of self.now.base.minor }
    {
        self.base.version()
    }
}
