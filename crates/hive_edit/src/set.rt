//! A value that is there, set in place.

ghost use Rattle.std.specs.Prelude.{◌≡◌, ◌≤◌, ℕ, length, true, false, Some, Ok, IfOk, OnErr, MatchBool, Contains, None};
ghost use Rattle.hive_model.specs.Edit.{set_value, after_step};
ghost use Rattle.hive_model.specs.Size.{bulk_of};
ghost use Rattle.hive_cells.specs.Held.{held_at};
ghost use Rattle.hive_edit.specs.Hive.{cells_in};
ghost use Rattle.hive_edit.specs.Given.{place_in};
ghost use Rattle.hive_edit.specs.NewValue.{set_tree};
ghost use Rattle.hive_edit.specs.Stepped.{LacksStepRoom};
ghost use Rattle.hive_edit.specs.Tells.{IsToldStep};
ghost use Rattle.hive_look.specs.Places.{data_places};
ghost use Rattle.hive_model.specs.Valid.{longest_data};

use crate::cells::are_bytes;
use crate::give::give;
use crate::hive::HiveBytes;
use crate::telling::VALUES;
use hive_cells::Source;
use hive_look::{data_places, data_room};
use hive_pack::data_len;
use key_index::bins_fit;
use nt_bytes::Names;
use std::alloc::{AllocError, Global};

impl HiveBytes {
    /// The bulk with these data in the value that is there.
    pub(crate) fn bulk_given(
        &self,
        path: &Names,
        name: &[u16],
        at: u32,
        kind: u32,
        bytes: &[u8],
    ) -> u64
        requires there { place_in (cells_in self.now) path.now name.now self.now.root ≡ Some at }
        requires few { length bytes.now ≤ longest_data }
        ensures bulk { result ≡ bulk_of self.now.version (set_tree path.now name.now kind bytes.now self.now.tree) }
        ensures step { after_step (set_value path.now name.now kind bytes.now) self.now.tree ≡ Ok (set_tree path.now name.now kind bytes.now self.now.tree) }
    {
        bins_fit(&self.cells);
        let source = Source {
            heap: self.cells.cells(),
            version: self.version,
        };
        let had = data_room(&source, at);
        let has = data_len(self.version, bytes.len());
        self.bulk + has as u64 - had as u64
    }

    /// Gives the value that is there a type and data, whatever the bulk then, which is reported; the node of the key records no
    /// less than their length. `false` where there is no room for the data; the hive is as before then, and where there is
    /// no memory.
    pub(crate) fn give_there(
        &mut self,
        alloc: Global,
        path: &Names,
        name: &[u16],
        at: u32,
        kind: u32,
        bytes: &[u8],
        bulk: u64,
    ) -> Result<bool, AllocError>
        requires there { place_in (cells_in self.old) path.now name.now self.old.root ≡ Some at }
        requires few { length bytes.now ≤ longest_data }
        requires bulk { bulk ≡ bulk_of self.old.version (set_tree path.now name.now kind bytes.now self.old.tree) }
        ensures stepped { IfOk result (λ done. MatchBool done (IsToldStep self.old (set_value path.now name.now kind bytes.now) self.new)
            (LacksStepRoom self.old (set_value path.now name.now kind bytes.now))) }
        ensures kept { result ≡ Ok false → self.new ≡ self.old }
        ensures freed { result ≡ Ok true → (o : ℕ) → Contains (data_places (cells_in self.old) at) o → held_at self.new.bins o ≡ None }
        ensures bulk { result ≡ Ok true → bulk ≡ bulk_of self.old.version self.new.tree }
        ensures refused { OnErr result (self.new ≡ self.old) }
        ensures base { self.new.base ≡ self.old.base }
    {
        self.stands();
        let source = Source {
            heap: self.cells.cells(),
            version: self.version,
        };
        let gone = data_places(alloc, &source, at)?;
        let version = self.version;
        if give(
            alloc,
            &mut self.cells,
            version,
            at,
            kind,
            bytes,
            gone.as_slice(),
        )? {
            self.bulk = bulk;
            are_bytes(&self.cells);
            self.tell(path, VALUES, 0, bytes.len() as u32);
            return Ok(true);
        }
        Ok(false)
    }
}
