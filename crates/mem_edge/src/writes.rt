//! The writes in flight, with the latest one to each sector at hand.

ghost use Rattle.std.specs.Prelude.{◌≡◌, ◌↔◌, IsTrue, [], ◌∷◌, ◌++◌, None, option_map, IfOk, OnOk, OnErr};
ghost use Rattle.std.specs.Rc.{rc_value};
ghost use Rattle.hive_model.specs.Image.{Address, put};
ghost use Rattle.mem_edge.specs.Views.{content_of, whole_of, latest_of, writes_of, flying};

use nt_edge::{Address, HiveFile};
use std::alloc::{AllocError, Global};
use std::collections::BTreeMap;
use std::rc::Rc;

/// A sector of an image. Its clones share its bytes.
#[derive(Drop)]
pub enum Sector {
    Absent,
    Whole(Rc<[u8; 512]>),
    Unreadable,
}

impl Clone for Sector {
    ghost use Rattle.std.specs.Prelude.{◌≡◌};
    ghost use Rattle.mem_edge.specs.Views.{content_of};

    ghost is_clone = { λ sector clone. content_of clone ≡ content_of sector };

    fn clone(&self) -> Result<Sector, AllocError> {
        match self {
            Sector::Absent => Ok(Sector::Absent),
            Sector::Whole(bytes) => Ok(Sector::Whole(bytes.clone()?)),
            Sector::Unreadable => Ok(Sector::Unreadable),
        }
    }
}

impl Sector {
    pub fn is_absent(&self) -> bool
        ensures { IsTrue result ↔ (content_of self.now ≡ None) }
    {
        match self {
            Sector::Absent => true,
            Sector::Whole(_) | Sector::Unreadable => false,
        }
    }
}

/// A write that is in flight. Its clones share its bytes.
#[derive(Drop)]
pub struct InFlight {
    pub at: Address,
    pub bytes: Rc<[u8; 512]>,
}

impl Clone for InFlight {
    ghost use Rattle.std.specs.Prelude.{◌≡◌};
    ghost use Rattle.mem_edge.specs.Views.{write_of};

    ghost is_clone = { λ w clone. write_of clone ≡ write_of w };

    fn clone(&self) -> Result<InFlight, AllocError> {
        Ok(InFlight {
            at: self.at,
            bytes: self.bytes.clone()?,
        })
    }
}

/// The bytes of the latest write in flight to each sector that has one.
#[derive(Drop)]
pub struct Latest {
    pub primary: BTreeMap<u32, Rc<[u8; 512]>>,
    pub log: BTreeMap<u32, Rc<[u8; 512]>>,
}

/// The writes in flight, the oldest first.
#[derive(Drop)]
pub struct Flight {
    pub writes: Vec<InFlight>,
    pub latest: Latest,
    ghost found: { (a : Address) → latest_of latest a ≡ flying (writes_of writes.items) a },
}

impl Latest {
    /// Takes no memory.
    pub fn new(alloc: Global) -> Latest
        ensures { (a : Address) → latest_of result a ≡ None }
    {
        Latest {
            primary: BTreeMap::new(alloc),
            log: BTreeMap::new(alloc),
        }
    }

    pub fn get(&self, at: Address) -> Option<&Rc<[u8; 512]>>
        ensures { whole_of (option_map (λ bytes. bytes.now) result) ≡ latest_of self.now at }
    {
        let file = match at.file {
            HiveFile::Primary => &self.primary,
            HiveFile::Log => &self.log,
        };
        file.get(&at.sector)
    }

    /// Takes a write for the latest to its sector.
    pub fn lay(&mut self, at: Address, bytes: Rc<[u8; 512]>) -> Result<(), AllocError>
        ensures laid { OnOk result
            ((a : Address) → latest_of self.new a ≡ put (latest_of self.old) (at, rc_value bytes) a) }
        ensures before { OnErr result ((a : Address) → latest_of self.new a ≡ latest_of self.old a) }
    {
        match at.file {
            HiveFile::Primary => {
                self.primary.insert(at.sector, bytes)?;
                Ok(())
            }
            HiveFile::Log => {
                self.log.insert(at.sector, bytes)?;
                Ok(())
            }
        }
    }
}

impl Flight {
    /// No write in flight. Takes no memory.
    pub fn new(alloc: Global) -> Flight
        ensures { result.writes.items ≡ [] }
    {
        Flight {
            writes: Vec::new(alloc),
            latest: Latest::new(alloc),
        }
    }

    /// The bytes of the latest write in flight to a sector.
    pub fn get(&self, at: Address) -> Option<&Rc<[u8; 512]>>
        ensures { whole_of (option_map (λ bytes. bytes.now) result) ≡ flying (writes_of self.now.writes.items) at }
    {
        self.latest.get(at)
    }

    /// Puts one more write in flight. A refusal leaves all as it was.
    pub fn push(&mut self, alloc: Global, at: Address, bytes: &[u8; 512]) -> Result<(), AllocError>
        ensures pushed { OnOk result
            (writes_of self.new.writes.items ≡ writes_of self.old.writes.items ++ (at, bytes.now) ∷ []) }
        ensures before { OnErr result (self.new.writes.items ≡ self.old.writes.items) }
    {
        let shared = Rc::new(alloc, *bytes)?;
        let latest = shared.clone()?;
        self.writes.reserve(1)?;
        self.latest.lay(at, latest)?;
        self.writes.push(InFlight { at, bytes: shared })?;
        Ok(())
    }

    /// The writes, with their bytes shared.
    pub fn copied(&self, alloc: Global) -> Result<Vec<InFlight>, AllocError>
        ensures { IfOk result (λ copy. writes_of copy.items ≡ writes_of self.now.writes.items) }
    {
        let copy = Vec::from_clones(alloc, &self.writes)?;
        Ok(copy)
    }
}
