//! The lines of the walk.

ghost use Rattle.std.specs.Prelude.{◌≡◌, ◌==◌, [], not, length, OnOk};
ghost use Rattle.salvage_walk.specs.Walked.{say, state_of};

use crate::claims::Used;
use nt_bytes::{HiveFault, Names, Units};
use std::alloc::{AllocError, Global};
use std::mem::replace;

/// A part of a key that is left out by itself.
#[derive(Clone, Copy, Debug, PartialEq, Eq)]
pub enum KeyPart {
    /// A list of its children.
    Keys,
    /// The list of its values.
    Values,
    Class,
    /// Its descriptor.
    Security,
}

/// What the walk says. Paths leave out the root's name.
#[derive(Drop)]
pub enum WalkLine {
    /// The cell that is named as the root has this fault.
    Root(HiveFault),
    /// The root is the key at this offset instead.
    RootAt(u32),
    /// There is no root.
    NoRoot,
    /// The key at this path is left out.
    Key(HiveFault, Names),
    /// The child that is read as this one, counted from 1, of the key at this path is left out.
    KeyAt(HiveFault, usize, Names),
    /// This part of the key at this path is left out, or is a list that is too short.
    Part(HiveFault, KeyPart, Names),
    /// The value of this name of the key at this path is left out.
    Value(HiveFault, Units, Names),
    /// The value that is read as this one, counted from 1, of the key at this path is left out.
    ValueAt(HiveFault, usize, Names),
    /// The lists of the key at this offset and path name another number of children than it says.
    Nothing(u32, Names),
}

/// A key that stands, of which children may be missing: where its node is, and its path, without the root's name.
#[derive(Drop)]
pub struct Incomplete {
    pub at: u32,
    pub path: Names,
}

/// What the walk has used and said so far.
#[derive(Drop)]
pub struct Walk {
    pub(crate) used: Used,
    pub(crate) lines: Vec<WalkLine>,
}

impl Walk {
    pub(crate) fn say(&mut self, line: WalkLine) -> Result<(), AllocError>
        ensures { OnOk result (state_of self.new ≡ say (state_of self.old) line) }
    {
        self.lines.push(line)?;
        Ok(())
    }

    /// How many lines were said.
    pub(crate) fn len(&self) -> usize
        ensures { result ≡ length (state_of self.now).lines }
    {
        self.lines.len()
    }

    /// Were other lines said than that many?
    pub(crate) fn said_more(&self, before: usize) -> bool
        ensures { result ≡ not (before == length (state_of self.now).lines) }
    {
        before != self.lines.len()
    }

    /// Takes the lines out.
    pub fn take_lines(&mut self, alloc: Global) -> Vec<WalkLine>
        ensures taken { result.items ≡ (state_of self.old).lines }
        ensures rest { state_of self.new ≡ record { claims = (state_of self.old).claims; lines = [] } }
    {
        replace(&mut self.lines, Vec::new(alloc))
    }
}
