//! Names that contracts see as a list of lists of units.

ghost use Rattle.std.specs.Prelude.{◌≡◌, ◌==◌, ℕ, List, [], ◌∷◌, ◌++◌, length, IfOk, OnOk, OnErr};

use crate::units::Units;
use std::alloc::{AllocError, Global};
use std::marker::Model;

/// Names, as in a path from the root down. Contracts see them as a list of lists of units.
#[derive(Debug, Drop)]
pub struct Names {
    names: Vec<Units>,
}

impl Model for Names {
    ghost Value = { List (List ℕ) };

    ghost view = { λ a. a.names.items };
}

impl Names {
    /// The empty list. It takes no memory yet.
    pub fn new(alloc: Global) -> Names
        ensures { result ≡ [] }
    {
        Names {
            names: Vec::new(alloc),
        }
    }

    /// Puts one more at the end. Without memory for it the list stays as it was.
    pub fn push(&mut self, name: Units) -> Result<(), AllocError>
        ensures ok { OnOk result (self.new ≡ self.old ++ name ∷ []) }
        ensures err { OnErr result (self.new ≡ self.old) }
    {
        self.names.push(name)?;
        Ok(())
    }

    /// What is in the list, in order.
    pub fn as_slice(&self) -> &[Units]
        ensures { result.now ≡ self.now }
    {
        self.names.as_slice()
    }

    /// How many names there are.
    pub fn len(&self) -> usize
        ensures { result ≡ length self.now }
    {
        self.names.len()
    }

    pub fn is_empty(&self) -> bool
        ensures { result ≡ (length self.now == 0) }
    {
        self.names.is_empty()
    }

    /// The same names in memory of their own.
    pub fn copy(&self, alloc: Global) -> Result<Names, AllocError>
        ensures { IfOk result (λ n. n ≡ self.now) }
    {
        Names::from_slice(alloc, self.as_slice())
    }

    /// A copy of each name, in order.
    pub fn from_slice(alloc: Global, names: &[Units]) -> Result<Names, AllocError>
        ensures { IfOk result (λ n. n ≡ names.now) }
    {
        let mut made = Vec::new(alloc);
        for name in names {
            made.push(Units::from_slice(alloc, name.as_slice())?)?;
        }
        Ok(Names { names: made })
    }
}
