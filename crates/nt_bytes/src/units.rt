//! UTF-16 units that contracts see as a list.

ghost use Rattle.std.specs.Prelude.{◌≡◌, ◌==◌, ℕ, List, [], ◌∷◌, ◌++◌, length, IfOk, OnOk, OnErr};

use std::alloc::{AllocError, Global};
use std::marker::Model;

/// UTF-16 units, as of a name or of a text in a value. Contracts see them as a list of numbers.
#[derive(Debug, Drop)]
pub struct Units {
    units: Vec<u16>,
}

impl Model for Units {
    ghost Value = { List ℕ };

    ghost view = { λ a. a.units.items };
}

impl Units {
    /// The empty list. It takes no memory yet.
    pub fn new(alloc: Global) -> Units
        ensures { result ≡ [] }
    {
        Units {
            units: Vec::new(alloc),
        }
    }

    /// A copy of the units.
    pub fn from_slice(alloc: Global, units: &[u16]) -> Result<Units, AllocError>
        ensures { IfOk result (λ u. u ≡ units.now) }
    {
        Ok(Units {
            units: Vec::from_slice(alloc, units)?,
        })
    }

    /// The same list. Nothing is copied.
    pub fn from_vec(units: Vec<u16>) -> Units
        ensures { result ≡ units.items }
    {
        Units { units }
    }

    /// The same list. Nothing is copied.
    pub fn into_vec(self) -> Vec<u16>
        ensures { result.items ≡ self }
    {
        self.units
    }

    /// Puts one more at the end. Without memory for it the list stays as it was.
    pub fn push(&mut self, unit: u16) -> Result<(), AllocError>
        ensures ok { OnOk result (self.new ≡ self.old ++ unit ∷ []) }
        ensures err { OnErr result (self.new ≡ self.old) }
    {
        self.units.push(unit)?;
        Ok(())
    }

    /// What is in the list, in order.
    pub fn as_slice(&self) -> &[u16]
        ensures { result.now ≡ self.now }
    {
        self.units.as_slice()
    }

    /// How many units there are.
    pub fn len(&self) -> usize
        ensures { result ≡ length self.now }
    {
        self.units.len()
    }

    pub fn is_empty(&self) -> bool
        ensures { result ≡ (length self.now == 0) }
    {
        self.units.is_empty()
    }

    /// The same units in memory of their own.
    pub fn copy(&self, alloc: Global) -> Result<Units, AllocError>
        ensures { IfOk result (λ u. u ≡ self.now) }
    {
        Units::from_slice(alloc, self.as_slice())
    }
}
