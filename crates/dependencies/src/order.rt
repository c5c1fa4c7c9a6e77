//! Names in their folded order, in which one is found without a scan.

ghost use Rattle.std.specs.Prelude.{◌≡◌, true, IfOk, IfErr, List, ℕ};
ghost use Rattle.std.specs.List.{list_any};
ghost use Rattle.nt_bytes.specs.Folding.{folds_same, folded_order};
ghost use Rattle.dependencies.specs.Index.{AreInOrder, IsGap, is_among};

use nt_bytes::{Units, compare_folded};
use std::alloc::AllocError;
use std::cmp::Ordering;
use std::marker::Model;

/// Names in their folded order.
#[derive(Drop)]
pub(crate) struct NamesInOrder {
    names: Vec<Units>,
}

impl Model for NamesInOrder {
    ghost use Rattle.std.specs.Prelude.{ℕ, List};
    ghost use Rattle.dependencies.specs.Index.{AreInOrder};

    ghost Value = { List (List ℕ) };

    ghost view = { λ a. a.names.items };

    ghost invariant = { λ a. AreInOrder a.names.items };
}

impl NamesInOrder {
    /// These names. Those that are in order already, one part after another, are merged.
    pub(crate) fn new(names: Vec<Units>) -> Result<NamesInOrder, AllocError>
        ensures { IfOk result (λ s. (q : List ℕ) → is_among s q ≡ is_among names.items q) }
    {
        let mut sorted = names;
        sorted.sort_by(|a, b| compare_folded(a.as_slice(), b.as_slice()))?;
        Ok(NamesInOrder { names: sorted })
    }

    /// The names.
    pub(crate) fn as_slice(&self) -> &[Units]
        ensures { result.now ≡ self.now }
    {
        self.names.as_slice()
    }

    /// Whether one of the names is this one.
    pub(crate) fn has(&self, name: &[u16]) -> bool
        ensures { result ≡ is_among self.now name.now }
    {
        has(self.names.as_slice(), name)
    }
}

/// Whether one of the names is this one.
fn has(names: &[Units], name: &[u16]) -> bool
    requires { AreInOrder names.now }
    ensures { result ≡ list_any (folds_same name.now) names.now }
{
    search(names, name).is_ok()
}

/// Where the name is, or where it would go.
fn search(names: &[Units], name: &[u16]) -> Result<usize, usize>
    requires { AreInOrder names.now }
    ensures found { IfOk result (λ _. list_any (folds_same name.now) names.now ≡ true) }
    ensures absent { IfErr result (IsGap names.now name.now) }
{
    names.binary_search_by(
        |n: &Units| -> Ordering
            ensures { result ≡ folded_order n.now name.entry.now }
        { compare_folded(n.as_slice(), name) },
    )
}
