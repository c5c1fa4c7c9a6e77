//! The attempts that are to fail.

ghost use Rattle.std.specs.Prelude.{◌≡◌, ◌==◌, ◌<◌, ◌-◌, ◌∷◌, ◌++◌, not, [], length, position, IfSome, OnOk, OnErr};
ghost use Rattle.nt_bytes.specs.Folding.{folded, folds_same};
ghost use Rattle.start_model.specs.Machine.{failures_of, one_failure_less, with_failures};

use nt_bytes::{Units, same_folded};
use nt_names::name_places::folded;
use std::alloc::{AllocError, Global};
use std::marker::Model;

/// How many attempts of a name are to fail.
#[derive(Drop)]
struct Failure {
    /// Folded.
    name: Units,
    count: u32,
}

impl Model for Failure {
    ghost use Rattle.std.specs.Prelude.{ℕ, List};

    ghost Value = { List ℕ × ℕ };

    ghost view = { λ a. (a.name, a.count) };
}

/// The failures to come, by folded name.
#[derive(Drop)]
pub(crate) struct Failures {
    items: Vec<Failure>,
}

impl Model for Failures {
    ghost use Rattle.std.specs.Prelude.{ℕ, List};

    ghost Value = { List (List ℕ × ℕ) };

    ghost view = { λ a. a.items.items };
}

impl Failures {
    pub(crate) fn new(alloc: Global) -> Failures
        ensures { result ≡ [] }
    {
        Failures {
            items: Vec::new(alloc),
        }
    }

    /// The place of a name.
    fn place(&self, name: &[u16]) -> Option<usize>
        ensures place { result ≡ position (λ f. folds_same f.0 name.now) self.now }
        ensures within { IfSome result (λ at. at < length self.now) }
    {
        self.items
            .iter()
            .position(|f| same_folded(f.name.as_slice(), name))
    }

    /// Sets how many attempts of a name fail, in place of an earlier number.
    pub(crate) fn set(&mut self, alloc: Global, name: &[u16], count: u32) -> Result<(), AllocError>
        ensures ok { OnOk result (self.new ≡ with_failures self.old name.now count) }
        ensures kept { OnErr result (self.new ≡ self.old) }
    {
        match self.place(name) {
            Some(at) => {
                put(&mut self.items[at], count);
                Ok(())
            }
            None => self.add(alloc, name, count),
        }
    }

    /// Notes a name after the others.
    fn add(&mut self, alloc: Global, name: &[u16], count: u32) -> Result<(), AllocError>
        ensures ok { OnOk result (self.new ≡ self.old ++ (folded name.now, count) ∷ []) }
        ensures kept { OnErr result (self.new ≡ self.old) }
    {
        let name = folded(alloc, name)?;
        self.items.push(Failure { name, count })?;
        Ok(())
    }

    /// Whether a failure of a name is to come.
    pub(crate) fn has(&self, name: &[u16]) -> bool
        ensures { result ≡ not (failures_of self.now name.now == 0) }
    {
        match self.place(name) {
            Some(at) => is_to_come(&self.items[at]),
            None => false,
        }
    }

    /// Takes one failure of a name, where one is to come.
    pub(crate) fn take(&mut self, name: &[u16])
        ensures { self.new ≡ one_failure_less self.old name.now }
    {
        match self.place(name) {
            Some(at) => lower(&mut self.items[at]),
            None => {}
        }
    }
}

fn put(failure: &mut Failure, count: u32)
    ensures { failure.new ≡ (failure.old.0, count) }
{
    failure.count = count;
}

fn is_to_come(failure: &Failure) -> bool
    ensures { result ≡ not (failure.now.1 == 0) }
{
    failure.count != 0
}

/// Takes one away, where there is one.
fn lower(failure: &mut Failure)
    ensures { failure.new ≡ (failure.old.0, failure.old.1 - 1) }
{
    failure.count = failure.count.saturating_sub(1);
}
