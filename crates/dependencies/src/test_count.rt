//! How many names were looked at.

ghost use Rattle.std.specs.Prelude.{◌≡◌};
ghost use Rattle.dependencies.specs.Waiting.{raised};

use std::marker::Model;

/// A number of tests, which tests alone raise. A test is one look at one name of DependOnService or
/// DependOnGroup: whether it is met by those that were started, or that it now is.
#[derive(Drop)]
pub struct TestCount {
    made: u64,
}

impl Model for TestCount {
    ghost use Rattle.std.specs.Prelude.{ℕ};

    ghost Value = { ℕ };

    ghost view = { λ a. a.made };
}

impl TestCount {
    /// No test was made.
    pub fn new() -> TestCount
        ensures { result ≡ 0 }
    {
        TestCount { made: 0 }
    }

    /// How many tests were made; the greatest u64 where they are the same number of or more.
    pub fn made(&self) -> u64
        ensures { result ≡ self.now }
    {
        self.made
    }

    /// Counts a look at one name, and hands on whether it is met.
    pub fn test(&mut self, is_met: bool) -> bool
        ensures answer { result ≡ is_met }
        ensures count { self.new ≡ raised self.old 1 }
    {
        self.made = self.made.saturating_add(1);
        is_met
    }
}
