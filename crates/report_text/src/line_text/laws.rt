//! What the definitions amount to.

ghost use Rattle.std.specs.Prelude.{◌≡◌, ℕ, ◌<◌, ◌^◌, List, ◌++◌};
ghost use Rattle.std.specs.List.{All};
ghost use Rattle.report_text.specs.line_text.Quoted.{quoted};

/// A text in quotes gives its units, and where it ends.
pub fn texts_in_quotes_are_told_apart()
    ensures { (a b after more : List ℕ) → All (λ u. u < 2 ^ 16) a → All (λ u. u < 2 ^ 16) b → quoted a ++ after ≡ quoted b ++ more → (a ≡ b) × (after ≡ more) }
{}
