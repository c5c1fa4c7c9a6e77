//! What the words amount to.

ghost use Rattle.std.specs.Prelude.{◌≡◌, ℕ, List};
ghost use Rattle.find_command.specs.Asked.{AreSameDigits, bytes_written};

/// Hexadecimal digits with letters of another case write the same bytes.
pub fn digits_of_either_case_are_one()
    ensures { (a b : List ℕ) → AreSameDigits a b → bytes_written a ≡ bytes_written b }
{}
