//! Names in any case of their letters.

ghost use Rattle.std.specs.Prelude.{◌≡◌, ℕ, true, List};
ghost use Rattle.nt_bytes.specs.Folding.{folds_same};
ghost use Rattle.service_control.specs.State.{ControlState};
ghost use Rattle.control_command.specs.declared.command.ControlCommand.{ControlCommand};
ghost use Rattle.command_laws.specs.control_laws.Alike.{with_name, EndAlike};

/// Commands end alike whose names differ in the case of letters alone.
pub fn names_that_fold_are_one()
    ensures { (c : ControlState) (command : ControlCommand) (a b : List ℕ) → folds_same a b ≡ true → EndAlike c (with_name a command) (with_name b command) }
{}
