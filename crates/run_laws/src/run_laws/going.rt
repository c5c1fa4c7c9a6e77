//! How many steps of the starter there can be.

ghost use Rattle.std.specs.Prelude.{◌≡◌, ◌≤◌, ℕ, None};
ghost use Rattle.start_model.specs.Act.{RunState};
ghost use Rattle.start_model.specs.Starter.{enough_steps, go_steps, go_act};

/// With the stated number of steps the starter is at its end: any greater number does the same.
pub fn more_steps_change_nothing()
    ensures { (n : ℕ) (m : RunState) → enough_steps m.machine.start m ≤ n → go_steps n m ≡ go_act None m }
{}
