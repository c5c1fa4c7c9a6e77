//! What a script without orders notes.

ghost use Rattle.std.specs.Prelude.{◌≡◌, ℕ, List, [], Option};
ghost use Rattle.start_model.specs.Events as events;
ghost use Rattle.start_model.specs.Orders.{ordered_in};
ghost use Rattle.start_model.specs.Possible.{Woken, Outcome};
ghost use Rattle.start_model.specs.Boot.{Choice};
ghost use Rattle.start_model.specs.Run.{run_of};
ghost use Rattle.run_parts.specs.run_parts.Parts.{cuts_behind};
ghost use Rattle.kept_laws.specs.order_laws.Unordered.{AreUnordered};

/// Whatever the disk wakes up with and however its operations end, no order and no cut of the script is noted.
pub fn a_script_without_orders_notes_none()
    ensures orders { (choice : Option ℕ → Choice) (script : List events.Event) (placed : Woken) (wakes : List Woken) (outcomes : List Outcome)
        → AreUnordered script → ordered_in (run_of choice script placed wakes outcomes).notes ≡ [] }
    ensures cuts { (choice : Option ℕ → Choice) (script : List events.Event) (placed : Woken) (wakes : List Woken) (outcomes : List Outcome)
        → AreUnordered script → (n : ℕ) → cuts_behind (run_of choice script placed wakes outcomes).notes n ≡ n }
{}
