//! What a disk counts after a script without orders.

ghost use Rattle.std.specs.Prelude.{◌≡◌, ℕ, List, [], Option};
ghost use Rattle.nt_bytes.specs.Front.{IsFront};
ghost use Rattle.nt_edge.specs.Bench.{KeepsOrders};
ghost use Rattle.nt_edge.specs.Disk.{DiskState, Wake};
ghost use Rattle.start_model.specs.Events as events;
ghost use Rattle.start_model.specs.Possible.{Woken, Outcome};
ghost use Rattle.start_model.specs.Act.{Note};
ghost use Rattle.start_model.specs.Boot.{Choice};
ghost use Rattle.start_model.specs.Run.{run_of};
ghost use Rattle.run_parts.specs.run_parts.Parts.{Grew};
ghost use Rattle.kept_laws.specs.order_laws.Unordered.{AreUnordered};

/// Where nothing was ordered before either, and no more stops come than were ordered, the disk counts no cut and no fault
/// after the run or any front of it.
pub fn without_orders_no_stop_is_counted()
    ensures cuts { (choice : Option ℕ → Choice) (script : List events.Event) (placed : Woken) (wakes : List Woken) (outcomes : List Outcome)
        (notes : List Note) (added : List Wake) (before : DiskState) (after : DiskState)
        → AreUnordered script → IsFront (run_of choice script placed wakes outcomes).notes notes → Grew notes added before after
        → before.history.armings ≡ [] → before.history.cut_calls ≡ 0 → KeepsOrders after → after.cuts ≡ 0 }
    ensures faults { (choice : Option ℕ → Choice) (script : List events.Event) (placed : Woken) (wakes : List Woken) (outcomes : List Outcome)
        (notes : List Note) (added : List Wake) (before : DiskState) (after : DiskState)
        → AreUnordered script → IsFront (run_of choice script placed wakes outcomes).notes notes → Grew notes added before after
        → before.history.armings ≡ [] → before.history.cut_calls ≡ 0 → KeepsOrders after → after.faults ≡ 0 }
{}
