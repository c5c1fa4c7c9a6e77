//! What is started and stopped in a report, and in which order.

ghost use Rattle.std.specs.Prelude.{◌≡◌, ℕ, List, [], ◌∷◌, ◌++◌, None, Some, reverse};
ghost use Rattle.hive_model.specs.Tree.{Tree};
ghost use Rattle.hive_model.specs.Valid.{HoldsKeys};
ghost use Rattle.service_control.specs.Calls.{off_refusal};
ghost use Rattle.service_control.specs.Laws.{AreMet, NamesDiffer, IsLeast};
ghost use Rattle.service_control.specs.Leaning.{leaning_in};
ghost use Rattle.control_command.specs.Report.{default_set};
ghost use Rattle.control_command.specs.declared.command.ControlCommand.{ControlCommand};
ghost use Rattle.control_command.specs.declared.command.ControlCommand.TheVariants.{StopAll};
ghost use Rattle.command_laws.specs.control_laws.Backwards.{EachBeforeItsNeeds};
ghost use Rattle.command_laws.specs.control_laws.Called.{control_behind};
ghost use Rattle.command_laws.specs.control_laws.Parted.{ArePartedIn};

/// After any commands, what a listing names has its needs: what each names in DependOnService stands before it, and each group
/// in DependOnGroup has a started service.
pub fn what_is_listed_has_its_needs()
    ensures { (set : Tree) (commands : List ControlCommand) → AreMet (control_behind set commands).running }
{}

/// After any commands, what a `stopall` stops, in the order of its lines: each one stands before those that it needs.
pub fn what_is_stopped_goes_backwards()
    ensures { (set : Tree) (commands : List ControlCommand) (name : List ℕ)
        → EachBeforeItsNeeds (reverse (leaning_in (control_behind set commands).running name)) }
{}

/// After any commands, a `stopall` of a started service parts those that are started: some are stopped, and the others stay as they
/// were, in their order.
pub fn who_is_not_stopped_stays()
    ensures { (set : Tree) (commands : List ControlCommand) (name : List ℕ) → let now = control_behind set commands in off_refusal now name ≡ None
        → ArePartedIn now.running (leaning_in now.running name) (control_behind set (commands ++ StopAll name ∷ [])).running }
{}

/// No two services of a set that a hive can hold have one name (`differ`), nor of the Default set of a tree that it can hold (`default`).
pub fn names_of_a_set_differ()
    ensures differ { (set : Tree) (commands : List ControlCommand) → HoldsKeys set → NamesDiffer (control_behind set commands).by_group }
    ensures default { (tree set : Tree) → HoldsKeys tree → default_set tree ≡ Some set → HoldsKeys set }
{}

/// After any commands of a report on a tree that a hive can hold, a start starts at most it has to.
pub fn a_start_takes_no_more()
    ensures { (tree set : Tree) (commands : List ControlCommand) (name : List ℕ) → HoldsKeys tree → default_set tree ≡ Some set
        → IsLeast (control_behind set commands) name }
{}
