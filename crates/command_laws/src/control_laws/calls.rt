//! The report, as the calls of service control.

ghost use Rattle.std.specs.Prelude.{◌≡◌, List, ◌∷◌, ◌++◌, Some, codes};
ghost use Rattle.hive_model.specs.Tree.{Tree};
ghost use Rattle.service_control.specs.First.{control_of};
ghost use Rattle.service_control.specs.Laws.{after_calls};
ghost use Rattle.service_control.specs.State.{ControlState};
ghost use Rattle.control_command.specs.Report.{answer_to, answers_to, default_set, report_of};
ghost use Rattle.control_command.specs.declared.command.ControlCommand.{ControlCommand};
ghost use Rattle.command_laws.specs.control_laws.Called.{calls_by, all_calls_by, said_to};

/// A command leaves what its call leaves, and a listing leaves all as it was.
pub fn a_command_is_its_call()
    ensures { (c : ControlState) (command : ControlCommand) → (answer_to c command).state ≡ after_calls c (calls_by command) }
{}

/// What a report says of a command is the answer in the state that the calls of the commands before it leave, after what was
/// said of those (`answer`); after the last one stands `end` (`end`). The report on a tree begins with the services of its
/// Default set (`report`).
pub fn a_report_tells_the_calls()
    ensures answer { (c : ControlState) (front back : List ControlCommand) (command : ControlCommand) → let now = after_calls c (all_calls_by front) in
        answers_to c (front ++ command ∷ back) ≡ said_to c front ++ ((answer_to now command).text ++ answers_to (after_calls now (calls_by command)) back) }
    ensures end { (c : ControlState) (commands : List ControlCommand) → answers_to c commands ≡ said_to c commands ++ codes "end\n" }
    ensures report { (tree set : Tree) (commands : List ControlCommand) → default_set tree ≡ Some set
        → report_of tree commands ≡ answers_to (control_of set) commands }
{}
