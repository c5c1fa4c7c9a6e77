//! A set is saved after a good logon.

ghost use Rattle.std.specs.Prelude.{ℕ, List, Option};
ghost use Rattle.std.specs.List.{Contains};
ghost use Rattle.hive_model.specs.Tree.{Tree};
ghost use Rattle.start_model.specs.Events as events;
ghost use Rattle.start_model.specs.Possible.{Woken, Outcome};
ghost use Rattle.start_model.specs.Act.{RunState};
ghost use Rattle.start_model.specs.Boot.{Choice};
ghost use Rattle.start_model.specs.EventActs.{event_step_of};
ghost use Rattle.start_model.specs.Run.{play};
ghost use Rattle.start_model.specs.Fits.{saved_in};
ghost use Rattle.kept_laws.specs.logon_laws.Saves.{IsSavedAfterLogon};

/// An event saves a set only where a start runs that saved none yet, and what is saved is the clone of that start: by a logon in the
/// last phase, or by steps that end in that phase after a logon.
pub fn a_set_is_saved_after_a_good_logon()
    ensures { (choice : Option ℕ → Choice) (e : events.Event) (m : RunState) (wakes : List Woken) (outcomes : List Outcome) (clone : Tree)
        → Contains (saved_in (play (event_step_of choice e m) wakes outcomes).notes) clone
        → IsSavedAfterLogon e m (play (event_step_of choice e m) wakes outcomes).lines clone }
{}
