//! What a failed attempt leads to.

ghost use Rattle.std.specs.Prelude.{◌≡◌, ◌<◌, ℕ, Bool, true, false, [], ◌∷◌, ◌++◌, codes};
ghost use Rattle.start_model.specs.Judge.{Ignore, Log, FallBack, Stop, judgement_of};
ghost use Rattle.start_model.specs.Entries.{control_in};
ghost use Rattle.start_laws.specs.Written.{dword, plain, report, lines, first_lines};
ghost use Rattle.start_laws.specs.TwoSets.{new_driver, fails_once, critical, fails_twice};

/// What ErrorControl makes of a failure, on LastKnownGood, and else by whether LastKnownGood is usable.
pub fn each_cell_of_the_judgement()
    ensures ignored { (on_good usable : Bool) → judgement_of 0 on_good usable ≡ Ignore }
    ensures normal { (on_good usable : Bool) → judgement_of 1 on_good usable ≡ Log }
    ensures severe_on_good { (usable : Bool) → judgement_of 2 true usable ≡ Log }
    ensures severe { judgement_of 2 false true ≡ FallBack }
    ensures severe_alone { judgement_of 2 false false ≡ Log }
    ensures critical_on_good { (usable : Bool) → judgement_of 3 true usable ≡ Stop }
    ensures critical { judgement_of 3 false true ≡ FallBack }
    ensures critical_alone { judgement_of 3 false false ≡ Stop }
    ensures greater { (control : ℕ) (on_good usable : Bool) → 3 < control → judgement_of control on_good usable ≡ judgement_of 1 on_good usable }
    ensures read_as_normal { control_in (plain (codes "S") (dword (codes "ErrorControl") 4 ∷ []) []) ≡ 1 }
    ensures missing { control_in (plain (codes "S") [] []) ≡ 1 }
{}

/// A severe failure ends the start; the next one takes LastKnownGood, keeps a copy of it, and notes the failed set.
pub fn a_severe_failure_falls_back()
    ensures { report new_driver fails_once ≡ lines (first_lines (codes "2")
        ++ codes "try Disk ok"
        ∷ codes "try New failed fall-back"
        ∷ codes "verdict fall-back"
        ∷ codes "start 2"
        ∷ codes "entry 1 multi(0)disk(0)rdisk(0)partition(1)\\WINDOWS"
        ∷ codes "load 5 clean"
        ∷ codes "set 2 last-known-good"
        ∷ codes "commit begin 6"
        ∷ codes "select 2 2 1 3"
        ∷ codes "phase boot"
        ∷ codes "try Disk ok"
        ∷ codes "phase system"
        ∷ codes "phase automatic"
        ∷ codes "phase done"
        ∷ codes "logon"
        ∷ codes "commit save 7"
        ∷ codes "select 2 2 1 4"
        ∷ codes "verdict good"
        ∷ codes "end"
        ∷ []) }
{}

/// A critical failure falls back once; on LastKnownGood it ends the start for good.
pub fn a_critical_failure_stops()
    ensures { report critical fails_twice ≡ lines (first_lines (codes "2")
        ++ codes "try Disk failed fall-back"
        ∷ codes "verdict fall-back"
        ∷ codes "start 2"
        ∷ codes "entry 1 multi(0)disk(0)rdisk(0)partition(1)\\WINDOWS"
        ∷ codes "load 5 clean"
        ∷ codes "set 2 last-known-good"
        ∷ codes "commit begin 6"
        ∷ codes "select 2 2 1 3"
        ∷ codes "phase boot"
        ∷ codes "try Disk failed stop"
        ∷ codes "verdict stopped"
        ∷ codes "end"
        ∷ []) }
{}
