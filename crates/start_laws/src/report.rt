//! What a report says of its run.

ghost use Rattle.std.specs.Prelude.{◌≡◌, ℕ, List, Option};
ghost use Rattle.hive_model.specs.Image.{Image, Write, IsCrashImage};
ghost use Rattle.start_model.specs.Lines.{text_of};
ghost use Rattle.start_model.specs.Events as events;
ghost use Rattle.start_model.specs.Possible.{Woken};
ghost use Rattle.start_model.specs.Boot.{Choice};
ghost use Rattle.start_model.specs.Run.{run_of};
ghost use Rattle.start_model.specs.Quiet.{quiet_run_of};
ghost use Rattle.start_model.specs.Fits.{outcomes_of, MayLoad};
ghost use Rattle.start_model.specs.Report.{Report};
ghost use Rattle.run_laws.specs.run_laws.Quiet.{AllFinished};
ghost use Rattle.run_laws.specs.run_laws.Told.{ended_in};

/// The operations of the disk ended as the text reports. Where all were done, the text is that of the quiet run, and each
/// image that a cut may then leave loads as the state that this amounts to.
pub fn a_report_tells_its_run()
    ensures ended { (choice : Option ℕ → Choice) (script : List events.Event) (placed : Woken) (images : List Image) (held : Image)
        (flight : List Write) (text : List ℕ) (r : Report (run_of choice script placed) images (IsCrashImage held flight) text)
        → ended_in (run_of choice script placed r.woken (outcomes_of text)).notes ≡ outcomes_of text }
    ensures quiet { (choice : Option ℕ → Choice) (script : List events.Event) (placed : Woken) (images : List Image) (held : Image)
        (flight : List Write) (text : List ℕ)
        → Report (run_of choice script placed) images (IsCrashImage held flight) text → AllFinished (outcomes_of text)
        → text ≡ text_of (quiet_run_of choice script placed).lines }
    ensures quiet_loads { (choice : Option ℕ → Choice) (script : List events.Event) (placed : Woken) (images : List Image) (held : Image)
        (flight : List Write) (text : List ℕ)
        → Report (run_of choice script placed) images (IsCrashImage held flight) text → AllFinished (outcomes_of text)
        → (c : Image) → IsCrashImage held flight c → MayLoad (quiet_run_of choice script placed).state.disk c }
{}
