//! The end of a start.

ghost use Rattle.std.specs.Prelude.{◌≡◌, true, false, Some};
ghost use Rattle.boot_machine.specs.boot_machine.Steps.{falls_back, is_there};
ghost use Rattle.boot_phases.specs.error_control.Judgement.{judgement_in};
ghost use Rattle.start_model.specs.Act.{done, end_with};
ghost use Rattle.start_model.specs.Starter.{judged};
ghost use Rattle.start_model.specs.Machine.{Start, ending_of};
ghost use Rattle.quiet_run.specs.Play.{state_in, watched_in, IsSound};
ghost use Rattle.quiet_run.specs.Watch.{watch};

use crate::play::Play;
use boot_machine::boot_machine::Verdict;
use boot_phases::error_control::Judgement;

/// A start ends with this verdict. Edits that were not committed are lost.
pub(crate) fn end(verdict: Verdict, play: &mut Play)
    ensures watched { watched_in play.new ≡ watch (end_with verdict (falls_back verdict) (state_in play.old)) play.old.last }
    ensures sound { IsSound play.old → IsSound play.new }
{
    play.machine.end(verdict);
    play.changed = false;
    play.last.verdict = Some(verdict);
}

/// After an attempt the run goes on, or the start ends.
pub(crate) fn end_where_judged(judgement: Judgement, play: &mut Play)
    ensures watched { watched_in play.new ≡ watch (judged (judgement_in judgement) (state_in play.old) done) play.old.last }
    ensures sound { IsSound play.old → IsSound play.new }
{
    match judgement {
        Judgement::Ignore | Judgement::Log => {}
        Judgement::FallBack => end(Verdict::FallBack, play),
        Judgement::Stop => end(Verdict::Stopped, play),
    }
}

/// The running start ends by switching off. One must run.
pub(crate) fn end_off(play: &mut Play)
    requires { is_there play.old.machine.start ≡ true }
    ensures watched { (s : Start) → play.old.machine.start ≡ Some s
        → watched_in play.new ≡ watch (end_with (ending_of s) false (state_in play.old)) play.old.last }
    ensures sound { IsSound play.old → IsSound play.new }
{
    let verdict = play.machine.ending();
    end(verdict, play);
}
