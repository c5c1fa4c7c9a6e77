//! A commit, which is done.

ghost use Rattle.std.specs.Prelude.{◌≡◌, OnOk};
ghost use Rattle.start_model.specs.Commit.{committed_state};
ghost use Rattle.quiet_run.specs.Play.{state_in, IsSound};

use crate::play::Play;
use std::alloc::{AllocError, Global};

/// The live tree is what the disk loads as.
pub(crate) fn commit(alloc: Global, play: &mut Play) -> Result<(), AllocError>
    requires sound { IsSound play.old }
    ensures state { OnOk result (state_in play.new ≡ committed_state (state_in play.old) play.old.live) }
    ensures last { play.new.last ≡ play.old.last }
    ensures sound { OnOk result (IsSound play.new) }
{
    play.settled = play.live.copy(alloc)?;
    play.sequence = play.sequence.wrapping_add(1);
    play.changed = false;
    play.dirty = false;
    Ok(())
}
