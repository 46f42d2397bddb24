ghost use Rattle.std.specs.Prelude.{reverse};
ghost use Rattle.cp_run.specs.Shown.{back, here_of};
ghost use Rattle.cp_run.specs.Stands.{IsMoment, FramesStand};
ghost use Rattle.cp_back.specs.Undoing.{IsTakenBack};

use cp_run::{Moment, Run};

/// Takes a run back to the moment of a frame that was taken off.
pub(crate) fn take_back(run: &mut Run, moment: Moment)
    requires moment { IsMoment moment (here_of run.old) }
    requires frames { FramesStand (back moment (here_of run.old)) (reverse run.old.frames.items) }
    ensures { IsTakenBack run.old run.new moment }
{
    run.undo_to(moment);
}
