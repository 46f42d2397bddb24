ghost use Rattle.std.specs.Prelude.{◌≡◌, OnOk};
ghost use Rattle.cp_code.specs.Code.{Code};
ghost use Rattle.cp_code.specs.Machine.{throw_move};
ghost use Rattle.cp_run.specs.declared.frame.Frame.TheVariants as frame;
ghost use Rattle.cp_run.specs.Shown.{frames_of, shown};
ghost use Rattle.cp_run.specs.Stands.{Holds, Stands};
ghost use Rattle.cp_back.specs.Undoing.{HoldsUnder, IsPassedBy, frames_under};

use crate::catching::throw_to_catch;
use crate::gathering::drop_terms;
use cp_heap::Ref;
use cp_run::{Catchers, Frame, Moment, Point, Run};
use cp_term::{Term, Terms};
use std::alloc::AllocError;

/// Throws a ball to the last frame (ISO/IEC 13211-1, 7.8.9 and 7.8.10). A `catch` among the catchers whose ball term unifies
/// with it catches it; else the frame is dropped, and the ball is thrown on. Where there is none, the ball stays thrown.
pub fn throw_back(run: &mut Run, ball: Term, catchers: Catchers) -> Result<(), AllocError>
    requires { Holds run.old }
    ensures moved { OnOk result ((code : Code) → shown code run.new ≡ throw_move (frames_of code run.old) ball catchers run.old.units run.old.copies) }
    ensures stands { OnOk result (Stands run.new) }
{
    let Some(frame) = run.frames.pop() else {
        run.go(Point::Throws { ball, catchers });
        return Ok(());
    };
    throw_to(run, frame, ball, catchers)?;
    Ok(())
}

/// Throws a ball to a frame that was taken off.
fn throw_to(run: &mut Run, frame: Frame, ball: Term, catchers: Catchers) -> Result<(), AllocError>
    requires { HoldsUnder run.old frame }
    ensures moved { OnOk result ((code : Code) → shown code run.new ≡ throw_move (frames_under code run.old frame) ball catchers run.old.units run.old.copies) }
    ensures stands { OnOk result (Stands run.new) }
{
    match frame {
        Frame::Catching {
            moment,
            seer,
            ball: pattern,
            recovery,
            rest,
            level,
        } => throw_to_catch(
            run, moment, seer, pattern, recovery, rest, level, ball, catchers,
        ),
        Frame::Gathering {
            moment,
            outer,
            result,
            rest,
            level,
        } => {
            throw_past_findall(run, moment, outer, result, rest, level, ball, catchers);
            Ok(())
        }
        other => {
            throw_past(run, other, ball, catchers);
            Ok(())
        }
    }
}

/// A ball leaves a findall: the copies of the one around it are the innermost ones.
fn throw_past_findall(
    run: &mut Run,
    moment: Moment,
    outer: Terms,
    list: Ref,
    rest: u32,
    level: u64,
    ball: Term,
    catchers: Catchers,
)
    requires { HoldsUnder run.old (frame.Gathering moment outer list rest level) }
    ensures moved { (code : Code) → shown code run.new ≡ throw_move (frames_under code run.old (frame.Gathering moment outer list rest level)) ball catchers run.old.units run.old.copies }
    ensures stands { Stands run.new }
{
    drop_terms(std::mem::replace(&mut run.copies, outer));
    run.go(Point::Throws { ball, catchers });
}

/// A ball passes a frame that catches nothing.
fn throw_past(run: &mut Run, frame: Frame, ball: Term, catchers: Catchers)
    requires holds { HoldsUnder run.old frame }
    requires passed { IsPassedBy frame }
    ensures moved { (code : Code) → shown code run.new ≡ throw_move (frames_under code run.old frame) ball catchers run.old.units run.old.copies }
    ensures stands { Stands run.new }
{
    drop_frame(frame);
    run.go(Point::Throws { ball, catchers });
}

fn drop_frame(_frame: Frame) {}
