ghost use Rattle.std.specs.Prelude.{◌≡◌, ◌∷◌, reverse, OnOk};
ghost use Rattle.cp_code.specs.Code.{Code};
ghost use Rattle.cp_code.specs.Machine.{fail_move};
ghost use Rattle.cp_run.specs.declared.frame.Frame.TheVariants as frame;
ghost use Rattle.cp_run.specs.Shown.{here_of, frames_of, shown};
ghost use Rattle.cp_run.specs.Stands.{FramesStand, Holds, Stands};
ghost use Rattle.cp_back.specs.Undoing.{HoldsUnder, frames_under};

use crate::gathering::back_to_findall;
use crate::undoing::take_back;
use cp_heap::Ref;
use cp_request::RemoteAnswer;
use cp_run::{Frame, Moment, Point, Run};
use cp_term::{Name, PredName};
use std::alloc::AllocError;

/// Goes back to the last frame, where the goals in hand have no more to give. Where there is none, the run has no more to give.
pub fn back(run: &mut Run) -> Result<(), AllocError>
    requires { Holds run.old }
    ensures moved { OnOk result ((code : Code) → shown code run.new ≡ fail_move (frames_of code run.old) run.old.units run.old.copies) }
    ensures stands { OnOk result (Stands run.new) }
{
    let Some(frame) = run.frames.pop() else {
        run.go(Point::Fails);
        return Ok(());
    };
    back_to(run, frame)?;
    Ok(())
}

/// Goes back to a frame that was taken off.
fn back_to(run: &mut Run, frame: Frame) -> Result<(), AllocError>
    requires { HoldsUnder run.old frame }
    ensures moved { OnOk result ((code : Code) → shown code run.new ≡ fail_move (frames_under code run.old frame) run.old.units run.old.copies) }
    ensures stands { OnOk result (Stands run.new) }
{
    match frame {
        Frame::Alternative {
            moment,
            goals,
            level,
        } => {
            back_to_goals(run, moment, goals, level);
            Ok(())
        }
        Frame::Clauses {
            moment,
            pred,
            from,
            goal,
            rest,
            level,
        } => {
            back_to_clauses(run, moment, pred, from, goal, rest, level);
            Ok(())
        }
        Frame::Answering {
            moment,
            pred,
            answer,
            from,
            goal,
            rest,
            level,
        } => {
            back_to_answers(run, moment, pred, answer, from, goal, rest, level);
            Ok(())
        }
        Frame::Gathering {
            moment,
            outer,
            result,
            rest,
            level,
        } => back_to_findall(run, moment, outer, result, rest, level),
        Frame::Opened { level } => {
            back_over_mark(run, level);
            Ok(())
        }
        Frame::Catching {
            moment,
            seer,
            ball,
            recovery,
            rest,
            level,
        } => {
            back_over_catch(run, moment, seer, ball, recovery, rest, level);
            Ok(())
        }
    }
}

/// Other goals are run.
fn back_to_goals(run: &mut Run, moment: Moment, goals: u32, level: u64)
    requires { FramesStand (here_of run.old) (frame.Alternative moment goals level ∷ reverse run.old.frames.items) }
    ensures moved { (code : Code) → shown code run.new ≡ fail_move (frames_under code run.old (frame.Alternative moment goals level)) run.old.units run.old.copies }
    ensures stands { Stands run.new }
{
    take_back(run, moment);
    run.go(Point::Runs { goals, level });
}

/// The clauses of a predicate that are left are tried.
fn back_to_clauses(
    run: &mut Run,
    moment: Moment,
    pred: u32,
    from: u32,
    goal: Ref,
    rest: u32,
    level: u64,
)
    requires { FramesStand (here_of run.old) (frame.Clauses moment pred from goal rest level ∷ reverse run.old.frames.items) }
    ensures moved { (code : Code) → shown code run.new ≡ fail_move (frames_under code run.old (frame.Clauses moment pred from goal rest level)) run.old.units run.old.copies }
    ensures stands { Stands run.new }
{
    take_back(run, moment);
    run.go(Point::Tries {
        pred,
        from,
        goal,
        rest,
        level,
    });
}

/// The answers of a remote call that are left are given.
fn back_to_answers(
    run: &mut Run,
    moment: Moment,
    pred: PredName,
    answer: RemoteAnswer,
    from: u32,
    goal: Ref,
    rest: u32,
    level: u64,
)
    requires { FramesStand (here_of run.old) (frame.Answering moment pred answer from goal rest level ∷ reverse run.old.frames.items) }
    ensures moved { (code : Code) → shown code run.new ≡ fail_move (frames_under code run.old (frame.Answering moment pred answer from goal rest level)) run.old.units run.old.copies }
    ensures stands { Stands run.new }
{
    take_back(run, moment);
    run.go(Point::Gives {
        pred,
        answer,
        from,
        goal,
        rest,
        level,
    });
}

/// A level that was opened is left.
fn back_over_mark(run: &mut Run, level: u64)
    requires { HoldsUnder run.old (frame.Opened level) }
    ensures moved { (code : Code) → shown code run.new ≡ fail_move (frames_under code run.old (frame.Opened level)) run.old.units run.old.copies }
    ensures stands { Stands run.new }
{
    run.go(Point::Fails);
}

/// What a `catch` protects has no more to give.
fn back_over_catch(
    run: &mut Run,
    moment: Moment,
    seer: Name,
    ball: Ref,
    recovery: Ref,
    rest: u32,
    level: u64,
)
    requires { HoldsUnder run.old (frame.Catching moment seer ball recovery rest level) }
    ensures moved { (code : Code) → shown code run.new ≡ fail_move (frames_under code run.old (frame.Catching moment seer ball recovery rest level)) run.old.units run.old.copies }
    ensures stands { Stands run.new }
{
    run.go(Point::Fails);
    drop_name(seer);
}

pub(crate) fn drop_name(_name: Name) {}
