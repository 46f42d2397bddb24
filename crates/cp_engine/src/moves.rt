ghost use Rattle.std.specs.Prelude.{◌≡◌, ℕ, ◌<◌, length, OnOk};
ghost use Rattle.cp_code.specs.Machine as machine;
ghost use Rattle.cp_code.specs.Programs.{code_of};
ghost use Rattle.cp_run.specs.Shown.{shown, moved};
ghost use Rattle.cp_run.specs.Stands.{Holds, Stands};
ghost use Rattle.cp_engine.specs.Good.{IsGood};
ghost use Rattle.cp_engine.specs.Walking.{IsStarted};

use crate::answering::run_answer;
use crate::due::run_due;
use crate::started::Started;
use cp_back::{back, throw_back};
use cp_calls::{give, run_exit};
use cp_code::Program;
use cp_enter::run_copy;
use cp_run::{Next, Point, Run};
use std::alloc::AllocError;

/// One move of the machine. A run that waits for an input stays as it is.
pub fn one_move(program: &Program, started: &Started, run: &mut Run) -> Result<(), AllocError>
    requires good { IsGood program.now }
    requires started { IsStarted program.now started.now }
    requires stands { Stands run.old }
    ensures moved { OnOk result ((budget : ℕ) → shown (code_of program.now budget) run.new ≡ machine.move (code_of program.now budget) started.now.goal (shown (code_of program.now budget) run.old)) }
    ensures stands { OnOk result (Stands run.new) }
{
    let point = run.leave();
    match point {
        Point::Runs { goals, level } => {
            run_goals(program, started, run, goals, level)?;
            Ok(())
        }
        Point::Tries {
            pred,
            from,
            goal,
            rest,
            level,
        } => {
            run.try_next(program, pred, from, goal, rest, level)?;
            Ok(())
        }
        Point::Gives {
            pred,
            answer,
            from,
            goal,
            rest,
            level,
        } => {
            give(run, pred, answer, from, goal, rest, level)?;
            Ok(())
        }
        Point::Fails => {
            back(run)?;
            Ok(())
        }
        Point::Throws { ball, catchers } => {
            throw_back(run, ball, catchers)?;
            Ok(())
        }
        Point::Asks {
            asking,
            from,
            rest,
            level,
        } => {
            run.go(Point::Asks {
                asking,
                from,
                rest,
                level,
            });
            Ok(())
        }
        Point::Writes {
            bytes,
            context,
            rest,
            level,
        } => {
            run.go(Point::Writes {
                bytes,
                context,
                rest,
                level,
            });
            Ok(())
        }
        Point::Calls {
            pred,
            goal,
            handed,
            rest,
            level,
        } => {
            run.go(Point::Calls {
                pred,
                goal,
                handed,
                rest,
                level,
            });
            Ok(())
        }
        Point::Answers { answer } => {
            run.go(Point::Answers { answer });
            Ok(())
        }
        Point::Stops => {
            run.go(Point::Stops);
            Ok(())
        }
    }
}

/// Runs the first of the goals in hand.
fn run_goals(
    program: &Program,
    started: &Started,
    run: &mut Run,
    goals: u32,
    level: u64,
) -> Result<(), AllocError>
    requires good { IsGood program.now }
    requires started { IsStarted program.now started.now }
    requires holds { Holds run.old }
    requires goals { goals < length run.old.goals }
    ensures moved { OnOk result ((budget : ℕ) → shown (code_of program.now budget) run.new ≡ moved (code_of program.now budget) run.old goals level (machine.item_move (code_of program.now budget) started.now.goal)) }
    ensures stands { OnOk result (Stands run.new) }
{
    match run.run_next(goals, level)? {
        Next::Moved => Ok(()),
        Next::Due { seen, own: _, rest } => {
            run_due(program, run, seen, rest, level)?;
            Ok(())
        }
        Next::Answer => {
            run_answer(started, run, goals)?;
            Ok(())
        }
        Next::Copy {
            seer,
            template,
            rest,
        } => {
            run_copy(run, &seer, template, rest)?;
            Ok(())
        }
        Next::Ask {
            asking,
            place,
            rest,
        } => {
            run.ask_again(asking, place, rest, level)?;
            Ok(())
        }
        Next::Exit {
            pred,
            checks,
            goal,
            rest,
        } => {
            run_exit(program, run, pred, checks, goal, rest, level)?;
            Ok(())
        }
    }
}
