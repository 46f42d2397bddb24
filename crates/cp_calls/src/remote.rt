ghost use Rattle.std.specs.Prelude.{◌≡◌, ◌<◌, length, OnOk};
ghost use Rattle.cp_code.specs.Code.{Code};
ghost use Rattle.cp_run.specs.Shown.{here_of, instance_in, shown, moved};
ghost use Rattle.cp_run.specs.Stands.{Holds, Stands};
ghost use Rattle.cp_calls.specs.Rows.{remote_row};

use cp_heap::{ExportError, Ref};
use cp_run::{Point, Run};
use cp_term::{PredName, Term};
use std::alloc::AllocError;

/// A call of a predicate of an active module: a copy of the goal is handed out, or an error raised where it has more than
/// 4,096 cells.
pub(crate) fn call_remote(
    run: &mut Run,
    pred: &PredName,
    goal: Ref,
    rest: u32,
    level: u64,
) -> Result<(), AllocError>
    requires holds { Holds run.old }
    requires goal { goal.at < length run.old.heap.terms }
    requires rest { rest < length run.old.goals }
    ensures moved { OnOk result ((code : Code) → shown code run.new ≡ moved code run.old rest level (remote_row pred.now (instance_in (here_of run.old) goal.at))) }
    ensures stands { OnOk result (Stands run.new) }
{
    let _mark = run.heap.mark();
    match run.heap.export(goal) {
        Ok(handed) => {
            hand_out(run, pred, goal, handed, rest, level)?;
            Ok(())
        }
        Err(ExportError::TooLarge) => {
            run.raise_too_large(pred, rest)?;
            Ok(())
        }
        Err(ExportError::NoMemory) => Err(AllocError),
    }
}

/// The reply to a call is due.
fn hand_out(
    run: &mut Run,
    pred: &PredName,
    goal: Ref,
    handed: Term,
    rest: u32,
    level: u64,
) -> Result<(), AllocError>
    requires holds { Holds run.old }
    requires goal { goal.at < length run.old.heap.terms }
    requires rest { rest < length run.old.goals }
    ensures state { OnOk result (run.new ≡ record run.old { point = Point.Calls pred.now goal handed rest level }) }
    ensures stands { OnOk result (Stands run.new) }
{
    let pred = pred.clone()?;
    run.go(Point::Calls {
        pred,
        goal,
        handed,
        rest,
        level,
    });
    Ok(())
}
