ghost use Rattle.std.specs.Prelude.{◌≡◌, ◌<◌, length, is_some, true, get_or, [], IfOk, OnOk};
ghost use Rattle.cp_term.specs.declared.pred_name.PredName.{PredName};
ghost use Rattle.cp_goal.specs.Builtins.{End};
ghost use Rattle.cp_goal.specs.Names.{builtin_named};
ghost use Rattle.cp_builtin.specs.Ends.{IsOutcome, end_of_goal};
ghost use Rattle.cp_heap.specs.State.{substitution, instance_at};
ghost use Rattle.cp_term.specs.Preorder.{arguments};
ghost use Rattle.cp_code.specs.Code.{Code};
ghost use Rattle.cp_code.specs.Requests.{full_name};
ghost use Rattle.cp_run.specs.Shown.{shown, moved};
ghost use Rattle.cp_run.specs.Stands.{Holds, Stands};
ghost use Rattle.cp_run.specs.Entering.{IsExtended};
ghost use Rattle.cp_goals.specs.Rows.{ends_row, IsGoalOf};

use crate::arguments::arguments_of;
use cp_builtin::{Outcome1, call_builtin};
use cp_heap::Ref;
use cp_run::{Point, Run};
use cp_term::PredName;
use std::alloc::AllocError;

/// A builtin on terms.
pub(crate) fn on_terms(
    run: &mut Run,
    context: &PredName,
    goal: Ref,
    rest: u32,
    level: u64,
) -> Result<(), AllocError>
    requires holds { Holds run.old }
    requires goal { IsGoalOf run.old.heap context.now goal.at }
    requires builtin { is_some (builtin_named context.now.name context.now.arity) ≡ true }
    requires rest { rest < length run.old.goals }
    ensures moved { OnOk result ((code : Code) → shown code run.new ≡ moved code run.old rest level (ends_row (end_of_goal (builtin_named context.now.name context.now.arity) (arguments (instance_at run.old.heap goal.at)) (substitution run.old.heap) run.old.heap.variables) (full_name context.now))) }
    ensures stands { OnOk result (Stands run.new) }
{
    let outcome = outcome_of(run, context, goal)?;
    end(run, outcome, rest, level)?;
    Ok(())
}

/// How the builtin ends.
fn outcome_of(run: &mut Run, context: &PredName, goal: Ref) -> Result<Outcome1, AllocError>
    requires holds { Holds run.old }
    requires goal { IsGoalOf run.old.heap context.now goal.at }
    requires builtin { is_some (builtin_named context.now.name context.now.arity) ≡ true }
    ensures outcome { IfOk result (λ outcome. IsOutcome run.new.heap context.now outcome (end_of_goal (builtin_named context.now.name context.now.arity) (arguments (instance_at run.old.heap goal.at)) (substitution run.old.heap) run.old.heap.variables)) }
    ensures extended { OnOk result (IsExtended run.old run.new) }
{
    let _mark = run.heap.mark();
    let places = arguments_of(run.alloc, &run.heap, goal)?;
    let outcome = call_builtin(run.alloc, &mut run.heap, context, &places)?;
    Ok(outcome)
}

/// What follows the end of a builtin.
fn end(run: &mut Run, outcome: Outcome1, rest: u32, level: u64) -> Result<(), AllocError>
    requires holds { Holds run.old }
    requires rest { rest < length run.old.goals }
    ensures moved { OnOk result ((code : Code) (p : PredName) (e : End) → IsOutcome run.old.heap p outcome e → shown code run.new ≡ moved code run.old rest level (ends_row e (full_name p))) }
    ensures stands { OnOk result (Stands run.new) }
{
    match outcome {
        Outcome1::Succeeds => {
            run.go(Point::Runs { goals: rest, level });
            Ok(())
        }
        Outcome1::Fails => {
            run.go(Point::Fails);
            Ok(())
        }
        Outcome1::Raises(ball) => {
            run.throw(ball, rest)?;
            Ok(())
        }
    }
}
