ghost use Rattle.std.specs.Prelude.{◌≡◌, ℕ, ◌<◌, length, OnOk};
ghost use Rattle.cp_heap.specs.State.{instance_at};
ghost use Rattle.cp_code.specs.Code.{Code};
ghost use Rattle.cp_code.specs.Goals as goals;
ghost use Rattle.cp_code.specs.Programs.{code_of};
ghost use Rattle.cp_request.specs.Asked.{goal_shown};
ghost use Rattle.cp_run.specs.Shown.{shown, moved};
ghost use Rattle.cp_run.specs.Stands.{Holds, Stands};
ghost use Rattle.cp_goals.specs.Rows.{builtin_row, IsGoalOf};

use crate::arguments::{first_argument, post_arguments};
use crate::ask::ask_or_raise;
use cp_code::Program;
use cp_heap::Ref;
use cp_request::{FactGoal, fact_asking, post_goal, wait_goal};
use cp_run::Run;
use cp_term::PredName;
use std::alloc::AllocError;

/// A goal on the facts of a shared predicate.
pub(crate) fn on_facts(
    program: &Program,
    run: &mut Run,
    fact: FactGoal,
    context: &PredName,
    goal: Ref,
    rest: u32,
    level: u64,
) -> Result<(), AllocError>
    requires holds { Holds run.old }
    requires goal { IsGoalOf run.old.heap context.now goal.at }
    requires arity { context.now.arity ≡ 1 }
    requires rest { rest < length run.old.goals }
    ensures moved { OnOk result ((budget : ℕ) → shown (code_of program.now budget) run.new ≡ moved (code_of program.now budget) run.old rest level (builtin_row (code_of program.now budget) (goals.OnFacts (goal_shown fact)) context.now (instance_at run.old.heap goal.at))) }
    ensures stands { OnOk result (Stands run.new) }
{
    let at = first_argument(&run.heap, goal);
    let answer = fact_asking(program, &run.heap, fact, &context.module, at, context);
    ask_or_raise(run, answer, context, rest, level)?;
    Ok(())
}

/// `eng_call/4`
pub(crate) fn post(
    run: &mut Run,
    context: &PredName,
    goal: Ref,
    rest: u32,
    level: u64,
) -> Result<(), AllocError>
    requires holds { Holds run.old }
    requires goal { IsGoalOf run.old.heap context.now goal.at }
    requires arity { context.now.arity ≡ 4 }
    requires rest { rest < length run.old.goals }
    ensures moved { OnOk result ((code : Code) → shown code run.new ≡ moved code run.old rest level (builtin_row code goals.Post context.now (instance_at run.old.heap goal.at))) }
    ensures stands { OnOk result (Stands run.new) }
{
    let arguments = post_arguments(&run.heap, goal);
    let answer = post_goal(
        run.alloc,
        &mut run.heap,
        &context.module,
        arguments,
        context,
    );
    ask_or_raise(run, answer, context, rest, level)?;
    Ok(())
}

/// `eng_wait/1`
pub(crate) fn wait(
    run: &mut Run,
    context: &PredName,
    goal: Ref,
    rest: u32,
    level: u64,
) -> Result<(), AllocError>
    requires holds { Holds run.old }
    requires goal { IsGoalOf run.old.heap context.now goal.at }
    requires arity { context.now.arity ≡ 1 }
    requires rest { rest < length run.old.goals }
    ensures moved { OnOk result ((code : Code) → shown code run.new ≡ moved code run.old rest level (builtin_row code goals.Wait context.now (instance_at run.old.heap goal.at))) }
    ensures stands { OnOk result (Stands run.new) }
{
    let at = first_argument(&run.heap, goal);
    let answer = wait_goal(run.alloc, &run.heap, at, context);
    ask_or_raise(run, answer, context, rest, level)?;
    Ok(())
}
