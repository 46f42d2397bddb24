ghost use Rattle.std.specs.Prelude.{◌≡◌, ℕ, ◌<◌, [], Some, true, length, get_or, is_some, OnOk};
ghost use Rattle.cp_code.specs.Bodies.{Plain};
ghost use Rattle.cp_code.specs.Requests.{functor_of as functor_in};
ghost use Rattle.cp_goals.specs.Rows.{plain_row};
ghost use Rattle.cp_code.specs.Machine.{goal_move};
ghost use Rattle.cp_code.specs.Programs.{code_of, or_fail};
ghost use Rattle.cp_control.specs.Control.{body_read, HasParts};
ghost use Rattle.cp_run.specs.Shown.{here_of, instance_in, shown, moved};
ghost use Rattle.cp_run.specs.Stands.{Holds, Stands};
ghost use Rattle.cp_engine.specs.Good.{IsGood};

use crate::functor::functor_of;
use cp_calls::run_pred;
use cp_code::Program;
use cp_control::{Control, Seen};
use cp_enter::{run_call, run_catch, run_find_all, run_throw};
use cp_goals::run_builtin;
use cp_heap::Ref;
use cp_run::{Point, Run};
use cp_term::Name;
use std::alloc::AllocError;

/// Runs a goal that was charged and is no control over its parts.
pub fn run_due(
    program: &Program,
    run: &mut Run,
    seen: Seen,
    rest: u32,
    level: u64,
) -> Result<(), AllocError>
    requires good { IsGood program.now }
    requires holds { Holds run.old }
    requires rest { rest < length run.old.goals }
    requires place { seen.at.at < length run.old.heap.terms }
    requires parts { HasParts seen.at.at seen.control }
    requires goal { is_some (body_read run.old.heap.terms seen.at.at seen.control seen.seer) ≡ true }
    ensures moved { OnOk result ((budget own : ℕ) → shown (code_of program.now budget) run.new ≡ moved (code_of program.now budget) run.old rest level (goal_move (code_of program.now budget) (or_fail (body_read run.old.heap.terms seen.at.at seen.control seen.seer)) own)) }
    ensures stands { OnOk result (Stands run.new) }
{
    match seen.control {
        Control::Call(goal, first, count) => {
            run_call(run, &seen.seer, goal, first, count, rest, level)?;
            Ok(())
        }
        Control::Catch(goal, ball, recovery) => {
            run_catch(run, &seen.seer, goal, ball, recovery, rest, level)?;
            Ok(())
        }
        Control::Throw(ball) => {
            run_throw(run, &seen.seer, ball, rest, level)?;
            Ok(())
        }
        Control::FindAll(template, goal, list) => {
            run_find_all(run, &seen.seer, template, goal, list, rest, level)?;
            Ok(())
        }
        Control::Plain => {
            run_plain(program, run, &seen.seer, seen.at, rest, level)?;
            Ok(())
        }
        // control over its parts is run when it is charged
        Control::Cut
        | Control::True
        | Control::Fail
        | Control::Both(_, _)
        | Control::Either(_, _)
        | Control::Choose(_, _, _)
        | Control::IfThen(_, _)
        | Control::Not(_)
        | Control::Within(_, _)
        | Control::NoGoal => Err(AllocError),
    }
}

/// Runs a goal that is no control: a builtin or the call of a predicate.
fn run_plain(
    program: &Program,
    run: &mut Run,
    seer: &Name,
    at: Ref,
    rest: u32,
    level: u64,
) -> Result<(), AllocError>
    requires good { IsGood program.now }
    requires holds { Holds run.old }
    requires rest { rest < length run.old.goals }
    requires place { at.at < length run.old.heap.terms }
    ensures moved { OnOk result ((budget own : ℕ) → shown (code_of program.now budget) run.new ≡ moved (code_of program.now budget) run.old rest level (goal_move (code_of program.now budget) (Plain seer.now (get_or run.old.heap.terms at.at [])) own)) }
    ensures stands { OnOk result (Stands run.new) }
{
    let goal = run.heap.end(at);
    let Some((name, arity)) = functor_of(&run.heap, goal)? else {
        run.go(Point::Fails);
        return Ok(());
    };
    run_named(program, run, seer, &name, arity, goal, rest, level)?;
    Ok(())
}

/// Runs the goal that has, with the bindings, this name and arity.
fn run_named(
    program: &Program,
    run: &mut Run,
    seer: &Name,
    name: &Name,
    arity: u16,
    goal: Ref,
    rest: u32,
    level: u64,
) -> Result<(), AllocError>
    requires good { IsGood program.now }
    requires holds { Holds run.old }
    requires rest { rest < length run.old.goals }
    requires goal { goal.at < length run.old.heap.terms }
    requires functor { functor_in (instance_in (here_of run.old) goal.at) ≡ Some (name.now, arity) }
    ensures moved { OnOk result ((budget : ℕ) → shown (code_of program.now budget) run.new ≡ moved (code_of program.now budget) run.old rest level (plain_row (code_of program.now budget) seer.now (instance_in (here_of run.old) goal.at))) }
    ensures stands { OnOk result (Stands run.new) }
{
    let ran = run_builtin(program, run, seer, name, arity, goal, rest, level)?;
    if ran {
        return Ok(());
    }
    run_pred(program, run, seer, name, arity, goal, rest, level)?;
    Ok(())
}
