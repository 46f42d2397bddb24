ghost use Rattle.std.specs.Prelude.{◌≡◌, ◌<◌, [], ℕ, true, List, map, length, get_or, is_some, OnOk};
ghost use Rattle.cp_term.specs.declared.cell.Cell.{Cell};
ghost use Rattle.cp_term.specs.Substitution.{apply};
ghost use Rattle.cp_heap.specs.State.{AreRefs, terms_at};
ghost use Rattle.cp_code.specs.Bodies.{body_of};
ghost use Rattle.cp_code.specs.Code.{Code};
ghost use Rattle.cp_code.specs.Requests.{full_name};
ghost use Rattle.cp_code.specs.Tree as tree;
ghost use Rattle.cp_run.specs.Shown.{bound, goal_shown, here_of, instance_in, shown, moved};
ghost use Rattle.cp_run.specs.Stands.{HasGoal, Holds, Stands};
ghost use Rattle.cp_enter.specs.Rows.{enter_row, goal_row, body_row, opened_row};

use crate::extended::Extended;
use crate::raising::{raise_not_callable, raise_unbound};
use cp_heap::{Ref, Refs};
use cp_request::{SeenGoal, is_body, is_qualified, is_unbound};
use cp_run::{Goal, Item, Point, Run};
use cp_term::{Name, PredName};
use std::alloc::AllocError;

/// Runs a term as a goal (ISO/IEC 13211-1, 7.8.3), with further arguments behind its own, as the module `seer` sees it, at a
/// level of its own. An error names the predicate `context`.
pub fn enter(
    run: &mut Run,
    seer: &Name,
    goal: Ref,
    extra: &Refs,
    context: &PredName,
    rest: u32,
    level: u64,
) -> Result<(), AllocError>
    requires holds { Holds run.old }
    requires goal { goal.at < length run.old.heap.terms }
    requires extra { AreRefs run.old.heap extra.now }
    requires rest { rest < length run.old.goals }
    ensures moved { OnOk result ((code : Code) → shown code run.new ≡ moved code run.old rest level (enter_row seer.now (get_or run.old.heap.terms goal.at []) (terms_at run.old.heap extra.now) (full_name context.now))) }
    ensures stands { OnOk result (Stands run.new) }
{
    let seen = SeenGoal::of(&run.heap, goal);
    if is_unbound(&run.heap, seen.goal) {
        raise_unbound(run, context, rest)?;
        return Ok(());
    }
    let inner = seen.seer(&run.heap, seer).clone()?;
    enter_seen(run, &inner, seen.goal, extra, context, rest, level)?;
    Ok(())
}

/// Runs a term that is no variable as a goal, with further arguments behind its own, without the modules in front of it.
fn enter_seen(
    run: &mut Run,
    seer: &Name,
    goal: Ref,
    extra: &Refs,
    context: &PredName,
    rest: u32,
    level: u64,
) -> Result<(), AllocError>
    requires holds { Holds run.old }
    requires goal { goal.at < length run.old.heap.terms }
    requires extra { AreRefs run.old.heap extra.now }
    requires rest { rest < length run.old.goals }
    ensures moved { OnOk result ((code : Code) → shown code run.new ≡ moved code run.old rest level (goal_row seer.now (tree.extended (instance_in (here_of run.old) goal.at) (map (apply (bound (here_of run.old))) (terms_at run.old.heap extra.now))) (full_name context.now))) }
    ensures stands { OnOk result (Stands run.new) }
{
    if extra.is_empty() {
        enter_term(run, seer, goal, context, rest, level)?;
        return Ok(());
    }
    if is_qualified(&run.heap, goal) {
        raise_not_callable(run, goal, context, rest)?;
        return Ok(());
    }
    enter_longer(run, seer, goal, extra, context, rest, level)?;
    Ok(())
}

/// Runs a term as a goal, with one or more further arguments behind its own.
fn enter_longer(
    run: &mut Run,
    seer: &Name,
    goal: Ref,
    extra: &Refs,
    context: &PredName,
    rest: u32,
    level: u64,
) -> Result<(), AllocError>
    requires holds { Holds run.old }
    requires goal { goal.at < length run.old.heap.terms }
    requires extra { AreRefs run.old.heap extra.now }
    requires some { 0 < length extra.now }
    requires rest { rest < length run.old.goals }
    ensures moved { OnOk result ((code : Code) → shown code run.new ≡ moved code run.old rest level (goal_row seer.now (tree.longer (instance_in (here_of run.old) goal.at) (map (apply (bound (here_of run.old))) (terms_at run.old.heap extra.now))) (full_name context.now))) }
    ensures stands { OnOk result (Stands run.new) }
{
    match Extended::of(run.alloc, &mut run.heap, goal, extra)? {
        Extended::Goal(at) => {
            enter_term(run, seer, at, context, rest, level)?;
            Ok(())
        }
        Extended::Error(kind) => {
            run.raise(kind, context, rest)?;
            Ok(())
        }
    }
}

/// Runs a term as a goal, if it is one.
fn enter_term(
    run: &mut Run,
    seer: &Name,
    goal: Ref,
    context: &PredName,
    rest: u32,
    level: u64,
) -> Result<(), AllocError>
    requires holds { Holds run.old }
    requires goal { goal.at < length run.old.heap.terms }
    requires rest { rest < length run.old.goals }
    ensures moved { OnOk result ((code : Code) → shown code run.new ≡ moved code run.old rest level (body_row (body_of seer.now (instance_in (here_of run.old) goal.at)) (instance_in (here_of run.old) goal.at) (full_name context.now))) }
    ensures stands { OnOk result (Stands run.new) }
{
    if is_body(run.alloc, &run.heap, goal)? {
        open_term(run, seer, goal, rest, level)?;
        return Ok(());
    }
    raise_not_callable(run, goal, context, rest)?;
    Ok(())
}

/// Runs the instance of a term, which is a goal, at a level that is opened.
fn open_term(run: &mut Run, seer: &Name, goal: Ref, rest: u32, level: u64) -> Result<(), AllocError>
    requires holds { Holds run.old }
    requires goal { goal.at < length run.old.heap.terms }
    requires body { is_some (body_of seer.now (instance_in (here_of run.old) goal.at)) ≡ true }
    requires rest { rest < length run.old.goals }
    ensures moved { OnOk result ((code : Code) (g ctx : List Cell) → shown code run.new ≡ moved code run.old rest level (body_row (body_of seer.now (instance_in (here_of run.old) goal.at)) g ctx)) }
    ensures stands { OnOk result (Stands run.new) }
{
    let Some(inner) = level.checked_add(1) else {
        return Err(AllocError);
    };
    let at = run.instance(goal)?;
    let seer = seer.clone()?;
    open_goal(run, Goal::Term { seer, at }, rest, inner)?;
    Ok(())
}

/// Runs a goal at a level that is opened.
fn open_goal(run: &mut Run, goal: Goal, rest: u32, inner: u64) -> Result<(), AllocError>
    requires holds { Holds run.old }
    requires goal { HasGoal run.old.heap.terms goal }
    requires rest { rest < length run.old.goals }
    ensures moved { OnOk result ((code : Code) (level : ℕ) → shown code run.new ≡ moved code run.old rest level (opened_row (goal_shown run.old.heap.terms goal) inner)) }
    ensures stands { OnOk result (Stands run.new) }
{
    let goals = run.put(Item::Goal { goal, level: inner }, rest)?;
    run.push_opened(inner)?;
    run.go(Point::Runs {
        goals,
        level: inner,
    });
    Ok(())
}
