ghost use Rattle.std.specs.Prelude.{◌≡◌, ℕ, ◌+◌, ◌<◌, ◌≤◌, [], take, drop, length, get_or, OnOk};
ghost use Rattle.cp_code.specs.Bodies as body;
ghost use Rattle.cp_code.specs.Code.{Code};
ghost use Rattle.cp_code.specs.Machine.{goal_move};
ghost use Rattle.cp_run.specs.Shown.{shown, moved};
ghost use Rattle.cp_run.specs.Stands.{Holds, Stands};

use crate::entering::enter;
use crate::extended::places_from;
use crate::raising::{context_of, raise_unbound};
use cp_heap::{Ref, Refs};
use cp_request::is_unbound;
use cp_run::{Item, Run};
use cp_term::Name;
use std::alloc::AllocError;

/// `call/N`: a goal with further arguments behind its own, which stand side by side from a place on (ISO/IEC
/// 13211-1:1995/Cor.2, 8.15.4).
pub fn run_call(
    run: &mut Run,
    seer: &Name,
    goal: Ref,
    first: u32,
    count: u16,
    rest: u32,
    level: u64,
) -> Result<(), AllocError>
    requires holds { Holds run.old }
    requires goal { goal.at < length run.old.heap.terms }
    requires extra { first + count ≤ length run.old.heap.terms }
    requires rest { rest < length run.old.goals }
    ensures moved { OnOk result ((code : Code) (own : ℕ) → shown code run.new ≡ moved code run.old rest level (goal_move code (body.CallOf seer.now (get_or run.old.heap.terms goal.at []) (take count (drop first run.old.heap.terms))) own)) }
    ensures stands { OnOk result (Stands run.new) }
{
    let Some(arity) = count.checked_add(1) else {
        return Err(AllocError);
    };
    let _mark = run.heap.mark();
    let extra = places_from(run.alloc, first, count)?;
    let context = context_of(run.alloc, seer, b"call", arity)?;
    enter(run, seer, goal, &extra, &context, rest, level)?;
    Ok(())
}

/// `catch/3` (ISO/IEC 13211-1, 7.8.9).
pub fn run_catch(
    run: &mut Run,
    seer: &Name,
    goal: Ref,
    ball: Ref,
    recovery: Ref,
    rest: u32,
    level: u64,
) -> Result<(), AllocError>
    requires holds { Holds run.old }
    requires goal { goal.at < length run.old.heap.terms }
    requires ball { ball.at < length run.old.heap.terms }
    requires recovery { recovery.at < length run.old.heap.terms }
    requires rest { rest < length run.old.goals }
    ensures moved { OnOk result ((code : Code) (own : ℕ) → shown code run.new ≡ moved code run.old rest level (goal_move code (body.CatchOf seer.now (get_or run.old.heap.terms goal.at []) (get_or run.old.heap.terms ball.at []) (get_or run.old.heap.terms recovery.at [])) own)) }
    ensures stands { OnOk result (Stands run.new) }
{
    let Some(catcher) = level.checked_add(1) else {
        return Err(AllocError);
    };
    let context = context_of(run.alloc, seer, b"catch", 3)?;
    let protected = run.put(Item::Leave { catcher }, rest)?;
    run.push_catching(seer.clone()?, ball, recovery, rest, level)?;
    enter(
        run,
        seer,
        goal,
        &Refs::new(run.alloc),
        &context,
        protected,
        level,
    )?;
    Ok(())
}

/// `throw/1` (ISO/IEC 13211-1, 7.8.10).
pub fn run_throw(
    run: &mut Run,
    seer: &Name,
    ball: Ref,
    rest: u32,
    level: u64,
) -> Result<(), AllocError>
    requires holds { Holds run.old }
    requires ball { ball.at < length run.old.heap.terms }
    requires rest { rest < length run.old.goals }
    ensures moved { OnOk result ((code : Code) (own : ℕ) → shown code run.new ≡ moved code run.old rest level (goal_move code (body.ThrowOf seer.now (get_or run.old.heap.terms ball.at [])) own)) }
    ensures stands { OnOk result (Stands run.new) }
{
    let context = context_of(run.alloc, seer, b"throw", 1)?;
    if is_unbound(&run.heap, ball) {
        raise_unbound(run, &context, rest)?;
        return Ok(());
    }
    run.throw_copy(ball, &context, rest)?;
    Ok(())
}
