ghost use Rattle.std.specs.Prelude.{◌≡◌, ◌<◌, true, length, MatchResult};
ghost use Rattle.cp_term.specs.Preorder.{is_terms};
ghost use Rattle.cp_heap.specs.State.{instance_at};
ghost use Rattle.cp_goal.specs.Evaluation.{value};
ghost use Rattle.cp_arith.specs.declared.now.Now.TheVariants.{At};
ghost use Rattle.cp_arith.specs.Frames.{meaning, value_at, AreLive, Advances, StopsAt, IsCompound, IsNotEvaluable};

use crate::frame::{Frame, Frames};
use crate::now::Now;
use crate::stop::Stop;
use cp_goal::{Binary, Unary, Why};
use cp_heap::{Heap, Look, Ref};
use std::alloc::AllocError;

/// Looks at an expression: an integer is its own value, and an operation is put on the frames behind its first operand.
pub fn enter(heap: &Heap, at: Ref, frames: &mut Frames) -> Result<Now, Stop>
    requires place { at.at < length heap.now.terms }
    requires frames { AreLive heap.now frames.old }
    ensures { MatchResult result (λ next. Advances heap.now frames.old (At at) frames.new next) (λ stop. StopsAt stop (meaning heap.now frames.old (At at))) }
{
    match heap.look(at) {
        Look::Var(_, _) => Err(Stop::NoValue(Why::Unbound)),
        Look::Int(integer) => Ok(Now::Behind(integer)),
        Look::Atom => Err(not_evaluable(heap, at, 0)),
        Look::Func(1) => enter_unary(heap, at, frames),
        Look::Func(2) => enter_binary(heap, at, frames),
        Look::Func(arity) => Err(not_evaluable(heap, at, arity)),
    }
}

/// An atom or a compound of so many arguments that is no operation.
fn not_evaluable(heap: &Heap, at: Ref, arity: u16) -> Stop
    requires place { at.at < length heap.now.terms }
    requires value { IsNotEvaluable (instance_at heap.now at.at) arity }
    ensures { StopsAt result (value_at heap.now at.at) }
{
    match heap.name(at) {
        Some(name) => match name.clone() {
            Ok(name) => Stop::NoValue(Why::NotEvaluable(name, arity)),
            Err(_) => Stop::NoMemory,
        },
        None => unreachable!(),
    }
}

fn enter_unary(heap: &Heap, at: Ref, frames: &mut Frames) -> Result<Now, Stop>
    requires place { at.at < length heap.now.terms }
    requires frames { AreLive heap.now frames.old }
    requires compound { IsCompound (instance_at heap.now at.at) 1 }
    requires term { is_terms 1 (instance_at heap.now at.at) ≡ true }
    ensures { MatchResult result (λ next. Advances heap.now frames.old (At at) frames.new next) (λ stop. StopsAt stop (meaning heap.now frames.old (At at))) }
{
    let Some(name) = heap.name(at) else {
        unreachable!()
    };
    let Some(op) = Unary::named(name.bytes()) else {
        return Err(Stop::NoValue(Why::NotEvaluable(name.clone()?, 1)));
    };
    let Some(operand) = heap.argument(at, 0) else {
        unreachable!()
    };
    frames.push(Frame::Only(op))?;
    Ok(Now::At(operand))
}

fn enter_binary(heap: &Heap, at: Ref, frames: &mut Frames) -> Result<Now, Stop>
    requires place { at.at < length heap.now.terms }
    requires frames { AreLive heap.now frames.old }
    requires compound { IsCompound (instance_at heap.now at.at) 2 }
    requires term { is_terms 1 (instance_at heap.now at.at) ≡ true }
    ensures { MatchResult result (λ next. Advances heap.now frames.old (At at) frames.new next) (λ stop. StopsAt stop (meaning heap.now frames.old (At at))) }
{
    let Some(name) = heap.name(at) else {
        unreachable!()
    };
    let Some(op) = Binary::named(name.bytes()) else {
        return Err(Stop::NoValue(Why::NotEvaluable(name.clone()?, 2)));
    };
    let Some(first) = heap.argument(at, 0) else {
        unreachable!()
    };
    let Some(second) = heap.argument(at, 1) else {
        unreachable!()
    };
    frames.push(Frame::First(op, second))?;
    Ok(Now::At(first))
}
