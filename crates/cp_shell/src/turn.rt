ghost use Rattle.std.specs.Prelude.{◌≡◌, ◌<◌, ◌≤◌, ℕ, ℤ, Bool, List, [], ◌∷◌, ◌++◌, length, IsTrue, IfOk, Option, Some, None, slice_get};
ghost use Rattle.cp_term.specs.declared.cell.Cell.{Cell};
ghost use Rattle.cp_term.specs.declared.cell.Cell.TheVariants.{Var};
ghost use Rattle.cp_call.specs.declared.call.Call.TheVariants as call;
ghost use Rattle.cp_call.specs.declared.item.Item.{Item};
ghost use Rattle.cp_call.specs.declared.item.Next.TheVariants as next;
ghost use Rattle.cp_call.specs.declared.item.Next.{Next};
ghost use Rattle.cp_call.specs.declared.item.Input.{Input};
ghost use Rattle.cp_call.specs.declared.outcome.OutEntry.{OutEntry};
ghost use Rattle.cp_call.specs.Added.{HasAdded, AsksForOne, WritesForOne};
ghost use Rattle.cp_call.specs.Life as life;
ghost use Rattle.cp_shell.specs.Stage.{IsAt, IsRunningGoal};
ghost use Rattle.cp_shell.specs.Parked.{is_parking};
ghost use Rattle.cp_shell.specs.Turn.{after_answer, parked_at};

use crate::advance::{hand, start};
use crate::stage::Stage;
use cp_call::{Call, Input, Machine, Next, Reply};
use cp_term::Term;
use std::alloc::{AllocError, Global};

/// What a turn leaves: the stage after it, and the object where the engine is parked, if it is.
#[derive(Drop)]
pub struct Turn {
    pub stage: Stage,
    pub parked: Option<u32>,
}

/// Whether the reply says that the caller is parked.
fn is_parked(reply: &Reply) -> bool
    ensures { result ≡ is_parking reply.now }
{
    matches!(reply, Reply::Parked)
}

/// Lets a call go.
pub(crate) fn forget(_call: Call) {}

/// Begins the goal that was found, if one was.
fn found<M: Machine>(alloc: Global, machine: &mut M, reply: Reply) -> Result<Stage, AllocError>
    ensures code { M.code machine.new ≡ M.code machine.old }
    ensures at { IfOk result (IsAt (M.Rule.asks (M.code machine.old)) (M.Rule.objects (M.code machine.old)) (M.continuation machine.new) (M.failed machine.new) (life.replied (M.Rule.asks (M.code machine.old)) life.Idle reply)) }
{
    match reply {
        Reply::Found { place, fact } => start(alloc, machine, place, &fact),
        _ => Ok(Stage::Idle),
    }
}

/// After the list of goals was asked for a goal.
pub(crate) fn looked<M: Machine>(
    alloc: Global,
    machine: &mut M,
    answer: Option<Reply>,
) -> Result<Turn, AllocError>
    ensures code { M.code machine.new ≡ M.code machine.old }
    ensures at { IfOk result (λ turn. IsAt (M.Rule.asks (M.code machine.old)) (M.Rule.objects (M.code machine.old)) (M.continuation machine.new) (M.failed machine.new) (after_answer (M.Rule.asks (M.code machine.old)) life.Idle answer) turn.stage) }
    ensures parked { IfOk result (λ turn. turn.parked ≡ parked_at 0 answer) }
{
    match answer {
        None => Ok(Turn {
            stage: Stage::Idle,
            parked: Some(0),
        }),
        Some(reply) => {
            let parked = if is_parked(&reply) { Some(0) } else { None };
            let stage = found(alloc, machine, reply)?;
            Ok(Turn { stage, parked })
        }
    }
}

/// After the goal of this number was replied by an object that it asked.
fn replied<M: Machine>(
    alloc: Global,
    machine: &mut M,
    number: i64,
    object: u32,
    call: Call,
    reply: Reply,
) -> Result<Stage, AllocError>
    requires { (at : life.WorkerStage) × IsRunningGoal (M.Rule.asks (M.code machine.old)) (M.Rule.objects (M.code machine.old)) (M.continuation machine.old) (M.failed machine.old) at number (next.Ask object call) }
    ensures code { M.code machine.new ≡ M.code machine.old }
    ensures at { IfOk result (λ stage. (at : life.WorkerStage) → IsRunningGoal (M.Rule.asks (M.code machine.old)) (M.Rule.objects (M.code machine.old)) (M.continuation machine.old) (M.failed machine.old) at number (next.Ask object call) → IsAt (M.Rule.asks (M.code machine.old)) (M.Rule.objects (M.code machine.old)) (M.continuation machine.new) (M.failed machine.new) (life.replied (M.Rule.asks (M.code machine.old)) at reply) stage) }
{
    if is_parked(&reply) {
        return Ok(Stage::Runs {
            number,
            request: Next::Ask { object, call },
        });
    }
    forget(call);
    hand(alloc, machine, number, Input::Reply(reply))
}

/// After the goal of this number asked an object.
pub(crate) fn answered<M: Machine>(
    alloc: Global,
    machine: &mut M,
    number: i64,
    object: u32,
    call: Call,
    answer: Option<Reply>,
) -> Result<Turn, AllocError>
    requires { (at : life.WorkerStage) × IsRunningGoal (M.Rule.asks (M.code machine.old)) (M.Rule.objects (M.code machine.old)) (M.continuation machine.old) (M.failed machine.old) at number (next.Ask object call) }
    ensures code { M.code machine.new ≡ M.code machine.old }
    ensures at { IfOk result (λ turn. (at : life.WorkerStage) → IsRunningGoal (M.Rule.asks (M.code machine.old)) (M.Rule.objects (M.code machine.old)) (M.continuation machine.old) (M.failed machine.old) at number (next.Ask object call) → IsAt (M.Rule.asks (M.code machine.old)) (M.Rule.objects (M.code machine.old)) (M.continuation machine.new) (M.failed machine.new) (after_answer (M.Rule.asks (M.code machine.old)) at answer) turn.stage) }
    ensures parked { IfOk result (λ turn. turn.parked ≡ parked_at object answer) }
{
    match answer {
        None => Ok(Turn {
            stage: Stage::Runs {
                number,
                request: Next::Ask { object, call },
            },
            parked: Some(object),
        }),
        Some(reply) => {
            let parked = if is_parked(&reply) {
                Some(object)
            } else {
                None
            };
            let stage = replied(alloc, machine, number, object, call, reply)?;
            Ok(Turn { stage, parked })
        }
    }
}

/// After the list of ended goals was told how the goal of this number ended.
pub(crate) fn said(number: i64, end: Term, answer: Option<Reply>) -> Turn
    ensures at { (rule : life.Rule) (objects : ℕ) (continuation : List Input → Next) (failed : Bool) → IsAt rule objects continuation failed (after_answer rule (life.Ends number end) answer) result.stage }
    ensures parked { result.parked ≡ parked_at 1 answer }
{
    match answer {
        None => Turn {
            stage: Stage::Ends { number, end },
            parked: Some(1),
        },
        Some(reply) => {
            if is_parked(&reply) {
                return Turn {
                    stage: Stage::Ends { number, end },
                    parked: Some(1),
                };
            }
            Turn {
                stage: Stage::Idle,
                parked: None,
            }
        }
    }
}
