ghost use Rattle.std.specs.Prelude.{◌≡◌, ◌≢◌, ℕ, ℤ, List, [], ◌∷◌, ◌++◌, IfOk};
ghost use Rattle.cp_term.specs.declared.cell.Cell.{Cell};
ghost use Rattle.cp_call.specs.declared.item.Input.{Input};
ghost use Rattle.cp_call.specs.declared.item.Next.{Next};
ghost use Rattle.cp_call.specs.declared.call.Reply.TheVariants as reply;
ghost use Rattle.cp_call.specs.Life as life;
ghost use Rattle.cp_call.specs.Machine.{IsDue};
ghost use Rattle.cp_shell.specs.Stage.{IsAt, IsRunningGoal};

use crate::stage::{Stage, stage_of};
use cp_call::{Input, Machine};
use cp_term::Term;
use std::alloc::{AllocError, Global};

/// Begins the goal of this number.
pub(crate) fn start<M: Machine>(
    alloc: Global,
    machine: &mut M,
    number: i64,
    goal: &Term,
) -> Result<Stage, AllocError>
    ensures code { M.code machine.new ≡ M.code machine.old }
    ensures at { IfOk result (IsAt (M.Rule.asks (M.code machine.old)) (M.Rule.objects (M.code machine.old)) (M.continuation machine.new) (M.failed machine.new) (life.runs_on (M.Rule.asks (M.code machine.old)) number goal.now [])) }
{
    let next = machine.start(goal)?;
    stage_of(alloc, number, next)
}

/// Hands the running goal of this number what it asked for.
pub(crate) fn hand<M: Machine>(
    alloc: Global,
    machine: &mut M,
    number: i64,
    input: Input,
) -> Result<Stage, AllocError>
    requires due { IsDue (M.continuation machine.old []) input }
    ensures code { M.code machine.new ≡ M.code machine.old }
    ensures at { IfOk result (λ stage. (goal : List Cell) (inputs : List Input) → ((more : List Input) → M.continuation machine.old more ≡ M.Rule.asks (M.code machine.old) goal (inputs ++ more)) → IsAt (M.Rule.asks (M.code machine.old)) (M.Rule.objects (M.code machine.old)) (M.continuation machine.new) (M.failed machine.new) (life.runs_on (M.Rule.asks (M.code machine.old)) number goal (inputs ++ input ∷ [])) stage) }
{
    let next = machine.step(input)?;
    stage_of(alloc, number, next)
}
