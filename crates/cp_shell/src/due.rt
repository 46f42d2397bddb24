ghost use Rattle.std.specs.Prelude.{◌≡◌, true, ℕ, List, [], ◌∷◌, ◌++◌, IfOk, OnOk};
ghost use Rattle.std.specs.List.{list_all};
ghost use Rattle.cp_call.specs.declared.item.Item.{Item};
ghost use Rattle.cp_call.specs.Added.{Leads};
ghost use Rattle.cp_call.specs.Life as life;
ghost use Rattle.cp_shell.specs.Due.{IsDueOf};
ghost use Rattle.cp_shell.specs.Stage.{IsAt, is_settled};
ghost use Rattle.cp_shell.specs.Parked.{is_remote};

use crate::ask::ItemRoom;
use crate::remote_goal::remote_goal;
use crate::stage::Stage;
use cp_call::{Caller, Machine, Next, RemoteCall};
use std::alloc::{AllocError, Global};

/// What a stage comes to: a remote call that is due, or the stage itself.
#[derive(Drop)]
pub enum Due {
    Call { number: i64, call: RemoteCall },
    Nothing { stage: Stage },
}

/// The remote call that is due at a stage, if one is.
fn due_of(stage: Stage) -> Due
    ensures { IsDueOf stage result }
{
    match stage {
        Stage::Idle => Due::Nothing { stage: Stage::Idle },
        Stage::Ends { number, end } => Due::Nothing {
            stage: Stage::Ends { number, end },
        },
        Stage::Runs {
            number,
            request: Next::Remote { call },
        } => Due::Call { number, call },
        Stage::Runs { number, request } => Due::Nothing {
            stage: Stage::Runs { number, request },
        },
    }
}

fn forget(_stage: Stage) {}

/// Makes the remote calls that are due before the next event. A worker has at most 4,294,967,295 events; one more is
/// refused as want of memory.
pub(crate) fn call_due<M: Machine, C: Caller>(
    alloc: Global,
    machine: &mut M,
    stage: Stage,
    items: &mut ItemRoom,
    caller: &mut C,
) -> Result<Stage, AllocError>
    requires at { IsAt (M.Rule.asks (M.code machine.old)) (M.Rule.objects (M.code machine.old)) (M.continuation machine.old) (M.failed machine.old) (life.last_stage (M.Rule.asks (M.code machine.old)) life.Idle items.old.items) stage }
    ensures code { M.code machine.new ≡ M.code machine.old }
    ensures called { (calls : List Item) × (items.new.items ≡ items.old.items ++ calls) × (list_all is_remote calls ≡ true) × OnOk result (Leads C.went caller.old calls caller.new) }
    ensures life { life.IsWorkersLife (M.Rule.asks (M.code machine.old)) items.old.items → life.IsWorkersLife (M.Rule.asks (M.code machine.old)) items.new.items }
    ensures at { IfOk result (IsAt (M.Rule.asks (M.code machine.old)) (M.Rule.objects (M.code machine.old)) (M.continuation machine.new) (M.failed machine.new) (life.last_stage (M.Rule.asks (M.code machine.old)) life.Idle items.new.items)) }
    ensures settled { IfOk result (λ stage. is_settled stage ≡ true) }
{
    let mut stage = stage;
    for _ in 0..u32::MAX {
        match due_of(stage) {
            Due::Nothing { stage } => return Ok(stage),
            Due::Call { number, call } => {
                stage = remote_goal(alloc, machine, number, call, items, caller)?;
            }
        }
    }
    forget(stage);
    Err(AllocError)
}
