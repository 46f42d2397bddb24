ghost use Rattle.std.specs.Prelude.{◌≡◌, ◌≤◌, true, ℕ, List, [], ◌∷◌, ◌++◌, length, IsTrue, IfOk, OnOk};
ghost use Rattle.cp_call.specs.declared.item.Item.{Item};
ghost use Rattle.cp_call.specs.Added.{HasAdded, AsksForOne, WritesForOne, Leads};
ghost use Rattle.cp_call.specs.Life as life;
ghost use Rattle.cp_shell.specs.Stage.{IsAt, is_settled};
ghost use Rattle.cp_shell.specs.Parked.{HasMadeAtMost};
ghost use Rattle.cp_shell.specs.Turn.{HasTurned};

use crate::ask::ItemRoom;
use crate::due::call_due;
use crate::event::make_event;
use crate::stage::Stage;
use crate::turn::Turn;
use cp_call::{Asker, Caller, Machine, Writer};
use std::alloc::{AllocError, Global};

/// Makes one event of a worker and then the remote calls that are due before the next one, or nothing where it is still
/// parked.
pub fn make_turn<M: Machine, A: Asker, P: Writer, C: Caller>(
    alloc: Global,
    machine: &mut M,
    stage: Stage,
    number: u32,
    items: &mut ItemRoom,
    asker: &mut A,
    port: &mut P,
    caller: &mut C,
) -> Result<Turn, AllocError>
    requires two { 2 ≤ length (A.objects asker.old) }
    requires objects { M.Rule.objects (M.code machine.old) ≡ length (A.objects asker.old) }
    requires asks { IsTrue (A.serves asker.old number) }
    requires writes { IsTrue (P.serves port.old number) }
    requires at { IsAt (M.Rule.asks (M.code machine.old)) (M.Rule.objects (M.code machine.old)) (M.continuation machine.old) (M.failed machine.old) (life.last_stage (M.Rule.asks (M.code machine.old)) life.Idle items.old.items) stage }
    requires settled { is_settled stage ≡ true }
    ensures code { M.code machine.new ≡ M.code machine.old }
    ensures added { (added : List Item) × (items.new.items ≡ items.old.items ++ added) × HasAdded (A.objects asker.old) (A.seen asker.old number) (A.seen asker.new number) (P.wrote port.old number) (P.wrote port.new number) number added × OnOk result (Leads C.went caller.old added caller.new) }
    ensures once { HasMadeAtMost items.old.items items.new.items }
    ensures life { life.IsWorkersLife (M.Rule.asks (M.code machine.old)) items.old.items → life.IsWorkersLife (M.Rule.asks (M.code machine.old)) items.new.items }
    ensures turned { IfOk result (λ turn. HasTurned (M.Rule.asks (M.code machine.old)) (A.objects asker.old) (M.continuation machine.new) (M.failed machine.new) items.old.items items.new.items (A.seen asker.new number) number turn.stage turn.parked) }
    ensures settled { IfOk result (λ turn. is_settled turn.stage ≡ true) }
    ensures others { AsksForOne number (A.objects asker.old) (A.objects asker.new) (A.serves asker.old) (A.serves asker.new) (A.seen asker.old) (A.seen asker.new) (A.looked asker.old) (A.looked asker.new) }
    ensures others_written { WritesForOne number (P.serves port.old) (P.serves port.new) (P.wrote port.old) (P.wrote port.new) }
    ensures asker { A.stays asker.old asker.new }
    ensures port { P.stays port.old port.new }
{
    let turn = make_event(alloc, machine, stage, number, items, asker, port)?;
    match turn.parked {
        Some(object) => Ok(Turn {
            stage: turn.stage,
            parked: Some(object),
        }),
        None => Ok(Turn {
            stage: call_due(alloc, machine, turn.stage, items, caller)?,
            parked: None,
        }),
    }
}
