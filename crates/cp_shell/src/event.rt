ghost use Rattle.std.specs.Prelude.{◌≡◌, ◌≤◌, ℕ, true, List, [], ◌∷◌, ◌++◌, length, IsTrue, IfOk};
ghost use Rattle.cp_call.specs.declared.item.Item.{Item};
ghost use Rattle.cp_call.specs.Added.{HasAdded, AsksForOne, WritesForOne};
ghost use Rattle.cp_call.specs.Life as life;
ghost use Rattle.cp_shell.specs.Stage.{IsAt, is_settled};
ghost use Rattle.cp_shell.specs.Parked.{HasMadeOne};
ghost use Rattle.cp_shell.specs.Turn.{HasTurned};

use crate::ask::ItemRoom;
use crate::ask_goal::ask_goal;
use crate::end_goal::end_goal;
use crate::look::look;
use crate::put_goal::put_goal;
use crate::stage::Stage;
use crate::turn::Turn;
use cp_call::{Asker, Machine, Next, Writer};
use std::alloc::{AllocError, Global};

/// Makes one event of a worker whose request is no remote call, or none where it is still parked.
pub(crate) fn make_event<M: Machine, A: Asker, P: Writer>(
    alloc: Global,
    machine: &mut M,
    stage: Stage,
    number: u32,
    items: &mut ItemRoom,
    asker: &mut A,
    port: &mut P,
) -> Result<Turn, AllocError>
    requires two { 2 ≤ length (A.objects asker.old) }
    requires objects { M.Rule.objects (M.code machine.old) ≡ length (A.objects asker.old) }
    requires asks { IsTrue (A.serves asker.old number) }
    requires writes { IsTrue (P.serves port.old number) }
    requires at { IsAt (M.Rule.asks (M.code machine.old)) (M.Rule.objects (M.code machine.old)) (M.continuation machine.old) (M.failed machine.old) (life.last_stage (M.Rule.asks (M.code machine.old)) life.Idle items.old.items) stage }
    requires settled { is_settled stage ≡ true }
    ensures code { M.code machine.new ≡ M.code machine.old }
    ensures added { (added : List Item) × (items.new.items ≡ items.old.items ++ added) × HasAdded (A.objects asker.old) (A.seen asker.old number) (A.seen asker.new number) (P.wrote port.old number) (P.wrote port.new number) number added }
    ensures life { life.IsWorkersLife (M.Rule.asks (M.code machine.old)) items.old.items → life.IsWorkersLife (M.Rule.asks (M.code machine.old)) items.new.items }
    ensures once { HasMadeOne items.old.items items.new.items }
    ensures turned { IfOk result (λ turn. HasTurned (M.Rule.asks (M.code machine.old)) (A.objects asker.old) (M.continuation machine.new) (M.failed machine.new) items.old.items items.new.items (A.seen asker.new number) number turn.stage turn.parked) }
    ensures others { AsksForOne number (A.objects asker.old) (A.objects asker.new) (A.serves asker.old) (A.serves asker.new) (A.seen asker.old) (A.seen asker.new) (A.looked asker.old) (A.looked asker.new) }
    ensures others_written { WritesForOne number (P.serves port.old) (P.serves port.new) (P.wrote port.old) (P.wrote port.new) }
    ensures asker { A.stays asker.old asker.new }
    ensures port { P.stays port.old port.new }
{
    match stage {
        Stage::Idle => look(alloc, machine, number, items, asker),
        Stage::Ends { number: goal, end } => end_goal(alloc, goal, end, number, items, asker),
        Stage::Runs {
            number: goal,
            request: Next::Ask { object, call },
        } => ask_goal(alloc, machine, goal, object, call, number, items, asker),
        Stage::Runs {
            number: goal,
            request: Next::Put { bytes },
        } => put_goal(alloc, machine, goal, bytes, number, items, port),
        Stage::Runs { .. } => unreachable!(),
    }
}
