ghost use Rattle.std.specs.Prelude.{◌≡◌, ◌≤◌, ℕ, List, [], ◌∷◌, ◌++◌, length, IsTrue, IfOk, None};
ghost use Rattle.cp_call.specs.declared.item.Item.{Item};
ghost use Rattle.cp_call.specs.declared.item.Next.TheVariants as next;
ghost use Rattle.cp_call.specs.declared.outcome.OutEntry.{OutEntry};
ghost use Rattle.cp_call.specs.Added.{HasAdded, AsksForOne};
ghost use Rattle.cp_call.specs.Life as life;
ghost use Rattle.cp_shell.specs.Stage.{IsRunningGoal};
ghost use Rattle.cp_shell.specs.Parked.{HasMadeOne};
ghost use Rattle.cp_shell.specs.Turn.{HasTurned};

use crate::ask::{ItemRoom, ask};
use crate::turn::{Turn, answered, forget};
use cp_call::{Asker, Call, Machine};
use std::alloc::{AllocError, Global};

/// The goal of this number asks an object.
pub(crate) fn ask_goal<M: Machine, A: Asker>(
    alloc: Global,
    machine: &mut M,
    goal: i64,
    object: u32,
    call: Call,
    number: u32,
    items: &mut ItemRoom,
    asker: &mut A,
) -> Result<Turn, AllocError>
    requires objects { M.Rule.objects (M.code machine.old) ≡ length (A.objects asker.old) }
    requires serves { IsTrue (A.serves asker.old number) }
    requires at { IsRunningGoal (M.Rule.asks (M.code machine.old)) (M.Rule.objects (M.code machine.old)) (M.continuation machine.old) (M.failed machine.old) (life.last_stage (M.Rule.asks (M.code machine.old)) life.Idle items.old.items) goal (next.Ask object call) }
    ensures code { M.code machine.new ≡ M.code machine.old }
    ensures added { (wrote : List OutEntry) → (added : List Item) × (items.new.items ≡ items.old.items ++ added) × HasAdded (A.objects asker.old) (A.seen asker.old number) (A.seen asker.new number) wrote wrote number added }
    ensures life { life.IsWorkersLife (M.Rule.asks (M.code machine.old)) items.old.items → life.IsWorkersLife (M.Rule.asks (M.code machine.old)) items.new.items }
    ensures once { HasMadeOne items.old.items items.new.items }
    ensures turned { IfOk result (λ turn. HasTurned (M.Rule.asks (M.code machine.old)) (A.objects asker.old) (M.continuation machine.new) (M.failed machine.new) items.old.items items.new.items (A.seen asker.new number) number turn.stage turn.parked) }
    ensures others { AsksForOne number (A.objects asker.old) (A.objects asker.new) (A.serves asker.old) (A.serves asker.new) (A.seen asker.old) (A.seen asker.new) (A.looked asker.old) (A.looked asker.new) }
    ensures stays { A.stays asker.old asker.new }
{
    match ask(asker, number, items, object, &call) {
        Ok(answer) => answered(alloc, machine, goal, object, call, answer),
        Err(error) => {
            forget(call);
            Err(error)
        }
    }
}
