ghost use Rattle.std.specs.Prelude.{◌≡◌, ◌≤◌, ℕ, List, [], ◌∷◌, ◌++◌, length, IsTrue, IfOk, None};
ghost use Rattle.cp_call.specs.declared.call.Entry.{Entry};
ghost use Rattle.cp_call.specs.declared.item.Item.{Item};
ghost use Rattle.cp_call.specs.declared.item.Next.TheVariants as next;
ghost use Rattle.cp_call.specs.Added.{HasAdded, WritesForOne};
ghost use Rattle.cp_call.specs.Life as life;
ghost use Rattle.cp_call.specs.Sound.{Object};
ghost use Rattle.cp_shell.specs.Stage.{IsRunningGoal};
ghost use Rattle.cp_shell.specs.Parked.{HasMadeOne};
ghost use Rattle.cp_shell.specs.Turn.{HasTurned};

use crate::advance::hand;
use crate::ask::ItemRoom;
use crate::turn::Turn;
use cp_call::{Input, Item, Machine, Writer};
use cp_io::Bytes;
use std::alloc::{AllocError, Global};

/// The goal of this number writes on the port.
pub(crate) fn put_goal<M: Machine, P: Writer>(
    alloc: Global,
    machine: &mut M,
    goal: i64,
    bytes: Bytes,
    number: u32,
    items: &mut ItemRoom,
    port: &mut P,
) -> Result<Turn, AllocError>
    requires serves { IsTrue (P.serves port.old number) }
    requires at { IsRunningGoal (M.Rule.asks (M.code machine.old)) (M.Rule.objects (M.code machine.old)) (M.continuation machine.old) (M.failed machine.old) (life.last_stage (M.Rule.asks (M.code machine.old)) life.Idle items.old.items) goal (next.Put bytes) }
    ensures code { M.code machine.new ≡ M.code machine.old }
    ensures added { (objects : List Object) (seen : ℕ → List Entry) → (added : List Item) × (items.new.items ≡ items.old.items ++ added) × HasAdded objects seen seen (P.wrote port.old number) (P.wrote port.new number) number added }
    ensures life { life.IsWorkersLife (M.Rule.asks (M.code machine.old)) items.old.items → life.IsWorkersLife (M.Rule.asks (M.code machine.old)) items.new.items }
    ensures once { HasMadeOne items.old.items items.new.items }
    ensures turned { IfOk result (λ turn. (objects : List Object) (seen : ℕ → List Entry) → M.Rule.objects (M.code machine.old) ≡ length objects → HasTurned (M.Rule.asks (M.code machine.old)) objects (M.continuation machine.new) (M.failed machine.new) items.old.items items.new.items seen number turn.stage turn.parked) }
    ensures others { WritesForOne number (P.serves port.old) (P.serves port.new) (P.wrote port.old) (P.wrote port.new) }
    ensures stays { P.stays port.old port.new }
{
    items.reserve(1)?;
    let reply = port.write(number, &bytes)?;
    items.put(Item::Wrote { bytes, reply });
    let stage = hand(alloc, machine, goal, Input::Put(reply))?;
    Ok(Turn {
        stage,
        parked: None,
    })
}
