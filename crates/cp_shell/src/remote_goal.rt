ghost use Rattle.std.specs.Prelude.{◌≡◌, true, ℕ, List, [], ◌∷◌, ◌++◌, IfOk, OnOk};
ghost use Rattle.std.specs.List.{list_all};
ghost use Rattle.cp_call.specs.declared.item.Item.{Item};
ghost use Rattle.cp_call.specs.declared.item.Next.TheVariants as next;
ghost use Rattle.cp_call.specs.Added.{Leads};
ghost use Rattle.cp_call.specs.Life as life;
ghost use Rattle.cp_shell.specs.Stage.{IsAt, IsRunningGoal};
ghost use Rattle.cp_shell.specs.Parked.{is_remote};

use crate::advance::hand;
use crate::ask::ItemRoom;
use crate::copy::copy_reply;
use crate::stage::Stage;
use cp_call::{Caller, Input, Item, Machine, RemoteCall};
use std::alloc::{AllocError, Global};

/// The goal of this number makes a remote call.
pub(crate) fn remote_goal<M: Machine, C: Caller>(
    alloc: Global,
    machine: &mut M,
    goal: i64,
    call: RemoteCall,
    items: &mut ItemRoom,
    caller: &mut C,
) -> Result<Stage, AllocError>
    requires at { IsRunningGoal (M.Rule.asks (M.code machine.old)) (M.Rule.objects (M.code machine.old)) (M.continuation machine.old) (M.failed machine.old) (life.last_stage (M.Rule.asks (M.code machine.old)) life.Idle items.old.items) goal (next.Remote call) }
    ensures code { M.code machine.new ≡ M.code machine.old }
    ensures called { (calls : List Item) × (items.new.items ≡ items.old.items ++ calls) × (list_all is_remote calls ≡ true) × OnOk result (Leads C.went caller.old calls caller.new) }
    ensures life { life.IsWorkersLife (M.Rule.asks (M.code machine.old)) items.old.items → life.IsWorkersLife (M.Rule.asks (M.code machine.old)) items.new.items }
    ensures at { IfOk result (IsAt (M.Rule.asks (M.code machine.old)) (M.Rule.objects (M.code machine.old)) (M.continuation machine.new) (M.failed machine.new) (life.last_stage (M.Rule.asks (M.code machine.old)) life.Idle items.new.items)) }
{
    items.reserve(1)?;
    let reply = caller.remote(&call)?;
    let copy = copy_reply(alloc, &reply);
    items.put(Item::Remote { call, reply });
    hand(alloc, machine, goal, Input::Remote(copy?))
}
