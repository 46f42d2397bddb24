ghost use Rattle.std.specs.Prelude.{◌≡◌, ◌≤◌, ℕ, List, [], ◌∷◌, ◌++◌, length, IsTrue, IfOk, None};
ghost use Rattle.cp_term.specs.declared.cell.Cell.TheVariants.{Var};
ghost use Rattle.cp_call.specs.declared.item.Item.{Item};
ghost use Rattle.cp_call.specs.declared.outcome.OutEntry.{OutEntry};
ghost use Rattle.cp_call.specs.Added.{HasAdded, AsksForOne};
ghost use Rattle.cp_call.specs.Life as life;
ghost use Rattle.cp_shell.specs.Parked.{HasMadeOne};
ghost use Rattle.cp_shell.specs.Turn.{HasTurned};

use crate::ask::{ItemRoom, ask};
use crate::stage::any_term;
use crate::turn::{Turn, forget, looked};
use cp_call::{Asker, Call, Machine};
use std::alloc::{AllocError, Global};

/// A worker that has no goal asks the list of goals for one.
pub(crate) fn look<M: Machine, A: Asker>(
    alloc: Global,
    machine: &mut M,
    number: u32,
    items: &mut ItemRoom,
    asker: &mut A,
) -> Result<Turn, AllocError>
    requires two { 2 ≤ length (A.objects asker.old) }
    requires objects { M.Rule.objects (M.code machine.old) ≡ length (A.objects asker.old) }
    requires serves { IsTrue (A.serves asker.old number) }
    requires at { life.last_stage (M.Rule.asks (M.code machine.old)) life.Idle items.old.items ≡ life.Idle }
    ensures code { M.code machine.new ≡ M.code machine.old }
    ensures added { (wrote : List OutEntry) → (added : List Item) × (items.new.items ≡ items.old.items ++ added) × HasAdded (A.objects asker.old) (A.seen asker.old number) (A.seen asker.new number) wrote wrote number added }
    ensures life { life.IsWorkersLife (M.Rule.asks (M.code machine.old)) items.old.items → life.IsWorkersLife (M.Rule.asks (M.code machine.old)) items.new.items }
    ensures once { HasMadeOne items.old.items items.new.items }
    ensures turned { IfOk result (λ turn. HasTurned (M.Rule.asks (M.code machine.old)) (A.objects asker.old) (M.continuation machine.new) (M.failed machine.new) items.old.items items.new.items (A.seen asker.new number) number turn.stage turn.parked) }
    ensures others { AsksForOne number (A.objects asker.old) (A.objects asker.new) (A.serves asker.old) (A.serves asker.new) (A.seen asker.old) (A.seen asker.new) (A.looked asker.old) (A.looked asker.new) }
    ensures stays { A.stays asker.old asker.new }
{
    let call = Call::Take {
        pattern: any_term(alloc)?,
        after: None,
    };
    let asked = ask(asker, number, items, 0, &call);
    forget(call);
    looked(alloc, machine, asked?)
}
