ghost use Rattle.std.specs.Prelude.{◌≡◌, ◌≤◌, ℕ, List, [], ◌∷◌, ◌++◌, length, IsTrue, IfOk, None};
ghost use Rattle.cp_call.specs.declared.item.Item.{Item};
ghost use Rattle.cp_call.specs.declared.item.Input.{Input};
ghost use Rattle.cp_call.specs.declared.item.Next.{Next};
ghost use Rattle.cp_call.specs.declared.outcome.OutEntry.{OutEntry};
ghost use Rattle.cp_call.specs.Added.{HasAdded, AsksForOne};
ghost use Rattle.cp_call.specs.Life as life;
ghost use Rattle.cp_shell.specs.Parked.{HasMadeOne};
ghost use Rattle.cp_shell.specs.Turn.{HasTurned};
ghost use Rattle.std.specs.Prelude.{Bool};

use crate::ask::{ItemRoom, ask};
use crate::stage::ended_term;
use crate::turn::{Turn, forget, said};
use cp_call::{Asker, Call};
use cp_term::Term;
use std::alloc::{AllocError, Global};

/// A worker whose goal of this number has ended tells the list of ended goals so.
pub(crate) fn end_goal<A: Asker>(
    alloc: Global,
    goal: i64,
    end: Term,
    number: u32,
    items: &mut ItemRoom,
    asker: &mut A,
) -> Result<Turn, AllocError>
    requires two { 2 ≤ length (A.objects asker.old) }
    requires serves { IsTrue (A.serves asker.old number) }
    ensures added { (wrote : List OutEntry) → (added : List Item) × (items.new.items ≡ items.old.items ++ added) × HasAdded (A.objects asker.old) (A.seen asker.old number) (A.seen asker.new number) wrote wrote number added }
    ensures life { (rule : life.Rule) → life.last_stage rule life.Idle items.old.items ≡ life.Ends goal end → life.IsWorkersLife rule items.old.items → life.IsWorkersLife rule items.new.items }
    ensures once { HasMadeOne items.old.items items.new.items }
    ensures turned { IfOk result (λ turn. (rule : life.Rule) (continuation : List Input → Next) (failed : Bool) → life.last_stage rule life.Idle items.old.items ≡ life.Ends goal end → HasTurned rule (A.objects asker.old) continuation failed items.old.items items.new.items (A.seen asker.new number) number turn.stage turn.parked) }
    ensures others { AsksForOne number (A.objects asker.old) (A.objects asker.new) (A.serves asker.old) (A.serves asker.new) (A.seen asker.old) (A.seen asker.new) (A.looked asker.old) (A.looked asker.new) }
    ensures stays { A.stays asker.old asker.new }
{
    let call = Call::AddBack {
        fact: ended_term(alloc, goal, &end)?,
    };
    let asked = ask(asker, number, items, 1, &call);
    forget(call);
    Ok(said(goal, end, asked?))
}
