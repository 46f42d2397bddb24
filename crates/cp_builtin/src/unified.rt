ghost use Rattle.std.specs.Prelude.{◌≡◌, ◌<◌, ◌∷◌, [], length, IfOk, not, is_some};
ghost use Rattle.cp_term.specs.declared.cell.Cell.TheVariants.{Int as IntCell};
ghost use Rattle.cp_term.specs.Unification as definition;
ghost use Rattle.cp_heap.specs.State.{term, substitution, instance_at, Extends};
ghost use Rattle.cp_goal.specs.Errors.{word};
ghost use Rattle.cp_goal.specs.Builtins.{by, where_true};
ghost use Rattle.cp_builtin.specs.Ends.{HasEnded};

use crate::ended::Ended;
use cp_heap::{Heap, Ref};
use cp_term::Name;
use cp_unify::{unify, unify_since};
use std::alloc::{AllocError, Global};

/// `=/2`: makes two terms one.
pub(crate) fn unified(alloc: Global, heap: &mut Heap, x: Ref, y: Ref) -> Result<Ended, AllocError>
    requires x { x.at < length heap.old.terms }
    requires y { y.at < length heap.old.terms }
    ensures ended { IfOk result (λ ended. HasEnded heap.new ended (by (definition.unify (substitution heap.old) (term heap.old x.at) (term heap.old y.at)) heap.old.variables)) }
    ensures instance { IfOk result (λ ended. HasEnded heap.new ended (by (definition.unify (substitution heap.old) (term heap.old x.at) (instance_at heap.old y.at)) heap.old.variables)) }
    ensures extends { Extends heap.old heap.new }
{
    let mark = heap.mark();
    let unified = unify_since(alloc, heap, mark, x, y)?;
    if unified {
        Ok(Ended::Succeeds)
    } else {
        Ok(Ended::Fails)
    }
}

/// Makes a term this integer.
pub(crate) fn unified_integer(
    alloc: Global,
    heap: &mut Heap,
    x: Ref,
    integer: i64,
) -> Result<Ended, AllocError>
    requires x { x.at < length heap.old.terms }
    ensures ended { IfOk result (λ ended. HasEnded heap.new ended (by (definition.unify (substitution heap.old) (term heap.old x.at) (IntCell integer ∷ [])) heap.old.variables)) }
    ensures extends { Extends heap.old heap.new }
{
    let made = heap.integer(integer)?;
    unified(alloc, heap, x, made)
}

/// Makes a term this atom.
pub(crate) fn unified_atom(
    alloc: Global,
    heap: &mut Heap,
    x: Ref,
    name: &Name,
) -> Result<Ended, AllocError>
    requires x { x.at < length heap.old.terms }
    ensures ended { IfOk result (λ ended. HasEnded heap.new ended (by (definition.unify (substitution heap.old) (term heap.old x.at) (word name.now)) heap.old.variables)) }
    ensures extends { Extends heap.old heap.new }
{
    let made = heap.atom(name)?;
    unified(alloc, heap, x, made)
}

/// `\=/2`: binds nothing.
pub(crate) fn not_unified(
    alloc: Global,
    heap: &mut Heap,
    x: Ref,
    y: Ref,
) -> Result<Ended, AllocError>
    requires x { x.at < length heap.old.terms }
    requires y { y.at < length heap.old.terms }
    ensures ended { IfOk result (λ ended. HasEnded heap.new ended (where_true (not (is_some (definition.unify (substitution heap.old) (term heap.old x.at) (term heap.old y.at)))) (substitution heap.old) heap.old.variables)) }
    ensures extends { Extends heap.old heap.new }
{
    let mark = heap.mark();
    let unified = unify(alloc, heap, x, y)?;
    heap.undo_to(mark);
    Ok(Ended::where_true(!unified))
}
