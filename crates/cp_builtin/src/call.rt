ghost use Rattle.std.specs.Prelude.{◌≡◌, ◌<◌, true, length, is_some, IfOk};
ghost use Rattle.cp_heap.specs.State.{term, terms_at, substitution, Extends, AreRefs};
ghost use Rattle.cp_goal.specs.Names.{builtin_named};
ghost use Rattle.cp_goal.specs.Builtins as rows;
ghost use Rattle.cp_builtin.specs.Ends.{HasEnded, IsOutcome, end_of_goal};

use crate::argument::argument;
use crate::atom_codes::atom_codes;
use crate::atom_length::atom_length;
use crate::ball::outcome_of;
use crate::copy::copied;
use crate::ended::Ended;
use crate::evaluate::{evaluated, related};
use crate::functor::functor;
use crate::number_codes::number_codes;
use crate::order::{compared, in_order};
use crate::outcome::Outcome1;
use crate::type_tests::passes;
use crate::unified::{not_unified, unified};
use crate::univ::univ;
use cp_goal::Builtin;
use cp_heap::{Heap, Ref, Refs};
use cp_term::PredName;
use std::alloc::{AllocError, Global};

/// Calls the builtin with this name and arity. The module of the name is that of the context of its errors. Where the goal
/// fails or raises an error, or memory is wanting, terms, variables and bindings may be left that `undo_to` takes back.
pub fn call_builtin(
    alloc: Global,
    heap: &mut Heap,
    name: &PredName,
    args: &Refs,
) -> Result<Outcome1, AllocError>
    requires builtin { is_some (builtin_named name.now.name name.now.arity) ≡ true }
    requires arity { length args.now ≡ name.now.arity }
    requires live { AreRefs heap.old args.now }
    ensures outcome { IfOk result (λ outcome. IsOutcome heap.new name.now outcome (end_of_goal (builtin_named name.now.name name.now.arity) (terms_at heap.old args.now) (substitution heap.old) heap.old.variables)) }
    ensures extends { Extends heap.old heap.new }
{
    let Some(goal) = Builtin::named(name.name.bytes(), name.arity) else {
        unreachable!()
    };
    let ended = call(alloc, heap, goal, args.as_slice())?;
    outcome_of(alloc, heap, name, ended)
}

fn call(alloc: Global, heap: &mut Heap, goal: Builtin, args: &[Ref]) -> Result<Ended, AllocError>
    requires { AreRefs heap.old args.now }
    ensures ended { IfOk result (λ ended. HasEnded heap.new ended (rows.builtin goal (terms_at heap.old args.now) (substitution heap.old) heap.old.variables)) }
    ensures extends { Extends heap.old heap.new }
{
    match args {
        [x] => call_one(heap, goal, *x),
        [x, y] => call_two(alloc, heap, goal, *x, *y),
        [x, y, z] => call_three(alloc, heap, goal, *x, *y, *z),
        _ => Ok(Ended::Fails),
    }
}

fn call_one(heap: &mut Heap, goal: Builtin, x: Ref) -> Result<Ended, AllocError>
    requires { x.at < length heap.old.terms }
    ensures ended { IfOk result (λ ended. HasEnded heap.new ended (rows.one_argument goal (term heap.old x.at) (substitution heap.old) heap.old.variables)) }
    ensures extends { Extends heap.old heap.new }
{
    match goal {
        Builtin::Is(test) => {
            let holds = passes(heap, test, x)?;
            Ok(Ended::where_true(holds))
        }
        _ => Ok(Ended::Fails),
    }
}

fn call_two(
    alloc: Global,
    heap: &mut Heap,
    goal: Builtin,
    x: Ref,
    y: Ref,
) -> Result<Ended, AllocError>
    requires x { x.at < length heap.old.terms }
    requires y { y.at < length heap.old.terms }
    ensures ended { IfOk result (λ ended. HasEnded heap.new ended (rows.two_arguments goal (term heap.old x.at) (term heap.old y.at) (substitution heap.old) heap.old.variables)) }
    ensures extends { Extends heap.old heap.new }
{
    match goal {
        Builtin::Unify => unified(alloc, heap, x, y),
        Builtin::NotUnify => not_unified(alloc, heap, x, y),
        Builtin::InOrder(relation) => Ok(Ended::where_true(in_order(heap, relation, x, y))),
        Builtin::CopyTerm => copied(alloc, heap, x, y),
        Builtin::Evaluate => evaluated(alloc, heap, x, y),
        Builtin::InValue(relation) => related(alloc, heap, relation, x, y),
        Builtin::Univ => univ(alloc, heap, x, y),
        Builtin::AtomCodes => atom_codes(alloc, heap, x, y),
        Builtin::NumberCodes => number_codes(alloc, heap, x, y),
        Builtin::AtomLength => atom_length(alloc, heap, x, y),
        _ => Ok(Ended::Fails),
    }
}

fn call_three(
    alloc: Global,
    heap: &mut Heap,
    goal: Builtin,
    x: Ref,
    y: Ref,
    z: Ref,
) -> Result<Ended, AllocError>
    requires x { x.at < length heap.old.terms }
    requires y { y.at < length heap.old.terms }
    requires z { z.at < length heap.old.terms }
    ensures ended { IfOk result (λ ended. HasEnded heap.new ended (rows.three_arguments goal (term heap.old x.at) (term heap.old y.at) (term heap.old z.at) (substitution heap.old) heap.old.variables)) }
    ensures extends { Extends heap.old heap.new }
{
    match goal {
        Builtin::Compare => compared(alloc, heap, x, y, z),
        Builtin::Functor => functor(alloc, heap, x, y, z),
        Builtin::Argument => argument(alloc, heap, x, y, z),
        _ => Ok(Ended::Fails),
    }
}
