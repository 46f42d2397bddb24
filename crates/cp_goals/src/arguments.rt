ghost use Rattle.std.specs.Prelude.{◌≡◌, ◌<◌, length, slice_get, IfOk, Some};
ghost use Rattle.cp_term.specs.Preorder.{arguments};
ghost use Rattle.cp_heap.specs.State.{AreRefs, instance_at};
ghost use Rattle.cp_lists.specs.Places.{instances};
ghost use Rattle.cp_code.specs.Tree.{first_of};
ghost use Rattle.cp_request.specs.Posted.{posted_terms, HasPost};

use cp_heap::{Heap, Look, Ref, Refs};
use cp_request::PostGoal;
use std::alloc::{AllocError, Global};

/// The first argument of a compound, with the bindings.
pub(crate) fn first_argument(heap: &Heap, goal: Ref) -> Ref
    requires place { goal.at < length heap.now.terms }
    requires some { 0 < length (arguments (instance_at heap.now goal.at)) }
    ensures place { result.at < length heap.now.terms }
    ensures argument { instance_at heap.now result.at ≡ first_of (arguments (instance_at heap.now goal.at)) }
{
    argument_at(heap, goal, 0)
}

/// The argument with this number, from 0.
fn argument_at(heap: &Heap, goal: Ref, index: u16) -> Ref
    requires place { goal.at < length heap.now.terms }
    requires some { index < length (arguments (instance_at heap.now goal.at)) }
    ensures place { result.at < length heap.now.terms }
    ensures argument { slice_get (arguments (instance_at heap.now goal.at)) index ≡ Some (instance_at heap.now result.at) }
{
    match heap.argument(goal, index) {
        Some(at) => at,
        None => unreachable!(),
    }
}

/// The four arguments of `eng_call`.
pub(crate) fn post_arguments(heap: &Heap, goal: Ref) -> PostGoal
    requires place { goal.at < length heap.now.terms }
    requires four { length (arguments (instance_at heap.now goal.at)) ≡ 4 }
    ensures places { HasPost heap.now result }
    ensures arguments { posted_terms heap.now result ≡ arguments (instance_at heap.now goal.at) }
{
    PostGoal {
        goal: argument_at(heap, goal, 0),
        engine: argument_at(heap, goal, 1),
        thread: argument_at(heap, goal, 2),
        id: argument_at(heap, goal, 3),
    }
}

/// The places of the arguments of a term, with the bindings.
pub fn arguments_of(alloc: Global, heap: &Heap, at: Ref) -> Result<Refs, AllocError>
    requires { at.at < length heap.now.terms }
    ensures live { IfOk result (λ places. AreRefs heap.now places) }
    ensures instances { IfOk result (λ places. instances heap.now places ≡ arguments (instance_at heap.now at.at)) }
{
    let arity = arity_of(heap, at);
    let mut places = Refs::new(alloc);
    'arguments: for index in 0..arity {
        match heap.argument(at, index) {
            Some(argument) => places.push(argument)?,
            None => unreachable!(),
        }
    }
    Ok(places)
}

/// How many arguments a term has, with the bindings.
fn arity_of(heap: &Heap, at: Ref) -> u16
    requires { at.at < length heap.now.terms }
    ensures { length (arguments (instance_at heap.now at.at)) ≡ result }
{
    match heap.look(at) {
        Look::Func(arity) => arity,
        Look::Var(_, _) => 0,
        Look::Int(_) => 0,
        Look::Atom => 0,
    }
}
