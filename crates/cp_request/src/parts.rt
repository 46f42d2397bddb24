ghost use Rattle.std.specs.Prelude.{◌≡◌, true, false, codes};
ghost use Rattle.cp_heap.specs.State.{instance_at};
ghost use Rattle.cp_heap.specs.Looks.{name_of};
ghost use Rattle.cp_request.specs.Shapes.{has_name, IsPlace, IsCompound, IsUnary, IsPair};
ghost use Rattle.cp_request.specs.Parts.{IsMadeOf, is_junction};

use crate::looks::{argument_of, has_name, is_atom, pair_of};
use cp_heap::{Heap, Look, Ref};

/// Which parts of a term have to be bodies for the term to be one.
#[derive(Debug, Clone, Copy, Drop)]
pub(crate) enum Parts {
    /// It is no body, whatever its parts are.
    NoGoal,
    /// It is one, whatever its parts are.
    Goal,
    One(Ref),
    Two(Ref, Ref),
}

impl Parts {
    /// What the term at a place is made of.
    pub(crate) fn of(heap: &Heap, at: Ref) -> Parts
        requires { IsPlace heap.now at }
        ensures { IsMadeOf heap.now at result }
    {
        match heap.look(at) {
            Look::Int(_) => Parts::NoGoal,
            Look::Var(_, _) => Parts::Goal,
            Look::Atom => Parts::Goal,
            Look::Func(_) => Parts::of_compound(heap, at),
        }
    }

    fn of_compound(heap: &Heap, at: Ref) -> Parts
        requires place { IsPlace heap.now at }
        requires compound { IsCompound (instance_at heap.now at.at) }
        ensures { IsMadeOf heap.now at result }
    {
        if let Some(argument) = argument_of(heap, at) {
            return Parts::of_unary(heap, at, argument);
        }
        if let Some(pair) = pair_of(heap, at) {
            return Parts::of_pair(heap, at, pair);
        }
        Parts::Goal
    }

    fn of_unary(heap: &Heap, at: Ref, argument: Ref) -> Parts
        requires place { IsPlace heap.now at }
        requires unary { IsUnary heap.now at argument }
        ensures { IsMadeOf heap.now at result }
    {
        if has_name(heap, at, b"\\+") {
            Parts::One(argument)
        } else {
            Parts::Goal
        }
    }

    fn of_pair(heap: &Heap, at: Ref, pair: (Ref, Ref)) -> Parts
        requires place { IsPlace heap.now at }
        requires pair { IsPair heap.now at pair }
        ensures { IsMadeOf heap.now at result }
    {
        if is_junction(heap, at) {
            return Parts::Two(pair.0, pair.1);
        }
        if has_name(heap, at, b":") {
            return Parts::within(heap, at, pair);
        }
        Parts::Goal
    }

    fn within(heap: &Heap, at: Ref, pair: (Ref, Ref)) -> Parts
        requires pair { IsPair heap.now at pair }
        requires other { is_junction (name_of (instance_at heap.now at.at)) ≡ false }
        requires colon { has_name (codes ":") (name_of (instance_at heap.now at.at)) ≡ true }
        ensures { IsMadeOf heap.now at result }
    {
        if is_atom(heap, pair.0) {
            Parts::One(pair.1)
        } else {
            Parts::NoGoal
        }
    }
}

/// Whether it is named as a conjunction, a disjunction or an implication.
fn is_junction(heap: &Heap, at: Ref) -> bool
    requires { IsPlace heap.now at }
    ensures { result ≡ is_junction (name_of (instance_at heap.now at.at)) }
{
    has_name(heap, at, b",") || has_name(heap, at, b";") || has_name(heap, at, b"->")
}
