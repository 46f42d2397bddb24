ghost use Rattle.std.specs.Prelude.{◌≡◌, ◌<◌, true, length};
ghost use Rattle.cp_term.specs.Preorder.{is_terms};
ghost use Rattle.cp_heap.specs.State.{instance_at};
ghost use Rattle.cp_lists.specs.Steps.{IsStep, IsAtom, IsPair, IsDotted};

use cp_heap::{Heap, Look, Ref};

/// What stands first in a term, as a list.
#[derive(Debug, Clone, Copy, Drop)]
pub enum Step {
    /// An element, and the list behind it.
    Element(Ref, Ref),
    /// The empty list.
    End,
    /// A variable that is not bound.
    Open,
    /// No list.
    Other,
}

pub fn step_at(heap: &Heap, at: Ref) -> Step
    requires { at.at < length heap.now.terms }
    ensures { IsStep heap.now (instance_at heap.now at.at) result }
{
    match heap.look(at) {
        Look::Var(_, _) => Step::Open,
        Look::Int(_) => Step::Other,
        Look::Atom => step_at_atom(heap, at),
        Look::Func(2) => step_at_pair(heap, at),
        Look::Func(_) => Step::Other,
    }
}

fn step_at_atom(heap: &Heap, at: Ref) -> Step
    requires place { at.at < length heap.now.terms }
    requires atom { IsAtom (instance_at heap.now at.at) }
    ensures { IsStep heap.now (instance_at heap.now at.at) result }
{
    let Some(name) = heap.name(at) else {
        unreachable!()
    };
    if name.bytes() == b"[]".as_slice() {
        Step::End
    } else {
        Step::Other
    }
}

fn step_at_pair(heap: &Heap, at: Ref) -> Step
    requires place { at.at < length heap.now.terms }
    requires pair { IsPair (instance_at heap.now at.at) }
    requires term { is_terms 1 (instance_at heap.now at.at) ≡ true }
    ensures { IsStep heap.now (instance_at heap.now at.at) result }
{
    let Some(name) = heap.name(at) else {
        unreachable!()
    };
    if name.bytes() == b".".as_slice() {
        element(heap, at)
    } else {
        Step::Other
    }
}

/// The arguments of a compound of two.
fn element(heap: &Heap, at: Ref) -> Step
    requires place { at.at < length heap.now.terms }
    requires pair { IsDotted (instance_at heap.now at.at) }
    requires term { is_terms 1 (instance_at heap.now at.at) ≡ true }
    ensures { IsStep heap.now (instance_at heap.now at.at) result }
{
    let Some(head) = heap.argument(at, 0) else {
        unreachable!()
    };
    let Some(tail) = heap.argument(at, 1) else {
        unreachable!()
    };
    Step::Element(head, tail)
}
