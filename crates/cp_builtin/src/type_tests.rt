ghost use Rattle.std.specs.Prelude.{◌≡◌, ◌<◌, length, IfOk};
ghost use Rattle.cp_heap.specs.State.{instance_at};
ghost use Rattle.cp_goal.specs.Builtins as tests;

use cp_goal::TypeTest;
use cp_heap::{Heap, Look, Ref};
use std::alloc::AllocError;

/// `var/1` and its kin.
pub(crate) fn passes(heap: &Heap, test: TypeTest, at: Ref) -> Result<bool, AllocError>
    requires { at.at < length heap.now.terms }
    ensures { IfOk result (λ answer. answer ≡ tests.passes test (instance_at heap.now at.at)) }
{
    match test {
        TypeTest::Var => Ok(is_variable(heap, at)),
        TypeTest::Nonvar => Ok(!is_variable(heap, at)),
        TypeTest::Atom => Ok(is_atom(heap, at)),
        TypeTest::Integer => Ok(is_integer(heap, at)),
        TypeTest::Atomic => Ok(is_atom(heap, at) || is_integer(heap, at)),
        TypeTest::Compound => Ok(is_compound(heap, at)),
        TypeTest::Callable => Ok(is_atom(heap, at) || is_compound(heap, at)),
        TypeTest::Ground => heap.is_ground(at),
    }
}

pub(crate) fn is_variable(heap: &Heap, at: Ref) -> bool
    requires { at.at < length heap.now.terms }
    ensures { result ≡ tests.is_variable (instance_at heap.now at.at) }
{
    match heap.look(at) {
        Look::Var(_, _) => true,
        Look::Int(_) => false,
        Look::Atom => false,
        Look::Func(_) => false,
    }
}

fn is_integer(heap: &Heap, at: Ref) -> bool
    requires { at.at < length heap.now.terms }
    ensures { result ≡ tests.is_integer (instance_at heap.now at.at) }
{
    match heap.look(at) {
        Look::Var(_, _) => false,
        Look::Int(_) => true,
        Look::Atom => false,
        Look::Func(_) => false,
    }
}

fn is_atom(heap: &Heap, at: Ref) -> bool
    requires { at.at < length heap.now.terms }
    ensures { result ≡ tests.is_atom (instance_at heap.now at.at) }
{
    match heap.look(at) {
        Look::Var(_, _) => false,
        Look::Int(_) => false,
        Look::Atom => true,
        Look::Func(_) => false,
    }
}

fn is_compound(heap: &Heap, at: Ref) -> bool
    requires { at.at < length heap.now.terms }
    ensures { result ≡ tests.is_compound (instance_at heap.now at.at) }
{
    match heap.look(at) {
        Look::Var(_, _) => false,
        Look::Int(_) => false,
        Look::Atom => false,
        Look::Func(_) => true,
    }
}
