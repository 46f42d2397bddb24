ghost use Rattle.std.specs.Prelude.{◌≡◌, ◌<◌, true, length, IfOk};
ghost use Rattle.cp_heap.specs.State.{instance_at};
ghost use Rattle.cp_goal.specs.Builtins as tests;
ghost use Rattle.cp_goal.specs.Lists.{spine};
ghost use Rattle.cp_code.specs.Properties as properties;

use cp_heap::{Heap, Look, Ref, Refs};
use cp_lists::Spine;
use std::alloc::{AllocError, Global};

pub(crate) fn is_variable(heap: &Heap, at: Ref) -> bool
    requires { at.at < length heap.now.terms }
    ensures { result ≡ tests.is_variable (instance_at heap.now at.at) }
{
    match heap.look(at) {
        Look::Var(_, _) => true,
        Look::Int(_) => false,
        Look::Atom => false,
        Look::Func(_) => false,
    }
}

pub(crate) fn is_integer(heap: &Heap, at: Ref) -> bool
    requires { at.at < length heap.now.terms }
    ensures { result ≡ tests.is_integer (instance_at heap.now at.at) }
{
    match heap.look(at) {
        Look::Var(_, _) => false,
        Look::Int(_) => true,
        Look::Atom => false,
        Look::Func(_) => false,
    }
}

/// Whether the term is an integer from 0 on.
pub(crate) fn is_natural(heap: &Heap, at: Ref) -> bool
    requires { at.at < length heap.now.terms }
    ensures { result ≡ properties.is_natural (instance_at heap.now at.at) }
{
    match heap.look(at) {
        Look::Var(_, _) => false,
        Look::Int(integer) => integer >= 0,
        Look::Atom => false,
        Look::Func(_) => false,
    }
}

pub(crate) fn is_atom(heap: &Heap, at: Ref) -> bool
    requires { at.at < length heap.now.terms }
    ensures { result ≡ tests.is_atom (instance_at heap.now at.at) }
{
    match heap.look(at) {
        Look::Var(_, _) => false,
        Look::Int(_) => false,
        Look::Atom => true,
        Look::Func(_) => false,
    }
}

pub(crate) fn is_compound(heap: &Heap, at: Ref) -> bool
    requires { at.at < length heap.now.terms }
    ensures { result ≡ tests.is_compound (instance_at heap.now at.at) }
{
    match heap.look(at) {
        Look::Var(_, _) => false,
        Look::Int(_) => false,
        Look::Atom => false,
        Look::Func(_) => true,
    }
}

/// Whether the term is a list whose end is there (ISO/IEC 13211-1, 6.3.5).
pub(crate) fn is_proper_list(alloc: Global, heap: &Heap, at: Ref) -> Result<bool, AllocError>
    requires { at.at < length heap.now.terms }
    ensures { IfOk result (λ answer. answer ≡ properties.is_proper (spine (instance_at heap.now at.at))) }
{
    match Spine::of(alloc, heap, at)? {
        Spine::Proper(elements) => Ok(dropped(elements)),
        Spine::Partial => Ok(false),
        Spine::Improper => Ok(false),
    }
}

fn dropped(_elements: Refs) -> bool
    ensures { result ≡ true }
{
    true
}
