ghost use Rattle.std.specs.Prelude.{◌≡◌, ◌<◌, length, MatchOption, true, false};
ghost use Rattle.cp_term.specs.Preorder.{is_terms};
ghost use Rattle.cp_goal.specs.Builtins.{is_atom};
ghost use Rattle.cp_heap.specs.State.{instance_at};
ghost use Rattle.cp_heap.specs.Looks.{name_of};
ghost use Rattle.cp_code.specs.Requests.{has_module, is_qualified, is_unbound};
ghost use Rattle.cp_request.specs.Shapes.{has_name, IsPlace, HasNoArguments, IsUnary, IsPair, IsQualified};

use cp_heap::{Heap, Look, Ref};

/// Whether the term is an atom or a compound with this name.
pub fn has_name(heap: &Heap, at: Ref, word: &[u8]) -> bool
    requires { IsPlace heap.now at }
    ensures { result ≡ has_name word.now (name_of (instance_at heap.now at.at)) }
{
    match heap.name(at) {
        Some(name) => name.bytes() == word,
        None => false,
    }
}

/// Whether the term is an atom.
pub fn is_atom(heap: &Heap, at: Ref) -> bool
    requires { IsPlace heap.now at }
    ensures { result ≡ is_atom (instance_at heap.now at.at) }
{
    match heap.look(at) {
        Look::Atom => true,
        Look::Var(_, _) => false,
        Look::Int(_) => false,
        Look::Func(_) => false,
    }
}

/// Whether the term is an unbound variable.
pub fn is_unbound(heap: &Heap, at: Ref) -> bool
    requires { IsPlace heap.now at }
    ensures { result ≡ is_unbound (instance_at heap.now at.at) }
{
    match heap.look(at) {
        Look::Var(_, _) => true,
        Look::Int(_) => false,
        Look::Atom => false,
        Look::Func(_) => false,
    }
}

/// The argument of a compound of one argument.
pub(crate) fn argument_of(heap: &Heap, at: Ref) -> Option<Ref>
    requires { IsPlace heap.now at }
    ensures { MatchOption result (HasNoArguments 1 (instance_at heap.now at.at)) (λ a. IsUnary heap.now at a) }
{
    match heap.look(at) {
        Look::Func(1) => {
            let Some(argument) = heap.argument(at, 0) else {
                unreachable!()
            };
            Some(argument)
        }
        _ => None,
    }
}

/// The arguments of a compound of two arguments.
pub(crate) fn pair_of(heap: &Heap, at: Ref) -> Option<(Ref, Ref)>
    requires { IsPlace heap.now at }
    ensures pair { MatchOption result (HasNoArguments 2 (instance_at heap.now at.at)) (λ p. IsPair heap.now at p) }
    ensures term { is_terms 1 (instance_at heap.now at.at) ≡ true }
{
    match heap.look(at) {
        Look::Func(2) => {
            let Some(first) = heap.argument(at, 0) else {
                unreachable!()
            };
            let Some(second) = heap.argument(at, 1) else {
                unreachable!()
            };
            Some((first, second))
        }
        _ => None,
    }
}

/// Whether the term is `M:G`, whatever M is.
pub fn is_qualified(heap: &Heap, at: Ref) -> bool
    requires { IsPlace heap.now at }
    ensures { result ≡ is_qualified (instance_at heap.now at.at) }
{
    match heap.look(at) {
        Look::Func(2) => has_name(heap, at, b":"),
        _ => false,
    }
}

/// The module and the goal of a term `M:G` whose M is an atom.
pub fn qualified(heap: &Heap, at: Ref) -> Option<(Ref, Ref)>
    requires { IsPlace heap.now at }
    ensures pair { MatchOption result (has_module (instance_at heap.now at.at) ≡ false) (λ p. IsQualified heap.now at p) }
    ensures term { is_terms 1 (instance_at heap.now at.at) ≡ true }
{
    let pair = pair_of(heap, at)?;
    if has_name(heap, at, b":") && is_atom(heap, pair.0) {
        Some(pair)
    } else {
        None
    }
}
