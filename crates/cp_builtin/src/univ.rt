ghost use Rattle.std.specs.Prelude.{◌≡◌, ◌<◌, List, [], ◌∷◌, length, IfOk, codes};
ghost use Rattle.cp_term.specs.declared.cell.Cell.{Cell};
ghost use Rattle.cp_term.specs.Unification as definition;
ghost use Rattle.cp_heap.specs.State.{term, substitution, instance_at, Extends, AreRefs};
ghost use Rattle.cp_goal.specs.Lists.{list_term, spine, Proper};
ghost use Rattle.cp_goal.specs.Errors as kinds;
ghost use Rattle.cp_goal.specs.Errors.{word};
ghost use Rattle.cp_goal.specs.Builtins.{Raises, by, univ_row, univ_by, or_raises, univ_term};
ghost use Rattle.cp_lists.specs.Places.{instances};
ghost use Rattle.cp_builtin.specs.Ends.{HasEnded};
ghost use Rattle.cp_builtin.specs.Parts.{parts, IsAtom};

use crate::compound::atom;
use crate::ended::Ended;
use crate::errors::{domain_error, instantiation_error, resource_error, type_error};
use crate::parts::{compound_of, parts_of};
use crate::unified::unified;
use cp_heap::{Heap, Look, Ref};
use cp_lists::{Spine, list_of};
use std::alloc::{AllocError, Global};

/// `=../2`.
pub(crate) fn univ(
    alloc: Global,
    heap: &mut Heap,
    whole: Ref,
    list: Ref,
) -> Result<Ended, AllocError>
    requires whole { whole.at < length heap.old.terms }
    requires list { list.at < length heap.old.terms }
    ensures ended { IfOk result (λ ended. HasEnded heap.new ended (univ_row (instance_at heap.old whole.at) (term heap.old whole.at) (term heap.old list.at) (substitution heap.old) heap.old.variables)) }
    ensures extends { Extends heap.old heap.new }
{
    match heap.look(whole) {
        Look::Var(_, _) => put_together(alloc, heap, whole, list),
        Look::Int(_) => taken_apart(alloc, heap, whole, list),
        Look::Atom => taken_apart(alloc, heap, whole, list),
        Look::Func(_) => taken_apart(alloc, heap, whole, list),
    }
}

/// Makes a list that of the name and the arguments of a term.
fn taken_apart(alloc: Global, heap: &mut Heap, whole: Ref, list: Ref) -> Result<Ended, AllocError>
    requires whole { whole.at < length heap.old.terms }
    requires list { list.at < length heap.old.terms }
    ensures ended { IfOk result (λ ended. HasEnded heap.new ended (by (definition.unify (substitution heap.old) (term heap.old list.at) (list_term (parts (instance_at heap.old whole.at)))) heap.old.variables)) }
    ensures extends { Extends heap.old heap.new }
{
    let parts = parts_of(alloc, heap, whole)?;
    let made = list_of(alloc, heap, &parts)?;
    unified(alloc, heap, list, made)
}

/// Makes a term that of a list of its name and arguments.
fn put_together(alloc: Global, heap: &mut Heap, whole: Ref, list: Ref) -> Result<Ended, AllocError>
    requires whole { whole.at < length heap.old.terms }
    requires list { list.at < length heap.old.terms }
    ensures ended { IfOk result (λ ended. HasEnded heap.new ended (univ_by (spine (instance_at heap.old list.at)) (instance_at heap.old list.at) (term heap.old whole.at) (substitution heap.old) heap.old.variables)) }
    ensures extends { Extends heap.old heap.new }
{
    let _mark = heap.mark();
    match Spine::of(alloc, heap, list)? {
        Spine::Proper(elements) => made_of(alloc, heap, whole, elements.as_slice()),
        Spine::Partial => instantiation_error(alloc, heap),
        Spine::Improper => type_error(alloc, heap, b"list", list),
    }
}

fn made_of(
    alloc: Global,
    heap: &mut Heap,
    whole: Ref,
    elements: &[Ref],
) -> Result<Ended, AllocError>
    requires whole { whole.at < length heap.old.terms }
    requires elements { AreRefs heap.old elements.now }
    ensures ended { IfOk result (λ ended. (list : List Cell) → HasEnded heap.new ended (univ_by (Proper (instances heap.old elements.now)) list (term heap.old whole.at) (substitution heap.old) heap.old.variables)) }
    ensures extends { Extends heap.old heap.new }
{
    match elements {
        [] => empty(alloc, heap),
        [head] => atomic(alloc, heap, whole, *head),
        [head, arguments @ ..] => compound(alloc, heap, whole, *head, arguments),
    }
}

/// An empty list has no name.
fn empty(alloc: Global, heap: &mut Heap) -> Result<Ended, AllocError>
    ensures ended { IfOk result (λ ended. HasEnded heap.new ended (Raises (kinds.domain_error (codes "non_empty_list") (word (codes "[]"))))) }
    ensures extends { Extends heap.old heap.new }
{
    let culprit = atom(alloc, heap, b"[]")?;
    domain_error(alloc, heap, b"non_empty_list", culprit)
}

/// The term of a list of one.
fn atomic(alloc: Global, heap: &mut Heap, whole: Ref, head: Ref) -> Result<Ended, AllocError>
    requires whole { whole.at < length heap.old.terms }
    requires head { head.at < length heap.old.terms }
    ensures ended { IfOk result (λ ended. HasEnded heap.new ended (or_raises (univ_term (instance_at heap.old head.at) []) (term heap.old whole.at) (substitution heap.old) heap.old.variables)) }
    ensures extends { Extends heap.old heap.new }
{
    match heap.look(head) {
        Look::Var(_, _) => instantiation_error(alloc, heap),
        Look::Int(_) => unified(alloc, heap, whole, head),
        Look::Atom => unified(alloc, heap, whole, head),
        Look::Func(_) => type_error(alloc, heap, b"atomic", head),
    }
}

/// The term of a list of a name and one or more arguments.
fn compound(
    alloc: Global,
    heap: &mut Heap,
    whole: Ref,
    head: Ref,
    arguments: &[Ref],
) -> Result<Ended, AllocError>
    requires whole { whole.at < length heap.old.terms }
    requires head { head.at < length heap.old.terms }
    requires some { 0 < length arguments.now }
    requires arguments { AreRefs heap.old arguments.now }
    ensures ended { IfOk result (λ ended. HasEnded heap.new ended (or_raises (univ_term (instance_at heap.old head.at) (instances heap.old arguments.now)) (term heap.old whole.at) (substitution heap.old) heap.old.variables)) }
    ensures extends { Extends heap.old heap.new }
{
    match heap.look(head) {
        Look::Var(_, _) => instantiation_error(alloc, heap),
        Look::Int(_) => type_error(alloc, heap, b"atom", head),
        Look::Atom => named(alloc, heap, whole, head, arguments),
        Look::Func(_) => type_error(alloc, heap, b"atom", head),
    }
}

/// The compound of a name and one or more arguments.
fn named(
    alloc: Global,
    heap: &mut Heap,
    whole: Ref,
    head: Ref,
    arguments: &[Ref],
) -> Result<Ended, AllocError>
    requires whole { whole.at < length heap.old.terms }
    requires head { head.at < length heap.old.terms }
    requires name { IsAtom (instance_at heap.old head.at) }
    requires some { 0 < length arguments.now }
    requires arguments { AreRefs heap.old arguments.now }
    ensures ended { IfOk result (λ ended. HasEnded heap.new ended (or_raises (univ_term (instance_at heap.old head.at) (instances heap.old arguments.now)) (term heap.old whole.at) (substitution heap.old) heap.old.variables)) }
    ensures extends { Extends heap.old heap.new }
{
    if arguments.len() > 255 {
        return resource_error(alloc, heap, b"arity");
    }
    let made = compound_of(alloc, heap, head, arguments)?;
    unified(alloc, heap, whole, made)
}
