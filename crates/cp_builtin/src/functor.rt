ghost use Rattle.std.specs.Prelude.{◌≡◌, ◌+◌, ◌<◌, ◌≤◌, ◌∷◌, ◌++◌, ℕ, List, [], length, pos, false, true, is_some, Some, IfOk, OnOk};
ghost use Rattle.std.specs.List.{flat_map};
ghost use Rattle.cp_term.specs.declared.cell.Cell.TheVariants.{Int as IntCell, Func as FuncCell};
ghost use Rattle.cp_term.specs.Unification as definition;
ghost use Rattle.cp_heap.specs.State.{term, substitution, instance_at, Extends, AreRefs, terms_at};
ghost use Rattle.cp_heap.specs.Looks.{name_of};
ghost use Rattle.cp_goal.specs.Errors.{word};
ghost use Rattle.cp_goal.specs.Builtins as rows;
ghost use Rattle.cp_goal.specs.Builtins.{by};
ghost use Rattle.cp_builtin.specs.Ends.{HasEnded};

use crate::compound::with_two;
use crate::ended::Ended;
use crate::errors::{domain_error, instantiation_error, resource_error, type_error};
use crate::type_tests::is_variable;
use crate::unified::unified;
use cp_heap::{Heap, Look, Ref, Refs};
use std::alloc::{AllocError, Global};

/// `functor/3`.
pub(crate) fn functor(
    alloc: Global,
    heap: &mut Heap,
    whole: Ref,
    name: Ref,
    arity: Ref,
) -> Result<Ended, AllocError>
    requires whole { whole.at < length heap.old.terms }
    requires name { name.at < length heap.old.terms }
    requires arity { arity.at < length heap.old.terms }
    ensures ended { IfOk result (λ ended. HasEnded heap.new ended (rows.functor_row (instance_at heap.old whole.at) (term heap.old whole.at) (term heap.old name.at) (term heap.old arity.at) (substitution heap.old) heap.old.variables)) }
    ensures extends { Extends heap.old heap.new }
{
    match heap.look(whole) {
        Look::Var(_, _) => made_functor(alloc, heap, whole, name, arity),
        Look::Int(integer) => {
            let found = heap.integer(integer)?;
            unified_functor(alloc, heap, name, arity, found, 0)
        }
        Look::Atom => {
            let found = name_at(heap, whole)?;
            unified_functor(alloc, heap, name, arity, found, 0)
        }
        Look::Func(count) => {
            let found = name_at(heap, whole)?;
            unified_functor(alloc, heap, name, arity, found, count)
        }
    }
}

/// The name of an atom or a compound, as an atom.
fn name_at(heap: &mut Heap, at: Ref) -> Result<Ref, AllocError>
    requires live { at.at < length heap.old.terms }
    requires named { is_some (name_of (instance_at heap.old at.at)) ≡ true }
    ensures live { IfOk result (λ r. r.at < length heap.new.terms) }
    ensures term { IfOk result (λ r. (a : List ℕ) → name_of (instance_at heap.old at.at) ≡ Some a → term heap.new r.at ≡ word a) }
    ensures bindings { substitution heap.new ≡ substitution heap.old }
    ensures extends { Extends heap.old heap.new }
    ensures variables { heap.new.variables ≡ heap.old.variables }
{
    match heap.name(at) {
        Some(name) => {
            let name = name.clone()?;
            heap.atom(&name)
        }
        None => unreachable!(),
    }
}

/// Makes two terms a name and a number of arguments.
fn unified_functor(
    alloc: Global,
    heap: &mut Heap,
    name: Ref,
    arity: Ref,
    found: Ref,
    count: u16,
) -> Result<Ended, AllocError>
    requires name { name.at < length heap.old.terms }
    requires arity { arity.at < length heap.old.terms }
    requires found { found.at < length heap.old.terms }
    ensures ended { IfOk result (λ ended. HasEnded heap.new ended (by (definition.unify (substitution heap.old) (term heap.old name.at ++ term heap.old arity.at) (term heap.old found.at ++ IntCell (pos count) ∷ [])) heap.old.variables)) }
    ensures extends { Extends heap.old heap.new }
{
    let count = heap.integer(count as i64)?;
    let asked = with_two(alloc, heap, b",", name, arity)?;
    let made = with_two(alloc, heap, b",", found, count)?;
    unified(alloc, heap, asked, made)
}

/// The same of a variable.
fn made_functor(
    alloc: Global,
    heap: &mut Heap,
    whole: Ref,
    name: Ref,
    arity: Ref,
) -> Result<Ended, AllocError>
    requires whole { whole.at < length heap.old.terms }
    requires name { name.at < length heap.old.terms }
    requires arity { arity.at < length heap.old.terms }
    ensures ended { IfOk result (λ ended. HasEnded heap.new ended (rows.made_functor (instance_at heap.old name.at) (instance_at heap.old arity.at) (term heap.old whole.at) (substitution heap.old) heap.old.variables)) }
    ensures extends { Extends heap.old heap.new }
{
    if is_variable(heap, name) {
        return instantiation_error(alloc, heap);
    }
    match heap.look(arity) {
        Look::Var(_, _) => instantiation_error(alloc, heap),
        Look::Int(count) => {
            if count < 0 {
                domain_error(alloc, heap, b"not_less_than_zero", arity)
            } else if count > 255 {
                resource_error(alloc, heap, b"arity")
            } else {
                made_term(alloc, heap, whole, name, count as u16)
            }
        }
        Look::Atom => type_error(alloc, heap, b"integer", arity),
        Look::Func(_) => type_error(alloc, heap, b"integer", arity),
    }
}

/// Makes a term one with this name and as many new variables as arguments.
fn made_term(
    alloc: Global,
    heap: &mut Heap,
    whole: Ref,
    name: Ref,
    count: u16,
) -> Result<Ended, AllocError>
    requires whole { whole.at < length heap.old.terms }
    requires name { name.at < length heap.old.terms }
    requires bound { rows.is_variable (instance_at heap.old name.at) ≡ false }
    requires few { count < 256 }
    ensures ended { IfOk result (λ ended. HasEnded heap.new ended (rows.with_made (rows.made_term (instance_at heap.old name.at) count heap.old.variables) (term heap.old whole.at) count (substitution heap.old) heap.old.variables)) }
    ensures extends { Extends heap.old heap.new }
{
    match heap.look(name) {
        Look::Func(_) => type_error(alloc, heap, b"atomic", name),
        Look::Var(_, _) => unreachable!(),
        Look::Int(_) => {
            if count == 0 {
                unified(alloc, heap, whole, name)
            } else {
                type_error(alloc, heap, b"atom", name)
            }
        }
        Look::Atom => {
            if count == 0 {
                unified(alloc, heap, whole, name)
            } else {
                let made = made_compound(alloc, heap, name, count)?;
                unified(alloc, heap, whole, made)
            }
        }
    }
}

/// Makes the compound with the name of an atom and new variables as arguments.
fn made_compound(alloc: Global, heap: &mut Heap, name: Ref, count: u16) -> Result<Ref, AllocError>
    requires live { name.at < length heap.old.terms }
    requires named { is_some (name_of (instance_at heap.old name.at)) ≡ true }
    requires some { 0 < count }
    requires few { count < 256 }
    ensures live { IfOk result (λ r. r.at < length heap.new.terms) }
    ensures term { IfOk result (λ r. (a : List ℕ) → name_of (instance_at heap.old name.at) ≡ Some a → term heap.new r.at ≡ FuncCell a count ∷ rows.new_variables count heap.old.variables) }
    ensures bindings { substitution heap.new ≡ substitution heap.old }
    ensures extends { Extends heap.old heap.new }
    ensures variables { OnOk result (heap.new.variables ≡ heap.old.variables + count) }
{
    match heap.name(name) {
        Some(text) => {
            let text = text.clone()?;
            let arguments = new_variables(alloc, heap, count)?;
            heap.compound(&text, &arguments)
        }
        None => unreachable!(),
    }
}

/// So many new variables.
fn new_variables(alloc: Global, heap: &mut Heap, count: u16) -> Result<Refs, AllocError>
    ensures count { IfOk result (λ refs. length refs ≡ count) }
    ensures live { IfOk result (λ refs. AreRefs heap.new refs) }
    ensures terms { IfOk result (λ refs. flat_map (λ t. t) (terms_at heap.new refs) ≡ rows.new_variables count heap.old.variables) }
    ensures bindings { substitution heap.new ≡ substitution heap.old }
    ensures extends { Extends heap.old heap.new }
    ensures variables { OnOk result (heap.new.variables ≡ heap.old.variables + count) }
{
    let mut refs = Refs::new(alloc);
    'variables: for _ in 0..count {
        refs.push(heap.variable()?)?;
    }
    Ok(refs)
}
