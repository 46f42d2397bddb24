ghost use Rattle.std.specs.Prelude.{◌≡◌, ◌<◌, true, length, cond, None, Some, [], ◌∷◌, ◌++◌, if◌then◌else◌, List, ℕ, IfOk, OnOk, IfSome, IsSome};
ghost use Rattle.std.specs.Option.{option_map};
ghost use Rattle.cp_term.specs.declared.cell.Cell.TheVariants as cells;
ghost use Rattle.cp_term.specs.Preorder.{take_terms, drop_terms};
ghost use Rattle.cp_heap.specs.State.{instance_at, AreRefs};
ghost use Rattle.cp_heap.specs.declared.reference.Ref.{Ref as RefOf};
ghost use Rattle.cp_lists.specs.Places.{instances};
ghost use Rattle.cp_goal.specs.Builtins as tests;
ghost use Rattle.cp_goal.specs.Lists.{spine};
ghost use Rattle.cp_code.specs.Bodies.{is};
ghost use Rattle.cp_code.specs.Properties.{variable_term, first_name};
ghost use Rattle.cp_props.specs.Patterns.{places_shown, ArePlaces};
ghost use Rattle.cp_props.specs.Demands.{joined, of_variable, of_each, of_spine, of_elements, goal_demands, demands_shown, AreDemands};

use crate::demand::{Demand, Demands};
use crate::place::{Places, place_of};
use cp_heap::{Heap, Ref, Refs};
use cp_lists::Spine;
use cp_term::{Cell, Name};
use std::alloc::{AllocError, Global};

/// Adds what a goal of a body demands, which has no module in front of it. Whether it can be met.
pub(crate) fn put_goal(
    alloc: Global,
    heap: &Heap,
    goal: &[Cell],
    places: &Places,
    demands: &mut Demands,
) -> Result<bool, AllocError>
    requires places { ArePlaces heap.now places.now }
    requires demands { AreDemands heap.now demands.old }
    ensures demands { OnOk result (AreDemands heap.now demands.new) }
    ensures put { IfOk result (λ ok. joined (demands_shown heap.now demands.old) (goal_demands (places_shown heap.now places.now) goal.now) ≡ cond ok (Some (demands_shown heap.now demands.new)) None) }
{
    match goal {
        [] => Ok(false),
        [first, rest @ ..] => put_first(alloc, heap, first, rest, places, demands),
    }
}

/// The same, by the first cell of the goal and the others.
fn put_first(
    alloc: Global,
    heap: &Heap,
    first: &Cell,
    rest: &[Cell],
    places: &Places,
    demands: &mut Demands,
) -> Result<bool, AllocError>
    requires places { ArePlaces heap.now places.now }
    requires demands { AreDemands heap.now demands.old }
    ensures demands { OnOk result (AreDemands heap.now demands.new) }
    ensures put { IfOk result (λ ok. joined (demands_shown heap.now demands.old) (goal_demands (places_shown heap.now places.now) (first.now ∷ rest.now)) ≡ cond ok (Some (demands_shown heap.now demands.new)) None) }
{
    match first {
        Cell::Var(_) => Ok(false),
        Cell::Int(_) => Ok(false),
        Cell::Atom(name) => Ok(name.bytes() == b"true".as_slice()),
        Cell::Func(name, arity) => put_compound(alloc, heap, name, *arity, rest, places, demands),
    }
}

/// Adds what a compound demands, by the cells of its arguments.
fn put_compound(
    alloc: Global,
    heap: &Heap,
    name: &Name,
    arity: u16,
    rest: &[Cell],
    places: &Places,
    demands: &mut Demands,
) -> Result<bool, AllocError>
    requires places { ArePlaces heap.now places.now }
    requires demands { AreDemands heap.now demands.old }
    ensures demands { OnOk result (AreDemands heap.now demands.new) }
    ensures put { IfOk result (λ ok. joined (demands_shown heap.now demands.old) (goal_demands (places_shown heap.now places.now) (cells.Func name.now arity ∷ rest.now)) ≡ cond ok (Some (demands_shown heap.now demands.new)) None) }
{
    if arity == 1 {
        return put_one(heap, name, rest, places, demands);
    }
    if arity == 2 {
        return put_list(alloc, heap, name, rest, places, demands);
    }
    Ok(false)
}

/// Adds the demand `u(Y)`, where the cells begin with Y.
fn put_one(
    heap: &Heap,
    name: &Name,
    rest: &[Cell],
    places: &Places,
    demands: &mut Demands,
) -> Result<bool, AllocError>
    requires places { ArePlaces heap.now places.now }
    requires demands { AreDemands heap.now demands.old }
    ensures demands { OnOk result (AreDemands heap.now demands.new) }
    ensures put { IfOk result (λ ok. joined (demands_shown heap.now demands.old) (of_variable name.now (variable_term (places_shown heap.now places.now) (take_terms 1 rest.now))) ≡ cond ok (Some (demands_shown heap.now demands.new)) None) }
{
    match variable_place(heap, rest, places) {
        Some(at) => put_demand(heap, name, at, demands),
        None => Ok(false),
    }
}

fn put_demand(heap: &Heap, name: &Name, at: Ref, demands: &mut Demands) -> Result<bool, AllocError>
    requires place { at.at < length heap.now.terms }
    requires demands { AreDemands heap.now demands.old }
    ensures demands { OnOk result (AreDemands heap.now demands.new) }
    ensures put { OnOk result (demands_shown heap.now demands.new ≡ demands_shown heap.now demands.old ++ (record { name = name.now; term = instance_at heap.now at.at }) ∷ []) }
    ensures ok { IfOk result (λ ok. ok ≡ true) }
{
    demands.push(Demand {
        name: name.clone()?,
        at,
    })?;
    Ok(true)
}

/// Adds the demand `list(Y, u)`, where the cells begin with Y and u.
fn put_list(
    alloc: Global,
    heap: &Heap,
    name: &Name,
    rest: &[Cell],
    places: &Places,
    demands: &mut Demands,
) -> Result<bool, AllocError>
    requires places { ArePlaces heap.now places.now }
    requires demands { AreDemands heap.now demands.old }
    ensures demands { OnOk result (AreDemands heap.now demands.new) }
    ensures put { IfOk result (λ ok. joined (demands_shown heap.now demands.old) (if is name.now "list" then of_elements (first_name (take_terms 1 (drop_terms 1 rest.now))) (variable_term (places_shown heap.now places.now) (take_terms 1 rest.now)) else None) ≡ cond ok (Some (demands_shown heap.now demands.new)) None) }
{
    if name.bytes() != b"list".as_slice() {
        return Ok(false);
    }
    match variable_place(heap, rest, places) {
        Some(at) => put_elements(alloc, heap, rest, at, demands),
        None => Ok(false),
    }
}

/// Adds the demands on the elements of the list at a place, where the cells begin with the variable and the name of the
/// property.
fn put_elements(
    alloc: Global,
    heap: &Heap,
    rest: &[Cell],
    at: Ref,
    demands: &mut Demands,
) -> Result<bool, AllocError>
    requires variable { tests.is_variable rest.now ≡ true }
    requires place { at.at < length heap.now.terms }
    requires demands { AreDemands heap.now demands.old }
    ensures demands { OnOk result (AreDemands heap.now demands.new) }
    ensures put { IfOk result (λ ok. joined (demands_shown heap.now demands.old) (of_spine (first_name (take_terms 1 (drop_terms 1 rest.now))) (spine (instance_at heap.now at.at))) ≡ cond ok (Some (demands_shown heap.now demands.new)) None) }
{
    let name = element_name(alloc, rest)?;
    match Spine::of(alloc, heap, at)? {
        Spine::Proper(elements) => put_each(heap, &name, &elements, demands),
        Spine::Partial => Ok(false),
        Spine::Improper => Ok(false),
    }
}

/// Adds that each of the terms at these places has a property.
fn put_each(
    heap: &Heap,
    name: &Name,
    elements: &Refs,
    demands: &mut Demands,
) -> Result<bool, AllocError>
    requires elements { AreRefs heap.now elements.now }
    requires demands { AreDemands heap.now demands.old }
    ensures demands { OnOk result (AreDemands heap.now demands.new) }
    ensures put { OnOk result (demands_shown heap.now demands.new ≡ demands_shown heap.now demands.old ++ of_each name.now (instances heap.now elements.now)) }
    ensures ok { IfOk result (λ ok. ok ≡ true) }
{
    'elements: for element in elements.as_slice() {
        put_demand(heap, name, *element, demands)?;
    }
    Ok(true)
}

/// The name of the property that the elements of a list are to have, where the cells begin with the variable and that
/// name; the empty name where they do not.
fn element_name(alloc: Global, rest: &[Cell]) -> Result<Name, AllocError>
    requires { tests.is_variable rest.now ≡ true }
    ensures { IfOk result (λ name. name ≡ first_name (take_terms 1 (drop_terms 1 rest.now))) }
{
    match rest {
        [_, Cell::Atom(name), ..] => name.clone(),
        _ => Name::known(alloc, b""),
    }
}

/// The term at the place of the variable with which these cells begin, if they begin with one that has a place.
fn variable_place(heap: &Heap, rest: &[Cell], places: &Places) -> Option<Ref>
    requires { ArePlaces heap.now places.now }
    ensures term { option_map (λ (r : RefOf). instance_at heap.now r.at) result ≡ variable_term (places_shown heap.now places.now) (take_terms 1 rest.now) }
    ensures live { IfSome result (λ r. r.at < length heap.now.terms) }
    ensures variable { IsSome result → tests.is_variable rest.now ≡ true }
{
    match rest {
        [Cell::Var(var), ..] => place_of(heap, places, *var),
        _ => None,
    }
}
