ghost use Rattle.std.specs.Prelude.{◌≡◌, ◌<◌, length, map, IfOk};
ghost use Rattle.std.specs.List.{list_all};
ghost use Rattle.cp_heap.specs.State.{instance_at, AreRefs};
ghost use Rattle.cp_goal.specs.Lists.{spine};
ghost use Rattle.cp_lists.specs.Places.{instances};
ghost use Rattle.cp_code.specs.Properties.{has, holds, all_pass, argument_at};
ghost use Rattle.cp_code.specs.Programs.{prop_of, type_of};
ghost use Rattle.cp_props.specs.Arguments.{HasArguments};

use crate::property::has;
use cp_code::{Prop, Types};
use cp_heap::{Heap, Ref, Refs};
use cp_lists::Spine;
use cp_term::Name;
use std::alloc::{AllocError, Global};

/// Whether a property of the arguments of a goal holds, as they stand. Nothing is bound.
#[tactic(auto, unfolding(cp_code::specs::Properties::holds))]
pub fn holds(
    alloc: Global,
    types: &Types,
    heap: &Heap,
    prop: &Prop,
    args: &Refs,
) -> Result<bool, AllocError>
    requires args { AreRefs heap.now args.now }
    requires named { HasArguments (length args.now) (prop_of prop.now) }
    ensures { IfOk result (λ answer. answer ≡ holds (map type_of types.now) (prop_of prop.now) (instances heap.now args.now)) }
{
    match prop {
        Prop::Of { name, arg } => has_argument(alloc, types, heap, name, args, *arg),
        Prop::ListOf { element, arg } => list_argument(alloc, types, heap, element, args, *arg),
        Prop::Both(first, second) => {
            if holds(alloc, types, heap, first, args)? {
                holds(alloc, types, heap, second, args)
            } else {
                Ok(false)
            }
        }
        Prop::Either(first, second) => {
            if holds(alloc, types, heap, first, args)? {
                Ok(true)
            } else {
                holds(alloc, types, heap, second, args)
            }
        }
        Prop::Always => Ok(true),
    }
}

/// Whether the argument with this number, from 0, has a property.
fn has_argument(
    alloc: Global,
    types: &Types,
    heap: &Heap,
    name: &Name,
    args: &Refs,
    arg: u16,
) -> Result<bool, AllocError>
    requires args { AreRefs heap.now args.now }
    requires named { arg < length args.now }
    ensures { IfOk result (λ answer. answer ≡ has (map type_of types.now) name.now (argument_at (instances heap.now args.now) arg)) }
{
    match args.get(u32::from(arg)) {
        Some(at) => has(alloc, types, heap, name, *at),
        None => unreachable!(),
    }
}

/// Whether the argument with this number, from 0, is a proper list of terms that have a property.
fn list_argument(
    alloc: Global,
    types: &Types,
    heap: &Heap,
    element: &Name,
    args: &Refs,
    arg: u16,
) -> Result<bool, AllocError>
    requires args { AreRefs heap.now args.now }
    requires named { arg < length args.now }
    ensures { IfOk result (λ answer. answer ≡ all_pass (has (map type_of types.now)) element.now (spine (argument_at (instances heap.now args.now) arg))) }
{
    match args.get(u32::from(arg)) {
        Some(at) => is_list_of(alloc, types, heap, element, *at),
        None => unreachable!(),
    }
}

fn is_list_of(
    alloc: Global,
    types: &Types,
    heap: &Heap,
    element: &Name,
    at: Ref,
) -> Result<bool, AllocError>
    requires { at.at < length heap.now.terms }
    ensures { IfOk result (λ answer. answer ≡ all_pass (has (map type_of types.now)) element.now (spine (instance_at heap.now at.at))) }
{
    match Spine::of(alloc, heap, at)? {
        Spine::Proper(elements) => all_have(alloc, types, heap, element, &elements),
        Spine::Partial => Ok(false),
        Spine::Improper => Ok(false),
    }
}

/// Whether each of the terms at these places has a property.
fn all_have(
    alloc: Global,
    types: &Types,
    heap: &Heap,
    name: &Name,
    places: &Refs,
) -> Result<bool, AllocError>
    requires { AreRefs heap.now places.now }
    ensures { IfOk result (λ answer. answer ≡ list_all (has (map type_of types.now) name.now) (instances heap.now places.now)) }
{
    for place in places.as_slice() {
        if !has(alloc, types, heap, name, *place)? {
            return Ok(false);
        }
    }
    Ok(true)
}
