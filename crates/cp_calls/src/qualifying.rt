ghost use Rattle.std.specs.Prelude.{◌≡◌, ◌<◌, [], length, get_or, slice_get, Some, true, false, IfOk, OnOk};
ghost use Rattle.std.specs.List.{list_any};
ghost use Rattle.cp_term.specs.Preorder.{arguments, is_terms};
ghost use Rattle.cp_heap.specs.State.{instance_at, AreRefs};
ghost use Rattle.cp_lists.specs.Growing.{GainsTerms};
ghost use Rattle.cp_lists.specs.Places.{instances};
ghost use Rattle.cp_code.specs.Tree.{qualified, with_modules};
ghost use Rattle.cp_run.specs.Shown.{here_of, instance_in};
ghost use Rattle.cp_run.specs.Stands.{Holds};
ghost use Rattle.cp_run.specs.Gaining.{IsGained};
ghost use Rattle.cp_calls.specs.Goals.{IsCompound};

use cp_code::GoalMarks;
use cp_heap::{Heap, Look, Ref, Refs};
use cp_request::posted;
use cp_run::Run;
use cp_term::Name;
use std::alloc::{AllocError, Global};

/// The goal whose marked arguments have the module that sees it in front of them, where they have none of their own (Ciao
/// manual, `meta_predicate`). It is a new term where one is marked, and the goal itself where none is.
pub(crate) fn qualified(
    run: &mut Run,
    seer: &Name,
    marks: &GoalMarks,
    goal: Ref,
) -> Result<Ref, AllocError>
    requires holds { Holds run.old }
    requires goal { goal.at < length run.old.heap.terms }
    ensures place { IfOk result (λ r. r.at < length run.new.heap.terms) }
    ensures instance { IfOk result (λ r. instance_in (here_of run.new) r.at ≡ qualified seer.now marks.now (instance_in (here_of run.old) goal.at)) }
    ensures gained { OnOk result (IsGained run.old run.new) }
{
    let goal = qualified_on(run.alloc, &mut run.heap, seer, marks, goal)?;
    Ok(goal)
}

fn qualified_on(
    alloc: Global,
    heap: &mut Heap,
    seer: &Name,
    marks: &GoalMarks,
    goal: Ref,
) -> Result<Ref, AllocError>
    requires goal { goal.at < length heap.old.terms }
    ensures live { IfOk result (λ r. r.at < length heap.new.terms) }
    ensures instance { IfOk result (λ r. instance_at heap.new r.at ≡ qualified seer.now marks.now (instance_at heap.old goal.at)) }
    ensures gains { GainsTerms heap.old heap.new }
{
    let look = heap.look(goal);
    if !is_any_marked(marks) {
        return Ok(goal);
    }
    match look {
        Look::Func(arity) => compound_of(alloc, heap, seer, marks, goal, arity),
        Look::Var(_, _) => Ok(goal),
        Look::Int(_) => Ok(goal),
        Look::Atom => Ok(goal),
    }
}

/// The same for a compound, over the arguments, which stay the terms that they are.
fn compound_of(
    alloc: Global,
    heap: &mut Heap,
    seer: &Name,
    marks: &GoalMarks,
    goal: Ref,
    arity: u16,
) -> Result<Ref, AllocError>
    requires goal { goal.at < length heap.old.terms }
    requires compound { IsCompound arity (instance_at heap.old goal.at) }
    requires one_term { is_terms 1 (instance_at heap.old goal.at) ≡ true }
    ensures live { IfOk result (λ r. r.at < length heap.new.terms) }
    ensures instance { IfOk result (λ r. instance_at heap.new r.at ≡ qualified seer.now marks.now (instance_at heap.old goal.at)) }
    ensures gains { GainsTerms heap.old heap.new }
{
    let Some(name) = heap.name(goal) else {
        unreachable!()
    };
    let name = name.clone()?;
    let places = arguments_of(alloc, heap, seer, marks, goal, arity)?;
    let made = heap.compound(&name, &places)?;
    Ok(made)
}

/// The arguments, each with a module where it is marked.
fn arguments_of(
    alloc: Global,
    heap: &mut Heap,
    seer: &Name,
    marks: &GoalMarks,
    goal: Ref,
    arity: u16,
) -> Result<Refs, AllocError>
    requires goal { goal.at < length heap.old.terms }
    requires compound { IsCompound arity (instance_at heap.old goal.at) }
    ensures live { IfOk result (λ places. AreRefs heap.new places) }
    ensures len { IfOk result (λ places. length places ≡ arity) }
    ensures instances { IfOk result (λ places. instances heap.new places ≡ with_modules seer.now marks.now (arguments (instance_at heap.old goal.at))) }
    ensures gains { GainsTerms heap.old heap.new }
{
    let _mark = heap.mark();
    let mut places = Refs::new(alloc);
    'arguments: for index in 0..arity {
        let place = argument_of(alloc, heap, seer, marks, goal, index)?;
        places.push(place)?;
    }
    Ok(places)
}

/// The argument with this number, from 0, with a module where it is marked.
fn argument_of(
    alloc: Global,
    heap: &mut Heap,
    seer: &Name,
    marks: &GoalMarks,
    goal: Ref,
    index: u16,
) -> Result<Ref, AllocError>
    requires goal { goal.at < length heap.old.terms }
    requires index { index < length (arguments (instance_at heap.old goal.at)) }
    ensures live { IfOk result (λ r. r.at < length heap.new.terms) }
    ensures instance { IfOk result (λ r. slice_get (with_modules seer.now marks.now (arguments (instance_at heap.old goal.at))) index ≡ Some (instance_at heap.new r.at)) }
    ensures gains { GainsTerms heap.old heap.new }
{
    let Some(argument) = heap.argument(goal, index) else {
        unreachable!()
    };
    if is_marked(marks, index) {
        let argument = posted(alloc, heap, seer, argument)?;
        return Ok(argument);
    }
    Ok(argument)
}

fn is_marked(marks: &GoalMarks, index: u16) -> bool
    ensures { result ≡ get_or marks.now index false }
{
    match marks.get(u32::from(index)) {
        Some(mark) => *mark,
        None => false,
    }
}

fn is_any_marked(marks: &GoalMarks) -> bool
    ensures { result ≡ list_any (λ mark. mark) marks.now }
{
    for mark in marks.as_slice() {
        if *mark {
            return true;
        }
    }
    false
}
