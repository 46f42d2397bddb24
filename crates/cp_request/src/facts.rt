ghost use Rattle.std.specs.Prelude.{◌≡◌, ℕ, List, Ok, IfOk, MatchResult};
ghost use Rattle.std.specs.Option.{option_copied, option_map};
ghost use Rattle.cp_heap.specs.State.{State, instance_at};
ghost use Rattle.cp_code.specs.declared.assertion.Assertion.{Assertion};
ghost use Rattle.cp_code.specs.Bodies.{seen_from};
ghost use Rattle.cp_code.specs.Goals.{seen_pred};
ghost use Rattle.cp_code.specs.Programs.{code_of, pred_of};
ghost use Rattle.cp_code.specs.Requests as requests;
ghost use Rattle.cp_request.specs.Asked.{goal_shown};
ghost use Rattle.cp_request.specs.Refused.{kind, HasCulprit, Refuses, Asks};
ghost use Rattle.cp_request.specs.Found.{HasArity, FindsObject, FindsSeen, FindsFact, IsNoData};
ghost use Rattle.cp_request.specs.Shapes.{IsPlace};

use crate::asking::Asking;
use crate::error_kind::ErrorKind;
use crate::fact_goal::FactGoal;
use crate::looks::is_qualified;
use crate::refusal::Refusal;
use crate::seen_goal::SeenGoal;
use cp_code::{PredInfo, PredKind, Program};
use cp_heap::{Heap, Look, Ref};
use cp_term::{Name, PredName, Term};
use std::alloc::AllocError;

/// What a goal on a fact asks, where the module `outer` sees the goal. The predicate is the one that is seen under the
/// fact's name and arity by the innermost module in front of the fact.
pub fn fact_asking(
    program: &Program,
    heap: &Heap,
    goal: FactGoal,
    outer: &Name,
    fact: Ref,
    context: &PredName,
) -> Result<Asking, Refusal>
    requires { IsPlace heap.now fact }
    ensures { (budget : ℕ) → Asks heap.now (requests.fact_asking (code_of program.now budget) (goal_shown goal) (seen_from outer.now (instance_at heap.now fact.at)) (requests.full_name context.now)) result }
{
    let seen = SeenGoal::of(heap, fact);
    let seer = seen.seer(heap, outer);
    let object = object_of(program, heap, goal, seer, seen.goal)?;
    asking_with(heap, goal, object, seen.goal, context)
}

/// What a shared predicate asks as a goal: `current_fact` of it, in its own name.
pub fn pred_asking(heap: &Heap, object: u32, goal: Ref, pred: &PredName) -> Result<Asking, Refusal>
    requires { IsPlace heap.now goal }
    ensures { Asks heap.now (requests.pred_asking object (instance_at heap.now goal.at) pred.now) result }
{
    asking_with(heap, FactGoal::Current, object, goal, pred)
}

/// The question with a copy of the fact.
fn asking_with(
    heap: &Heap,
    goal: FactGoal,
    object: u32,
    fact: Ref,
    context: &PredName,
) -> Result<Asking, Refusal>
    requires { IsPlace heap.now fact }
    ensures { Asks heap.now (requests.asking_with (goal_shown goal) object (requests.full_name context.now) (instance_at heap.now fact.at) (requests.handed_over (goal_shown goal) (instance_at heap.now fact.at))) result }
{
    let copy = copy_for(heap, goal, fact)?;
    Ok(Asking {
        object,
        goal,
        copy,
        manner: goal.manner(fact),
        context: context.clone()?,
    })
}

/// A copy of the fact. Where nothing is handed over it may be of any size.
fn copy_for(heap: &Heap, goal: FactGoal, fact: Ref) -> Result<Term, Refusal>
    requires { IsPlace heap.now fact }
    ensures { MatchResult result (λ copy. requests.handed_over (goal_shown goal) (instance_at heap.now fact.at) ≡ Ok copy) (Refuses heap.now (requests.handed_over (goal_shown goal) (instance_at heap.now fact.at))) }
{
    if goal.needs_concurrent() {
        let whole = heap.whole(fact)?;
        Ok(whole)
    } else {
        let copy = heap.export(fact)?;
        Ok(copy)
    }
}

/// The shared object of what a module sees under the name and arity of a fact.
fn object_of(
    program: &Program,
    heap: &Heap,
    goal: FactGoal,
    seer: &Name,
    fact: Ref,
) -> Result<u32, Refusal>
    requires { IsPlace heap.now fact }
    ensures { (budget : ℕ) → FindsFact heap.now (code_of program.now budget) (goal_shown goal) (record { seer = seer.now; goal = instance_at heap.now fact.at }) result }
{
    let arity = arity_of(heap, fact)?;
    let Some(name) = heap.name(fact) else {
        unreachable!()
    };
    match object_seen(program, goal, seer, name, arity)? {
        Some(object) => Ok(object),
        None => Err(no_data(seer, name, arity)),
    }
}

/// The number of arguments of a callable term. A term `M:F` is none, since M is no atom where it was left.
fn arity_of(heap: &Heap, at: Ref) -> Result<u16, ErrorKind>
    requires { IsPlace heap.now at }
    ensures { MatchResult result (HasArity (instance_at heap.now at.at)) (λ e. (requests.fact_functor (instance_at heap.now at.at) ≡ None) × (requests.not_callable (instance_at heap.now at.at) ≡ kind heap.now e) × HasCulprit heap.now e) }
{
    if is_qualified(heap, at) {
        return Err(ErrorKind::NotCallable(at));
    }
    match heap.look(at) {
        Look::Atom => Ok(0),
        Look::Func(arity) => Ok(arity),
        Look::Var(_, _) => Err(ErrorKind::Unbound),
        Look::Int(_) => Err(ErrorKind::NotCallable(at)),
    }
}

/// The shared object of the predicate that a module sees under a name and arity, if it has one.
fn object_seen(
    program: &Program,
    goal: FactGoal,
    seer: &Name,
    name: &Name,
    arity: u16,
) -> Result<Option<u32>, Refusal>
    ensures { (h : State) (budget : ℕ) → FindsSeen h (goal_shown goal) (seen_pred (code_of program.now budget) seer.now name.now arity) result }
{
    match pred_seen(program, seer, name, arity) {
        Some(pred) => shared_object(goal, pred),
        None => Ok(None),
    }
}

/// The predicate that a module sees under a name and arity.
fn pred_seen<'a>(program: &'a Program, seer: &Name, name: &Name, arity: u16) -> Option<&'a PredInfo>
    ensures { (budget : ℕ) → option_map (pred_of program.now.checks) (option_copied result) ≡ seen_pred (code_of program.now budget) seer.now name.now arity }
{
    let place = program.sees(seer, name, arity)?;
    program.preds.get(place)
}

/// The shared object of a predicate, if it has one. One declared `data` is neither closed nor opened.
fn shared_object(goal: FactGoal, pred: &PredInfo) -> Result<Option<u32>, Refusal>
    ensures { (h : State) (checks : List Assertion) → FindsObject h (goal_shown goal) (pred_of checks pred.now) result }
{
    match pred.kind {
        PredKind::Concurrent(object) => Ok(Some(object)),
        PredKind::Plain(object) => {
            if goal.needs_concurrent() {
                Err(Refusal::Raised(ErrorKind::NotConcurrent(pred.name.clone()?)))
            } else {
                Ok(Some(object))
            }
        }
        PredKind::Rules => Ok(None),
        PredKind::Remote(_) => Ok(None),
    }
}

/// That no shared predicate is seen.
fn no_data(seer: &Name, name: &Name, arity: u16) -> Refusal
    ensures { IsNoData seer.now name.now arity result }
{
    match pred_name(seer, name, arity) {
        Ok(pred) => Refusal::Raised(ErrorKind::NoData(pred)),
        Err(_) => Refusal::NoMemory,
    }
}

fn pred_name(seer: &Name, name: &Name, arity: u16) -> Result<PredName, AllocError>
    ensures { IfOk result (λ pred. pred ≡ record { «module» = seer.now; name = name.now; arity = arity }) }
{
    Ok(PredName {
        module: seer.clone()?,
        name: name.clone()?,
        arity,
    })
}
