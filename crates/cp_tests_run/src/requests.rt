use crate::building::Part::{Atom, Func, Var};
use crate::building::{Part, pred_name, term_of};
use cp_call::Call;
use cp_heap::Heap;
use cp_request::{Asking, PostGoal, Refusal, post_goal};
use cp_term::{Name, PredName, Term};
use std::alloc::Global;
use std::test::Fail;

/// The question of a goal `eng_call(GOAL, ENGINE, THREAD, ID)`, where it is one of four arguments.
fn post(
    alloc: Global,
    goal: &Term,
    outer: &Name,
    context: &PredName,
) -> Result<Option<Asking>, Refusal> {
    let mut heap = Heap::new(alloc);
    let at = heap.import(goal)?;
    let Some(goal) = heap.argument(at, 0) else {
        return Ok(None);
    };
    let Some(engine) = heap.argument(at, 1) else {
        return Ok(None);
    };
    let Some(thread) = heap.argument(at, 2) else {
        return Ok(None);
    };
    let Some(id) = heap.argument(at, 3) else {
        return Ok(None);
    };
    let post = PostGoal {
        goal,
        engine,
        thread,
        id,
    };
    Ok(Some(post_goal(alloc, &mut heap, outer, post, context)?))
}

/// The fact that such a goal adds to the goals, if it adds one.
fn added(alloc: Global, goal: &Term) -> Result<Option<Term>, Fail> {
    let outer = Name::of(alloc, b"m")?;
    let context = pred_name(alloc, b"eng_call", 4)?;
    let Ok(Some(asking)) = post(alloc, goal, &outer, &context) else {
        return Ok(None);
    };
    match asking.call(None)? {
        Call::AddBack { fact } => Ok(Some(fact)),
        _ => Ok(None),
    }
}

const CREATED: &[Part] = &[
    Func(b"eng_call", 4),
    Atom(b"main"),
    Atom(b"create"),
    Atom(b"create"),
    Var(0),
];

const REUSED: &[Part] = &[
    Func(b"eng_call", 4),
    Atom(b"main"),
    Atom(b"create"),
    Atom(b"old"),
    Var(0),
];

#[test]
fn a_posted_goal_has_its_module(rt: HostRuntime) -> Result<(), Fail> {
    let posted = term_of(rt.alloc(), &[Func(b":", 2), Atom(b"m"), Atom(b"main")])?;
    assert_eq!(rt;
        added(rt.alloc(), &term_of(rt.alloc(), CREATED)?)?,
        Some(posted)
    );
    assert_eq!(rt; added(rt.alloc(), &term_of(rt.alloc(), REUSED)?)?, None);
    Ok(())
}
