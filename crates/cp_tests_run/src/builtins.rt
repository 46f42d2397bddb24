ghost use Rattle.std.specs.Prelude.{◌<◌, ◌≤◌, length, IfOk};
ghost use Rattle.cp_heap.specs.State.{AreRefs};

use crate::building::Part::{Atom, Func, Int, Var};
use crate::building::{Part, pred_name, push_parts, term_of};
use cp_builtin::{Outcome1, call_builtin};
use cp_goal::Builtin;
use cp_heap::{Heap, Ref, Refs};
use cp_term::{Cells, PredName, Term};
use std::alloc::{AllocError, Global};
use std::test::Fail;

/// How a goal of a table is wanted to end.
enum Wanted {
    /// It is then this goal.
    Succeeds(&'static [Part]),
    Fails,
    /// The kind of the error.
    Raises(&'static [Part]),
}

use Wanted::{Fails, Raises, Succeeds};

/// The ball of an error of this kind in the goal `m:N/A`.
fn ball_of(alloc: Global, kind: &[Part], name: &'static [u8], arity: u16) -> Result<Term, Fail> {
    let mut cells = Cells::new(alloc);
    push_parts(alloc, &mut cells, &[Func(b"error", 2)])?;
    push_parts(alloc, &mut cells, kind)?;
    let context = [
        Func(b":", 2),
        Atom(b"m"),
        Func(b"/", 2),
        Atom(name),
        Int(arity as i64),
    ];
    push_parts(alloc, &mut cells, &context)?;
    let term = Term::from_cells(cells)?;
    Ok(term)
}

fn wanted_term(
    alloc: Global,
    wanted: &Wanted,
    name: &'static [u8],
    arity: u16,
) -> Result<Term, Fail> {
    match wanted {
        Succeeds(goal) => term_of(alloc, goal),
        Fails => term_of(alloc, &[Atom(b"fail")]),
        Raises(kind) => ball_of(alloc, kind, name, arity),
    }
}

/// The places of the arguments.
fn arguments_of(alloc: Global, heap: &Heap, at: Ref, count: u16) -> Result<Refs, AllocError>
    requires { at.at < length heap.now.terms }
    ensures { IfOk result (λ refs. AreRefs heap.now refs) }
{
    let mut refs = Refs::new(alloc);
    'arguments: for index in 0..count {
        if let Some(argument) = heap.argument(at, index) {
            refs.push(argument)?;
        }
    }
    Ok(refs)
}

/// Calls a builtin, if it is one with so many arguments.
fn called(
    alloc: Global,
    heap: &mut Heap,
    pred: &PredName,
    args: &Refs,
) -> Result<Outcome1, AllocError>
    requires { AreRefs heap.old args.now }
    ensures { length heap.old.terms ≤ length heap.new.terms }
{
    if Builtin::named(pred.name.bytes(), pred.arity).is_none() {
        return Err(AllocError);
    }
    if args.len() != pred.arity as u32 {
        return Err(AllocError);
    }
    call_builtin(alloc, heap, pred, args)
}

/// What a goal is after it succeeded, `fail`, or the ball that it raises.
fn end_of(alloc: Global, goal: &Term, name: &'static [u8], arity: u16) -> Result<Term, Fail> {
    let pred = pred_name(alloc, name, arity)?;
    let mut heap = Heap::new(alloc);
    let at = heap.import(goal)?;
    let args = arguments_of(alloc, &heap, at, arity)?;
    match called(alloc, &mut heap, &pred, &args)? {
        Outcome1::Succeeds => Ok(heap.export(at)?),
        Outcome1::Fails => term_of(alloc, &[Atom(b"fail")]),
        Outcome1::Raises(ball) => Ok(ball),
    }
}

/// Whether a goal, whose functor comes first, ends as it is wanted to.
fn is_right(alloc: Global, goal: &[Part], wanted: &Wanted) -> Result<bool, Fail> {
    let Some(Func(name, arity)) = goal.first() else {
        return Ok(false);
    };
    let end = end_of(alloc, &term_of(alloc, goal)?, name, *arity)?;
    let wanted = wanted_term(alloc, wanted, name, *arity)?;
    Ok(end.cells() == wanted.cells())
}

// (cases/builtins.txt has the rows of all builtins)
const GOALS: [(&[Part], Wanted); 4] = [
    (
        &[Func(b"is", 2), Var(0), Func(b"//", 2), Int(7), Int(-2)],
        Succeeds(&[Func(b"is", 2), Int(-3), Func(b"//", 2), Int(7), Int(-2)]),
    ),
    (&[Func(b"\\=", 2), Var(0), Atom(b"a")], Fails),
    (
        &[Func(b"functor", 3), Var(0), Func(b"f", 1), Var(1), Int(0)],
        Raises(&[
            Func(b"type_error", 2),
            Atom(b"atomic"),
            Func(b"f", 1),
            Var(0),
        ]),
    ),
    (
        &[Func(b"atom_length", 2), Atom(b"abc"), Var(0)],
        Succeeds(&[Func(b"atom_length", 2), Atom(b"abc"), Int(3)]),
    ),
];

#[test]
fn goals_end_as_the_rows_say(rt: HostRuntime) -> Result<(), Fail> {
    for (goal, wanted) in GOALS.iter() {
        assert!(rt; is_right(rt.alloc(), goal, wanted)?);
    }
    Ok(())
}
