ghost use Rattle.std.specs.Prelude.{◌≡◌, [], false, IfOk, OnOk};
ghost use Rattle.cp_engine.specs.Good.{IsGood};
ghost use Rattle.cp_engine.specs.Walking.{continuation};

use crate::building::Part::{Atom, Func, Int, Var};
use crate::building::{Part, term_of};
use cp_call::{Call, How, Input, Machine, Next, PutReply, Reply};
use cp_code::{
    Assertions, Imports, Names, OpTables, Peers, PredNames, Preds, Program, ProgramCode, Types,
};
use cp_engine::Engine;
use cp_io::Bytes;
use cp_term::{Name, Term};
use std::alloc::Global;
use std::test::Fail;

/// A program without predicates, with 20 units for each goal.
fn code(alloc: Global) -> Result<ProgramCode, Fail>
    ensures { IfOk result (λ code. IsGood code.program) }
{
    let first = Name::of(alloc, b"m")?;
    let preds = Preds::new(alloc);
    let checks = Assertions::new(alloc);
    Ok(ProgramCode {
        program: Program {
            first,
            preds,
            shared: PredNames::new(alloc),
            exports: PredNames::new(alloc),
            peers: Peers::new(alloc),
            types: Types::new(alloc),
            checks,
            modules: Names::new(alloc),
            ops: OpTables::new(alloc),
            imports: Imports::new(alloc),
            written: 0,
        },
        steps: 20,
    })
}

/// A letter for what a goal does next.
fn letter(next: &Next) -> u8 {
    match next {
        Next::Answer { .. } => b'A',
        Next::Ask { .. } => b'Q',
        Next::Put { .. } => b'P',
        Next::Remote { .. } => b'R',
        Next::End { how } => letter_of_end(how),
    }
}

fn letter_of_end(how: &How) -> u8 {
    match how {
        How::Done => b'D',
        How::Steps => b'S',
        How::Ball(_) => b'B',
    }
}

fn drop_term(_term: Term) {}

fn drop_call(_call: Call) {}

fn drop_bytes(_bytes: Bytes) {}

fn drop_next(_next: Next) {}

/// Hands a goal what it waits for: the wish for one answer more, that there is no fact, or that its text was written.
fn hand(engine: &mut Engine, next: Next) -> Result<Next, Fail>
    requires failed { engine.old.failed ≡ false }
    requires next { continuation engine.old [] ≡ next }
    ensures failed { OnOk result (engine.new.failed ≡ false) }
    ensures next { IfOk result (λ next. continuation engine.new [] ≡ next) }
{
    match next {
        Next::Answer { goal } => {
            drop_term(goal);
            let next = engine.step(Input::More)?;
            Ok(next)
        }
        Next::Ask { object: _, call } => {
            drop_call(call);
            let next = engine.step(Input::Reply(Reply::NoMore))?;
            Ok(next)
        }
        Next::Put { bytes } => {
            drop_bytes(bytes);
            let next = engine.step(Input::Put(PutReply::Wrote))?;
            Ok(next)
        }
        other => Ok(other),
    }
}

/// What a goal does first, and behind each of two inputs.
fn run(engine: &mut Engine, goal: &Term) -> Result<[u8; 3], Fail> {
    let next = engine.start(goal)?;
    let first = letter(&next);
    let next = hand(engine, next)?;
    let second = letter(&next);
    let next = hand(engine, next)?;
    let third = letter(&next);
    drop_next(next);
    Ok([first, second, third])
}

/// What a goal comes to.
fn comes_to(alloc: Global, parts: &[Part]) -> Result<[u8; 3], Fail> {
    let goal = term_of(alloc, parts)?;
    let code = code(alloc)?;
    let mut engine = Engine::new(alloc, &code)?;
    run(&mut engine, &goal)
}

/// `(X = 1 ; X = 2)`
const ONE_OR_TWO: [Part; 7] = [
    Func(b";", 2),
    Func(b"=", 2),
    Var(0),
    Int(1),
    Func(b"=", 2),
    Var(0),
    Int(2),
];

/// Goals, and what they come to: an answer, a question, a write, or the end by Done or by a ball.
const GOALS: [(&[Part], &[u8; 3]); 10] = [
    (&ONE_OR_TWO, b"AAD"),
    (&[Func(b"write", 1), Atom(b"a")], b"PAD"),
    (&[Func(b"eng_wait", 1), Int(1)], b"QDD"),
    (&[Func(b"unknown", 1), Int(1)], b"BBB"),
    (&[Func(b"\\+", 1), Atom(b"fail")], b"ADD"),
    (
        &[
            Func(b",", 2),
            Func(b";", 2),
            Atom(b"true"),
            Atom(b"true"),
            Atom(b"!"),
        ],
        b"ADD",
    ),
    (
        &[
            Func(b";", 2),
            Func(b"->", 2),
            Atom(b"fail"),
            Atom(b"true"),
            Func(b";", 2),
            Atom(b"true"),
            Atom(b"true"),
        ],
        b"AAD",
    ),
    (
        &[
            Func(b"findall", 3),
            Var(0),
            Func(b";", 2),
            Func(b"=", 2),
            Var(0),
            Int(1),
            Atom(b"fail"),
            Func(b".", 2),
            Int(1),
            Atom(b"[]"),
        ],
        b"ADD",
    ),
    (
        &[
            Func(b"catch", 3),
            Func(b"throw", 1),
            Atom(b"a"),
            Atom(b"a"),
            Func(b"write", 1),
            Atom(b"a"),
        ],
        b"PAD",
    ),
    (
        &[Func(b"call", 1), Func(b"length", 2), Var(0), Var(1)],
        b"BBB",
    ),
];

#[test]
fn goals_come_to_what_the_definition_says(rt: HostRuntime) -> Result<(), Fail> {
    for (parts, letters) in GOALS {
        assert_eq!(rt; comes_to(rt.alloc(), parts)?, *letters);
    }
    Ok(())
}
