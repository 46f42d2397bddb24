ghost use Rattle.std.specs.Prelude.{◌≡◌, true, IfOk};
ghost use Rattle.cp_engine.specs.Good.{IsGood};

use crate::started::Started;
use crate::walks::{begin, go_on};
use cp_call::{Input, Machine, Next};
use cp_code::{ByTree, ProgramCode};
use cp_run::Run;
use cp_term::{Cell, Cells, Name, Term};
use std::alloc::{AllocError, Global};
use std::marker::Model;

/// Runs goals of a program, one at a time. Until one is started it has failed.
#[derive(Drop)]
pub struct Engine<'p> {
    alloc: Global,
    code: &'p ProgramCode,
    started: Started,
    run: Run,
    failed: bool,
}

impl<'p> Model for Engine<'p> {
    ghost use Rattle.cp_code.specs.contracts.prop.Prop as prop;
    ghost use Rattle.std.specs.Coded.{codes};
    ghost use Rattle.cp_engine.specs.Walking.{State, IsEngine};

    ghost Value = { State };

    ghost coded = { Prim.hlevel (codes, prop.the_row.coded) };

    ghost view = { λ e. record { code = e.code.now; started = e.started; run = e.run; failed = e.failed } };

    ghost invariant = { λ e. IsEngine (record { code = e.code.now; started = e.started; run = e.run; failed = e.failed }) };
}

impl<'p> Engine<'p> {
    /// An engine for this program.
    pub fn new(alloc: Global, code: &'p ProgramCode) -> Result<Engine<'p>, AllocError>
        requires { IsGood code.now.program }
        ensures code { IfOk result (λ e. e.code ≡ code.now) }
        ensures failed { IfOk result (λ e. e.failed ≡ true) }
    {
        let started = Started::of(alloc, &code.program, &truth(alloc)?)?;
        Ok(Engine {
            alloc,
            code,
            started,
            run: Run::new(alloc, 0),
            failed: true,
        })
    }
}

/// The atom `true`.
fn truth(alloc: Global) -> Result<Term, AllocError> {
    let name = Name::known(alloc, b"true")?;
    let mut cells = Cells::new(alloc);
    cells.push(Cell::Atom(name))?;
    Ok(Term::known(cells))
}

impl<'p> Machine for Engine<'p> {
    type Rule = ByTree;

    ghost use Rattle.cp_engine.specs.Walking.{continuation as continuation_of};

    ghost code = { λ e. e.code };

    ghost continuation = { continuation_of };

    ghost failed = { λ e. e.failed };

    fn start(&mut self, goal: &Term) -> Result<Next, AllocError> {
        self.failed = true;
        self.started = Started::of(self.alloc, &self.code.program, goal)?;
        let next = begin(self.alloc, self.code, &self.started, &mut self.run);
        self.failed = next.is_err();
        next
    }

    fn step(&mut self, input: Input) -> Result<Next, AllocError> {
        if self.failed {
            return Err(AllocError);
        }
        let next = go_on(self.code, &self.started, &mut self.run, input);
        self.failed = next.is_err();
        next
    }
}
