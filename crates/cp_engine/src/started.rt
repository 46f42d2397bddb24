ghost use Rattle.std.specs.Prelude.{◌≡◌, ℕ, true, IfOk};
ghost use Rattle.cp_term.specs.Preorder.{arguments};
ghost use Rattle.cp_code.specs.Bodies.{seen_from};
ghost use Rattle.cp_code.specs.Programs.{code_of};
ghost use Rattle.cp_code.specs.Requests.{full_name, has_module as is_qualified};
ghost use Rattle.cp_code.specs.Tree.{without_module as unqualified, goal_context};
ghost use Rattle.cp_code.specs.declared.program.Program.{Program};
ghost use Rattle.cp_engine.specs.Walking.{IsStarted};

use crate::functor::{call_of, functor_of};
use cp_code::Program;
use cp_heap::Heap;
use cp_request::SeenGoal;
use cp_term::{Cell, Cells, Name, PredName, Term};
use std::alloc::{AllocError, Global};

/// A goal that was started.
#[derive(Drop)]
pub struct Started {
    pub goal: Term,
    /// The goal without its outer module, of which each answer is an instance.
    pub answer: Term,
    /// The predicate that the error of an answer names.
    pub context: PredName,
}

impl Started {
    /// A goal that is started in a program. One without a module is seen by the program's first one.
    pub fn of(alloc: Global, program: &Program, goal: &Term) -> Result<Started, AllocError>
        ensures goal { IfOk result (λ s. s.goal ≡ goal.now) }
        ensures started { IfOk result (λ s. IsStarted program.now s) }
    {
        let context = context_of(alloc, &program.first, goal)?;
        let answer = without_module(alloc, goal)?;
        let goal = goal.copy()?;
        Ok(Started {
            goal,
            answer,
            context,
        })
    }
}

/// The goal without its outer module.
fn without_module(alloc: Global, goal: &Term) -> Result<Term, AllocError>
    ensures { IfOk result (λ t. t ≡ unqualified goal.now (arguments goal.now)) }
{
    if has_module(goal.cells()) {
        inner(alloc, goal)
    } else {
        goal.copy()
    }
}

/// The goal behind a module.
fn inner(alloc: Global, goal: &Term) -> Result<Term, AllocError>
    requires { is_qualified goal.now ≡ true }
    ensures { IfOk result (λ t. t ≡ unqualified goal.now (arguments goal.now)) }
{
    let cells = copied(alloc, &goal.cells()[2..])?;
    let Ok(inner) = Term::from_cells(cells) else {
        return Err(AllocError);
    };
    Ok(inner)
}

/// Whether the cells are those of a goal with an atom as its module.
fn has_module(cells: &[Cell]) -> bool
    ensures { result ≡ is_qualified cells.now }
{
    match cells {
        [Cell::Func(name, 2), Cell::Atom(_), ..] => name.bytes() == b":".as_slice(),
        _ => false,
    }
}

fn copied(alloc: Global, cells: &[Cell]) -> Result<Cells, AllocError>
    ensures { IfOk result (λ copy. copy ≡ cells.now) }
{
    let mut copy = Cells::new(alloc);
    'cells: for cell in cells {
        copy.push(cell.clone()?)?;
    }
    Ok(copy)
}

/// The predicate that the error of an answer names.
fn context_of(alloc: Global, first: &Name, goal: &Term) -> Result<PredName, AllocError>
    ensures { IfOk result (λ p. (program : Program) (budget : ℕ) → full_name p ≡ goal_context (code_of program budget) (seen_from first.now goal.now)) }
{
    let mut heap = Heap::new(alloc);
    let at = heap.import(goal)?;
    let seen = SeenGoal::of(&heap, at);
    let seer = seen.seer(&heap, first);
    match functor_of(&heap, seen.goal)? {
        Some((name, arity)) => {
            let context = named(seer, name, arity)?;
            Ok(context)
        }
        None => {
            let context = call_of(alloc, seer)?;
            Ok(context)
        }
    }
}

fn named(seer: &Name, name: Name, arity: u16) -> Result<PredName, AllocError>
    ensures { IfOk result (λ p. p ≡ record { «module» = seer.now; name = name; arity = arity }) }
{
    let module = seer.clone()?;
    Ok(PredName {
        module,
        name,
        arity,
    })
}
