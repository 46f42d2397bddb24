ghost use Rattle.std.specs.Prelude.{◌≡◌, ◌++◌, ◌∷◌, [], drop, None, Ok, IfOk, OnOk};
ghost use Rattle.cp_link.specs.Modules.{said};
ghost use Rattle.cp_load.specs.Answers.{SpeakOfArguments};
ghost use Rattle.cp_load.specs.Assertions.{declared_in, AddsBy};
ghost use Rattle.cp_load.specs.Asserting.{why_by, IsWhy, AddsOne, KeepsRest};

use cp_assertion::{AssertionError, assertion_of};
use cp_code::{Assertion, Program};
use cp_declaration::Declaration;
use cp_link::said;
use cp_module::Why;
use cp_read::ReadClause;
use cp_term::{Cell, Cells, Name, Term};
use std::alloc::{AllocError, Global};

/// Adds the assertion of a module that stands in a clause, if one does, or tells what is refused in it.
pub(crate) fn add_assertion(
    alloc: Global,
    program: &mut Program,
    module: &Name,
    clause: &ReadClause,
) -> Result<Option<Why>, AllocError>
    ensures why { IfOk result (λ why. why ≡ why_by program.old «module».now clause.now (said clause.now)) }
    ensures added { result ≡ Ok None → AddsBy program.old «module».now clause.now (said clause.now) program.old.checks (λ more. program.new.checks ≡ more) }
    ensures rest { OnOk result (KeepsRest program.old program.new) }
    ensures arguments { OnOk result (SpeakOfArguments program.old.checks → SpeakOfArguments program.new.checks) }
{
    match said(alloc, clause)? {
        Some(Declaration::Assertion) => read_assertion(alloc, program, module, clause),
        _ => Ok(None),
    }
}

/// Adds the assertion in a clause `:- D`.
fn read_assertion(
    alloc: Global,
    program: &mut Program,
    module: &Name,
    clause: &ReadClause,
) -> Result<Option<Why>, AllocError>
    ensures why { IfOk result (IsWhy program.old «module».now clause.now) }
    ensures added { result ≡ Ok None → AddsOne program.old «module».now clause.now program.new.checks }
    ensures rest { OnOk result (KeepsRest program.old program.new) }
    ensures arguments { OnOk result (SpeakOfArguments program.old.checks → SpeakOfArguments program.new.checks) }
{
    let term = declared_in(alloc, clause)?;
    match assertion_of(alloc, &term, clause.line, module, program) {
        Ok(assertion) => {
            push_assertion(program, assertion)?;
            Ok(None)
        }
        Err(AssertionError::NotAssertion) => Ok(Some(Why::BadDeclaration)),
        Err(AssertionError::BadHead) => Ok(Some(Why::BadHead)),
        Err(AssertionError::BadProperty) => Ok(Some(Why::BadProperty)),
        Err(AssertionError::OnShared) => Ok(Some(Why::OnShared)),
        Err(AssertionError::NoMemory) => Err(AllocError),
    }
}

fn push_assertion(program: &mut Program, assertion: Assertion) -> Result<(), AllocError>
    ensures { OnOk result (program.new ≡ record program.old { checks = program.old.checks ++ assertion ∷ [] }) }
{
    program.checks.push(assertion)
}

/// The declaration D of a clause `:- D`.
fn declared_in(alloc: Global, clause: &ReadClause) -> Result<Term, AllocError>
    ensures { IfOk result (λ term. term ≡ declared_in clause.now) }
{
    let cells = copied(alloc, behind_first(clause.term.cells()))?;
    term_with(cells)
}

fn behind_first(cells: &[Cell]) -> &[Cell]
    ensures { result.now ≡ drop 1 cells.now }
{
    match cells {
        [_, rest @ ..] => rest,
        [] => cells,
    }
}

fn term_with(cells: Cells) -> Result<Term, AllocError>
    ensures { IfOk result (λ term. term ≡ cells) }
{
    match Term::from_cells(cells) {
        Ok(term) => Ok(term),
        Err(_) => Err(AllocError),
    }
}

fn copied(alloc: Global, cells: &[Cell]) -> Result<Cells, AllocError>
    ensures { IfOk result (λ copy. copy ≡ cells.now) }
{
    let mut copy = Cells::new(alloc);
    'cells: for cell in cells {
        copy.push(cell.clone()?)?;
    }
    Ok(copy)
}
