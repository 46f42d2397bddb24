ghost use Rattle.std.specs.Prelude.{◌≡◌, ◌<◌, ◌^◌, true, map, length, IfOk};
ghost use Rattle.cp_term.specs.Numbering.{is_numbered_from};
ghost use Rattle.cp_term.specs.Preorder.{is_terms, take_terms};
ghost use Rattle.cp_code.specs.declared.clause.Clause.{Clause as ClauseOf};
ghost use Rattle.cp_code.specs.Clauses.{is_rule, head_of};

use cp_code::Clause;
use cp_term::{Cell, Cells, Term, Terms};
use std::alloc::{AllocError, Global};

/// The heads of clauses, in order.
pub(crate) fn heads_of(alloc: Global, clauses: &[Clause]) -> Result<Terms, AllocError>
    ensures { IfOk result (λ heads. heads ≡ map (λ (c : ClauseOf). head_of c.whole) clauses.now) }
{
    let mut heads = Terms::new(alloc);
    for clause in clauses {
        heads.push(head_of(alloc, clause)?)?;
    }
    Ok(heads)
}

/// The head of a clause, as a term of its own.
fn head_of(alloc: Global, clause: &Clause) -> Result<Term, AllocError>
    ensures { IfOk result (λ head. head ≡ head_of clause.now.whole) }
{
    if clause.is_rule() {
        head_of_rule(alloc, clause.whole.cells())
    } else {
        clause.whole.copy()
    }
}

/// The head of a rule.
fn head_of_rule(alloc: Global, cells: &[Cell]) -> Result<Term, AllocError>
    requires len { length cells.now < 2 ^ 32 }
    requires term { is_terms 1 cells.now ≡ true }
    requires numbered { is_numbered_from 0 cells.now ≡ true }
    requires rule { is_rule cells.now ≡ true }
    ensures { IfOk result (λ head. head ≡ head_of cells.now) }
{
    let head = first_term(alloc, &cells[1..])?;
    match Term::from_cells(head) {
        Ok(head) => Ok(head),
        Err(_) => unreachable!(),
    }
}

/// The first of the terms that cells are, by itself.
fn first_term(alloc: Global, cells: &[Cell]) -> Result<Cells, AllocError>
    requires { length cells.now < 2 ^ 32 }
    ensures { IfOk result (λ first. first ≡ take_terms 1 cells.now) }
{
    let mut first = Cells::new(alloc);
    let mut at: usize = 0;
    let mut left: u64 = 1;
    'cells: while left > 0 && at < cells.len() {
        left = left - 1 + u64::from(cells[at].arity());
        first.push(cells[at].clone()?)?;
        at += 1;
    }
    Ok(first)
}
