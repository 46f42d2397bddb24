ghost use Rattle.std.specs.Prelude.{◌≡◌, None, Some, IfOk, MatchOption};
ghost use Rattle.std.specs.List.{list_any};
ghost use Rattle.cp_code.specs.Clauses.{is_neck, head_of};
ghost use Rattle.cp_module.specs.Causes.{pred_of, headed, is_clause_of, is_defined};

use cp_declaration::{Indicator, is_declaration};
use cp_link::{is_clause_of, is_shared};
use cp_read::ReadClause;
use cp_term::{Cell, Name};
use std::alloc::{AllocError, Global};

/// The predicate of a head: its name and its number of arguments.
#[derive(Clone, Copy, Drop)]
struct Head<'a> {
    name: &'a Name,
    arity: u16,
}

/// Whether a predicate has a clause among these or is declared to be shared.
pub(crate) fn is_defined(
    alloc: Global,
    clauses: &[ReadClause],
    pred: &Indicator,
) -> Result<bool, AllocError>
    ensures { IfOk result (λ found. found ≡ is_defined clauses.now pred.now) }
{
    if has_clause(clauses, pred) {
        Ok(true)
    } else {
        is_shared(alloc, clauses, pred)
    }
}

fn has_clause(clauses: &[ReadClause], pred: &Indicator) -> bool
    ensures { result ≡ list_any (is_clause_of pred.now) clauses.now }
{
    clauses.iter().any(|clause| is_clause_of(clause, pred))
}

/// The predicate that a clause is of. A declaration is of none.
pub(crate) fn pred_of(clause: &ReadClause) -> Result<Option<Indicator>, AllocError>
    ensures { IfOk result (λ pred. pred ≡ pred_of clause.now) }
{
    if is_declaration(&clause.term) {
        return Ok(None);
    }
    match head_of(clause.term.cells()) {
        Some(head) => Ok(Some(Indicator {
            name: head.name.clone()?,
            arity: head.arity,
        })),
        None => Ok(None),
    }
}

fn head_of(cells: &[Cell]) -> Option<Head<'_>>
    ensures { MatchOption result (headed (head_of cells.now) ≡ None) (λ p. headed (head_of cells.now) ≡ Some (record { name = p.name.now; arity = p.arity })) }
{
    match cells {
        [first, behind @ ..] => {
            if is_neck(first) {
                first_of(behind)
            } else {
                first_of(cells)
            }
        }
        [] => None,
    }
}

fn first_of(cells: &[Cell]) -> Option<Head<'_>>
    ensures { MatchOption result (headed cells.now ≡ None) (λ p. headed cells.now ≡ Some (record { name = p.name.now; arity = p.arity })) }
{
    match cells {
        [Cell::Atom(name), ..] => Some(Head { name, arity: 0 }),
        [Cell::Func(name, arity), ..] => Some(Head {
            name,
            arity: *arity,
        }),
        _ => None,
    }
}

/// `:-` with two arguments.
fn is_neck(cell: &Cell) -> bool
    ensures { result ≡ is_neck cell.now }
{
    match cell {
        Cell::Func(name, arity) => name.bytes() == b":-".as_slice() && *arity == 2,
        Cell::Var(_) => false,
        Cell::Int(_) => false,
        Cell::Atom(_) => false,
    }
}
