ghost use Rattle.std.specs.Prelude.{◌≤◌, IfOk};

use crate::pieces::{named, term_of};
use cp_term::{Cell, Cells, Name, Term, unifiable};
use std::alloc::{AllocError, Global};

/// How often each variable stands for two of the next one.
const DEPTH: u32 = 6;

/// Unifies two terms so many times that a variable binds to two of the next, and counts how often they unified. In
/// their unifier the last variable stands 64 times.
pub(crate) fn unify(alloc: Global, count: u32) -> Result<u64, AllocError>
    ensures { IfOk result (λ found. found ≤ count) }
{
    let variables = variables_twice(alloc)?;
    let pairs = variables_and_pairs(alloc)?;
    let mut found = 0;
    for _ in 0..count {
        if unifiable(alloc, &variables, &pairs)? {
            found += 1;
        }
    }
    Ok(found)
}

/// t(X1, .., X6, X1, .., X6)
fn variables_twice(alloc: Global) -> Result<Term, AllocError> {
    let mut cells = Cells::new(alloc);
    cells.push(Cell::Func(named(alloc, b"t")?, 12))?;
    for number in 0..DEPTH {
        cells.push(Cell::Var(number))?;
    }
    for number in 0..DEPTH {
        cells.push(Cell::Var(number))?;
    }
    term_of(cells)
}

/// t(Y1, .., Y6, p(Y0, Y0), .., p(Y5, Y5))
fn variables_and_pairs(alloc: Global) -> Result<Term, AllocError> {
    let pair = named(alloc, b"p")?;
    let mut cells = Cells::new(alloc);
    cells.push(Cell::Func(named(alloc, b"t")?, 12))?;
    for number in 0..DEPTH {
        cells.push(Cell::Var(number))?;
    }
    push_pair(&mut cells, &pair, DEPTH)?;
    for number in 0..DEPTH - 1 {
        push_pair(&mut cells, &pair, number)?;
    }
    term_of(cells)
}

fn push_pair(cells: &mut Cells, pair: &Name, number: u32) -> Result<(), AllocError> {
    cells.push(Cell::Func(pair.clone()?, 2))?;
    cells.push(Cell::Var(number))?;
    cells.push(Cell::Var(number))
}
