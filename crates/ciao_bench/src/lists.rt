use crate::pieces::{named, term_of};
use cp_term::{Cell, Cells, Term};
use std::alloc::{AllocError, Global};

/// How many elements a list of 4,095 cells has.
const ELEMENTS: u32 = 2047;

/// [_0, _1, .., _2046]
pub(crate) fn variables(alloc: Global) -> Result<Term, AllocError> {
    let mut cells = Cells::new(alloc);
    let dot = named(alloc, b".")?;
    for number in 0..ELEMENTS {
        cells.push(Cell::Func(dot.clone()?, 2))?;
        cells.push(Cell::Var(number))?;
    }
    cells.push(Cell::Atom(named(alloc, b"[]")?))?;
    term_of(cells)
}

/// [0, 1, .., 2046]
pub(crate) fn integers(alloc: Global) -> Result<Term, AllocError> {
    let mut cells = Cells::new(alloc);
    let dot = named(alloc, b".")?;
    for number in 0..ELEMENTS {
        cells.push(Cell::Func(dot.clone()?, 2))?;
        cells.push(Cell::Int(number as i64))?;
    }
    cells.push(Cell::Atom(named(alloc, b"[]")?))?;
    term_of(cells)
}

/// [Element|_]
pub(crate) fn longer(alloc: Global, element: i64) -> Result<Term, AllocError> {
    let mut cells = Cells::new(alloc);
    cells.push(Cell::Func(named(alloc, b".")?, 2))?;
    cells.push(Cell::Int(element))?;
    cells.push(Cell::Var(0))?;
    term_of(cells)
}
