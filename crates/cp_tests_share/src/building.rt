use cp_term::{Cell, Cells, Name, Term};
use std::alloc::Global;
use std::test::Fail;

/// q of this cell.
pub fn q_of(alloc: Global, argument: Cell) -> Result<Term, Fail> {
    let mut cells = Cells::new(alloc);
    cells.push(Cell::Func(Name::of(alloc, b"q")?, 1))?;
    cells.push(argument)?;
    let term = Term::from_cells(cells)?;
    Ok(term)
}

pub fn q(alloc: Global, n: i64) -> Result<Term, Fail> {
    q_of(alloc, Cell::Int(n))
}

/// q of a variable.
pub fn q_any(alloc: Global) -> Result<Term, Fail> {
    q_of(alloc, Cell::Var(0))
}
