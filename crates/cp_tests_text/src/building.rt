use cp_term::{Cell, Cells, Name, Term};
use std::alloc::Global;
use std::test::Fail;

/// A cell of a term that is written out.
pub enum Part {
    Var(u32),
    Int(i64),
    Atom(&'static [u8]),
    Func(&'static [u8], u16),
}

fn cell_of(alloc: Global, part: &Part) -> Result<Cell, Fail> {
    match part {
        Part::Var(number) => Ok(Cell::Var(*number)),
        Part::Int(value) => Ok(Cell::Int(*value)),
        Part::Atom(name) => Ok(Cell::Atom(Name::of(alloc, name)?)),
        Part::Func(name, arity) => Ok(Cell::Func(Name::of(alloc, name)?, *arity)),
    }
}

pub fn cells_of(alloc: Global, parts: &[Part]) -> Result<Cells, Fail> {
    let mut cells = Cells::new(alloc);
    for part in parts {
        cells.push(cell_of(alloc, part)?)?;
    }
    Ok(cells)
}

pub fn term_of(alloc: Global, parts: &[Part]) -> Result<Term, Fail> {
    let cells = cells_of(alloc, parts)?;
    let term = Term::from_cells(cells)?;
    Ok(term)
}
