use cp_term::{Cell, Cells, Name, PredName, Term};
use std::alloc::Global;
use std::test::Fail;

/// A cell of a term that is written out.
#[derive(Clone, Copy, Drop)]
pub enum Part {
    Var(u32),
    Int(i64),
    Atom(&'static [u8]),
    Func(&'static [u8], u16),
}

fn cell_of(alloc: Global, part: &Part) -> Result<Cell, Fail> {
    match part {
        Part::Var(number) => Ok(Cell::Var(*number)),
        Part::Int(value) => Ok(Cell::Int(*value)),
        Part::Atom(name) => Ok(Cell::Atom(Name::of(alloc, name)?)),
        Part::Func(name, arity) => Ok(Cell::Func(Name::of(alloc, name)?, *arity)),
    }
}

pub fn push_parts(alloc: Global, cells: &mut Cells, parts: &[Part]) -> Result<(), Fail> {
    for part in parts {
        cells.push(cell_of(alloc, part)?)?;
    }
    Ok(())
}

pub fn term_of(alloc: Global, parts: &[Part]) -> Result<Term, Fail> {
    let mut cells = Cells::new(alloc);
    push_parts(alloc, &mut cells, parts)?;
    let term = Term::from_cells(cells)?;
    Ok(term)
}

/// `m:NAME/ARITY`
pub fn pred_name(alloc: Global, name: &[u8], arity: u16) -> Result<PredName, Fail> {
    Ok(PredName {
        module: Name::of(alloc, b"m")?,
        name: Name::of(alloc, name)?,
        arity,
    })
}
