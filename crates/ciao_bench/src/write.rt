ghost use Rattle.std.specs.Prelude.{◌≤◌, ◌*◌, ◌^◌, IfOk};

use crate::pieces::{named, term_of};
use cp_ops::OpTable;
use cp_term::{Cell, Cells, Term};
use cp_write::writeq_text;
use std::alloc::{AllocError, Global};

/// Writes a term of 14 cells so many times, and counts the bytes that were written: 30 each time.
pub(crate) fn write(alloc: Global, count: u32) -> Result<u64, AllocError>
    ensures { IfOk result (λ bytes. bytes ≤ 2 ^ 32 * count) }
{
    let ops = OpTable::standard(alloc)?;
    let term = clause(alloc)?;
    let mut bytes = 0;
    for _ in 0..count {
        bytes += writeq_text(alloc, &term, &ops)?.len() as u64;
    }
    Ok(bytes)
}

/// p(X,[a|T]):-X>1,'Q'(X- -1)
fn clause(alloc: Global) -> Result<Term, AllocError> {
    let mut cells = Cells::new(alloc);
    cells.push(Cell::Func(named(alloc, b":-")?, 2))?;
    cells.push(Cell::Func(named(alloc, b"p")?, 2))?;
    cells.push(Cell::Var(0))?;
    cells.push(Cell::Func(named(alloc, b".")?, 2))?;
    cells.push(Cell::Atom(named(alloc, b"a")?))?;
    cells.push(Cell::Var(1))?;
    cells.push(Cell::Func(named(alloc, b",")?, 2))?;
    cells.push(Cell::Func(named(alloc, b">")?, 2))?;
    cells.push(Cell::Var(0))?;
    cells.push(Cell::Int(1))?;
    cells.push(Cell::Func(named(alloc, b"Q")?, 1))?;
    cells.push(Cell::Func(named(alloc, b"-")?, 2))?;
    cells.push(Cell::Var(0))?;
    cells.push(Cell::Int(-1))?;
    term_of(cells)
}
