ghost use Rattle.std.specs.Prelude.{◌≤◌, ◌*◌, ◌^◌, IfOk};

use crate::lists::variables;
use cp_heap::{ExportError, Heap};
use cp_term::Term;
use std::alloc::{AllocError, Global};

/// Takes a list of 2,047 variables, of 4,095 cells, to a heap and back so many times, and counts the cells that came back.
pub(crate) fn export(alloc: Global, count: u32) -> Result<u64, AllocError>
    ensures { IfOk result (λ cells. cells ≤ 2 ^ 32 * count) }
{
    let term = variables(alloc)?;
    let mut cells = 0;
    for _ in 0..count {
        cells += size_back(alloc, &term)? as u64;
    }
    Ok(cells)
}

/// How many cells a term has that comes back from a heap of its own, or 0 where it is too large.
fn size_back(alloc: Global, term: &Term) -> Result<u32, AllocError> {
    let mut heap = Heap::new(alloc);
    let at = heap.import(term)?;
    match heap.export(at) {
        Ok(back) => Ok(back.size()),
        Err(ExportError::TooLarge) => Ok(0),
        Err(ExportError::NoMemory) => Err(AllocError),
    }
}
