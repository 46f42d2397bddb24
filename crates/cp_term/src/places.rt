ghost use Rattle.std.specs.Prelude.{◌≡◌, length, IfOk};
ghost use Rattle.cp_term.specs.CellRefs.{cells_at};
ghost use Rattle.cp_term.specs.TermGraph.{next_of, end_of, EndsFrom};

use crate::cell_ref::CellRef;
use std::alloc::{AllocError, Global};

/// Two terms, of which the second begins at `second`, with the place behind the term at each place.
#[derive(Clone, Copy, Drop)]
pub struct Graph<'a> {
    pub cells: &'a [CellRef<'a>],
    pub ends: &'a [usize],
    pub second: usize,
}

/// The place behind the term that begins at a place. There is none behind the last cell.
pub fn next_place(ends: &[usize], at: usize) -> usize
    ensures { result ≡ next_of ends.now at }
{
    if at < ends.len() { ends[at] } else { at }
}

/// The place behind `count` terms, of which the first begins at a place.
fn end_from(ends: &[usize], at: usize, count: u16) -> usize
    ensures { result ≡ end_of ends.now count at }
{
    let mut end = at;
    for _term in 0..count {
        end = next_place(ends, end);
    }
    end
}

/// For each place the place behind the term that begins there.
pub fn ends_of(alloc: Global, cells: &[CellRef<'_>]) -> Result<Vec<usize>, AllocError>
    ensures len { IfOk result (λ ends. length ends.items ≡ length (cells_at cells.now)) }
    ensures ends { IfOk result (λ ends. EndsFrom 0 (cells_at cells.now) ends.items) }
{
    let mut ends = vec![in alloc; 0; cells.len()]?;
    let mut at = cells.len();
    while at > 0 {
        at -= 1;
        let end = end_from(ends.as_slice(), at + 1, cells[at].arity());
        ends[at] = end;
    }
    Ok(ends)
}
