ghost use Rattle.std.specs.Prelude.{◌≤◌, ◌<◌, length, IfOk, IfSome};

use crate::lists::longer;
use cp_heap::{Heap, Ref};
use cp_unify::unify;
use std::alloc::{AllocError, Global};

/// Appends so many elements to a list whose end is a variable, one by one through unification, and counts those that were
/// appended.
pub(crate) fn append(alloc: Global, count: u32) -> Result<u64, AllocError>
    ensures { IfOk result (λ appended. appended ≤ count) }
{
    let mut heap = Heap::new(alloc);
    let mut last = heap.import(&longer(alloc, 0)?)?;
    for appended in 0..count {
        match next_cell(alloc, &mut heap, last, appended as i64)? {
            Some(cell) => {
                last = cell;
            }
            None => return Ok(appended as u64),
        }
    }
    Ok(count as u64)
}

/// Makes a new list cell the tail of this one, and gives it.
fn next_cell(
    alloc: Global,
    heap: &mut Heap,
    cell: Ref,
    element: i64,
) -> Result<Option<Ref>, AllocError>
    requires { cell.at < length heap.old.terms }
    ensures { IfOk result (λ next. IfSome next (λ r. r.at < length heap.new.terms)) }
{
    let Some(tail) = heap.argument(cell, 1) else {
        return Ok(None);
    };
    let next = heap.import(&longer(alloc, element)?)?;
    if unify(alloc, heap, tail, next)? {
        Ok(Some(next))
    } else {
        Ok(None)
    }
}
