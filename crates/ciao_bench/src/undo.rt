ghost use Rattle.std.specs.Prelude.{◌≡◌, ◌≤◌, ◌<◌, length, IfOk, OnOk};

use crate::lists::{integers, variables};
use cp_heap::{Heap, Ref};
use cp_unify::unify;
use std::alloc::{AllocError, Global};

/// Unifies a list of 2,047 variables with one of integers, each of 4,095 cells, so many times, takes the bindings back each
/// time, and counts how often they unified.
pub(crate) fn undo(alloc: Global, count: u32) -> Result<u64, AllocError>
    ensures { IfOk result (λ found. found ≤ count) }
{
    let mut heap = Heap::new(alloc);
    let left = heap.import(&variables(alloc)?)?;
    let right = heap.import(&integers(alloc)?)?;
    let mut found = 0;
    for _ in 0..count {
        if unified_and_back(alloc, &mut heap, left, right)? {
            found += 1;
        }
    }
    Ok(found)
}

/// Whether two terms unify. Their bindings are taken back.
fn unified_and_back(
    alloc: Global,
    heap: &mut Heap,
    left: Ref,
    right: Ref,
) -> Result<bool, AllocError>
    requires left { left.at < length heap.old.terms }
    requires right { right.at < length heap.old.terms }
    ensures { OnOk result (heap.new.terms ≡ heap.old.terms) }
{
    let mark = heap.mark();
    let unified = unify(alloc, heap, left, right)?;
    heap.undo_to(mark);
    Ok(unified)
}
