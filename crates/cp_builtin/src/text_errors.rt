ghost use Rattle.std.specs.Prelude.{IfOk};
ghost use Rattle.cp_heap.specs.State.{Extends};
ghost use Rattle.cp_goal.specs.Errors as kinds;
ghost use Rattle.cp_goal.specs.Builtins.{Raises};
ghost use Rattle.cp_builtin.specs.Ends.{HasEnded};

use crate::compound::{atom, with_one};
use crate::ended::Ended;
use cp_heap::Heap;
use std::alloc::{AllocError, Global};

/// A number is that of nothing that can be represented.
pub(crate) fn representation_error(
    alloc: Global,
    heap: &mut Heap,
    limit: &[u8],
) -> Result<Ended, AllocError>
    ensures ended { IfOk result (λ ended. HasEnded heap.new ended (Raises (kinds.representation_error limit.now))) }
    ensures extends { Extends heap.old heap.new }
{
    let limit = atom(alloc, heap, limit)?;
    let kind = with_one(alloc, heap, b"representation_error", limit)?;
    Ok(Ended::Raises(kind))
}

/// A text does not spell this.
pub(crate) fn syntax_error(
    alloc: Global,
    heap: &mut Heap,
    wanted: &[u8],
) -> Result<Ended, AllocError>
    ensures ended { IfOk result (λ ended. HasEnded heap.new ended (Raises (kinds.syntax_error wanted.now))) }
    ensures extends { Extends heap.old heap.new }
{
    let wanted = atom(alloc, heap, wanted)?;
    let kind = with_one(alloc, heap, b"syntax_error", wanted)?;
    Ok(Ended::Raises(kind))
}
