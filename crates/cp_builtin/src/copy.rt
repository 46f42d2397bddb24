ghost use Rattle.std.specs.Prelude.{◌<◌, length, IfOk};
ghost use Rattle.cp_heap.specs.State.{term, substitution, instance_at, Extends};
ghost use Rattle.cp_goal.specs.Builtins as rows;
ghost use Rattle.cp_builtin.specs.Ends.{HasEnded};

use crate::ended::Ended;
use crate::unified::unified;
use cp_heap::{Heap, Ref};
use std::alloc::{AllocError, Global};

/// `copy_term/2`.
pub(crate) fn copied(alloc: Global, heap: &mut Heap, x: Ref, copy: Ref) -> Result<Ended, AllocError>
    requires x { x.at < length heap.old.terms }
    requires copy { copy.at < length heap.old.terms }
    ensures ended { IfOk result (λ ended. HasEnded heap.new ended (rows.copied (instance_at heap.old x.at) (term heap.old copy.at) (substitution heap.old) heap.old.variables)) }
    ensures extends { Extends heap.old heap.new }
{
    let made = heap.copy(x)?;
    unified(alloc, heap, copy, made)
}
