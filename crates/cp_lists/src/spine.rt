ghost use Rattle.std.specs.Prelude.{◌≡◌, ◌<◌, length, IfOk};
ghost use Rattle.cp_heap.specs.State.{instance_at};
ghost use Rattle.cp_goal.specs.Lists.{spine};
ghost use Rattle.cp_lists.specs.Places.{spine_at, IsLiveSpine};

use crate::step::{Step, step_at};
use cp_heap::{Heap, Ref, Refs};
use std::alloc::{AllocError, Global};

/// What a term is as a list.
#[derive(Debug, Drop)]
pub enum Spine {
    /// A list of the terms at these places.
    Proper(Refs),
    /// A beginning of a list, whose end is a variable that is not bound.
    Partial,
    /// No list.
    Improper,
}

impl Spine {
    /// What the term at a place is as a list (ISO/IEC 13211-1, 6.3.5). It takes time in the number of elements, and no
    /// stack.
    pub fn of(alloc: Global, heap: &Heap, at: Ref) -> Result<Spine, AllocError>
        requires { at.at < length heap.now.terms }
        ensures told { IfOk result (λ told. spine (instance_at heap.now at.at) ≡ spine_at heap.now told) }
        ensures live { IfOk result (λ told. IsLiveSpine heap.now told) }
    {
        let mut elements = Refs::new(alloc);
        let mut tail = at;
        'tails: loop {
            match step_at(heap, tail) {
                Step::Element(head, behind) => {
                    elements.push(head)?;
                    tail = behind;
                }
                Step::End => return Ok(Spine::Proper(elements)),
                Step::Open => return Ok(Spine::Partial),
                Step::Other => return Ok(Spine::Improper),
            }
        }
    }
}
