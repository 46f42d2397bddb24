ghost use Rattle.std.specs.Prelude.{◌≡◌, ℕ, List, ◌++◌, IfOk, OnOk};
ghost use Rattle.cp_request.specs.Shapes.{IsPlace};
ghost use Rattle.cp_request.specs.Parts.{is_body_at, places_of, can_be_body};

use crate::parts::Parts;
use cp_heap::{Heap, Ref, Refs};
use std::alloc::{AllocError, Global};

/// Whether a term in the place of a goal is a body (ISO/IEC 13211-1, 7.6.2), which is the same for every module that sees
/// it.
pub fn is_body(alloc: Global, heap: &Heap, at: Ref) -> Result<bool, AllocError>
    requires { IsPlace heap.now at }
    ensures { IfOk result (λ answer. (m : List ℕ) → answer ≡ is_body_at heap.now m at) }
{
    let mut left = Refs::new(alloc);
    left.push(at)?;
    'parts: loop {
        match left.pop() {
            None => return Ok(true),
            Some(next) => {
                let parts = Parts::of(heap, next);
                if !can_be_body(parts) {
                    return Ok(false);
                }
                push_places(&mut left, parts)?;
            }
        }
    }
}

fn can_be_body(parts: Parts) -> bool
    ensures { result ≡ can_be_body parts }
{
    match parts {
        Parts::NoGoal => false,
        Parts::Goal => true,
        Parts::One(_) => true,
        Parts::Two(_, _) => true,
    }
}

/// Puts the parts that are left to look at on a stack.
fn push_places(left: &mut Refs, parts: Parts) -> Result<(), AllocError>
    ensures { OnOk result (left.new ≡ left.old ++ places_of parts) }
{
    match parts {
        Parts::NoGoal => Ok(()),
        Parts::Goal => Ok(()),
        Parts::One(part) => left.push(part),
        Parts::Two(first, second) => {
            left.push(first)?;
            left.push(second)
        }
    }
}
