ghost use Rattle.std.specs.Prelude.{◌≡◌, ◌<◌, length, MatchResult, Ok};
ghost use Rattle.cp_arith.specs.Frames.{value_at, Evaluates, StopsAt};

use crate::enter::enter;
use crate::frame::Frames;
use crate::leave::leave;
use crate::now::Now;
use crate::stop::Stop;
use cp_heap::{Heap, Ref};
use cp_term::Term;
use std::alloc::Global;

/// Why an expression has no value.
#[derive(Debug, Drop)]
pub enum EvalError {
    /// It raises an error of this kind.
    Raised(Term),
    NoMemory,
}

/// The value of an expression on the heap. Operands are evaluated from left to right, without recursion. It takes time in
/// the number of cells that the expression has under the bindings.
pub fn eval(alloc: Global, heap: &Heap, at: Ref) -> Result<i64, EvalError>
    requires { at.at < length heap.now.terms }
    ensures { Evaluates result (value_at heap.now at.at) }
{
    match value_of(alloc, heap, at) {
        Ok(value) => Ok(value),
        Err(Stop::NoMemory) => Err(EvalError::NoMemory),
        Err(Stop::NoValue(why)) => match why.kind(alloc) {
            Ok(kind) => Err(EvalError::Raised(kind)),
            Err(_) => Err(EvalError::NoMemory),
        },
    }
}

fn value_of(alloc: Global, heap: &Heap, at: Ref) -> Result<i64, Stop>
    requires { at.at < length heap.now.terms }
    ensures { MatchResult result (λ value. value_at heap.now at.at ≡ Ok value) (λ stop. StopsAt stop (value_at heap.now at.at)) }
{
    let mut frames = Frames::new(alloc);
    let mut now = Now::At(at);
    'walk: loop {
        match now {
            Now::At(place) => {
                now = enter(heap, place, &mut frames)?;
            }
            Now::Behind(value) => {
                let Some(frame) = frames.pop() else {
                    return Ok(value);
                };
                now = leave(frame, value, &mut frames)?;
            }
        }
    }
}
