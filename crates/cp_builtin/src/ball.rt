ghost use Rattle.std.specs.Prelude.{◌≡◌, ◌<◌, length, codes, IfOk};
ghost use Rattle.cp_heap.specs.State.{State, term, substitution, instance_at, Extends};
ghost use Rattle.cp_goal.specs.Errors as kinds;
ghost use Rattle.cp_goal.specs.Builtins as definition;
ghost use Rattle.cp_goal.specs.Builtins.{End};
ghost use Rattle.cp_builtin.specs.Ends.{HasEnded, IsOutcome};

use crate::compound::{atom, with_one, with_two};
use crate::ended::Ended;
use crate::outcome::Outcome1;
use cp_heap::{ExportError, Heap, Ref};
use cp_term::{PredName, Term};
use std::alloc::{AllocError, Global};

/// The outcome of a goal: where it raises an error, the ball is made, with the goal as its context.
pub(crate) fn outcome_of(
    alloc: Global,
    heap: &mut Heap,
    name: &PredName,
    ended: Ended,
) -> Result<Outcome1, AllocError>
    requires { (end : End) × HasEnded heap.old ended end }
    ensures outcome { IfOk result (λ outcome. (end : End) → HasEnded heap.old ended end → IsOutcome heap.new name.now outcome end) }
    ensures extends { Extends heap.old heap.new }
{
    match ended {
        Ended::Succeeds => Ok(Outcome1::Succeeds),
        Ended::Fails => Ok(Outcome1::Fails),
        Ended::Raises(kind) => Ok(Outcome1::Raises(error_ball(alloc, heap, name, kind)?)),
    }
}

/// The ball of an error of this kind: the term `error(Kind, M:N/A)` with all bindings, its variables numbered 0, 1, 2, .. by
/// first occurrence (ISO/IEC 13211-1, 7.12.2). Where that has more than 4,096 cells it is `error(resource_error(term_size),
/// M:N/A)`.
pub fn error_ball(
    alloc: Global,
    heap: &mut Heap,
    context: &PredName,
    kind: Ref,
) -> Result<Term, AllocError>
    requires { kind.at < length heap.old.terms }
    ensures ball { IfOk result (λ ball. ball ≡ definition.ball (instance_at heap.old kind.at) (definition.context context.now.module context.now.name context.now.arity)) }
    ensures extends { Extends heap.old heap.new }
    ensures bindings { substitution heap.new ≡ substitution heap.old }
    ensures trail { heap.new.trail ≡ heap.old.trail }
    ensures variables { heap.new.variables ≡ heap.old.variables }
{
    let indicator = context_of(alloc, heap, context)?;
    let error = with_two(alloc, heap, b"error", kind, indicator)?;
    match heap.export(error) {
        Ok(ball) => Ok(ball),
        Err(ExportError::TooLarge) => too_large(alloc, heap, context),
        Err(ExportError::NoMemory) => Err(AllocError),
    }
}

/// The ball in place of one that has more than 4,096 cells.
fn too_large(alloc: Global, heap: &mut Heap, name: &PredName) -> Result<Term, AllocError>
    ensures ball { IfOk result (λ ball. ball ≡ definition.error_term (kinds.resource_error (codes "term_size")) (definition.context name.now.module name.now.name name.now.arity)) }
    ensures extends { Extends heap.old heap.new }
    ensures bindings { substitution heap.new ≡ substitution heap.old }
    ensures trail { heap.new.trail ≡ heap.old.trail }
    ensures variables { heap.new.variables ≡ heap.old.variables }
{
    let context = context_of(alloc, heap, name)?;
    let resource = atom(alloc, heap, b"term_size")?;
    let kind = with_one(alloc, heap, b"resource_error", resource)?;
    let error = with_two(alloc, heap, b"error", kind, context)?;
    match heap.export(error) {
        Ok(ball) => Ok(ball),
        Err(_) => Err(AllocError),
    }
}

/// The predicate as it stands in its errors: the term M:N/A.
pub fn context_of(alloc: Global, heap: &mut Heap, name: &PredName) -> Result<Ref, AllocError>
    ensures live { IfOk result (λ r. r.at < length heap.new.terms) }
    ensures term { IfOk result (λ r. term heap.new r.at ≡ definition.context name.now.module name.now.name name.now.arity) }
    ensures bindings { substitution heap.new ≡ substitution heap.old }
    ensures extends { Extends heap.old heap.new }
    ensures trail { heap.new.trail ≡ heap.old.trail }
    ensures variables { heap.new.variables ≡ heap.old.variables }
{
    let module = heap.atom(&name.module)?;
    let text = heap.atom(&name.name)?;
    let arity = heap.integer(name.arity as i64)?;
    let indicator = with_two(alloc, heap, b"/", text, arity)?;
    let context = with_two(alloc, heap, b":", module, indicator)?;
    Ok(context)
}
