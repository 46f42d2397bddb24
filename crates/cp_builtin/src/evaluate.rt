ghost use Rattle.std.specs.Prelude.{◌≡◌, ◌<◌, length, IfOk, Err};
ghost use Rattle.cp_heap.specs.State.{term, substitution, Extends};
ghost use Rattle.cp_goal.specs.Evaluation.{Value, value_under, why_kind};
ghost use Rattle.cp_goal.specs.declared.why.Why.{Why};
ghost use Rattle.cp_goal.specs.Builtins as rows;
ghost use Rattle.cp_goal.specs.Builtins.{Raises};
ghost use Rattle.cp_arith.specs.Frames.{Evaluates};
ghost use Rattle.cp_builtin.specs.Ends.{HasEnded};

use crate::ended::Ended;
use crate::order::holds;
use crate::unified::unified_integer;
use cp_arith::{EvalError, eval};
use cp_goal::Relation;
use cp_heap::{Heap, Ref};
use std::alloc::{AllocError, Global};

/// `is/2`.
pub(crate) fn evaluated(
    alloc: Global,
    heap: &mut Heap,
    x: Ref,
    expression: Ref,
) -> Result<Ended, AllocError>
    requires x { x.at < length heap.old.terms }
    requires expression { expression.at < length heap.old.terms }
    ensures ended { IfOk result (λ ended. HasEnded heap.new ended (rows.evaluated (value_under (substitution heap.old) (term heap.old expression.at)) (term heap.old x.at) (substitution heap.old) heap.old.variables)) }
    ensures extends { Extends heap.old heap.new }
{
    match eval(alloc, heap, expression) {
        Ok(value) => unified_integer(alloc, heap, x, value),
        Err(error) => raised(heap, error),
    }
}

/// `=:=/2`, `</2` and their kin.
pub(crate) fn related(
    alloc: Global,
    heap: &mut Heap,
    relation: Relation,
    x: Ref,
    y: Ref,
) -> Result<Ended, AllocError>
    requires x { x.at < length heap.old.terms }
    requires y { y.at < length heap.old.terms }
    ensures ended { IfOk result (λ ended. HasEnded heap.new ended (rows.related relation (value_under (substitution heap.old) (term heap.old x.at)) (value_under (substitution heap.old) (term heap.old y.at)) (substitution heap.old) heap.old.variables)) }
    ensures extends { Extends heap.old heap.new }
{
    match eval(alloc, heap, x) {
        Ok(left) => match eval(alloc, heap, y) {
            Ok(right) => Ok(Ended::where_true(holds(relation, left.cmp(&right)))),
            Err(error) => raised(heap, error),
        },
        Err(error) => raised(heap, error),
    }
}

/// The error of an expression.
fn raised(heap: &mut Heap, error: EvalError) -> Result<Ended, AllocError>
    ensures ended { IfOk result (λ ended. (v : Value) → Evaluates (Err error) v → (why : Why) × (v ≡ Err why) × HasEnded heap.new ended (Raises (why_kind why))) }
    ensures extends { Extends heap.old heap.new }
{
    match error {
        EvalError::Raised(kind) => {
            let at = heap.import(&kind)?;
            Ok(Ended::Raises(at))
        }
        EvalError::NoMemory => Err(AllocError),
    }
}
