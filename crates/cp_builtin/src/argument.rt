ghost use Rattle.std.specs.Prelude.{◌≡◌, ◌<◌, true, pos, ◌∷◌, [], length, IfOk};
ghost use Rattle.cp_term.specs.declared.cell.Cell.TheVariants.{Int as IntCell};
ghost use Rattle.cp_term.specs.Preorder.{is_terms};
ghost use Rattle.cp_heap.specs.State.{term, substitution, instance_at, Extends};
ghost use Rattle.cp_goal.specs.Builtins as rows;
ghost use Rattle.cp_builtin.specs.Ends.{HasEnded};

use crate::ended::Ended;
use crate::errors::{domain_error, instantiation_error, type_error};
use crate::unified::unified;
use cp_heap::{Heap, Look, Ref};
use std::alloc::{AllocError, Global};

/// `arg/3`.
pub(crate) fn argument(
    alloc: Global,
    heap: &mut Heap,
    index: Ref,
    whole: Ref,
    x: Ref,
) -> Result<Ended, AllocError>
    requires index { index.at < length heap.old.terms }
    requires whole { whole.at < length heap.old.terms }
    requires x { x.at < length heap.old.terms }
    ensures ended { IfOk result (λ ended. HasEnded heap.new ended (rows.argument_row (instance_at heap.old index.at) (instance_at heap.old whole.at) (term heap.old x.at) (substitution heap.old) heap.old.variables)) }
    ensures extends { Extends heap.old heap.new }
{
    match heap.look(index) {
        Look::Var(_, _) => instantiation_error(alloc, heap),
        Look::Int(number) => argument_of(alloc, heap, index, number, whole, x),
        Look::Atom => type_error(alloc, heap, b"integer", index),
        Look::Func(_) => type_error(alloc, heap, b"integer", index),
    }
}

/// The same, where the index is this number.
fn argument_of(
    alloc: Global,
    heap: &mut Heap,
    index: Ref,
    number: i64,
    whole: Ref,
    x: Ref,
) -> Result<Ended, AllocError>
    requires index { index.at < length heap.old.terms }
    requires whole { whole.at < length heap.old.terms }
    requires x { x.at < length heap.old.terms }
    requires number { instance_at heap.old index.at ≡ IntCell number ∷ [] }
    ensures ended { IfOk result (λ ended. HasEnded heap.new ended (rows.argument_of number (instance_at heap.old whole.at) (term heap.old x.at) (substitution heap.old) heap.old.variables)) }
    ensures extends { Extends heap.old heap.new }
{
    match heap.look(whole) {
        Look::Var(_, _) => instantiation_error(alloc, heap),
        Look::Int(_) => type_error(alloc, heap, b"compound", whole),
        Look::Atom => type_error(alloc, heap, b"compound", whole),
        Look::Func(_) => {
            if number < 0 {
                domain_error(alloc, heap, b"not_less_than_zero", index)
            } else {
                argument_at(alloc, heap, number as u64, whole, x)
            }
        }
    }
}

/// The same, of a compound, where the index is not negative.
fn argument_at(
    alloc: Global,
    heap: &mut Heap,
    number: u64,
    whole: Ref,
    x: Ref,
) -> Result<Ended, AllocError>
    requires whole { whole.at < length heap.old.terms }
    requires term { is_terms 1 (instance_at heap.old whole.at) ≡ true }
    requires x { x.at < length heap.old.terms }
    ensures ended { IfOk result (λ ended. HasEnded heap.new ended (rows.argument_at (pos number) (instance_at heap.old whole.at) (term heap.old x.at) (substitution heap.old) heap.old.variables)) }
    ensures extends { Extends heap.old heap.new }
{
    if number == 0 || number > 255 {
        return Ok(Ended::Fails);
    }
    match heap.argument(whole, number as u16 - 1) {
        Some(found) => unified(alloc, heap, x, found),
        None => Ok(Ended::Fails),
    }
}
