ghost use Rattle.std.specs.Prelude.{◌≡◌, ◌<◌, length, IfOk};
ghost use Rattle.cp_heap.specs.State.{term, substitution, instance_at, Extends};
ghost use Rattle.cp_goal.specs.Lists.{text_in, number_of};
ghost use Rattle.cp_goal.specs.Builtins.{number_codes_row, number_text, number_made};
ghost use Rattle.cp_builtin.specs.Ends.{HasEnded};

use crate::atom_codes::codes_of_integer;
use crate::ended::Ended;
use crate::errors::{instantiation_error, type_error};
use crate::text_errors::syntax_error;
use crate::unified::unified_integer;
use cp_heap::{Heap, Look, Ref};
use cp_lists::{TextError, number_of, text_of};
use std::alloc::{AllocError, Global};

/// `number_codes/2`.
pub(crate) fn number_codes(
    alloc: Global,
    heap: &mut Heap,
    number: Ref,
    list: Ref,
) -> Result<Ended, AllocError>
    requires number { number.at < length heap.old.terms }
    requires list { list.at < length heap.old.terms }
    ensures ended { IfOk result (λ ended. HasEnded heap.new ended (number_codes_row (text_in (instance_at heap.old list.at)) (term heap.old number.at) (term heap.old list.at) (substitution heap.old) heap.old.variables)) }
    ensures extends { Extends heap.old heap.new }
{
    let _mark = heap.mark();
    match text_of(alloc, heap, list) {
        Ok(text) => number_of_text(alloc, heap, number, text.as_slice()),
        Err(TextError::NoMemory) => Err(AllocError),
        Err(_) => codes_of_number(alloc, heap, number, list),
    }
}

/// Makes a term the number that a text spells.
fn number_of_text(
    alloc: Global,
    heap: &mut Heap,
    number: Ref,
    text: &[char],
) -> Result<Ended, AllocError>
    requires { number.at < length heap.old.terms }
    ensures ended { IfOk result (λ ended. HasEnded heap.new ended (number_made (number_of text.now) (term heap.old number.at) (substitution heap.old) heap.old.variables)) }
    ensures extends { Extends heap.old heap.new }
{
    match number_of(text) {
        Some(integer) => unified_integer(alloc, heap, number, integer),
        None => syntax_error(alloc, heap, b"number"),
    }
}

/// Makes a list the codes of a number.
fn codes_of_number(
    alloc: Global,
    heap: &mut Heap,
    number: Ref,
    list: Ref,
) -> Result<Ended, AllocError>
    requires number { number.at < length heap.old.terms }
    requires list { list.at < length heap.old.terms }
    ensures ended { IfOk result (λ ended. HasEnded heap.new ended (number_text (instance_at heap.old number.at) (term heap.old list.at) (substitution heap.old) heap.old.variables)) }
    ensures extends { Extends heap.old heap.new }
{
    match heap.look(number) {
        Look::Var(_, _) => instantiation_error(alloc, heap),
        Look::Int(integer) => codes_of_integer(alloc, heap, integer, list),
        Look::Atom => type_error(alloc, heap, b"integer", number),
        Look::Func(_) => type_error(alloc, heap, b"integer", number),
    }
}
